//! The first sum or product that leaves the range of `i128`, and the errors of calls that form
//! sums.

ghost use Rattle.std.specs.Prelude.{◌≡◌};
ghost use Rattle.lin_base.specs.declared.wides.ArithmeticError.TheVariants.{Memory, Wide as TooWide};

use std::alloc::{AllocError, AllocFailed};

/// A sum or a product.
#[derive(Clone, Copy, Debug, PartialEq, Eq)]
pub enum Op {
    /// `left + right`
    Add,
    /// `left * right`
    Mul,
}

/// A sum or product of two numbers whose result is below -2^127 or at least 2^127.
#[derive(Clone, Copy, Debug, PartialEq, Eq)]
pub struct Wide {
    /// The operation.
    pub op: Op,
    /// Of a sum the number that was formed first, of a product the multiplier.
    pub left: i128,
    /// The other number.
    pub right: i128,
}

/// Why a call that forms numbers gives no value.
#[derive(Clone, Copy, Debug, PartialEq, Eq)]
pub enum ArithmeticError {
    /// Memory ran out.
    Memory,
    /// The first sum or product, in the order of computing, that leaves the range.
    Wide(Wide),
}

impl From<AllocError> for ArithmeticError {
    ghost from_gives = { λ _ e. e ≡ Memory };

    fn from(_error: AllocError) -> ArithmeticError {
        ArithmeticError::Memory
    }
}

impl<T: Drop> From<AllocFailed<T>> for ArithmeticError {
    ghost from_gives = { λ _ e. e ≡ Memory };

    fn from(_error: AllocFailed<T>) -> ArithmeticError {
        ArithmeticError::Memory
    }
}

impl From<Wide> for ArithmeticError {
    ghost from_gives = { λ w e. e ≡ TooWide w };

    fn from(wide: Wide) -> ArithmeticError {
        ArithmeticError::Wide(wide)
    }
}
