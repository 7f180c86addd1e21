//! What a view gives.

ghost use Rattle.std.specs.Prelude.{◌≡◌};
ghost use Rattle.bg_view.specs.declared.viewing.ViewError.TheVariants.{Memory, Wide as TooWide};

use lin_base::{Pool, Wide};
use sqlite_items::Items;
use std::alloc::{AllocError, AllocFailed};

/// The pool of background clauses.
#[derive(Debug, Drop)]
pub struct Viewed {
    /// The symbol numbers of the parameters, ascending. The parameter `i` stands for the symbol
    /// `symbols[i]`.
    pub symbols: Items<u32>,
    /// The pool.
    pub pool: Pool,
}

/// The first sum or product of a view that leaves the range.
#[derive(Clone, Copy, Debug, PartialEq, Eq)]
pub struct WideAt {
    /// The number of the clause that it was formed for, from 0.
    pub clause: u32,
    /// The operation and its operands.
    pub wide: Wide,
}

/// Why there is no view.
#[derive(Clone, Copy, Debug, PartialEq, Eq)]
pub enum ViewError {
    /// Memory ran out, or there are more unknowns or clauses than a `u32` counts.
    Memory,
    /// A number leaves the range.
    Wide(WideAt),
}

impl From<AllocError> for ViewError {
    ghost from_gives = { λ _ e. e ≡ Memory };

    fn from(_error: AllocError) -> ViewError {
        ViewError::Memory
    }
}

impl<T: Drop> From<AllocFailed<T>> for ViewError {
    ghost from_gives = { λ _ e. e ≡ Memory };

    fn from(_error: AllocFailed<T>) -> ViewError {
        ViewError::Memory
    }
}

impl From<WideAt> for ViewError {
    ghost from_gives = { λ w e. e ≡ TooWide w };

    fn from(wide: WideAt) -> ViewError {
        ViewError::Wide(wide)
    }
}
