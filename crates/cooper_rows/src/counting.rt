//! What is counted on the way, and why a call that counts gives no value.

ghost use Rattle.std.specs.Prelude.{◌≡◌, ◌+◌, [], ⊤, unsigned_abs, IfOk, IfErr};
ghost use Rattle.cooper_rows.specs.declared.counting.BudgetError.TheVariants.{Memory};
ghost use Rattle.cooper_rows.specs.Counted.{Counted};

use lin_base::ArithmeticError;
use std::alloc::{AllocError, AllocFailed};
use thiserror::Error;

/// Why a call that counts rows and nodes gives no value.
#[derive(Clone, Copy, Debug, PartialEq, Eq, Error)]
pub enum BudgetError {
    /// Memory ran out, or a list would be longer than any is.
    #[error("out of memory")]
    Memory,
    /// A number that is formed leaves the range of `i128`.
    #[error("a number leaves the range")]
    Wide,
    /// There are more rows and nodes than the limit.
    #[error("more rows and nodes than the limit")]
    Spent,
}

impl From<AllocError> for BudgetError {
    ghost use Rattle.std.specs.Prelude.{◌≡◌};
    ghost use Rattle.cooper_rows.specs.declared.counting.BudgetError.TheVariants.{Memory};

    ghost from_gives = { λ _ e. e ≡ Memory };

    fn from(_error: AllocError) -> BudgetError {
        BudgetError::Memory
    }
}

impl<T: Drop> From<AllocFailed<T>> for BudgetError {
    ghost use Rattle.std.specs.Prelude.{◌≡◌};
    ghost use Rattle.cooper_rows.specs.declared.counting.BudgetError.TheVariants.{Memory};

    ghost from_gives = { λ _ e. e ≡ Memory };

    fn from(_error: AllocFailed<T>) -> BudgetError {
        BudgetError::Memory
    }
}

impl From<ArithmeticError> for BudgetError {
    ghost use Rattle.std.specs.Prelude.{◌≡◌};
    ghost use Rattle.cooper_rows.specs.Counted.{of_arithmetic};

    ghost from_gives = { λ a e. e ≡ of_arithmetic a };

    fn from(error: ArithmeticError) -> BudgetError {
        match error {
            ArithmeticError::Memory => BudgetError::Memory,
            ArithmeticError::Wide(_) => BudgetError::Wide,
        }
    }
}

/// Counts rows or nodes. Spent where there are more than the room that is left.
pub fn take(room: &mut u64, count: &i128) -> Result<(), BudgetError>
    ensures { Counted result room.old room.new (unsigned_abs count.now) [] (λ _. ⊤) }
{
    let count = count.unsigned_abs();
    if count > u128::from(*room) {
        return Err(BudgetError::Spent);
    }
    *room -= count as u64;
    Ok(())
}

/// A count as a length. Memory where it exceeds every length.
pub fn length_of(count: &i128) -> Result<usize, BudgetError>
    ensures value { IfOk result (λ n. n ≡ unsigned_abs count.now) }
    ensures memory { IfErr result (λ e. e ≡ Memory) }
{
    let length = count.unsigned_abs();
    if length > usize::MAX as u128 {
        return Err(BudgetError::Memory);
    }
    Ok(length as usize)
}

/// The number that comes `count` later. Memory where no `u32` is so great.
pub fn number_after(number: u32, count: usize) -> Result<u32, BudgetError>
    ensures value { IfOk result (λ n. n ≡ number + count) }
    ensures memory { IfErr result (λ e. e ≡ Memory) }
{
    let after = u128::from(number) + count as u128;
    if after > u128::from(u32::MAX) {
        return Err(BudgetError::Memory);
    }
    Ok(after as u32)
}
