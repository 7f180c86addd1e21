//! Clauses of earlier steps.

ghost use Rattle.std.specs.Prelude.{◌≡◌, IfOk};
ghost use Rattle.std.specs.Option.{option_copied};
ghost use Rattle.proof_steps.specs.Closing.{at_step, at_steps};

use crate::steps::Step;
use sqlite_items::Items;
use std::alloc::{AllocError, Global};
use term_base::Clause;

/// The clause of an earlier step; None where there is no step of this number.
pub(crate) fn premise(before: &[Step], number: u32) -> Option<&Clause>
    ensures { option_copied result ≡ at_step before.now number }
{
    match before.get(number as usize) {
        Some(step) => Some(&step.clause),
        None => None,
    }
}

/// The clauses of several earlier steps; None where one of them isn't there.
pub(crate) fn premises(
    alloc: Global,
    before: &[Step],
    numbers: &[u32],
) -> Result<Option<Items<Clause>>, AllocError>
    ensures { IfOk result (λ o. o ≡ at_steps before.now numbers.now) }
{
    let mut all = Items::new(alloc);
    for number in numbers {
        match premise(before, *number) {
            Some(clause) => all.push(clause.copy(alloc)?)?,
            None => return Ok(None),
        }
    }
    Ok(Some(all))
}
