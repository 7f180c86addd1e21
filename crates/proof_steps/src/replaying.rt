//! The replay of a derivation.

ghost use Rattle.std.specs.Prelude.{◌≡◌, ◌↔◌, ◌+◌, ◌<◌, ◌≤◌, ◌^◌, ℕ, take, length, IfOk};
ghost use Rattle.proof_steps.specs.declared.steps.Replay.TheVariants.{Verified, Refused};
ghost use Rattle.proof_steps.specs.Standing.{defines, next_symbol};
ghost use Rattle.proof_steps.specs.Derivations as spec;

use crate::closing::is_empty_clause;
use crate::standing::{defined_by, stands_at};
use crate::steps::{Derivation, Replay, Step};
use std::alloc::{AllocError, Global};
use term_base::Prepared;

/// The refusal of a number; one that doesn't fit counts as want of memory.
fn refused(number: usize) -> Result<Replay, AllocError>
    ensures { IfOk result (λ r. r ≡ Refused number) }
{
    let Ok(step) = u32::try_from(number) else {
        return Err(AllocError);
    };
    Ok(Replay::Refused { step })
}

/// Whether there is a last step, and its clause is empty.
fn ends_empty(steps: &[Step]) -> bool
    ensures { result ≡ spec.ends_empty steps.now }
{
    if steps.is_empty() {
        return false;
    }
    match steps.get(steps.len() - 1) {
        Some(step) => is_empty_clause(&step.clause),
        None => false,
    }
}

/// What replay finds where all steps stand.
fn concluded(prepared: &Prepared, steps: &[Step]) -> Result<Replay, AllocError>
    requires { spec.StandBelow prepared.now steps.now (length steps.now) }
    ensures { IfOk result (spec.IsReplay prepared.now steps.now) }
{
    if ends_empty(steps) {
        return Ok(Replay::Verified);
    }
    refused(steps.len())
}

/// Whether the step of a number stands on those before it, where `next` symbols are there.
fn stands_next(
    alloc: Global,
    prepared: &Prepared,
    steps: &[Step],
    i: usize,
    next: usize,
) -> Result<bool, AllocError>
    requires within { i < length steps.now }
    requires next { next ≡ next_symbol prepared.now (take i steps.now) }
    requires room { next + 1 < 2 ^ 64 }
    ensures { IfOk result (λ yes. yes ≡ spec.stands_on_earlier prepared.now steps.now i) }
{
    stands_at(alloc, prepared, &steps[..i], next, &steps[i])
}

/// How many symbols are there behind the step of a number, where `next` are there before it.
fn next_after(steps: &[Step], i: usize, next: usize) -> usize
    requires within { i < length steps.now }
    requires room { next + 1 < 2 ^ 64 }
    ensures value { result + defines (take i steps.now) ≡ next + defines (take (i + 1) steps.now) }
    ensures bound { result ≤ next + 1 }
{
    next + defined_by(&steps[i].rule)
}

/// Steps one after the other, with the number of symbols that are there.
fn found(alloc: Global, prepared: &Prepared, steps: &[Step]) -> Result<Replay, AllocError>
    ensures { IfOk result (spec.IsReplay prepared.now steps.now) }
{
    let symbols = prepared.symbols.as_slice();
    let mut next = symbols.len();
    for i in 0..steps.len() {
        if !stands_next(alloc, prepared, steps, i, next)? {
            return refused(i);
        }
        next = next_after(steps, i, next);
    }
    concluded(prepared, steps)
}

/// Replays a derivation over the clauses of a file, without search. Verified exactly where each step stands
/// on earlier ones and the last clause is empty; else the refusal names the first step that doesn't stand, or
/// the number of steps where all stand. Nothing is assumed of the derivation: numbers of steps, clauses,
/// literals, places and symbols that aren't there, clauses and substitutions that aren't well sorted and
/// symbols that were used make their step one that doesn't stand. The clauses and symbols are those of
/// `prepared`, whatever the derivation says of `ordinary`. A number of a step past 2^32 - 1 counts as want of
/// memory.
pub fn replay(alloc: Global, prepared: &Prepared, d: &Derivation) -> Result<Replay, AllocError>
    ensures verified { IfOk result (λ r. (r ≡ Verified) ↔ spec.Derives prepared.now d.now.steps) }
    ensures refused { IfOk result (λ r. (n : ℕ) →
        (r ≡ Refused n) ↔ spec.IsFirstFault prepared.now d.now.steps n) }
{
    found(alloc, prepared, d.steps.as_slice())
}
