//! Lists of clauses, joined pairwise.

ghost use Rattle.std.specs.Prelude.{◌≡◌, ◌++◌, ◌∷◌, [], map, OnOk, IfOk, IsTrue, ◌↔◌, if◌then◌else◌};
ghost use Rattle.normal_form.specs.Cnf.{join};

use crate::disjunctions::Disjunction;
use crate::literals::Clauses;
use std::alloc::{AllocError, Global};

/// Each clause of the first list with each of the second; the first runs slowest. Where the first list has one clause,
/// the literals of the second are moved, and not copied. Where the second is the empty clause alone, the first is the
/// answer as it is.
pub(crate) fn join(alloc: Global, left: Clauses, right: Clauses) -> Result<Clauses, AllocError>
    ensures { IfOk result (λ all. all.items ≡ join left.items right.items) }
{
    let mut left = left;
    if is_one_empty(right.as_slice()) {
        return Ok(left);
    }
    if left.len() != 1 {
        return join_each(alloc, left, right.as_slice());
    }
    match left.pop() {
        Some(clause) => join_before(alloc, clause, right),
        None => Ok(left),
    }
}

/// Whether these are one clause, and that without literals.
fn is_one_empty(clauses: &[Disjunction]) -> bool
    ensures { IsTrue result ↔ (clauses.now ≡ [] ∷ []) }
{
    clauses.len() == 1 && clauses[0].is_empty()
}

/// A clause with each of a list behind it. The clause is copied for all but the last.
fn join_before(alloc: Global, clause: Disjunction, right: Clauses) -> Result<Clauses, AllocError>
    ensures { IfOk result (λ all. all.items ≡ map (λ more. clause ++ more) right.items) }
{
    if clause.is_empty() {
        return Ok(right);
    }
    let mut right = right;
    let Some(last) = right.pop() else {
        return Ok(right);
    };
    let mut all = copies_before(alloc, &clause, right)?;
    all.push(clause.followed_by(last)?)?;
    Ok(all)
}

/// Copies of a clause with each of a list behind it.
fn copies_before(alloc: Global, clause: &Disjunction, right: Clauses) -> Result<Clauses, AllocError>
    ensures { IfOk result (λ all. all.items ≡ map (λ more. clause.now ++ more) right.items) }
{
    let mut all = Vec::new(alloc);
    for more in right {
        all.push(clause.copy(alloc)?.followed_by(more)?)?;
    }
    Ok(all)
}

/// Each clause of the first list with copies of each of the second; the first runs slowest.
fn join_each(alloc: Global, left: Clauses, right: &[Disjunction]) -> Result<Clauses, AllocError>
    ensures { IfOk result (λ all. all.items ≡ join left.items right.now) }
{
    let mut all = Vec::new(alloc);
    for clause in left {
        join_one(alloc, clause, right, &mut all)?;
    }
    Ok(all)
}

/// The two lists joined, or one after the other.
pub(crate) fn disjoined(
    alloc: Global,
    joined: bool,
    left: Clauses,
    right: Clauses,
) -> Result<Clauses, AllocError>
    ensures { IfOk result
        (λ all. all.items ≡ (if joined then join left.items right.items else left.items ++ right.items)) }
{
    let mut left = left;
    let mut right = right;
    if joined {
        return join(alloc, left, right);
    }
    left.append(&mut right)?;
    Ok(left)
}

/// Adds a clause with each of a list. The clause is copied for all but the last.
fn join_one(
    alloc: Global,
    clause: Disjunction,
    right: &[Disjunction],
    all: &mut Clauses,
) -> Result<(), AllocError>
    ensures { OnOk result (all.new.items ≡ all.old.items ++ map (λ more. clause ++ more) right.now) }
{
    let Some((last, others)) = right.split_last() else {
        return Ok(());
    };
    for more in others {
        all.push(clause.copy(alloc)?.with_copies(alloc, more)?)?;
    }
    all.push(clause.with_copies(alloc, last)?)?;
    Ok(())
}
