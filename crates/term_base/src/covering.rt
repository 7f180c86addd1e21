//! Whether a clause covers another one.

ghost use Rattle.std.specs.Prelude.{◌≡◌, ◌↔◌, IsTrue, IfOk, map};
ghost use Rattle.std.specs.List.{list_all};
ghost use Rattle.term_base.specs.Lits.{lit, lits};
ghost use Rattle.term_base.specs.Redundancy.{CoversBy};
ghost use Rattle.term_base.specs.Substitution.{image};
ghost use Rattle.term_base.specs.CoverTest as test;

use crate::applying::apply_clause;
use crate::clauses::{Clause, Literal};
use crate::purities::is_simple;
use crate::substs::Subst;
use crate::symbols::Symbol;
use std::alloc::{AllocError, Global};

fn is_among(l: &Literal, literals: &[Literal]) -> bool
    ensures { result ≡ test.is_among (map lit literals.now) (lit l.now) }
{
    for m in literals {
        if *l == *m {
            return true;
        }
    }
    false
}

fn are_covered(ls: &[Literal], k: &[Literal]) -> bool
    ensures { result ≡ list_all (test.is_covered (map lit k.now)) (map lit ls.now) }
{
    for l in ls {
        if !is_among(l, k) && !l.differs_from_itself() {
            return false;
        }
    }
    true
}

/// Whether a clause covers another one by a substitution: the substitution is simple, and each literal of
/// `e` under it is a literal of `k` or is `t != t`.
pub fn covers_by(
    alloc: Global,
    signature: &[Symbol],
    s: &Subst,
    e: &Clause,
    k: &Clause,
) -> Result<bool, AllocError>
    ensures { IfOk result (λ yes. IsTrue yes ↔ CoversBy signature.now (image s.now) (lits e.now) (lits k.now)) }
{
    if !is_simple(signature, s) {
        return Ok(false);
    }
    let instance = apply_clause(alloc, signature, e, s)?;
    Ok(are_covered(instance.literals.as_slice(), k.literals.as_slice()))
}
