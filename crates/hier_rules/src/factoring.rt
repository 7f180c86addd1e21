//! Factoring of two equations of a clause.

ghost use Rattle.std.specs.Prelude.{◌≡◌, ℕ, true, List, MatchOption, IfOk, IfSome};
ghost use Rattle.term_base.specs.Known.{is_known_clause, KnownImages};
ghost use Rattle.term_base.specs.Lits.{clause_occurs, lits, Lit};
ghost use Rattle.term_base.specs.Substitution.{image};
ghost use Rattle.hier_rules.specs.Admitted.{AdmitsFactoring};
ghost use Rattle.hier_rules.specs.Fires.{Factors};
ghost use Rattle.hier_rules.specs.Conclusions.{IsConclusion, ChangesNothing, GivesNothing, Keeps, UnifiesEquations, NumbersOne};

use crate::conditions::{other_side, replaces_by};
use crate::heads::heads_meet;
use crate::inferences::Fired;
use crate::literals::{equation_at, literal_at, put_literal};
use crate::unifying::unify_terms;
use std::alloc::{AllocError, Global};
use term_base::laws::pure_stays_pure;
use term_base::{Clause, Literal, Side, Subst, Symbol, apply_clause, is_background, side_of};
use term_order::laws::{above_stays, maximal_before};

/// The conclusion of a factoring, where this instance of its premise admits it.
fn factored(
    alloc: Global,
    signature: &[Symbol],
    c: Clause,
    first: u32,
    first_side: Side,
    second: u32,
    second_side: Side,
) -> Result<Option<Clause>, AllocError>
    ensures { IfOk result (λ o. MatchOption o
        ((k : List Lit) → AdmitsFactoring signature.now (lits c) first first_side second second_side k → ⊥)
        (λ k. AdmitsFactoring signature.now (lits c) first first_side second second_side (lits k))) }
{
    let l = match literal_at(&c, first) {
        Some(l) => l,
        None => return Ok(None),
    };
    let m = match literal_at(&c, second) {
        Some(m) => m,
        None => return Ok(None),
    };
    if !replaces_by(signature, &c, first, first_side, l) {
        return Ok(None);
    }
    let r = other_side(l, first_side).copy(alloc)?;
    let t = other_side(m, second_side).copy(alloc)?;
    let mut k = c;
    put_literal(&mut k, second, Literal::Differ(r, t));
    Ok(Some(k))
}

/// What fires by a most general substitution of the premise.
fn factoring_by(
    alloc: Global,
    signature: &[Symbol],
    first: u32,
    first_side: Side,
    second: u32,
    second_side: Side,
    c: &Clause,
    s: Subst,
) -> Result<Option<Fired>, AllocError>
    requires { UnifiesEquations signature.now (lits c.now) first first_side second second_side (image s) }
    ensures conclusion { IfOk result (λ o. MatchOption o
        (GivesNothing signature.now (λ s1 s2 k. Factors signature.now (lits c.now) first first_side second second_side s1 k))
        (λ f. IsConclusion signature.now (λ s1 s2 k. Factors signature.now (lits c.now) first first_side second second_side s1 k)
        (image f.s1) (image f.s2) (lits f.clause))) }
    ensures substitution { IfOk result (λ o. IfSome o (λ f. f.s1 ≡ s)) }
    ensures second { IfOk result (λ o. IfSome o (λ f. ChangesNothing (image f.s2))) }
{
    pure_stays_pure();
    above_stays();
    maximal_before();
    let instance = apply_clause(alloc, signature, c, &s)?;
    match factored(
        alloc,
        signature,
        instance,
        first,
        first_side,
        second,
        second_side,
    )? {
        Some(clause) => Ok(Some(Fired {
            s1: s,
            s2: Subst::empty(alloc),
            clause,
        })),
        None => Ok(None),
    }
}

/// What fires for a factoring of the named sides of two equations of `c`. None exactly where nothing does.
pub(crate) fn factoring(
    alloc: Global,
    signature: &[Symbol],
    first: u32,
    first_side: Side,
    second: u32,
    second_side: Side,
    c: &Clause,
) -> Result<Option<Fired>, AllocError>
    ensures conclusion { IfOk result (λ o. MatchOption o
        (GivesNothing signature.now (λ s1 s2 k. Factors signature.now (lits c.now) first first_side second second_side s1 k))
        (λ f. IsConclusion signature.now (λ s1 s2 k. Factors signature.now (lits c.now) first first_side second second_side s1 k)
        (image f.s1) (image f.s2) (lits f.clause))) }
    ensures numbered { IfOk result (λ o. IfSome o (λ f. NumbersOne (lits c.now) (image f.s1))) }
    ensures others { IfOk result (λ o. IfSome o (λ f. Keeps (λ v. clause_occurs v (lits c.now)) (image f.s1))) }
    ensures known { IfOk result (λ o. IfSome o (λ f. (n : ℕ) → is_known_clause n (lits c.now) ≡ true → KnownImages n (image f.s1))) }
    ensures second { IfOk result (λ o. IfSome o (λ f. ChangesNothing (image f.s2))) }
{
    let l = match equation_at(c, first) {
        Some(l) => l,
        None => return Ok(None),
    };
    let m = match equation_at(c, second) {
        Some(m) => m,
        None => return Ok(None),
    };
    if first == second {
        return Ok(None);
    }
    if !heads_meet(side_of(l, first_side), side_of(m, second_side)) {
        return Ok(None);
    }
    if is_background(signature, c) {
        return Ok(None);
    }
    match unify_terms(
        alloc,
        signature,
        side_of(l, first_side),
        side_of(m, second_side),
        c,
    )? {
        Some(s) => {
            factoring_by(
                alloc,
                signature,
                first,
                first_side,
                second,
                second_side,
                c,
                s,
            )
        }
        None => Ok(None),
    }
}
