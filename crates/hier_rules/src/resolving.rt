//! Resolution of a disequation whose sides become equal.

ghost use Rattle.std.specs.Prelude.{◌≡◌, ℕ, true, List, MatchOption, IfOk, IfSome};
ghost use Rattle.term_base.specs.Known.{is_known_clause, KnownImages};
ghost use Rattle.term_base.specs.Lits.{clause_occurs, lits, Lit};
ghost use Rattle.term_base.specs.Substitution.{image};
ghost use Rattle.hier_rules.specs.Admitted.{AdmitsResolution};
ghost use Rattle.hier_rules.specs.Fires.{Resolves};
ghost use Rattle.hier_rules.specs.Conclusions.{IsConclusion, ChangesNothing, GivesNothing, Keeps, UnifiesSides, NumbersOne};

use crate::conditions::resolves_by;
use crate::heads::heads_meet;
use crate::inferences::Fired;
use crate::literals::{disequation_at, literal_at, take_out};
use crate::unifying::unify_terms;
use std::alloc::{AllocError, Global};
use term_base::laws::pure_stays_pure;
use term_base::{Clause, Side, Subst, Symbol, apply_clause, is_background, side_of};
use term_order::laws::{above_stays, maximal_before};

/// The conclusion of a resolution, where this instance of its premise admits it.
fn resolved(signature: &[Symbol], c: Clause, literal: u32) -> Option<Clause>
    ensures { MatchOption result
        ((k : List Lit) → AdmitsResolution signature.now (lits c) literal k → ⊥)
        (λ k. AdmitsResolution signature.now (lits c) literal (lits k)) }
{
    let l = match literal_at(&c, literal) {
        Some(l) => l,
        None => return None,
    };
    if !resolves_by(signature, &c, literal, l) {
        return None;
    }
    let mut k = c;
    take_out(&mut k, literal);
    Some(k)
}

/// What fires by a most general substitution of the premise.
fn resolution_by(
    alloc: Global,
    signature: &[Symbol],
    literal: u32,
    c: &Clause,
    s: Subst,
) -> Result<Option<Fired>, AllocError>
    requires { UnifiesSides signature.now (lits c.now) literal (image s) }
    ensures conclusion { IfOk result (λ o. MatchOption o
        (GivesNothing signature.now (λ s1 s2 k. Resolves signature.now (lits c.now) literal s1 k))
        (λ f. IsConclusion signature.now (λ s1 s2 k. Resolves signature.now (lits c.now) literal s1 k)
        (image f.s1) (image f.s2) (lits f.clause))) }
    ensures substitution { IfOk result (λ o. IfSome o (λ f. f.s1 ≡ s)) }
    ensures second { IfOk result (λ o. IfSome o (λ f. ChangesNothing (image f.s2))) }
{
    pure_stays_pure();
    above_stays();
    maximal_before();
    let instance = apply_clause(alloc, signature, c, &s)?;
    match resolved(signature, instance, literal) {
        Some(clause) => Ok(Some(Fired {
            s1: s,
            s2: Subst::empty(alloc),
            clause,
        })),
        None => Ok(None),
    }
}

/// What fires for a resolution of a disequation of `c`. None exactly where nothing does.
pub(crate) fn resolution(
    alloc: Global,
    signature: &[Symbol],
    literal: u32,
    c: &Clause,
) -> Result<Option<Fired>, AllocError>
    ensures conclusion { IfOk result (λ o. MatchOption o
        (GivesNothing signature.now (λ s1 s2 k. Resolves signature.now (lits c.now) literal s1 k))
        (λ f. IsConclusion signature.now (λ s1 s2 k. Resolves signature.now (lits c.now) literal s1 k)
        (image f.s1) (image f.s2) (lits f.clause))) }
    ensures numbered { IfOk result (λ o. IfSome o (λ f. NumbersOne (lits c.now) (image f.s1))) }
    ensures others { IfOk result (λ o. IfSome o (λ f. Keeps (λ v. clause_occurs v (lits c.now)) (image f.s1))) }
    ensures known { IfOk result (λ o. IfSome o (λ f. (n : ℕ) → is_known_clause n (lits c.now) ≡ true → KnownImages n (image f.s1))) }
    ensures second { IfOk result (λ o. IfSome o (λ f. ChangesNothing (image f.s2))) }
{
    let l = match disequation_at(c, literal) {
        Some(l) => l,
        None => return Ok(None),
    };
    if !heads_meet(side_of(l, Side::Left), side_of(l, Side::Right)) {
        return Ok(None);
    }
    if is_background(signature, c) {
        return Ok(None);
    }
    match unify_terms(
        alloc,
        signature,
        side_of(l, Side::Left),
        side_of(l, Side::Right),
        c,
    )? {
        Some(s) => resolution_by(alloc, signature, literal, c, s),
        None => Ok(None),
    }
}
