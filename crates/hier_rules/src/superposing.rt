//! Superposition from an equation of one clause into a place of another.

ghost use Rattle.std.specs.Prelude.{◌≡◌, ◌++◌, List, MatchOption, IfOk, IfSome};
ghost use Rattle.term_base.specs.Lits.{lits, Lit};
ghost use Rattle.term_base.specs.Substitution.{image};
ghost use Rattle.hier_rules.specs.Admitted.{AdmitsSuperposition};
ghost use Rattle.hier_rules.specs.Fires.{Superposes};
ghost use Rattle.hier_rules.specs.Conclusions.{IsConclusion, GivesNothing, KeepsPair, KnownPair, UnifiesPair, NumbersPair};

use crate::conditions::{is_replaced_in, replaces_by};
use crate::heads::{heads_meet, is_variable};
use crate::inferences::Fired;
use crate::literals::{equation_at, into_other_side, literal_at, put_back, take_out};
use crate::unifying::unify_premises;
use std::alloc::{AllocError, Global};
use term_base::laws::{places_stay, pure_stays_pure, replacing_commutes};
use term_base::{
    Clause, Place, Side, Subst, Symbol, apply_clause, is_background, place_term,
    replace_in_literal, side_of,
};
use term_order::laws::{above_stays, maximal_before};

/// The literals of one clause, then those of another.
fn joined(c: Clause, d: Clause) -> Result<Clause, AllocError>
    ensures { IfOk result (λ k. lits k ≡ lits c ++ lits d) }
{
    let mut k = c;
    let Clause { literals } = d;
    k.literals.append(literals)?;
    Ok(k)
}

/// The conclusion of a superposition, where these instances of its premises admit it.
fn superposed(
    alloc: Global,
    signature: &[Symbol],
    c: Clause,
    d: Clause,
    literal: u32,
    side: Side,
    place: &Place,
) -> Result<Option<Clause>, AllocError>
    ensures { IfOk result (λ o. MatchOption o
        ((k : List Lit) → AdmitsSuperposition signature.now (lits c) (lits d) literal side place.now k → ⊥)
        (λ k. AdmitsSuperposition signature.now (lits c) (lits d) literal side place.now (lits k))) }
{
    let l = match literal_at(&c, literal) {
        Some(l) => l,
        None => return Ok(None),
    };
    let m = match literal_at(&d, place.literal) {
        Some(m) => m,
        None => return Ok(None),
    };
    if !replaces_by(signature, &c, literal, side, l) {
        return Ok(None);
    }
    if !is_replaced_in(signature, &d, place, m) {
        return Ok(None);
    }
    let mut first = c;
    let mut second = d;
    let t = into_other_side(take_out(&mut first, literal), side);
    let old = take_out(&mut second, place.literal);
    let new = replace_in_literal(alloc, old, place.side, place.path.as_slice(), t)?;
    put_back(alloc, &mut second, place.literal, new)?;
    Ok(Some(joined(first, second)?))
}

/// What fires by most general substitutions of the premises.
fn superposition_by(
    alloc: Global,
    signature: &[Symbol],
    literal: u32,
    side: Side,
    place: &Place,
    c: &Clause,
    d: &Clause,
    s1: Subst,
    s2: Subst,
) -> Result<Option<Fired>, AllocError>
    requires { UnifiesPair signature.now (lits c.now) (lits d.now) literal side place.now (image s1) (image s2) }
    ensures conclusion { IfOk result (λ o. MatchOption o
        (GivesNothing signature.now (Superposes signature.now (lits c.now) (lits d.now) literal side place.now))
        (λ f. IsConclusion signature.now (Superposes signature.now (lits c.now) (lits d.now) literal side place.now)
        (image f.s1) (image f.s2) (lits f.clause))) }
    ensures substitutions { IfOk result (λ o. IfSome o (λ f. (f.s1 ≡ s1) × (f.s2 ≡ s2))) }
{
    pure_stays_pure();
    places_stay();
    replacing_commutes();
    above_stays();
    maximal_before();
    let first = apply_clause(alloc, signature, c, &s1)?;
    let second = apply_clause(alloc, signature, d, &s2)?;
    match superposed(alloc, signature, first, second, literal, side, place)? {
        Some(clause) => Ok(Some(Fired { s1, s2, clause })),
        None => Ok(None),
    }
}

/// What fires for a superposition from the named side of an equation of `c` into a place of `d`. None exactly where
/// nothing does.
pub(crate) fn superposition(
    alloc: Global,
    signature: &[Symbol],
    literal: u32,
    side: Side,
    place: &Place,
    c: &Clause,
    d: &Clause,
) -> Result<Option<Fired>, AllocError>
    ensures conclusion { IfOk result (λ o. MatchOption o
        (GivesNothing signature.now (Superposes signature.now (lits c.now) (lits d.now) literal side place.now))
        (λ f. IsConclusion signature.now (Superposes signature.now (lits c.now) (lits d.now) literal side place.now)
        (image f.s1) (image f.s2) (lits f.clause))) }
    ensures numbered { IfOk result (λ o. IfSome o (λ f. NumbersPair
        (lits c.now) (lits d.now) (image f.s1) (image f.s2))) }
    ensures others { IfOk result (λ o. IfSome o (λ f. KeepsPair
        (lits c.now) (lits d.now) (image f.s1) (image f.s2))) }
    ensures known { IfOk result (λ o. IfSome o (λ f. KnownPair
        (lits c.now) (lits d.now) (image f.s1) (image f.s2))) }
{
    let l = match equation_at(c, literal) {
        Some(l) => l,
        None => return Ok(None),
    };
    let u = match place_term(signature, d, place) {
        Some(u) => u,
        None => return Ok(None),
    };
    if is_variable(u) {
        return Ok(None);
    }
    if !heads_meet(side_of(l, side), u) {
        return Ok(None);
    }
    if is_background(signature, c) {
        return Ok(None);
    }
    if is_background(signature, d) {
        return Ok(None);
    }
    match unify_premises(alloc, signature, side_of(l, side), u, c, d)? {
        Some((s1, s2)) => superposition_by(alloc, signature, literal, side, place, c, d, s1, s2),
        None => Ok(None),
    }
}
