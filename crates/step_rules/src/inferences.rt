//! The conclusions of superposition, resolution and factoring for given substitutions.

ghost use Rattle.std.specs.Prelude.{◌≡◌, ◌++◌, map, None, Some, option_map, IfOk, MatchOption};
ghost use Rattle.term_base.specs.Trees.{tree};
ghost use Rattle.term_base.specs.Lits.{lit, lits, disequation, put_clause};
ghost use Rattle.term_base.specs.Places.{changed};
ghost use Rattle.term_base.specs.Substitution.{image, put_in};
ghost use Rattle.step_rules.specs.Inference as spec;

use crate::parts::{add_under, rest_under, same_under};
use sqlite_items::Items;
use std::alloc::{AllocError, Global};
use term_base::{
    Clause, Literal, Place, Side, Subst, Symbol, Term, apply, apply_clause, place_term, replace_at,
};

/// The sides of an equation, the named one first; None for another literal.
pub(crate) fn sides_of(l: &Literal, side: Side) -> Option<(&Term, &Term)>
    ensures { MatchOption result (spec.sides_of side (lit l.now) ≡ None)
        (λ (s, t). spec.sides_of side (lit l.now) ≡ Some (tree s.now, tree t.now)) }
{
    match l {
        Literal::Equal(s, t) => match side {
            Side::Left => Some((s, t)),
            Side::Right => Some((t, s)),
        },
        Literal::Differ(_, _) => None,
        Literal::AtMost(_, _) => None,
    }
}

/// The sides of the equation of a number, the named one first; None where the clause has no such equation.
fn equation_at(c: &Clause, literal: u32, side: Side) -> Option<(&Term, &Term)>
    ensures { MatchOption result (spec.equation_at (lits c.now) literal side ≡ None)
        (λ (s, t). spec.equation_at (lits c.now) literal side ≡ Some (tree s.now, tree t.now)) }
{
    match c.literals.get(literal as usize) {
        Some(l) => sides_of(l, side),
        None => None,
    }
}

/// The sides of a disequation; None for another literal.
pub(crate) fn differing_sides(l: &Literal) -> Option<(&Term, &Term)>
    ensures { MatchOption result (spec.sides_where_differing (lit l.now).relation (lit l.now) ≡ None)
        (λ (s, t). spec.sides_where_differing (lit l.now).relation (lit l.now)
        ≡ Some (tree s.now, tree t.now)) }
{
    match l {
        Literal::Equal(_, _) => None,
        Literal::Differ(s, t) => Some((s, t)),
        Literal::AtMost(_, _) => None,
    }
}

fn disequation_at(c: &Clause, literal: u32) -> Option<(&Term, &Term)>
    ensures { MatchOption result (spec.disequation_at (lits c.now) literal ≡ None)
        (λ (s, t). spec.disequation_at (lits c.now) literal ≡ Some (tree s.now, tree t.now)) }
{
    match c.literals.get(literal as usize) {
        Some(l) => differing_sides(l),
        None => None,
    }
}

/// Literals, then those of a clause.
fn joined(first: Items<Literal>, second: Clause) -> Result<Clause, AllocError>
    ensures { IfOk result (λ k. lits k ≡ map lit first ++ lits second) }
{
    let mut literals = first;
    literals.append(second.literals)?;
    Ok(Clause { literals })
}

/// The rest of `c` under `s1`, then `d` under `s2` with `r` under `s1` at the place.
fn superposed_clause(
    alloc: Global,
    signature: &[Symbol],
    c: &Clause,
    literal: u32,
    d: &Clause,
    place: &Place,
    r: &Term,
    s1: &Subst,
    s2: &Subst,
) -> Result<Clause, AllocError>
    ensures { IfOk result (λ k. lits k ≡ spec.superposed_clause (lits c.now) literal (lits d.now)
        place.now (tree r.now) (image s1.now) (image s2.now)) }
{
    let rest = rest_under(alloc, signature, c, literal, s1)?;
    let new = apply(alloc, signature, r, s1)?;
    let instance = apply_clause(alloc, signature, d, s2)?;
    let replaced = replace_at(alloc, signature, &instance, place, &new)?;
    joined(rest, replaced)
}

/// The conclusion of a superposition; None where the literal is no equation, the place isn't there, or the
/// two terms aren't one.
pub fn superposed(
    alloc: Global,
    signature: &[Symbol],
    c: &Clause,
    literal: u32,
    side: Side,
    d: &Clause,
    place: &Place,
    s1: &Subst,
    s2: &Subst,
) -> Result<Option<Clause>, AllocError>
    ensures { IfOk result (λ o. option_map lits o ≡ spec.superposed (lits c.now) literal side
        (lits d.now) place.now (image s1.now) (image s2.now)) }
{
    match equation_at(c, literal, side) {
        None => Ok(None),
        Some((l, r)) => match place_term(signature, d, place) {
            None => Ok(None),
            Some(u) => {
                if !same_under(alloc, signature, l, s1, u, s2)? {
                    return Ok(None);
                }
                Ok(Some(superposed_clause(alloc, signature, c, literal, d, place, r, s1, s2)?))
            }
        },
    }
}

/// The conclusion of a resolution; None where the literal is no disequation, or its sides aren't one.
pub fn resolved(
    alloc: Global,
    signature: &[Symbol],
    c: &Clause,
    literal: u32,
    s1: &Subst,
) -> Result<Option<Clause>, AllocError>
    ensures { IfOk result (λ o. option_map lits o
        ≡ spec.resolved (lits c.now) literal (image s1.now)) }
{
    match disequation_at(c, literal) {
        None => Ok(None),
        Some((s, t)) => {
            if !same_under(alloc, signature, s, s1, t, s1)? {
                return Ok(None);
            }
            let literals = rest_under(alloc, signature, c, literal, s1)?;
            Ok(Some(Clause { literals }))
        }
    }
}

#[tactic(auto, using(crate::proofs::Clauses::clauses))]
/// The literals with another one in the place of that of a number, which is there, under a substitution.
fn changed_under(
    alloc: Global,
    signature: &[Symbol],
    c: &Clause,
    literal: u32,
    new: Literal,
    s: &Subst,
) -> Result<Clause, AllocError>
    ensures { IfOk result (λ k. lits k
        ≡ changed literal (lit new) (put_clause (image s.now) (lits c.now))) }
{
    let literals = c.literals.as_slice();
    let number = literal as usize;
    let mut all = Items::new(alloc);
    if number >= literals.len() {
        add_under(alloc, signature, literals, s, &mut all)?;
        return Ok(Clause { literals: all });
    }
    add_under(alloc, signature, &literals[..number], s, &mut all)?;
    all.push(new)?;
    add_under(alloc, signature, &literals[number + 1..], s, &mut all)?;
    Ok(Clause { literals: all })
}

/// `c` under `s1` with the disequation of `r` and `t` under `s1` for a literal.
fn factored_clause(
    alloc: Global,
    signature: &[Symbol],
    c: &Clause,
    second: u32,
    r: &Term,
    t: &Term,
    s1: &Subst,
) -> Result<Clause, AllocError>
    ensures { IfOk result (λ k. lits k ≡ spec.factored_clause (lits c.now) second
        (tree r.now) (tree t.now) (image s1.now)) }
{
    let new = Literal::Differ(
        apply(alloc, signature, r, s1)?,
        apply(alloc, signature, t, s1)?,
    );
    changed_under(alloc, signature, c, second, new, s1)
}

/// The conclusion of a factoring of two literals; None where one of them is no equation, or the two named
/// sides aren't one.
fn factored_by(
    alloc: Global,
    signature: &[Symbol],
    c: &Clause,
    first: u32,
    first_side: Side,
    second: u32,
    second_side: Side,
    s1: &Subst,
) -> Result<Option<Clause>, AllocError>
    ensures { IfOk result (λ o. option_map lits o ≡ spec.factored_by (lits c.now) first first_side
        second second_side (image s1.now)) }
{
    match equation_at(c, first, first_side) {
        None => Ok(None),
        Some((l, r)) => match equation_at(c, second, second_side) {
            None => Ok(None),
            Some((s, t)) => {
                if !same_under(alloc, signature, l, s1, s, s1)? {
                    return Ok(None);
                }
                Ok(Some(factored_clause(alloc, signature, c, second, r, t, s1)?))
            }
        },
    }
}

/// The conclusion of a factoring; None where both literals are one.
pub fn factored(
    alloc: Global,
    signature: &[Symbol],
    c: &Clause,
    first: u32,
    first_side: Side,
    second: u32,
    second_side: Side,
    s1: &Subst,
) -> Result<Option<Clause>, AllocError>
    ensures { IfOk result (λ o. option_map lits o ≡ spec.factored (lits c.now) first first_side
        second second_side (image s1.now)) }
{
    if first == second {
        return Ok(None);
    }
    factored_by(
        alloc,
        signature,
        c,
        first,
        first_side,
        second,
        second_side,
        s1,
    )
}
