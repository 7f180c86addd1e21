//! The clauses that Pin and Demodulate give.

ghost use Rattle.std.specs.Prelude.{◌≡◌, [], ◌∷◌, map, None, Some, option_map, IfOk, MatchOption};
ghost use Rattle.term_base.specs.Trees.{number, node, none, tree, same_tree};
ghost use Rattle.term_base.specs.Lits.{lit, lits};
ghost use Rattle.term_base.specs.Substitution.{image, put_in, single};
ghost use Rattle.term_base.specs.declared.terms.Term.TheVariants as term;
ghost use Rattle.step_rules.specs.Simplified as spec;

use crate::inferences::{differing_sides, sides_of};
use crate::parts::rest_under;
use sqlite_items::Items;
use std::alloc::{AllocError, Global};
use term_base::{
    Clause, Literal, Place, Side, Sort, Subst, Symbol, Term, Variable, apply, place_term,
    replace_at,
};

/// The variable and the number where the variable has sort Int, else None.
fn pin(v: Variable, n: i128) -> Option<(Variable, i128)>
    ensures { result ≡ spec.pin_with_head v (number n) }
{
    if v.sort == Sort::Int {
        Some((v, n))
    } else {
        None
    }
}

/// The variable of sort Int and the number that two terms are; None where they are others.
fn pin_of(s: &Term, t: &Term) -> Option<(Variable, i128)>
    ensures { result ≡ spec.pin_of (tree s.now) (tree t.now) }
{
    match (s, t) {
        (Term::Var(v), Term::Num(n)) => pin(*v, *n),
        (Term::Num(n), Term::Var(v)) => pin(*v, *n),
        _ => None,
    }
}

fn pin_of_literal(l: &Literal) -> Option<(Variable, i128)>
    ensures { result ≡ spec.pin_of_lit (lit l.now) }
{
    match differing_sides(l) {
        Some((s, t)) => pin_of(s, t),
        None => None,
    }
}

fn pin_at(c: &Clause, literal: u32) -> Option<(Variable, i128)>
    ensures { result ≡ spec.pin_at (lits c.now) literal }
{
    match c.literals.get(literal as usize) {
        Some(l) => pin_of_literal(l),
        None => None,
    }
}

fn one_pair(alloc: Global, v: Variable, n: i128) -> Result<Items<(Variable, Term)>, AllocError>
    ensures { IfOk result (λ ps. ps ≡ (v, term.Num n) ∷ []) }
{
    let mut pairs = Items::new(alloc);
    pairs.push((v, Term::Num(n)))?;
    Ok(pairs)
}

#[tactic(auto, using(crate::proofs::Single::single_steps))]
/// The substitution of a number for a variable.
fn single(alloc: Global, v: Variable, n: i128) -> Result<Subst, AllocError>
    ensures { IfOk result (λ s. image s ≡ single v (node (number n) none)) }
{
    let pairs = one_pair(alloc, v, n)?;
    Ok(Subst::from_pairs(pairs))
}

/// The clause that Pin gives; None where the literal isn't `x != n` or `n != x` with x of sort Int.
pub fn pinned(
    alloc: Global,
    signature: &[Symbol],
    c: &Clause,
    literal: u32,
) -> Result<Option<Clause>, AllocError>
    ensures { IfOk result (λ o. option_map lits o ≡ spec.pinned (lits c.now) literal) }
{
    match pin_at(c, literal) {
        None => Ok(None),
        Some((v, n)) => {
            let s = single(alloc, v, n)?;
            let literals = rest_under(alloc, signature, c, literal, &s)?;
            Ok(Some(Clause { literals }))
        }
    }
}

/// The sides of a clause that is one equation, the named one first; None for another clause.
fn unit_sides(c: &Clause, side: Side) -> Option<(&Term, &Term)>
    ensures { MatchOption result (spec.unit_sides side (lits c.now) ≡ None)
        (λ (s, t). spec.unit_sides side (lits c.now) ≡ Some (tree s.now, tree t.now)) }
{
    match c.literals.as_slice() {
        [l] => sides_of(l, side),
        _ => None,
    }
}

/// Whether a term under a substitution is another term.
fn is_instance(
    alloc: Global,
    signature: &[Symbol],
    t: &Term,
    s1: &Subst,
    u: &Term,
) -> Result<bool, AllocError>
    ensures { IfOk result (λ yes. yes ≡ same_tree (put_in (image s1.now) (tree t.now)) (tree u.now)) }
{
    Ok(apply(alloc, signature, t, s1)? == *u)
}

/// The clause that Demodulate gives; None where the unit isn't one equation, the place isn't there, or the
/// term there isn't the equation's side under the substitution.
pub fn demodulated(
    alloc: Global,
    signature: &[Symbol],
    c: &Clause,
    place: &Place,
    unit: &Clause,
    side: Side,
    s1: &Subst,
) -> Result<Option<Clause>, AllocError>
    ensures { IfOk result (λ o. option_map lits o ≡ spec.demodulated (lits c.now) place.now
        (lits unit.now) side (image s1.now)) }
{
    match unit_sides(unit, side) {
        None => Ok(None),
        Some((l, r)) => match place_term(signature, c, place) {
            None => Ok(None),
            Some(u) => {
                if !is_instance(alloc, signature, l, s1, u)? {
                    return Ok(None);
                }
                let new = apply(alloc, signature, r, s1)?;
                Ok(Some(replace_at(alloc, signature, c, place, &new)?))
            }
        },
    }
}
