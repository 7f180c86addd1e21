//! The term at a place of a clause, and the clause with another term there.

ghost use Rattle.std.specs.Prelude.{◌≡◌, ◌↔◌, ◌+◌, ◌∷◌, ◌++◌, ◌<◌, length, take, drop, IsTrue, IsSome, Some, IfOk, option_map};
ghost use Rattle.std.specs.Option.{option_copied};
ghost use Rattle.term_base.specs.Trees.{tree};
ghost use Rattle.term_base.specs.Lits.{lit, lits};
ghost use Rattle.term_base.specs.Places as spec;

use crate::clauses::{Clause, Literal, copy_literals};
use crate::places::{Place, Side};
use crate::symbols::Symbol;
use crate::terms::{Term, copy_all};
use sqlite_items::Items;
use std::alloc::{AllocError, Global};

/// The child of a number, counted from 0; None where the term has fewer children. The child of a number
/// times a term is that term.
pub fn child(t: &Term, number: u32) -> Option<&Term>
    ensures { option_map tree (option_copied result) ≡ spec.child number (tree t.now) }
{
    match t {
        Term::Var(_) | Term::Num(_) | Term::True => None,
        Term::Sum(a, b) => match number {
            0 => Some(a.get()),
            1 => Some(b.get()),
            _ => None,
        },
        Term::Scale(_, a) => if number == 0 { Some(a.get()) } else { None },
        Term::App(_, args) => args.get(number as usize),
    }
}

/// The term on a side of a literal.
pub fn side_of(l: &Literal, side: Side) -> &Term
    ensures { tree result.now ≡ spec.named side (lit l.now) }
{
    match l {
        Literal::Equal(a, b) | Literal::Differ(a, b) | Literal::AtMost(a, b) => match side {
            Side::Left => a,
            Side::Right => b,
        },
    }
}

fn below<'a>(t: &'a Term, path: &[u32]) -> Option<&'a Term>
    ensures { option_map tree (option_copied result) ≡ spec.at_path path.now (tree t.now) }
{
    let mut t = t;
    for number in path {
        match child(t, *number) {
            Some(next) => t = next,
            None => return None,
        }
    }
    Some(t)
}

/// The term at a place; None where the clause does not have the place.
pub fn place_term<'a>(signature: &[Symbol], c: &'a Clause, place: &Place) -> Option<&'a Term>
    ensures { option_map tree (option_copied result) ≡ spec.tree_at (lits c.now) place.now }
{
    match c.literals.get(place.literal as usize) {
        Some(literal) => below(side_of(literal, place.side), place.path.as_slice()),
        None => None,
    }
}

/// The term at a place that the clause has.
pub fn at<'a>(signature: &[Symbol], c: &'a Clause, place: &Place) -> &'a Term
    requires { IsSome (spec.tree_at (lits c.now) place.now) }
    ensures { spec.tree_at (lits c.now) place.now ≡ Some (tree result.now) }
{
    place_term(signature, c, place).unwrap()
}

/// The terms with another one in the place of that of a number.
fn put_among(
    alloc: Global,
    terms: &[Term],
    number: usize,
    new: Term,
) -> Result<Items<Term>, AllocError>
    requires { number < length terms.now }
    ensures { IfOk result (λ all. all ≡ take number terms.now ++ new ∷ drop (number + 1) terms.now) }
{
    let mut all = copy_all(alloc, &terms[..number])?;
    all.push(new)?;
    all.append(copy_all(alloc, &terms[number + 1..])?)?;
    Ok(all)
}

fn put(alloc: Global, t: &Term, path: &[u32], new: Term) -> Result<Term, AllocError>
    ensures { IfOk result (λ r. tree r ≡ spec.put_at path.now (tree new) (tree t.now)) }
{
    match path {
        [] => Ok(new),
        [number, rest @ ..] => match t {
            Term::Var(_) | Term::Num(_) | Term::True => t.copy(alloc),
            Term::Sum(a, b) => match *number {
                0 => Term::sum(alloc, put(alloc, a.get(), rest, new)?, b.get().copy(alloc)?),
                1 => Term::sum(alloc, a.get().copy(alloc)?, put(alloc, b.get(), rest, new)?),
                _ => t.copy(alloc),
            },
            Term::Scale(k, a) => if *number == 0 {
                Term::scale(alloc, *k, put(alloc, a.get(), rest, new)?)
            } else {
                t.copy(alloc)
            },
            Term::App(f, args) => match args.get(*number as usize) {
                Some(arg) => {
                    let changed = put(alloc, arg, rest, new)?;
                    Ok(Term::App(
                        *f,
                        put_among(alloc, args.as_slice(), *number as usize, changed)?,
                    ))
                }
                None => t.copy(alloc),
            },
        },
    }
}

fn put_side(
    alloc: Global,
    l: &Literal,
    side: Side,
    path: &[u32],
    new: Term,
) -> Result<Literal, AllocError>
    ensures { IfOk result (λ r. lit r ≡ spec.with_side side (spec.put_at path.now (tree new) (spec.named side (lit l.now))) (lit l.now)) }
{
    match side {
        Side::Left => match l {
            Literal::Equal(a, b) => Ok(Literal::Equal(put(alloc, a, path, new)?, b.copy(alloc)?)),
            Literal::Differ(a, b) => Ok(Literal::Differ(put(alloc, a, path, new)?, b.copy(alloc)?)),
            Literal::AtMost(a, b) => Ok(Literal::AtMost(put(alloc, a, path, new)?, b.copy(alloc)?)),
        },
        Side::Right => match l {
            Literal::Equal(a, b) => Ok(Literal::Equal(a.copy(alloc)?, put(alloc, b, path, new)?)),
            Literal::Differ(a, b) => Ok(Literal::Differ(a.copy(alloc)?, put(alloc, b, path, new)?)),
            Literal::AtMost(a, b) => Ok(Literal::AtMost(a.copy(alloc)?, put(alloc, b, path, new)?)),
        },
    }
}

/// The literal with another term at the end of a path into one of its sides; the literal as it is where the side
/// does not have the path. The other side is moved; of this one what stays is copied.
pub fn replace_in_literal(
    alloc: Global,
    l: Literal,
    side: Side,
    path: &[u32],
    t: Term,
) -> Result<Literal, AllocError>
    ensures { IfOk result (λ r. lit r ≡ spec.with_side side (spec.put_at path.now (tree t) (spec.named side (lit l))) (lit l)) }
{
    match side {
        Side::Left => match l {
            Literal::Equal(a, b) => Ok(Literal::Equal(put(alloc, &a, path, t)?, b)),
            Literal::Differ(a, b) => Ok(Literal::Differ(put(alloc, &a, path, t)?, b)),
            Literal::AtMost(a, b) => Ok(Literal::AtMost(put(alloc, &a, path, t)?, b)),
        },
        Side::Right => match l {
            Literal::Equal(a, b) => Ok(Literal::Equal(a, put(alloc, &b, path, t)?)),
            Literal::Differ(a, b) => Ok(Literal::Differ(a, put(alloc, &b, path, t)?)),
            Literal::AtMost(a, b) => Ok(Literal::AtMost(a, put(alloc, &b, path, t)?)),
        },
    }
}

/// The literals with another one in the place of that of a number.
fn put_literal(
    alloc: Global,
    literals: &[Literal],
    number: usize,
    new: Literal,
) -> Result<Items<Literal>, AllocError>
    requires { number < length literals.now }
    ensures { IfOk result (λ all. all ≡ take number literals.now ++ new ∷ drop (number + 1) literals.now) }
{
    let mut all = copy_literals(alloc, &literals[..number])?;
    all.push(new)?;
    all.append(copy_literals(alloc, &literals[number + 1..])?)?;
    Ok(all)
}

/// The clause with another term at a place; the clause as it is where it does not have the place. Where
/// the term has the sort of the term at the place, the clause stays well sorted.
pub fn replace_at(
    alloc: Global,
    signature: &[Symbol],
    c: &Clause,
    place: &Place,
    t: &Term,
) -> Result<Clause, AllocError>
    ensures { IfOk result (λ r. lits r ≡ spec.replaced (lits c.now) place.now (tree t.now)) }
{
    let number = place.literal as usize;
    match c.literals.get(number) {
        Some(literal) => {
            let copied = t.copy(alloc)?;
            let new = put_side(alloc, literal, place.side, place.path.as_slice(), copied)?;
            Ok(Clause {
                literals: put_literal(alloc, c.literals.as_slice(), number, new)?,
            })
        }
        None => c.copy(alloc),
    }
}
