//! Literals of a clause by their numbers.

ghost use Rattle.std.specs.Prelude.{◌≡◌, ◌↔◌, ◌≤◌, ◌∷◌, ◌++◌, Some, IsTrue, IsSome, IfSome, IfNone, IfOk, OnOk, option_map, length, reverse, take, drop};
ghost use Rattle.std.specs.Option.{option_copied};
ghost use Rattle.term_base.specs.Trees.{tree};
ghost use Rattle.term_base.specs.Lits.{equal, differ, lit, lits, Lit};
ghost use Rattle.term_base.specs.Places.{item, changed, left_out, other};
ghost use Rattle.hier_rules.specs.Premises.{IsEquation, IsDisequation};

use sqlite_items::Items;
use std::alloc::{AllocError, Global};
use term_base::{Clause, Literal, Side, Term};

fn is_equation(l: &Literal) -> bool
    ensures { IsTrue result ↔ ((lit l.now).relation ≡ equal) }
{
    match l {
        Literal::Equal(_, _) => true,
        Literal::Differ(_, _) => false,
        Literal::AtMost(_, _) => false,
    }
}

fn is_disequation(l: &Literal) -> bool
    ensures { IsTrue result ↔ ((lit l.now).relation ≡ differ) }
{
    match l {
        Literal::Equal(_, _) => false,
        Literal::Differ(_, _) => true,
        Literal::AtMost(_, _) => false,
    }
}

/// The literal of a number.
pub(crate) fn literal_at(c: &Clause, number: u32) -> Option<&Literal>
    ensures { option_map lit (option_copied result) ≡ item number (lits c.now) }
{
    c.literals.get(number as usize)
}

/// The literal of a number, where it is an equation.
pub(crate) fn equation_at(c: &Clause, number: u32) -> Option<&Literal>
    ensures some { IfSome (option_copied result) (λ l. IsEquation (lits c.now) number (lit l)) }
    ensures none { IfNone (option_copied result) ((l : Lit) → IsEquation (lits c.now) number l → ⊥) }
{
    match literal_at(c, number) {
        Some(l) => if is_equation(l) { Some(l) } else { None },
        None => None,
    }
}

/// The literal of a number, where it is a disequation.
pub(crate) fn disequation_at(c: &Clause, number: u32) -> Option<&Literal>
    ensures some { IfSome (option_copied result) (λ l. IsDisequation (lits c.now) number (lit l)) }
    ensures none { IfNone (option_copied result) ((l : Lit) → IsDisequation (lits c.now) number l → ⊥) }
{
    match literal_at(c, number) {
        Some(l) => if is_disequation(l) { Some(l) } else { None },
        None => None,
    }
}

/// Takes the literal of a number out of a clause.
pub(crate) fn take_out(c: &mut Clause, number: u32) -> Literal
    requires { IsSome (item number (lits c.old)) }
    ensures literal { item number (lits c.old) ≡ Some (lit result) }
    ensures rest { lits c.new ≡ left_out number (lits c.old) }
{
    c.literals.remove(number as usize)
}

/// Puts another literal in the place of the one of a number.
pub(crate) fn put_literal(c: &mut Clause, number: u32, l: Literal)
    requires { IsSome (item number (lits c.old)) }
    ensures { lits c.new ≡ changed number (lit l) (lits c.old) }
{
    c.literals.set(number as usize, l);
}

/// Takes the literals from a number on, the last one first.
fn take_behind(
    alloc: Global,
    literals: &mut Items<Literal>,
    number: usize,
) -> Result<Items<Literal>, AllocError>
    requires { number ≤ length literals.old }
    ensures all { IfOk result (λ after. literals.new ++ reverse after ≡ literals.old) }
    ensures rest { IfOk result (λ after. length literals.new ≡ number) }
{
    let mut after = Items::new(alloc);
    while literals.len() > number {
        let next = literals.pop().unwrap();
        after.push(next)?;
    }
    Ok(after)
}

/// Puts literals behind others, the last one first.
fn put_behind(literals: &mut Items<Literal>, after: Items<Literal>) -> Result<(), AllocError>
    ensures { OnOk result (literals.new ≡ literals.old ++ reverse after) }
{
    let mut after = after;
    while let Some(next) = after.pop() {
        literals.push(next)?;
    }
    Ok(())
}

/// Puts a literal before the one of a number, or behind all.
fn insert(
    alloc: Global,
    literals: &mut Items<Literal>,
    number: usize,
    l: Literal,
) -> Result<(), AllocError>
    requires { number ≤ length literals.old }
    ensures { OnOk result (literals.new ≡ take number literals.old ++ l ∷ drop number literals.old) }
{
    let after = take_behind(alloc, literals, number)?;
    literals.push(l)?;
    put_behind(literals, after)
}

/// Puts a literal back where one was taken out.
pub(crate) fn put_back(
    alloc: Global,
    c: &mut Clause,
    number: u32,
    l: Literal,
) -> Result<(), AllocError>
    requires { number ≤ length (lits c.old) }
    ensures { OnOk result (lits c.new ≡ take number (lits c.old) ++ lit l ∷ drop number (lits c.old)) }
{
    insert(alloc, &mut c.literals, number as usize, l)
}

/// The term on the side of a literal that isn't the named one.
pub(crate) fn into_other_side(l: Literal, side: Side) -> Term
    ensures { tree result ≡ other side (lit l) }
{
    match l {
        Literal::Equal(a, b) | Literal::Differ(a, b) | Literal::AtMost(a, b) => match side {
            Side::Left => b,
            Side::Right => a,
        },
    }
}

/// A place in a list as a number of a literal or a child. Past 2^32 - 1 memory counts as spent.
pub(crate) fn number_of(place: usize) -> Result<u32, AllocError>
    ensures { IfOk result (λ n. n ≡ place) }
{
    match u32::try_from(place) {
        Ok(number) => Ok(number),
        Err(_) => Err(AllocError),
    }
}
