//! Copies, which are printed; a copy that isn't the same is told by a word behind it.

use crate::answers::{put_clause, put_subst, put_word};
use row_lines::{bad, clause, number, place, put_flag, substitution, term, two};
use sqlite_items::Items;
use std::alloc::{AllocError, Global};
use term_base::{
    Clause, Literal, Place, Side, Symbol, Term, copy_all, copy_literals, same_all, side_of,
};
use term_text::push_place;
use text_pieces::{Unread, push};

// tells a copy that isn't the same
fn put_doubt(answer: &mut Vec<u8>, is_same: bool) -> Result<(), Unread> {
    if is_same {
        Ok(())
    } else {
        put_word(answer, b" (another)")
    }
}

// whether a copy of the first term is the second
fn copy_is(alloc: Global, t: &Term, u: &Term) -> Result<bool, AllocError> {
    let copy = t.copy(alloc)?;
    Ok(copy == *u && copy.same(u))
}

// whether the sides of two literals are the same
fn literal_is(alloc: Global, l: &Literal, m: &Literal) -> Result<bool, AllocError> {
    let left = copy_is(alloc, side_of(l, Side::Left), side_of(m, Side::Left))?;
    let right = copy_is(alloc, side_of(l, Side::Right), side_of(m, Side::Right))?;
    Ok(left && right)
}

// whether the sides of the literals of two clauses are the same
fn sides_are_same(alloc: Global, c: &Clause, literals: &[Literal]) -> Result<bool, AllocError> {
    let mut same = true;
    let mut rest = literals;
    for l in c.literals.as_slice() {
        match rest {
            [m, others @ ..] => {
                same = literal_is(alloc, l, m)? && same;
                rest = others;
            }
            [] => same = false,
        }
    }
    Ok(same)
}

/// The copy of a clause.
pub fn put_copy(alloc: Global, arguments: &str, answer: &mut Vec<u8>) -> Result<(), Unread> {
    let c = clause(alloc, arguments)?;
    put_copies(alloc, &c, answer)
}

fn put_copies(alloc: Global, c: &Clause, answer: &mut Vec<u8>) -> Result<(), Unread> {
    put_copy_of(alloc, c, answer)?;
    put_doubt(answer, literals_are_same(alloc, c)?)
}

fn put_copy_of(alloc: Global, c: &Clause, answer: &mut Vec<u8>) -> Result<(), Unread> {
    let copy = c.copy(alloc)?;
    put_copied(alloc, c, &copy, answer)
}

fn put_copied(
    alloc: Global,
    c: &Clause,
    copy: &Clause,
    answer: &mut Vec<u8>,
) -> Result<(), Unread> {
    put_clause(alloc, answer, copy)?;
    put_doubt(answer, c.same(copy))
}

// whether the copies of the literals have the same sides
fn literals_are_same(alloc: Global, c: &Clause) -> Result<bool, AllocError> {
    let literals = copy_literals(alloc, c.literals.as_slice())?;
    sides_are_same(alloc, c, literals.as_slice())
}

/// Whether two clauses are the same.
pub fn put_same(alloc: Global, arguments: &str, answer: &mut Vec<u8>) -> Result<(), Unread> {
    let (left, right) = two(arguments)?;
    let c = clause(alloc, left)?;
    put_same_as(alloc, &c, right, answer)
}

fn put_same_as(alloc: Global, c: &Clause, other: &str, answer: &mut Vec<u8>) -> Result<(), Unread> {
    let d = clause(alloc, other)?;
    put_flag(answer, c.same(&d))
}

/// The copy of a place.
pub fn put_place(alloc: Global, arguments: &str, answer: &mut Vec<u8>) -> Result<(), Unread> {
    let place = place(alloc, arguments)?;
    put_copy_of_place(alloc, &place, answer)?;
    put_doubt(answer, path_is_same(alloc, &place)?)
}

fn put_copy_of_place(alloc: Global, place: &Place, answer: &mut Vec<u8>) -> Result<(), Unread> {
    let copy = place.copy(alloc)?;
    put_place_text(alloc, &copy, answer)?;
    put_doubt(answer, place.same(&copy))
}

// (the text of a place ends with a blank)
fn put_place_text(alloc: Global, place: &Place, answer: &mut Vec<u8>) -> Result<(), Unread> {
    let mut line = Vec::new(alloc);
    push_place(alloc, &mut line, place)?;
    match line.as_slice() {
        [text @ .., _] => put_word(answer, text),
        [] => Ok(()),
    }
}

// whether the copy of the path is the same
fn path_is_same(alloc: Global, place: &Place) -> Result<bool, AllocError> {
    let copy = place.path.copy(alloc)?;
    Ok(place.path.same(&copy))
}

/// The copy of a substitution, and how many pairs it has.
pub fn put_substitution(
    alloc: Global,
    arguments: &str,
    answer: &mut Vec<u8>,
) -> Result<(), Unread> {
    let s = substitution(alloc, arguments)?;
    let copy = s.copy(alloc)?;
    put_subst(alloc, answer, &copy)
}

// the name, the arguments and the class of a copied symbol
fn put_of_symbol(alloc: Global, symbol: &Symbol, answer: &mut Vec<u8>) -> Result<(), Unread> {
    let copy = symbol.copy(alloc)?;
    put_copied_symbol(alloc, symbol, &copy, answer)
}

fn put_copied_symbol(
    alloc: Global,
    symbol: &Symbol,
    copy: &Symbol,
    answer: &mut Vec<u8>,
) -> Result<(), Unread> {
    push(answer, copy.name.as_bytes())?;
    put_doubt(answer, name_is_same(alloc, symbol, copy)?)?;
    put_doubt(answer, args_are_same(alloc, symbol, copy)?)?;
    put_doubt(answer, symbol.class == copy.class)
}

// whether a further copy of the name is that of the copied symbol
fn name_is_same(alloc: Global, symbol: &Symbol, copy: &Symbol) -> Result<bool, AllocError> {
    let name = symbol.name.copy(alloc)?;
    Ok(name == copy.name && name.same(&copy.name))
}

// whether the copied symbol, and a further copy of the arguments' sorts, have the sorts of the symbol
fn args_are_same(alloc: Global, symbol: &Symbol, copy: &Symbol) -> Result<bool, AllocError> {
    let args = symbol.args.copy(alloc)?;
    let sorts = symbol.args.as_slice();
    Ok(args.as_slice() == sorts && copy.args.as_slice() == sorts && copy.result == symbol.result)
}

/// The name of the copy of a symbol.
pub fn put_symbol(
    alloc: Global,
    symbols: &[Symbol],
    arguments: &str,
    answer: &mut Vec<u8>,
) -> Result<(), Unread> {
    let f = number(arguments)?;
    match symbols.get(f as usize) {
        Some(symbol) => put_of_symbol(alloc, symbol, answer),
        None => bad(),
    }
}

/// Whether the list of this one term is the same as its copy, and whether it is the same as the empty list.
pub fn put_terms(alloc: Global, arguments: &str, answer: &mut Vec<u8>) -> Result<(), Unread> {
    let mut terms = Items::new(alloc);
    terms.push(term(alloc, arguments)?)?;
    put_copy_of_terms(alloc, terms.as_slice(), answer)
}

fn put_copy_of_terms(alloc: Global, terms: &[Term], answer: &mut Vec<u8>) -> Result<(), Unread> {
    put_flag(answer, terms_are_same(alloc, terms)?)?;
    put_word(answer, b" ")?;
    put_flag(answer, same_all(terms, &[]))
}

// whether the copy of the terms is the same
fn terms_are_same(alloc: Global, terms: &[Term]) -> Result<bool, AllocError> {
    let copy = copy_all(alloc, terms)?;
    Ok(same_all(terms, copy.as_slice()))
}
