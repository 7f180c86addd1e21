//! Substitutions, and terms put at places.

use crate::answers::{put_clause, put_option, put_subst, put_under, put_word, variable};
use row_lines::{clause, place, put_flag, substitution, term, two};
use sqlite_items::Items;
use std::alloc::{AllocError, Global};
use term_base::{
    Clause, Literal, Place, Subst, Symbol, Term, Variable, apply_clause, is_simple, place_term,
    replace_at, replace_in_literal,
};
use text_pieces::Unread;

/// A term under a substitution.
pub fn put_applied(
    alloc: Global,
    symbols: &[Symbol],
    arguments: &str,
    answer: &mut Vec<u8>,
) -> Result<(), Unread> {
    let (left, right) = two(arguments)?;
    let t = term(alloc, left)?;
    put_image_of(alloc, symbols, &t, right, answer)
}

fn put_image_of(
    alloc: Global,
    symbols: &[Symbol],
    t: &Term,
    pairs: &str,
    answer: &mut Vec<u8>,
) -> Result<(), Unread> {
    let s = substitution(alloc, pairs)?;
    put_under(alloc, symbols, t, &s, answer)
}

/// A clause under a substitution.
pub fn put_applied_clause(
    alloc: Global,
    symbols: &[Symbol],
    arguments: &str,
    answer: &mut Vec<u8>,
) -> Result<(), Unread> {
    let (left, right) = two(arguments)?;
    let c = clause(alloc, left)?;
    put_image_of_clause(alloc, symbols, &c, right, answer)
}

fn put_image_of_clause(
    alloc: Global,
    symbols: &[Symbol],
    c: &Clause,
    pairs: &str,
    answer: &mut Vec<u8>,
) -> Result<(), Unread> {
    let s = substitution(alloc, pairs)?;
    put_clause_under(alloc, symbols, c, &s, answer)
}

fn put_clause_under(
    alloc: Global,
    symbols: &[Symbol],
    c: &Clause,
    s: &Subst,
    answer: &mut Vec<u8>,
) -> Result<(), Unread> {
    let image = apply_clause(alloc, symbols, c, s)?;
    put_clause(alloc, answer, &image)
}

/// What a substitution has for a variable.
pub fn put_image(alloc: Global, arguments: &str, answer: &mut Vec<u8>) -> Result<(), Unread> {
    let (left, right) = two(arguments)?;
    let v = variable(left)?;
    let s = substitution(alloc, right)?;
    put_option(alloc, answer, s.get(v))
}

/// Whether a substitution is simple.
pub fn put_simple(
    alloc: Global,
    symbols: &[Symbol],
    arguments: &str,
    answer: &mut Vec<u8>,
) -> Result<(), Unread> {
    let s = substitution(alloc, arguments)?;
    put_flag(answer, is_simple(symbols, &s))
}

fn of_pair(alloc: Global, v: Variable, t: Term) -> Result<Option<Subst>, AllocError> {
    let mut pairs = Items::new(alloc);
    pairs.push((v, t))?;
    Ok(Subst::try_from_pairs(pairs))
}

/// The substitution of one pair, or `none`.
pub fn put_pairs(alloc: Global, arguments: &str, answer: &mut Vec<u8>) -> Result<(), Unread> {
    let (left, right) = two(arguments)?;
    let v = variable(left)?;
    let t = term(alloc, right)?;
    match of_pair(alloc, v, t)? {
        Some(s) => put_subst(alloc, answer, &s),
        None => put_word(answer, b"none"),
    }
}

/// A clause with a term put at a place.
pub fn put_replaced(
    alloc: Global,
    symbols: &[Symbol],
    arguments: &str,
    answer: &mut Vec<u8>,
) -> Result<(), Unread> {
    let (first, more) = two(arguments)?;
    let (second, third) = two(more)?;
    let place = place(alloc, second)?;
    let t = term(alloc, third)?;
    put_with(alloc, symbols, first, &place, &t, answer)
}

fn put_with(
    alloc: Global,
    symbols: &[Symbol],
    clause_text: &str,
    place: &Place,
    t: &Term,
    answer: &mut Vec<u8>,
) -> Result<(), Unread> {
    let c = clause(alloc, clause_text)?;
    put_replacement(alloc, symbols, &c, place, t, answer)
}

fn put_replacement(
    alloc: Global,
    symbols: &[Symbol],
    c: &Clause,
    place: &Place,
    t: &Term,
    answer: &mut Vec<u8>,
) -> Result<(), Unread> {
    let made = replace_at(alloc, symbols, c, place, t)?;
    put_clause(alloc, answer, &made)
}

// a copy of the literal, moved, with a copy of the term at the side and path
fn literal_with(
    alloc: Global,
    l: &Literal,
    place: &Place,
    t: &Term,
) -> Result<Literal, AllocError> {
    let new = t.copy(alloc)?;
    let copy = l.copy(alloc)?;
    replace_in_literal(alloc, copy, place.side, place.path.as_slice(), new)
}

// the clause, each of whose literals has the term at the side and path
fn all_replaced(alloc: Global, c: &Clause, place: &Place, t: &Term) -> Result<Clause, AllocError> {
    let mut literals = Items::new(alloc);
    for l in c.literals.as_slice() {
        literals.push(literal_with(alloc, l, place, t)?)?;
    }
    Ok(Clause { literals })
}

/// A clause whose literals were moved, each with a term put at a side and a path.
pub fn put_in_literal(alloc: Global, arguments: &str, answer: &mut Vec<u8>) -> Result<(), Unread> {
    let (first, more) = two(arguments)?;
    let (second, third) = two(more)?;
    let place = place(alloc, second)?;
    let t = term(alloc, third)?;
    put_all_with(alloc, first, &place, &t, answer)
}

fn put_all_with(
    alloc: Global,
    clause_text: &str,
    place: &Place,
    t: &Term,
    answer: &mut Vec<u8>,
) -> Result<(), Unread> {
    let c = clause(alloc, clause_text)?;
    put_all_replaced(alloc, &c, place, t, answer)
}

fn put_all_replaced(
    alloc: Global,
    c: &Clause,
    place: &Place,
    t: &Term,
    answer: &mut Vec<u8>,
) -> Result<(), Unread> {
    let made = all_replaced(alloc, c, place, t)?;
    put_clause(alloc, answer, &made)
}

/// The term at a place of a clause.
pub fn put_at(
    alloc: Global,
    symbols: &[Symbol],
    arguments: &str,
    answer: &mut Vec<u8>,
) -> Result<(), Unread> {
    let (left, right) = two(arguments)?;
    let place = place(alloc, right)?;
    let c = clause(alloc, left)?;
    put_option(alloc, answer, place_term(symbols, &c, &place))
}
