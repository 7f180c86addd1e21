//! What steps give for written substitutions.

use crate::candidates::literal_side;
use crate::printing::put_option;
use row_lines::{bad, clause, number, place, put_flag, substitution, term, two};
use std::alloc::Global;
use step_rules::{
    demodulated, factored, is_abstraction, is_definable, is_known, is_known_clause, is_written,
    pinned, resolved, same_literals, superposed,
};
use term_base::{Literal, Symbol};
use text_pieces::{Unread, push};

/// What superposition gives: two premises, a literal and side of the first, a place of the second, a substitution for each.
pub fn put_superposed(
    alloc: Global,
    symbols: &[Symbol],
    arguments: &str,
    answer: &mut Vec<u8>,
) -> Result<(), Unread> {
    let (first, more) = two(arguments)?;
    let (second, more) = two(more)?;
    let (from, more) = two(more)?;
    let (into, more) = two(more)?;
    let (left, right) = two(more)?;
    let (literal, side) = literal_side(from)?;
    let at = place(alloc, into)?;
    let s1 = substitution(alloc, left)?;
    let s2 = substitution(alloc, right)?;
    let c = clause(alloc, first)?;
    let d = clause(alloc, second)?;
    let found = superposed(alloc, symbols, &c, literal, side, &d, &at, &s1, &s2)?;
    put_option(alloc, answer, found.as_ref())?;
    Ok(())
}

/// What demodulation gives: a clause, a place of it, a unit, its side and its substitution.
pub fn put_demodulated(
    alloc: Global,
    symbols: &[Symbol],
    arguments: &str,
    answer: &mut Vec<u8>,
) -> Result<(), Unread> {
    let (first, more) = two(arguments)?;
    let (into, more) = two(more)?;
    let (second, more) = two(more)?;
    let (from, right) = two(more)?;
    let (_, side) = literal_side(from)?;
    let at = place(alloc, into)?;
    let s1 = substitution(alloc, right)?;
    let c = clause(alloc, first)?;
    let unit = clause(alloc, second)?;
    let found = demodulated(alloc, symbols, &c, &at, &unit, side, &s1)?;
    put_option(alloc, answer, found.as_ref())?;
    Ok(())
}

/// What resolution of a literal gives.
pub fn put_resolved(
    alloc: Global,
    symbols: &[Symbol],
    arguments: &str,
    answer: &mut Vec<u8>,
) -> Result<(), Unread> {
    let (first, more) = two(arguments)?;
    let (of, right) = two(more)?;
    let literal = number(of)?;
    let s1 = substitution(alloc, right)?;
    let c = clause(alloc, first)?;
    let found = resolved(alloc, symbols, &c, literal, &s1)?;
    put_option(alloc, answer, found.as_ref())?;
    Ok(())
}

/// What factoring of two literals gives.
pub fn put_factored(
    alloc: Global,
    symbols: &[Symbol],
    arguments: &str,
    answer: &mut Vec<u8>,
) -> Result<(), Unread> {
    let (first, more) = two(arguments)?;
    let (one, more) = two(more)?;
    let (other, right) = two(more)?;
    let (first_literal, first_side) = literal_side(one)?;
    let (second_literal, second_side) = literal_side(other)?;
    let s1 = substitution(alloc, right)?;
    let c = clause(alloc, first)?;
    let found = factored(
        alloc,
        symbols,
        &c,
        first_literal,
        first_side,
        second_literal,
        second_side,
        &s1,
    )?;
    put_option(alloc, answer, found.as_ref())?;
    Ok(())
}

/// What Pin of a literal gives.
pub fn put_pinned(
    alloc: Global,
    symbols: &[Symbol],
    arguments: &str,
    answer: &mut Vec<u8>,
) -> Result<(), Unread> {
    let (first, of) = two(arguments)?;
    let literal = number(of)?;
    let c = clause(alloc, first)?;
    let found = pinned(alloc, symbols, &c, literal)?;
    put_option(alloc, answer, found.as_ref())?;
    Ok(())
}

/// Whether the second clause is an abstraction of the first, and whether both have the same literals.
pub fn put_abstraction(
    alloc: Global,
    symbols: &[Symbol],
    arguments: &str,
    answer: &mut Vec<u8>,
) -> Result<(), Unread> {
    let (left, right) = two(arguments)?;
    let c = clause(alloc, left)?;
    let d = clause(alloc, right)?;
    put_flag(answer, is_abstraction(symbols, &c, &d))?;
    push(answer, b" ")?;
    put_flag(
        answer,
        same_literals(c.literals.as_slice(), d.literals.as_slice()),
    )
}

/// Whether a clause has only symbols below a number, and the left side of its last literal.
pub fn put_known(alloc: Global, arguments: &str, answer: &mut Vec<u8>) -> Result<(), Unread> {
    let (first, second) = two(arguments)?;
    let n = number(first)? as usize;
    let c = clause(alloc, second)?;
    put_flag(answer, is_known_clause(n, &c))?;
    push(answer, b" ")?;
    match c.literals.as_slice() {
        [
            ..,
            Literal::Equal(s, _) | Literal::Differ(s, _) | Literal::AtMost(s, _),
        ] => put_flag(answer, is_known(n, s)),
        [] => bad(),
    }
}

/// Whether a substitution may be written in a step, with so many symbols.
pub fn put_written(
    alloc: Global,
    symbols: &[Symbol],
    arguments: &str,
    answer: &mut Vec<u8>,
) -> Result<(), Unread> {
    let (first, second) = two(arguments)?;
    let n = number(first)? as usize;
    let s = substitution(alloc, second)?;
    put_flag(answer, is_written(symbols, n, &s))
}

/// Whether a term may be defined.
pub fn put_definable(
    alloc: Global,
    symbols: &[Symbol],
    arguments: &str,
    answer: &mut Vec<u8>,
) -> Result<(), Unread> {
    let t = term(alloc, arguments)?;
    put_flag(answer, is_definable(symbols, &t))
}
