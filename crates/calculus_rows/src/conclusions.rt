//! Candidates of clauses, what is concluded from them, and the next term of a clause.

use crate::candidates::{candidate, put_candidate};
use crate::printing::put_clause;
use define_rule::next_term;
use hier_rules::{Candidate, Fired, candidates, conclude, own_candidates};
use query_board::Stamp;
use row_lines::{clause, two};
use std::alloc::{AllocError, Global};
use term_base::{Clause, Symbol};
use term_text::{push_substitution, push_term};
use text_pieces::{Unread, push, push_decimal};

fn stamp(clause: u32) -> Stamp {
    Stamp { clause, version: 0 }
}

/// The copy of a candidate.
pub fn put_copy(alloc: Global, arguments: &str, answer: &mut Vec<u8>) -> Result<(), Unread> {
    let copy = candidate(alloc, arguments)?.copy(alloc)?;
    put_candidate(alloc, answer, &copy)?;
    push(answer, b".")?;
    Ok(())
}

// what fires for a candidate and its premises
fn fired(alloc: Global, symbols: &[Symbol], arguments: &str) -> Result<Option<Fired>, Unread> {
    let (first, more) = two(arguments)?;
    let (second, third) = two(more)?;
    let c = clause(alloc, second)?;
    let d = clause(alloc, third)?;
    let asked = candidate(alloc, first)?;
    Ok(conclude(alloc, symbols, &asked, &c, &d)?)
}

/// The conclusion, or `none`.
pub fn put_conclusion(
    alloc: Global,
    symbols: &[Symbol],
    arguments: &str,
    answer: &mut Vec<u8>,
) -> Result<(), Unread> {
    match fired(alloc, symbols, arguments)? {
        Some(found) => put_clause(alloc, answer, &found.clause)?,
        None => push(answer, b"none")?,
    }
    Ok(())
}

/// The substitutions of both premises, or `none`.
pub fn put_substitutions(
    alloc: Global,
    symbols: &[Symbol],
    arguments: &str,
    answer: &mut Vec<u8>,
) -> Result<(), Unread> {
    match fired(alloc, symbols, arguments)? {
        Some(found) => {
            push_substitution(alloc, answer, &found.s1)?;
            push(answer, b" ")?;
            push_substitution(alloc, answer, &found.s2)?;
        }
        None => push(answer, b"none")?,
    }
    Ok(())
}

fn put_all(alloc: Global, answer: &mut Vec<u8>, all: &[Candidate]) -> Result<(), AllocError> {
    for candidate in all {
        put_candidate(alloc, answer, candidate)?;
        push(answer, b", ")?;
    }
    push_decimal(alloc, answer, all.len() as u128)
}

/// The superpositions from one clause into another, in their order, and their number.
pub fn put_pairs(
    alloc: Global,
    symbols: &[Symbol],
    arguments: &str,
    answer: &mut Vec<u8>,
) -> Result<(), Unread> {
    let (left, right) = two(arguments)?;
    let c = clause(alloc, left)?;
    let d = clause(alloc, right)?;
    let all = candidates(alloc, symbols, &c, stamp(0), &d, stamp(1))?;
    put_all(alloc, answer, all.as_slice())?;
    Ok(())
}

// for how many candidates nothing fires
fn count_silent(
    alloc: Global,
    symbols: &[Symbol],
    all: &[Candidate],
    c: &Clause,
    d: &Clause,
) -> Result<u64, AllocError> {
    let mut silent: u64 = 0;
    for candidate in all {
        if conclude(alloc, symbols, candidate, c, d)?.is_none() {
            silent = silent.saturating_add(1);
        }
    }
    Ok(silent)
}

/// How many superpositions there are from one clause into another, and for how many nothing fires.
pub fn put_silent(
    alloc: Global,
    symbols: &[Symbol],
    arguments: &str,
    answer: &mut Vec<u8>,
) -> Result<(), Unread> {
    let (left, right) = two(arguments)?;
    let c = clause(alloc, left)?;
    let d = clause(alloc, right)?;
    let all = candidates(alloc, symbols, &c, stamp(0), &d, stamp(1))?;
    let silent = count_silent(alloc, symbols, all.as_slice(), &c, &d)?;
    push_decimal(alloc, answer, all.len() as u128)?;
    push(answer, b" ")?;
    push_decimal(alloc, answer, u128::from(silent))?;
    Ok(())
}

/// The resolutions and factorings of a clause, in their order, and their number.
pub fn put_own(
    alloc: Global,
    symbols: &[Symbol],
    arguments: &str,
    answer: &mut Vec<u8>,
) -> Result<(), Unread> {
    let c = clause(alloc, arguments)?;
    let all = own_candidates(alloc, symbols, &c, stamp(0))?;
    put_all(alloc, answer, all.as_slice())?;
    Ok(())
}

/// The next term of a clause to define, or `none`.
pub fn put_next(
    alloc: Global,
    symbols: &[Symbol],
    arguments: &str,
    answer: &mut Vec<u8>,
) -> Result<(), Unread> {
    let c = clause(alloc, arguments)?;
    match next_term(alloc, symbols, &c)? {
        Some(t) => push_term(alloc, answer, &t)?,
        None => push(answer, b"none")?,
    }
    Ok(())
}
