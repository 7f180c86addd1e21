//! Abstractions of clauses.

use crate::answers::{put_clause, put_word};
use row_lines::{clause, number};
use sqlite_items::Items;
use std::alloc::{AllocError, Global};
use term_base::{Clause, Literal, Symbol, Term};
use text_pieces::{Unread, push_decimal};
use weak_abstraction::abstracted;

/// The abstraction of a clause; `no number` where none is left for a variable.
pub fn put_abstracted(
    alloc: Global,
    symbols: &[Symbol],
    arguments: &str,
    answer: &mut Vec<u8>,
) -> Result<(), Unread> {
    let c = clause(alloc, arguments)?;
    put_abstraction(alloc, symbols, &c, answer)
}

fn put_abstraction(
    alloc: Global,
    symbols: &[Symbol],
    c: &Clause,
    answer: &mut Vec<u8>,
) -> Result<(), Unread> {
    match abstracted(alloc, symbols, c) {
        Ok(d) => put_clause(alloc, answer, &d),
        Err(AllocError) => put_word(answer, b"no number"),
    }
}

// s0(sN) = true
fn predicate(alloc: Global, parameter: u32) -> Result<Literal, AllocError> {
    let mut args = Items::new(alloc);
    args.push(Term::App(parameter, Items::new(alloc)))?;
    Ok(Literal::Equal(Term::App(0, args), Term::True))
}

// s0(s3) = true | s0(s4) = true | ..
fn predicates(alloc: Global, count: u32) -> Result<Clause, AllocError> {
    let mut literals = Items::new(alloc);
    for i in 0..count {
        literals.push(predicate(alloc, i.saturating_add(3))?)?;
    }
    Ok(Clause { literals })
}

fn put_count(
    alloc: Global,
    symbols: &[Symbol],
    c: &Clause,
    answer: &mut Vec<u8>,
) -> Result<(), Unread> {
    let count = literal_count(alloc, symbols, c)?;
    push_decimal(alloc, answer, count as u128)?;
    Ok(())
}

// how many literals the abstraction has
fn literal_count(alloc: Global, symbols: &[Symbol], c: &Clause) -> Result<usize, AllocError> {
    let d = abstracted(alloc, symbols, c)?;
    Ok(d.literals.len())
}

/// How many literals the abstraction of s0(s3) = true | s0(s4) = true | .. has, over so many parameters.
pub fn put_targets(
    alloc: Global,
    symbols: &[Symbol],
    arguments: &str,
    answer: &mut Vec<u8>,
) -> Result<(), Unread> {
    let c = predicates(alloc, number(arguments)?)?;
    put_count(alloc, symbols, &c, answer)
}
