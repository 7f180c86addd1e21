//! Rows whose terms are large.

use crate::answers::put_word;
use crate::orders::put_both;
use row_lines::{bad, number, term, two};
use sqlite_items::Items;
use std::alloc::{AllocError, Global};
use term_base::{Symbol, Term, Variable};
use text_pieces::Unread;
use unifier::matches;

// s0 so many times over t
fn tower(alloc: Global, height: u32, t: Term) -> Result<Term, AllocError> {
    let mut top = t;
    for _ in 0..height {
        let mut args = Items::new(alloc);
        args.push(top)?;
        top = Term::App(0, args);
    }
    Ok(top)
}

// `HEIGHT TERM`
fn tower_of(alloc: Global, text: &str) -> Result<Term, Unread> {
    match text.split_once(' ') {
        Some((height, over)) => {
            let height = number(height)?;
            Ok(tower(alloc, height, term(alloc, over)?)?)
        }
        None => bad(),
    }
}

/// How two towers of s0 compare.
pub fn put_towers(
    alloc: Global,
    symbols: &[Symbol],
    arguments: &str,
    answer: &mut Vec<u8>,
) -> Result<(), Unread> {
    let (left, right) = two(arguments)?;
    let s = tower_of(alloc, left)?;
    let t = tower_of(alloc, right)?;
    put_both(symbols, &s, &t, answer)
}

// (A1 + (A0 + 0)), with so many variables
fn sum_of_variables(alloc: Global, count: u32) -> Result<Term, AllocError> {
    let mut sum = Term::Num(0);
    for i in 0..count {
        sum = Term::sum(alloc, Term::Var(Variable::abstraction(i)), sum)?;
    }
    Ok(sum)
}

/// How twice a sum of so many variables compares to the sum.
pub fn put_sums(
    alloc: Global,
    symbols: &[Symbol],
    arguments: &str,
    answer: &mut Vec<u8>,
) -> Result<(), Unread> {
    let count = number(arguments)?;
    let sum = sum_of_variables(alloc, count)?;
    put_against_twice(alloc, symbols, count, &sum, answer)
}

fn put_against_twice(
    alloc: Global,
    symbols: &[Symbol],
    count: u32,
    sum: &Term,
    answer: &mut Vec<u8>,
) -> Result<(), Unread> {
    let twice = Term::scale(alloc, 2, sum_of_variables(alloc, count)?)?;
    put_both(symbols, &twice, sum, answer)
}

// a sum with a copy of the part in front
fn with_part(alloc: Global, part: &Term, sum: Term) -> Result<Term, AllocError> {
    let first = part.copy(alloc)?;
    Term::sum(alloc, first, sum)
}

// a sum with one place more than so many, nested to the right
fn sum_of(alloc: Global, part: &Term, count: u32) -> Result<Term, AllocError> {
    let mut sum = part.copy(alloc)?;
    for _ in 0..count {
        sum = with_part(alloc, part, sum)?;
    }
    Ok(sum)
}

/// Whether N0 + (N0 + ..) matches S + (1 + (1 + ..)), where S is 1 + (1 + ..), with so many sums in each.
pub fn put_match_of_sums(
    alloc: Global,
    arguments: &str,
    answer: &mut Vec<u8>,
) -> Result<(), Unread> {
    let (left, right) = two(arguments)?;
    let count = number(right)?;
    let pattern = pattern_of(alloc, left, count)?;
    put_match_of(alloc, &pattern, count, answer)
}

// the sum of so many parts
fn pattern_of(alloc: Global, part: &str, count: u32) -> Result<Term, Unread> {
    let part = term(alloc, part)?;
    Ok(sum_of(alloc, &part, count)?)
}

// S + (1 + ..), where S is 1 + (1 + ..)
fn sum_of_ones(alloc: Global, count: u32) -> Result<Term, AllocError> {
    let first = sum_of(alloc, &Term::Num(1), count)?;
    let second = sum_of(alloc, &Term::Num(1), count)?;
    Term::sum(alloc, first, second)
}

fn put_match_of(
    alloc: Global,
    pattern: &Term,
    count: u32,
    answer: &mut Vec<u8>,
) -> Result<(), Unread> {
    let sum = sum_of_ones(alloc, count)?;
    put_whether_matched(alloc, pattern, &sum, answer)
}

fn put_whether_matched(
    alloc: Global,
    pattern: &Term,
    t: &Term,
    answer: &mut Vec<u8>,
) -> Result<(), Unread> {
    match matches(alloc, &[], pattern, t)? {
        Some(_) => put_word(answer, b"matches"),
        None => put_word(answer, b"none"),
    }
}
