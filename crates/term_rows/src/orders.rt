//! Orders of terms, literals and variables.

use crate::answers::{put_word, two_terms, variable};
use row_lines::{bad, clause, two};
use std::alloc::Global;
use std::cmp::Ordering;
use term_base::{Clause, Symbol, Term};
use term_order::{Order, compare, is_maximal};
use text_pieces::{Unread, push, push_decimal};

/// The word of an order.
pub fn order_word(order: Order) -> &'static [u8] {
    match order {
        Order::Above => b"above",
        Order::Below => b"below",
        Order::Equal => b"equal",
        Order::Open => b"open",
    }
}

/// Puts how two terms compare in both directions.
pub fn put_both(
    symbols: &[Symbol],
    s: &Term,
    t: &Term,
    answer: &mut Vec<u8>,
) -> Result<(), Unread> {
    push(answer, order_word(compare(symbols, s, t)))?;
    push(answer, b" ")?;
    push(answer, order_word(compare(symbols, t, s)))?;
    Ok(())
}

/// How the first term compares to the second, and the second to the first.
pub fn put_order(
    alloc: Global,
    symbols: &[Symbol],
    arguments: &str,
    answer: &mut Vec<u8>,
) -> Result<(), Unread> {
    let (left, right) = two(arguments)?;
    let pair = two_terms(alloc, left, right)?;
    put_both(symbols, &pair.0, &pair.1, answer)
}

// whether no other literal is above the one of a number, which is bad where there is none
fn is_maximal_at(symbols: &[Symbol], c: &Clause, literal: u32) -> Result<bool, Unread> {
    if (literal as usize) < c.literals.len() {
        Ok(is_maximal(symbols, c, literal))
    } else {
        bad()
    }
}

fn put_numbers(
    alloc: Global,
    symbols: &[Symbol],
    c: &Clause,
    answer: &mut Vec<u8>,
) -> Result<(), Unread> {
    let mut literal: u32 = 0;
    for _ in c.literals.as_slice() {
        if is_maximal_at(symbols, c, literal)? {
            push(answer, b".")?;
            push_decimal(alloc, answer, u128::from(literal))?;
        }
        literal = literal.saturating_add(1);
    }
    Ok(())
}

/// The numbers of the maximal literals of a clause.
pub fn put_maximal(
    alloc: Global,
    symbols: &[Symbol],
    arguments: &str,
    answer: &mut Vec<u8>,
) -> Result<(), Unread> {
    let c = clause(alloc, arguments)?;
    put_numbers(alloc, symbols, &c, answer)
}

/// How two variables are ordered.
pub fn put_variable_order(
    alloc: Global,
    arguments: &str,
    answer: &mut Vec<u8>,
) -> Result<(), Unread> {
    let _alloc = alloc;
    let (left, right) = two(arguments)?;
    let v = variable(left)?;
    let w = variable(right)?;
    match v.order(w) {
        Ordering::Less => put_word(answer, b"less"),
        Ordering::Equal => put_word(answer, b"equal"),
        Ordering::Greater => put_word(answer, b"greater"),
    }
}
