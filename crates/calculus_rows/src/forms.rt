//! Sums of literals.

use lin_base::{ArithmeticError, Op, Wide};
use linear_form::{LinearForm, is_false_literal, is_normal, is_same_literal, linear, summands};
use row_lines::{bad, clause, put_flag, term, two};
use std::alloc::{AllocError, Global};
use term_base::Symbol;
use term_text::push_term;
use text_pieces::{Unread, push, push_decimal, push_signed_decimal};

/// The summands of two terms, by their first places.
pub fn put_summands(alloc: Global, arguments: &str, answer: &mut Vec<u8>) -> Result<(), Unread> {
    let (left, right) = two(arguments)?;
    let s = term(alloc, left)?;
    let t = term(alloc, right)?;
    for summand in summands(alloc, &s, &t)?.as_slice() {
        push_term(alloc, answer, summand)?;
        push(answer, b" ")?;
    }
    push(answer, b".")?;
    Ok(())
}

fn put_form(alloc: Global, answer: &mut Vec<u8>, form: &LinearForm) -> Result<(), AllocError> {
    for (unknown, coefficient) in form.sum.coefs.as_slice() {
        push_signed_decimal(alloc, answer, *coefficient)?;
        push(answer, b"*u")?;
        push_decimal(alloc, answer, u128::from(*unknown))?;
        push(answer, b" + ")?;
    }
    push_signed_decimal(alloc, answer, form.sum.constant)
}

fn put_wide(alloc: Global, answer: &mut Vec<u8>, wide: Wide) -> Result<(), AllocError> {
    match wide.op {
        Op::Add => push(answer, b"wide add ")?,
        Op::Mul => push(answer, b"wide mul ")?,
    }
    push_signed_decimal(alloc, answer, wide.left)?;
    push(answer, b" ")?;
    push_signed_decimal(alloc, answer, wide.right)
}

/// The first term minus the second, over their summands.
pub fn put_linear(alloc: Global, arguments: &str, answer: &mut Vec<u8>) -> Result<(), Unread> {
    let (left, right) = two(arguments)?;
    let s = term(alloc, left)?;
    let t = term(alloc, right)?;
    match linear(alloc, &s, &t) {
        Ok(form) => put_form(alloc, answer, &form)?,
        Err(ArithmeticError::Wide(wide)) => put_wide(alloc, answer, wide)?,
        Err(ArithmeticError::Memory) => return Err(Unread::Memory),
    }
    Ok(())
}

/// Whether two literals say the same.
pub fn put_same(
    alloc: Global,
    symbols: &[Symbol],
    arguments: &str,
    answer: &mut Vec<u8>,
) -> Result<(), Unread> {
    let (left, right) = two(arguments)?;
    let c = clause(alloc, left)?;
    let d = clause(alloc, right)?;
    match (c.literals.as_slice(), d.literals.as_slice()) {
        ([l], [m]) => put_flag(answer, is_same_literal(alloc, symbols, l, m)?),
        _ => bad(),
    }
}

/// Whether a literal is false.
pub fn put_false(
    alloc: Global,
    symbols: &[Symbol],
    arguments: &str,
    answer: &mut Vec<u8>,
) -> Result<(), Unread> {
    let c = clause(alloc, arguments)?;
    match c.literals.as_slice() {
        [l] => put_flag(answer, is_false_literal(alloc, symbols, l)?),
        _ => bad(),
    }
}

/// Whether the second clause is a normal form of the first.
pub fn put_normal(
    alloc: Global,
    symbols: &[Symbol],
    arguments: &str,
    answer: &mut Vec<u8>,
) -> Result<(), Unread> {
    let (left, right) = two(arguments)?;
    let c = clause(alloc, left)?;
    let d = clause(alloc, right)?;
    put_flag(answer, is_normal(alloc, symbols, &c, &d)?)
}
