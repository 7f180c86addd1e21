//! Calls on sums.

use crate::printing::{put_formed, put_sum};
use crate::texts::{any_sum, integer, sum};
use lin_base::{
    above, add, add_number, add_scaled, coef, has_unknown, is_lin, negate, occurs, same_lin, scale,
    without,
};
use row_lines::{number, put_flag, two};
use std::alloc::Global;
use text_pieces::{Unread, push, push_signed_decimal};

/// Whether a sum is well formed, whether it has an unknown, and whether it is the same as its copy.
pub fn put_tests(alloc: Global, arguments: &str, answer: &mut Vec<u8>) -> Result<(), Unread> {
    let t = any_sum(alloc, arguments)?;
    let copy = t.copy(alloc)?;
    put_flag(answer, is_lin(&t))?;
    push(answer, b" ")?;
    put_flag(answer, has_unknown(&t))?;
    push(answer, b" ")?;
    put_flag(answer, same_lin(&t, &copy))
}

/// The coefficient of an unknown, and whether it occurs.
pub fn put_coefficient(alloc: Global, arguments: &str, answer: &mut Vec<u8>) -> Result<(), Unread> {
    let (unknown, of) = two(arguments)?;
    let x = number(unknown)?;
    let t = sum(alloc, of)?;
    push_signed_decimal(alloc, answer, coef(x, &t))?;
    push(answer, b" ")?;
    put_flag(answer, occurs(x, &t))
}

/// A sum without an unknown.
pub fn put_without(alloc: Global, arguments: &str, answer: &mut Vec<u8>) -> Result<(), Unread> {
    let (unknown, of) = two(arguments)?;
    let x = number(unknown)?;
    let t = sum(alloc, of)?;
    put_sum(alloc, answer, &without(alloc, x, &t)?)?;
    Ok(())
}

/// The sum of two sums.
pub fn put_added(alloc: Global, arguments: &str, answer: &mut Vec<u8>) -> Result<(), Unread> {
    let (left, right) = two(arguments)?;
    let t = sum(alloc, left)?;
    let u = sum(alloc, right)?;
    put_formed(alloc, answer, add(alloc, &t, &u))
}

/// A sum and a number.
pub fn put_number_added(
    alloc: Global,
    arguments: &str,
    answer: &mut Vec<u8>,
) -> Result<(), Unread> {
    let (left, right) = two(arguments)?;
    let c = integer(right)?;
    let t = sum(alloc, left)?;
    put_formed(alloc, answer, add_number(alloc, &t, c))
}

/// A sum, and a number times another sum.
pub fn put_scaled_added(
    alloc: Global,
    arguments: &str,
    answer: &mut Vec<u8>,
) -> Result<(), Unread> {
    let (left, more) = two(arguments)?;
    let (factor, right) = two(more)?;
    let k = integer(factor)?;
    let t = sum(alloc, left)?;
    let u = sum(alloc, right)?;
    put_formed(alloc, answer, add_scaled(alloc, &t, k, &u))
}

/// A number times a sum.
pub fn put_scaled(alloc: Global, arguments: &str, answer: &mut Vec<u8>) -> Result<(), Unread> {
    let (factor, of) = two(arguments)?;
    let k = integer(factor)?;
    let t = sum(alloc, of)?;
    put_formed(alloc, answer, scale(alloc, k, &t))
}

/// -1 times a sum.
pub fn put_negated(alloc: Global, arguments: &str, answer: &mut Vec<u8>) -> Result<(), Unread> {
    let t = sum(alloc, arguments)?;
    put_formed(alloc, answer, negate(alloc, &t))
}

/// -1 times a sum, and 1.
pub fn put_above(alloc: Global, arguments: &str, answer: &mut Vec<u8>) -> Result<(), Unread> {
    let t = sum(alloc, arguments)?;
    put_formed(alloc, answer, above(alloc, &t))
}
