//! Sums, products and divisors of numbers.

use crate::printing::put_wide;
use crate::texts::integer;
use lin_base::{Wide, checked_add, checked_mul, div_ceil, divides, gcd, lcm};
use row_lines::{bad, put_flag, two};
use std::alloc::Global;
use text_pieces::{Unread, push_decimal, push_signed_decimal};

fn put_number(
    alloc: Global,
    answer: &mut Vec<u8>,
    formed: Result<i128, Wide>,
) -> Result<(), Unread> {
    match formed {
        Ok(z) => push_signed_decimal(alloc, answer, z)?,
        Err(wide) => put_wide(alloc, answer, wide)?,
    }
    Ok(())
}

// two numbers
fn pair(arguments: &str) -> Result<(i128, i128), Unread> {
    let (left, right) = two(arguments)?;
    Ok((integer(left)?, integer(right)?))
}

/// The sum of two numbers.
pub fn put_sum(alloc: Global, arguments: &str, answer: &mut Vec<u8>) -> Result<(), Unread> {
    let (left, right) = pair(arguments)?;
    put_number(alloc, answer, checked_add(left, right))
}

/// The product of two numbers.
pub fn put_product(alloc: Global, arguments: &str, answer: &mut Vec<u8>) -> Result<(), Unread> {
    let (left, right) = pair(arguments)?;
    put_number(alloc, answer, checked_mul(left, right))
}

/// The least common multiple of two positive numbers.
pub fn put_lcm(alloc: Global, arguments: &str, answer: &mut Vec<u8>) -> Result<(), Unread> {
    let (left, right) = pair(arguments)?;
    if left < 1 || right < 1 {
        return bad();
    }
    put_number(alloc, answer, lcm(left, right))
}

/// The greatest common divisor of two numbers.
pub fn put_gcd(alloc: Global, arguments: &str, answer: &mut Vec<u8>) -> Result<(), Unread> {
    let (left, right) = pair(arguments)?;
    push_decimal(alloc, answer, gcd(left, right))?;
    Ok(())
}

/// The quotient by a positive number, rounded up.
pub fn put_quotient(alloc: Global, arguments: &str, answer: &mut Vec<u8>) -> Result<(), Unread> {
    let (left, right) = pair(arguments)?;
    if right < 1 {
        return bad();
    }
    push_signed_decimal(alloc, answer, div_ceil(left, right))?;
    Ok(())
}

/// Whether the first number divides the second.
pub fn put_divides(arguments: &str, answer: &mut Vec<u8>) -> Result<(), Unread> {
    let (left, right) = pair(arguments)?;
    put_flag(answer, divides(left, right))
}
