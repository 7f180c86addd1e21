//! Lists of numbers.

ghost use Rattle.std.specs.Prelude.{true};
ghost use Rattle.text_pieces.specs.Languages.{Blank};
ghost use Rattle.text_pieces.specs.Numbers.{Number, Word32, Signed, Signed128};

use crate::pieces::put_bad;
use row_lines::bytes_of;
use std::alloc::{AllocError, Global};
use text_pieces::{
    Printer, Reader, Unread, blank_signed, counted, push, push_blank_signed, push_counted,
    push_decimal, push_separated, push_signed_decimal, separated, word32,
};

/// Reads numbers.
struct ReadNumber;

impl Reader for ReadNumber {
    type Value = u32;

    ghost spells = { Number Word32 };

    fn read(_alloc: Global, text: &[u8]) -> Result<(u32, &[u8]), Unread> {
        Ok(word32(text)?)
    }
}

/// Reads numbers with a sign, each behind a blank.
struct ReadSigned;

impl Reader for ReadSigned {
    type Value = i128;

    ghost spells = { Blank (Signed (Signed128 0)) };

    fn read(_alloc: Global, text: &[u8]) -> Result<(i128, &[u8]), Unread> {
        Ok(blank_signed(text, 0)?)
    }
}

/// Prints numbers with a sign, each behind a blank.
struct PrintSigned;

impl Printer for PrintSigned {
    type Value = i128;

    ghost spells = { Blank (Signed (Signed128 0)) };

    ghost is_spelled = { λ _. true };

    fn push(alloc: Global, text: &mut Vec<u8>, value: &i128) -> Result<(), AllocError> {
        push_blank_signed(alloc, text, *value)
    }
}

// how many numbers stand with a comma between each two and a blank behind the last, the last one, and how many bytes follow
fn listed(alloc: Global, text: &[u8]) -> Result<(usize, Option<u32>, usize), Unread> {
    let (mut numbers, rest) = separated::<ReadNumber>(alloc, text, b',', b' ')?;
    let count = numbers.len();
    Ok((count, numbers.pop(), rest.len()))
}

// how many numbers stand behind their count, the last one, and how many bytes follow
fn several(alloc: Global, text: &[u8]) -> Result<(usize, Option<i128>, usize), Unread> {
    let (mut numbers, rest) = counted::<ReadSigned>(alloc, text)?;
    let count = numbers.len();
    Ok((count, numbers.pop(), rest.len()))
}

fn put_found(
    alloc: Global,
    answer: &mut Vec<u8>,
    count: usize,
    last: Option<i128>,
    rest: usize,
) -> Result<(), AllocError> {
    push_decimal(alloc, answer, count as u128)?;
    push(answer, b" numbers, last ")?;
    match last {
        Some(z) => push_signed_decimal(alloc, answer, z)?,
        None => push(answer, b"none")?,
    }
    push(answer, b", left ")?;
    push_decimal(alloc, answer, rest as u128)
}

/// A list with commas and a blank behind it.
pub fn put_listed(alloc: Global, arguments: &str, answer: &mut Vec<u8>) -> Result<(), Unread> {
    let text = bytes_of(alloc, arguments)?;
    match listed(alloc, text.as_slice()) {
        Ok((count, last, rest)) => put_found(
            alloc,
            answer,
            count,
            last.map(|n| i128::from(n)),
            rest,
        )?,
        Err(Unread::Bad(bad)) => put_bad(alloc, answer, bad.left)?,
        Err(Unread::Memory) => return Err(Unread::Memory),
    }
    Ok(())
}

/// A list behind its count.
pub fn put_several(alloc: Global, arguments: &str, answer: &mut Vec<u8>) -> Result<(), Unread> {
    let text = bytes_of(alloc, arguments)?;
    match several(alloc, text.as_slice()) {
        Ok((count, last, rest)) => put_found(alloc, answer, count, last, rest)?,
        Err(Unread::Bad(bad)) => put_bad(alloc, answer, bad.left)?,
        Err(Unread::Memory) => return Err(Unread::Memory),
    }
    Ok(())
}

/// Two lists, put one behind the other.
pub fn put_printed(alloc: Global, arguments: &str, answer: &mut Vec<u8>) -> Result<(), Unread> {
    push(answer, arguments.as_bytes())?;
    push_counted::<PrintSigned>(alloc, answer, &[-5, 7])?;
    push_separated::<PrintSigned>(alloc, answer, &1, &[2, 3], b',', b'.')?;
    Ok(())
}
