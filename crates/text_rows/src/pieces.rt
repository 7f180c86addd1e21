//! Numbers and words; of a text that is bad the bytes that are left are counted.

use row_lines::{bad, bytes_of, two};
use std::alloc::{AllocError, Global};
use text_pieces::{
    Bad, Unread, after_byte, begins_with, behind, count, exactly, front, number, one_of, push,
    push_blank_decimal, push_blank_signed, push_decimal, push_signed_decimal, signed, word32,
};

/// Puts that a text is bad, with so many bytes left.
pub fn put_bad(alloc: Global, answer: &mut Vec<u8>, left: usize) -> Result<(), AllocError> {
    push(answer, b"bad, left ")?;
    push_decimal(alloc, answer, left as u128)
}

fn put_found(alloc: Global, answer: &mut Vec<u8>, found: Result<u128, Bad>) -> Result<(), Unread> {
    match found {
        Ok(n) => push_decimal(alloc, answer, n)?,
        Err(bad) => put_bad(alloc, answer, bad.left)?,
    }
    Ok(())
}

fn put_rest(alloc: Global, answer: &mut Vec<u8>, found: Result<&[u8], Bad>) -> Result<(), Unread> {
    match found {
        Ok(rest) => {
            push(answer, b"then [")?;
            push(answer, rest)?;
            push(answer, b"]")?;
        }
        Err(bad) => put_bad(alloc, answer, bad.left)?,
    }
    Ok(())
}

// the bytes of an argument in brackets
fn inside(alloc: Global, argument: &str) -> Result<Vec<u8>, Unread> {
    match argument.strip_prefix('[') {
        Some(rest) => match rest.strip_suffix(']') {
            Some(text) => bytes_of(alloc, text),
            None => bad(),
        },
        None => bad(),
    }
}

/// A number below 2^32.
pub fn put_word32(alloc: Global, arguments: &str, answer: &mut Vec<u8>) -> Result<(), Unread> {
    let text = inside(alloc, arguments)?;
    put_found(
        alloc,
        answer,
        word32(text.as_slice()).map(|found| u128::from(found.0)),
    )
}

/// A signed number that is at least so far from 0.
pub fn put_signed(alloc: Global, arguments: &str, answer: &mut Vec<u8>) -> Result<(), Unread> {
    let (least, text) = two(arguments)?;
    let least = u64::from(row_lines::number(least)?);
    let text = inside(alloc, text)?;
    match signed(text.as_slice(), least) {
        Ok((z, _)) => push_signed_decimal(alloc, answer, z)?,
        Err(bad) => put_bad(alloc, answer, bad.left)?,
    }
    Ok(())
}

/// A number of a window.
pub fn put_number(alloc: Global, arguments: &str, answer: &mut Vec<u8>) -> Result<(), Unread> {
    let (low, more) = two(arguments)?;
    let (high, text) = two(more)?;
    let low = row_lines::number(low)?;
    let high = row_lines::number(high)?;
    let text = inside(alloc, text)?;
    put_found(alloc, answer, number_within(text.as_slice(), low, high)?)
}

// the number in front of a text, from low to high; a window is bad where high is below low
fn number_within(text: &[u8], low: u32, high: u32) -> Result<Result<u128, Bad>, Unread> {
    if low <= high {
        let found = number(text, u128::from(low), u128::from(high));
        Ok(found.map(|found| found.0))
    } else {
        bad()
    }
}

/// A count of any size.
pub fn put_count(alloc: Global, arguments: &str, answer: &mut Vec<u8>) -> Result<(), Unread> {
    let text = inside(alloc, arguments)?;
    put_found(alloc, answer, count(text.as_slice()).map(|found| found.0))
}

// the one byte of an argument
fn byte(alloc: Global, argument: &str) -> Result<u8, Unread> {
    match inside(alloc, argument)?.as_slice() {
        [byte] => Ok(*byte),
        _ => bad(),
    }
}

/// What follows a byte, or `none`.
pub fn put_after(alloc: Global, arguments: &str, answer: &mut Vec<u8>) -> Result<(), Unread> {
    let (first, text) = two(arguments)?;
    let first = byte(alloc, first)?;
    let text = inside(alloc, text)?;
    match after_byte(text.as_slice(), first) {
        Some(rest) => put_rest(alloc, answer, Ok(rest)),
        None => Ok(push(answer, b"none")?),
    }
}

/// What follows a byte.
pub fn put_behind(alloc: Global, arguments: &str, answer: &mut Vec<u8>) -> Result<(), Unread> {
    let (first, text) = two(arguments)?;
    let first = byte(alloc, first)?;
    let text = inside(alloc, text)?;
    put_rest(alloc, answer, behind(text.as_slice(), first))
}

/// What follows a word and the blank behind it.
pub fn put_exactly(alloc: Global, arguments: &str, answer: &mut Vec<u8>) -> Result<(), Unread> {
    let (word, text) = two(arguments)?;
    let word = inside(alloc, word)?;
    let text = inside(alloc, text)?;
    put_rest(alloc, answer, exactly(text.as_slice(), word.as_slice()))
}

/// What follows a word.
pub fn put_front(alloc: Global, arguments: &str, answer: &mut Vec<u8>) -> Result<(), Unread> {
    let (word, text) = two(arguments)?;
    let word = inside(alloc, word)?;
    let text = inside(alloc, text)?;
    put_rest(alloc, answer, front(text.as_slice(), word.as_slice()))
}

/// Whether a byte begins a text.
pub fn put_begins(alloc: Global, arguments: &str, answer: &mut Vec<u8>) -> Result<(), Unread> {
    let (first, text) = two(arguments)?;
    let first = byte(alloc, first)?;
    let text = inside(alloc, text)?;
    row_lines::put_flag(answer, begins_with(text.as_slice(), first))
}

const RELATIONS: [&[u8]; 3] = [b"=", b"!=", b"<="];

const NODES: [&[u8]; 3] = [b"case", b"c", b"cut"];

fn put_place(
    alloc: Global,
    answer: &mut Vec<u8>,
    found: Result<(usize, &[u8]), Bad>,
) -> Result<(), Unread> {
    match found {
        Ok((place, rest)) => {
            push_decimal(alloc, answer, place as u128)?;
            push(answer, b" ")?;
            put_rest(alloc, answer, Ok(rest))
        }
        Err(bad) => Ok(put_bad(alloc, answer, bad.left)?),
    }
}

/// The number of the word that begins a text, and what follows; the words are `=`, `!=`, `<=`, or `case`, `c`, `cut`.
pub fn put_one_of(alloc: Global, arguments: &str, answer: &mut Vec<u8>) -> Result<(), Unread> {
    let (words, text) = two(arguments)?;
    let text = inside(alloc, text)?;
    match words {
        "relations" => put_place(alloc, answer, one_of(text.as_slice(), &RELATIONS)),
        "nodes" => put_place(alloc, answer, one_of(text.as_slice(), &NODES)),
        _ => bad(),
    }
}

/// Numbers, put one behind the other.
pub fn put_printed(alloc: Global, arguments: &str, answer: &mut Vec<u8>) -> Result<(), Unread> {
    push(answer, arguments.as_bytes())?;
    push_decimal(alloc, answer, u128::MAX)?;
    push_signed_decimal(alloc, answer, i128::MIN)?;
    push_blank_decimal(alloc, answer, 0)?;
    push_blank_signed(alloc, answer, -7)?;
    Ok(())
}
