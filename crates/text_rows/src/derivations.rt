//! Texts of derivations, read and printed again.

use proof_steps::Derivation;
use proof_text::laws::no_other_is_spelled;
use proof_text::{
    BadText, Status, TextError, parse_derivation, parse_text, print_derivation, print_text,
};
use row_lines::{bad, bytes_of};
use std::alloc::{AllocError, Global};
use text_pieces::{Unread, push, push_decimal};

// want of memory, as reading tells it
fn told(put: Result<(), AllocError>) -> Result<(), TextError> {
    match put {
        Ok(()) => Ok(()),
        Err(_) => Err(TextError::Memory),
    }
}

fn again(alloc: Global, bytes: &[u8], answer: &mut Vec<u8>) -> Result<(), TextError> {
    no_other_is_spelled();
    let d = parse_derivation(alloc, bytes)?;
    match print_derivation(alloc, &d) {
        Ok(printed) => told(put_steps(alloc, answer, &d, printed.as_slice() == bytes)),
        Err(_) => Err(TextError::Memory),
    }
}

fn again_with_status(alloc: Global, bytes: &[u8], answer: &mut Vec<u8>) -> Result<(), TextError> {
    no_other_is_spelled();
    let (status, d) = parse_text(alloc, bytes)?;
    match print_text(alloc, status, &d) {
        Ok(printed) => {
            let is_same = printed.as_slice() == bytes;
            told(put_all(alloc, answer, status, &d, is_same))
        }
        Err(_) => Err(TextError::Memory),
    }
}

// the status, and what is put of the derivation
fn put_all(
    alloc: Global,
    answer: &mut Vec<u8>,
    status: Status,
    d: &Derivation,
    is_same: bool,
) -> Result<(), AllocError> {
    put_status(answer, status)?;
    put_steps(alloc, answer, d, is_same)
}

fn put_status(answer: &mut Vec<u8>, status: Status) -> Result<(), AllocError> {
    match status {
        Status::Theorem => push(answer, b"Theorem "),
        Status::Unsatisfiable => push(answer, b"Unsatisfiable "),
    }
}

// the mode, the number of steps, and whether the text is printed as it was
fn put_steps(
    alloc: Global,
    answer: &mut Vec<u8>,
    d: &Derivation,
    is_same: bool,
) -> Result<(), AllocError> {
    if d.ordinary {
        push(answer, b"ordinary ")?;
    } else {
        push(answer, b"abstraction ")?;
    }
    push_decimal(alloc, answer, d.steps.len() as u128)?;
    if is_same {
        Ok(())
    } else {
        push(answer, b" (printed otherwise)")
    }
}

fn put_outcome(
    alloc: Global,
    answer: &mut Vec<u8>,
    read: Result<(), TextError>,
) -> Result<(), Unread> {
    match read {
        Ok(()) => Ok(()),
        Err(TextError::BadText(BadText { at })) => {
            push(answer, b"bad at ")?;
            push_decimal(alloc, answer, u128::from(at))?;
            Ok(())
        }
        Err(TextError::Memory) => Err(Unread::Memory),
    }
}

/// A derivation without a status line.
pub fn put_derivation(alloc: Global, arguments: &str, answer: &mut Vec<u8>) -> Result<(), Unread> {
    let text = bytes_of(alloc, arguments)?;
    let read = again(alloc, text.as_slice(), answer);
    put_outcome(alloc, answer, read)
}

/// A derivation behind its status line.
pub fn put_answer(alloc: Global, arguments: &str, answer: &mut Vec<u8>) -> Result<(), Unread> {
    let text = bytes_of(alloc, arguments)?;
    let read = again_with_status(alloc, text.as_slice(), answer);
    put_outcome(alloc, answer, read)
}

fn ends_early(alloc: Global, bytes: &[u8]) -> bool {
    match parse_text(alloc, bytes) {
        Err(TextError::BadText(BadText { at })) => at == bytes.len() as u64,
        _ => false,
    }
}

/// How many beginnings of a text are bad at their ends.
pub fn put_prefixes(alloc: Global, arguments: &str, answer: &mut Vec<u8>) -> Result<(), Unread> {
    let text = bytes_of(alloc, arguments)?;
    let mut early: u64 = 0;
    for length in 0..text.len() {
        match text.as_slice().get(..length) {
            Some(cut) => if ends_early(alloc, cut) {
                early = early.saturating_add(1);
            },
            None => return bad(),
        }
    }
    push_decimal(alloc, answer, u128::from(early))?;
    Ok(())
}
