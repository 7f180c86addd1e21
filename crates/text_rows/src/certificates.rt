//! Texts of certificates, read and printed again.

use cert_text::{BadText, TextError, no_other_is_spelled, parse_cert, print_cert};
use row_lines::{bad, bytes_of};
use std::alloc::Global;
use text_pieces::{Unread, push, push_decimal};

// how many bytes the certificate in front takes, and whether it is printed as these
fn again(alloc: Global, bytes: &[u8]) -> Result<(u64, bool), TextError> {
    no_other_is_spelled();
    let (cert, taken) = parse_cert(alloc, bytes)?;
    match print_cert(alloc, &cert) {
        Ok(printed) => Ok((
            taken,
            bytes.get(..taken as usize) == Some(printed.as_slice()),
        )),
        Err(_) => Err(TextError::Memory),
    }
}

/// How many bytes the certificate in front takes, or the first byte with which none goes on.
pub fn put_taken(alloc: Global, arguments: &str, answer: &mut Vec<u8>) -> Result<(), Unread> {
    let text = bytes_of(alloc, arguments)?;
    match again(alloc, text.as_slice()) {
        Ok((taken, is_same)) => {
            push_decimal(alloc, answer, u128::from(taken))?;
            if !is_same {
                push(answer, b" (printed otherwise)")?;
            }
        }
        Err(TextError::BadText(BadText { at })) => {
            push(answer, b"bad at ")?;
            push_decimal(alloc, answer, u128::from(at))?;
        }
        Err(TextError::Memory) => return Err(Unread::Memory),
    }
    Ok(())
}

fn ends_early(alloc: Global, bytes: &[u8]) -> bool {
    match parse_cert(alloc, bytes) {
        Err(TextError::BadText(BadText { at })) => at == bytes.len() as u64,
        _ => false,
    }
}

/// How many beginnings of a text are bad at their ends.
pub fn put_prefixes(alloc: Global, arguments: &str, answer: &mut Vec<u8>) -> Result<(), Unread> {
    let text = bytes_of(alloc, arguments)?;
    let mut early: u64 = 0;
    for length in 0..text.len() {
        match text.as_slice().get(..length) {
            Some(cut) => if ends_early(alloc, cut) {
                early = early.saturating_add(1);
            },
            None => return bad(),
        }
    }
    push_decimal(alloc, answer, u128::from(early))?;
    Ok(())
}
