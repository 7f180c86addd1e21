//! What a check of a problem and the answer behind it finds.

use proof_check::{Checked, check};
use row_lines::bytes_of;
use std::alloc::{AllocError, Global};
use text_pieces::{Unread, push, push_decimal};

fn put_number(alloc: Global, answer: &mut Vec<u8>, word: &[u8], n: u64) -> Result<(), AllocError> {
    push(answer, word)?;
    push_decimal(alloc, answer, u128::from(n))
}

fn put_found(alloc: Global, answer: &mut Vec<u8>, found: &Checked) -> Result<(), AllocError> {
    match found {
        Checked::Verified => push(answer, b"verified"),
        Checked::SaturatedList => push(answer, b"saturated list"),
        Checked::TooMany(n) => put_number(alloc, answer, b"too many ", *n),
        Checked::BadText(at) => put_number(alloc, answer, b"bad text at ", *at),
        Checked::RefusedStep(step) => put_number(alloc, answer, b"refused step ", u64::from(*step)),
        Checked::Faulty(refused) => {
            let line = format!(in alloc; "{refused}")?;
            push(answer, line.as_bytes())
        }
    }
}

/// What is found.
pub fn put_checked(alloc: Global, arguments: &str, answer: &mut Vec<u8>) -> Result<(), Unread> {
    let text = bytes_of(alloc, arguments)?;
    match check(alloc, text.as_slice()) {
        Ok(found) => put_found(alloc, answer, &found)?,
        Err(_) => return Err(Unread::Memory),
    }
    Ok(())
}
