//! Certificates and values of pools.

use crate::texts::{integer, pool};
use cert_text::{TextError, parse_cert};
use cert_tree::{Cert, check_sat, check_unsat};
use lin_base::is_pool;
use row_lines::{bad, number, two};
use sqlite_items::Items;
use std::alloc::{AllocError, Global};
use text_pieces::{Unread, push, push_decimal};

// a certificate, to the end of the bytes
fn certificate(alloc: Global, bytes: &[u8]) -> Result<Cert, Unread> {
    match parse_cert(alloc, bytes) {
        Ok((cert, taken)) => {
            if taken == bytes.len() as u64 {
                Ok(cert)
            } else {
                bad()
            }
        }
        Err(TextError::Memory) => Err(Unread::Memory),
        Err(TextError::BadText(_)) => bad(),
    }
}

fn put_answer(answer: &mut Vec<u8>, stands: bool) -> Result<(), Unread> {
    if stands {
        push(answer, b"stands")?;
    } else {
        push(answer, b"refused")?;
    }
    Ok(())
}

/// Whether the copy of a certificate stands for a pool.
pub fn put_unsat(alloc: Global, arguments: &str, answer: &mut Vec<u8>) -> Result<(), Unread> {
    let (left, right) = two(arguments)?;
    let cert = certificate(alloc, right.as_bytes())?;
    let made = pool(alloc, left)?;
    if !is_pool(&made) {
        return bad();
    }
    put_answer(answer, check_unsat(alloc, &made, &cert.copy(alloc)?)?)
}

// the nodes `least` of this many parameters, the greatest first, with a tree below them
fn below_each(alloc: Global, count: u32, tree: &str) -> Result<Vec<u8>, AllocError> {
    let mut bytes = Vec::new(alloc);
    push(&mut bytes, b"cert 0 ")?;
    for p in (0..count).rev() {
        push(&mut bytes, b"least ")?;
        push_decimal(alloc, &mut bytes, u128::from(p))?;
        push(&mut bytes, b" 1 ")?;
    }
    push(&mut bytes, tree.as_bytes())?;
    Ok(bytes)
}

/// Whether the certificate stands that uses up this many parameters and goes on with a tree.
pub fn put_used_up(alloc: Global, arguments: &str, answer: &mut Vec<u8>) -> Result<(), Unread> {
    let (first, more) = two(arguments)?;
    let (second, third) = two(more)?;
    let bytes = below_each(alloc, number(first)?, third)?;
    let cert = certificate(alloc, bytes.as_slice())?;
    let made = pool(alloc, second)?;
    if !is_pool(&made) {
        return bad();
    }
    put_answer(answer, check_unsat(alloc, &made, &cert)?)
}

fn values(alloc: Global, text: &str) -> Result<Items<i128>, Unread> {
    let mut all = Items::new(alloc);
    for word in text.split_whitespace() {
        all.push(integer(word)?)?;
    }
    Ok(all)
}

/// Whether a pool holds at values.
pub fn put_sat(alloc: Global, arguments: &str, answer: &mut Vec<u8>) -> Result<(), Unread> {
    let (left, right) = two(arguments)?;
    let found = values(alloc, right)?;
    let made = pool(alloc, left)?;
    if !is_pool(&made) {
        return bad();
    }
    put_answer(answer, check_sat(alloc, &made, found.as_slice())?)
}
