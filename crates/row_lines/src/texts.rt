//! Texts of rows: `\n`, `\r`, `\t`, `\\` and `\xHH` are bytes, and `{N|PIECE}` is a piece so many times.

use crate::arguments::{bad, number};
use std::alloc::Global;
use text_pieces::{Unread, push};

fn digit(byte: u8) -> Option<u8> {
    match byte {
        b'0'..=b'9' => Some(byte - b'0'),
        b'a'..=b'f' => Some(byte - b'a' + 10),
        _ => None,
    }
}

// the byte of two digits
fn byte_of(high: u8, low: u8) -> Option<u8> {
    let high = digit(high)?;
    let low = digit(low)?;
    high.checked_mul(16)?.checked_add(low)
}

// the byte that stands behind a backslash, and how many bytes name it
fn escaped(rest: &[u8]) -> Option<(u8, usize)> {
    match rest {
        [b'n', ..] => Some((b'\n', 1)),
        [b'r', ..] => Some((b'\r', 1)),
        [b't', ..] => Some((b'\t', 1)),
        [b'\\', ..] => Some((b'\\', 1)),
        [b'x', high, low, ..] => match byte_of(*high, *low) {
            Some(byte) => Some((byte, 3)),
            None => None,
        },
        _ => None,
    }
}

// puts a text without repeated pieces behind the bytes
fn put_plain(bytes: &mut Vec<u8>, text: &str) -> Result<(), Unread> {
    let all = text.as_bytes();
    let mut skipped: usize = 0;
    for (at, byte) in all.iter().enumerate() {
        if skipped > 0 {
            skipped -= 1;
        } else if *byte == b'\\' {
            let rest = all.get(at.saturating_add(1)..).unwrap_or(b"");
            match escaped(rest) {
                Some((named, length)) => {
                    bytes.push(named)?;
                    skipped = length;
                }
                None => return bad(),
            }
        } else {
            bytes.push(*byte)?;
        }
    }
    Ok(())
}

// `N|PIECE`
fn put_repeated(bytes: &mut Vec<u8>, text: &str) -> Result<(), Unread> {
    match text.split_once('|') {
        Some((times, piece)) => {
            for _ in 0..number(times)? {
                put_plain(bytes, piece)?;
            }
            Ok(())
        }
        None => bad(),
    }
}

/// Puts the bytes of a text behind others.
pub fn put_text(bytes: &mut Vec<u8>, text: &str) -> Result<(), Unread> {
    let mut is_first = true;
    for part in text.split('{') {
        if is_first {
            put_plain(bytes, part)?;
            is_first = false;
        } else {
            match part.split_once('}') {
                Some((repeated, plain)) => {
                    put_repeated(bytes, repeated)?;
                    put_plain(bytes, plain)?;
                }
                None => return bad(),
            }
        }
    }
    Ok(())
}

/// The bytes of a text.
pub fn bytes_of(alloc: Global, text: &str) -> Result<Vec<u8>, Unread> {
    let mut bytes = Vec::new(alloc);
    put_text(&mut bytes, text)?;
    push(&mut bytes, b"")?;
    Ok(bytes)
}
