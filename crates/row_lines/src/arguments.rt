//! Arguments: each is read to its end.

use std::alloc::{AllocError, Global};
use term_base::{Clause, Place, Subst, Term};
use text_pieces::{Bad, Unread, push, word32};

/// An argument that can't be read.
pub fn bad<T>() -> Result<T, Unread> {
    Err(Unread::Bad(Bad { left: 0 }))
}

/// The value, where nothing follows it.
pub fn whole<T: Drop>(value: T, rest: &[u8]) -> Result<T, Unread> {
    match rest {
        [] => Ok(value),
        [..] => bad(),
    }
}

/// The two parts of a text around ` ; `.
pub fn two(text: &str) -> Result<(&str, &str), Unread> {
    text.split_once(" ; ").ok_or(Unread::Bad(Bad { left: 0 }))
}

// the text with one byte behind it
fn with_byte(alloc: Global, text: &str, byte: &[u8]) -> Result<Vec<u8>, AllocError> {
    let mut bytes = Vec::new(alloc);
    push(&mut bytes, text.as_bytes())?;
    push(&mut bytes, byte)?;
    Ok(bytes)
}

/// A number below 2^32.
pub fn number(text: &str) -> Result<u32, Unread> {
    let (n, rest) = word32(text.as_bytes())?;
    whole(n, rest)
}

/// A term.
pub fn term(alloc: Global, text: &str) -> Result<Term, Unread> {
    let (t, rest) = term_text::term(alloc, text.as_bytes())?;
    whole(t, rest)
}

/// A clause.
pub fn clause(alloc: Global, text: &str) -> Result<Clause, Unread> {
    let line = with_byte(alloc, text, b"\n")?;
    let (c, rest) = term_text::clause_line(alloc, line.as_slice())?;
    whole(c, rest)
}

/// A place of a clause.
pub fn place(alloc: Global, text: &str) -> Result<Place, Unread> {
    let line = with_byte(alloc, text, b" ")?;
    let (place, rest) = term_text::place(alloc, line.as_slice())?;
    whole(place, rest)
}

/// A substitution.
pub fn substitution(alloc: Global, text: &str) -> Result<Subst, Unread> {
    let (s, rest) = term_text::substitution(alloc, text.as_bytes())?;
    whole(s, rest)
}

/// Puts `yes` or `no` behind the answer.
pub fn put_flag(answer: &mut Vec<u8>, flag: bool) -> Result<(), Unread> {
    if flag {
        push(answer, b"yes")?;
    } else {
        push(answer, b"no")?;
    }
    Ok(())
}

/// Puts a word for `None` behind the answer where there is no value.
pub fn put_maybe(answer: &mut Vec<u8>, is_there: bool) -> Result<(), Unread> {
    if !is_there {
        push(answer, b"none")?;
    }
    Ok(())
}
