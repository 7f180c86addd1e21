//! Texts of terms, clauses, places and substitutions, each read and printed again.

use crate::pieces::put_bad;
use row_lines::bytes_of;
use std::alloc::Global;
use term_text::{
    clause_line, place, push_clause_line, push_place, push_substitution, push_term, substitution,
    term,
};
use text_pieces::{Unread, push, push_decimal};

// how many bytes follow, where what is read is printed as it was
fn put_again(
    alloc: Global,
    answer: &mut Vec<u8>,
    text: Vec<u8>,
    rest: &[u8],
    whole: &[u8],
) -> Result<(), Unread> {
    let mut all = text;
    push(&mut all, rest)?;
    if all.as_slice() == whole {
        push(answer, b"left ")?;
        push_decimal(alloc, answer, rest.len() as u128)?;
    } else {
        push(answer, b"printed as ")?;
        push(answer, all.as_slice())?;
    }
    Ok(())
}

fn again_term(alloc: Global, whole: &[u8], answer: &mut Vec<u8>) -> Result<(), Unread> {
    let (t, rest) = term(alloc, whole)?;
    let mut text = Vec::new(alloc);
    push_term(alloc, &mut text, &t)?;
    put_again(alloc, answer, text, rest, whole)
}

fn again_clause(alloc: Global, whole: &[u8], answer: &mut Vec<u8>) -> Result<(), Unread> {
    let (c, rest) = clause_line(alloc, whole)?;
    let mut text = Vec::new(alloc);
    push_clause_line(alloc, &mut text, &c)?;
    put_again(alloc, answer, text, rest, whole)
}

fn again_place(alloc: Global, whole: &[u8], answer: &mut Vec<u8>) -> Result<(), Unread> {
    let (p, rest) = place(alloc, whole)?;
    let mut text = Vec::new(alloc);
    push_place(alloc, &mut text, &p)?;
    put_again(alloc, answer, text, rest, whole)
}

fn again_substitution(alloc: Global, whole: &[u8], answer: &mut Vec<u8>) -> Result<(), Unread> {
    let (s, rest) = substitution(alloc, whole)?;
    let mut text = Vec::new(alloc);
    push_substitution(alloc, &mut text, &s)?;
    put_again(alloc, answer, text, rest, whole)
}

// a bad text is an answer
fn put_outcome(
    alloc: Global,
    answer: &mut Vec<u8>,
    read: Result<(), Unread>,
) -> Result<(), Unread> {
    match read {
        Ok(()) => Ok(()),
        Err(Unread::Bad(bad)) => Ok(put_bad(alloc, answer, bad.left)?),
        Err(Unread::Memory) => Err(Unread::Memory),
    }
}

/// A term.
pub fn put_term(alloc: Global, arguments: &str, answer: &mut Vec<u8>) -> Result<(), Unread> {
    let text = bytes_of(alloc, arguments)?;
    let read = again_term(alloc, text.as_slice(), answer);
    put_outcome(alloc, answer, read)
}

/// A clause with the end of its line.
pub fn put_clause(alloc: Global, arguments: &str, answer: &mut Vec<u8>) -> Result<(), Unread> {
    let text = bytes_of(alloc, arguments)?;
    let read = again_clause(alloc, text.as_slice(), answer);
    put_outcome(alloc, answer, read)
}

/// A place with the blank behind it.
pub fn put_place(alloc: Global, arguments: &str, answer: &mut Vec<u8>) -> Result<(), Unread> {
    let text = bytes_of(alloc, arguments)?;
    let read = again_place(alloc, text.as_slice(), answer);
    put_outcome(alloc, answer, read)
}

/// A substitution.
pub fn put_substitution(
    alloc: Global,
    arguments: &str,
    answer: &mut Vec<u8>,
) -> Result<(), Unread> {
    let text = bytes_of(alloc, arguments)?;
    let read = again_substitution(alloc, text.as_slice(), answer);
    put_outcome(alloc, answer, read)
}
