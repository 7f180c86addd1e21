//! The words of a row.

use std::alloc::{AllocError, Global};
use text_pieces::{Bad, Unread};

/// A row that can't be read.
pub const NO_ROW: Unread = Unread::Bad(Bad { left: 0 });

// `''` is an empty word
fn word_of(word: &str) -> &str {
    if word == "''" { "" } else { word }
}

/// The words of a command line, with a blank between each two; `''` is an empty one.
pub fn split(alloc: Global, line: &str) -> Result<Vec<String>, AllocError> {
    let mut words = Vec::new(alloc);
    if line.is_empty() {
        return Ok(words);
    }
    for word in line.split(' ') {
        words.push(String::from_str(alloc, word_of(word))?)?;
    }
    Ok(words)
}

/// The first word and the others.
pub fn first(line: &str) -> (&str, &str) {
    match line.split_once(' ') {
        Some(parts) => parts,
        None => (line, ""),
    }
}

/// The number at the front, and the words behind it.
pub fn number(line: &str) -> Result<(u64, &str), Unread> {
    let (word, others) = first(line);
    match word.parse::<u64>() {
        Ok(n) => Ok((n, others)),
        Err(_) => Err(NO_ROW),
    }
}
