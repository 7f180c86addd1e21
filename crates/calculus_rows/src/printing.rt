//! Answers as text.

use std::alloc::{AllocError, Global};
use term_base::Clause;
use term_text::push_clause_line;
use text_pieces::push;

/// Puts a clause behind the answer, without the end of its line.
pub fn put_clause(alloc: Global, answer: &mut Vec<u8>, c: &Clause) -> Result<(), AllocError> {
    let mut line = Vec::new(alloc);
    push_clause_line(alloc, &mut line, c)?;
    match line.as_slice() {
        [text @ .., _] => push(answer, text),
        [] => Ok(()),
    }
}

/// Puts a clause, or `none`.
pub fn put_option(
    alloc: Global,
    answer: &mut Vec<u8>,
    c: Option<&Clause>,
) -> Result<(), AllocError> {
    match c {
        Some(c) => put_clause(alloc, answer, c),
        None => push(answer, b"none"),
    }
}
