//! Answers as text.

use row_lines::{term, whole};
use std::alloc::Global;
use term_base::{Clause, Subst, Symbol, Term, Variable, apply};
use term_text::{push_clause_line, push_substitution, push_term};
use text_pieces::{Unread, push};

/// Puts a term behind the answer.
pub fn put_term(alloc: Global, answer: &mut Vec<u8>, t: &Term) -> Result<(), Unread> {
    push_term(alloc, answer, t)?;
    Ok(())
}

/// Puts a term under a substitution.
pub fn put_under(
    alloc: Global,
    symbols: &[Symbol],
    t: &Term,
    s: &Subst,
    answer: &mut Vec<u8>,
) -> Result<(), Unread> {
    let image = apply(alloc, symbols, t, s)?;
    put_term(alloc, answer, &image)
}

/// Puts a term, or `none`.
pub fn put_option(alloc: Global, answer: &mut Vec<u8>, t: Option<&Term>) -> Result<(), Unread> {
    match t {
        Some(t) => put_term(alloc, answer, t),
        None => put_word(answer, b"none"),
    }
}

/// Puts a clause, without the end of its line.
pub fn put_clause(alloc: Global, answer: &mut Vec<u8>, c: &Clause) -> Result<(), Unread> {
    let mut line = Vec::new(alloc);
    push_clause_line(alloc, &mut line, c)?;
    match line.as_slice() {
        [text @ .., _] => put_word(answer, text),
        [] => Ok(()),
    }
}

/// Puts a substitution.
pub fn put_subst(alloc: Global, answer: &mut Vec<u8>, s: &Subst) -> Result<(), Unread> {
    push_substitution(alloc, answer, s)?;
    Ok(())
}

/// Puts bytes.
pub fn put_word(answer: &mut Vec<u8>, word: &[u8]) -> Result<(), Unread> {
    push(answer, word)?;
    Ok(())
}

/// Two terms.
pub fn two_terms(alloc: Global, left: &str, right: &str) -> Result<(Term, Term), Unread> {
    let s = term(alloc, left)?;
    let t = term(alloc, right)?;
    Ok((s, t))
}

/// A variable.
pub fn variable(text: &str) -> Result<Variable, Unread> {
    let (v, rest) = term_text::variable(text.as_bytes())?;
    whole(v, rest)
}
