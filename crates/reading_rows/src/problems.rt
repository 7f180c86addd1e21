//! Problems of texts, or the line of the refusal.

use crate::formulas::put_formula;
use formula_base::Problem;
use row_lines::bytes_of;
use std::alloc::{AllocError, Global};
use text_pieces::{Unread, push};
use tff_reader::{ReadError, Refused, read};

fn put_refused(alloc: Global, refused: &Refused, answer: &mut Vec<u8>) -> Result<(), AllocError> {
    let line = format!(in alloc; "{refused}")?;
    push(answer, line.as_bytes())
}

fn put_found(
    alloc: Global,
    found: &Result<Problem, ReadError>,
    answer: &mut Vec<u8>,
) -> Result<(), Unread> {
    match found {
        Ok(_) => push(answer, b"ok")?,
        Err(ReadError::Refused(refused)) => put_refused(alloc, refused, answer)?,
        Err(ReadError::Memory) => return Err(Unread::Memory),
    }
    Ok(())
}

/// `ok`, or the line of the refusal.
pub fn put_read(alloc: Global, arguments: &str, answer: &mut Vec<u8>) -> Result<(), Unread> {
    let text = bytes_of(alloc, arguments)?;
    let found = read(alloc, text.as_slice());
    put_found(alloc, &found, answer)
}

fn put_problem(alloc: Global, problem: &Problem, answer: &mut Vec<u8>) -> Result<(), AllocError> {
    if let [formula, ..] = problem.premises.as_slice() {
        put_formula(alloc, answer, formula)?;
    }
    match &problem.conjecture {
        Some(formula) => {
            push(answer, b" ?- ")?;
            put_formula(alloc, answer, formula)
        }
        None => Ok(()),
    }
}

/// The first premise of a text, and the conjecture behind `?-`.
pub fn put_meaning(alloc: Global, arguments: &str, answer: &mut Vec<u8>) -> Result<(), Unread> {
    let text = bytes_of(alloc, arguments)?;
    match read(alloc, text.as_slice()) {
        Ok(problem) => put_problem(alloc, &problem, answer)?,
        Err(_) => push(answer, b"refused")?,
    }
    Ok(())
}
