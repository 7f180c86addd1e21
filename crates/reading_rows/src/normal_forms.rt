//! Clauses of problems over p: $int > $o, c: $int, q: $o, r: $o, which are symbols 0 to 3, and a sort d.

use crate::signatures::put_sorts;
use formula_base::Problem;
use normal_form::{ClausesError, clauses, count};
use row_lines::{bad, put_text};
use std::alloc::{AllocError, Global};
use term_base::{Class, Clause, Prepared, Symbol, TooMany};
use term_text::push_clause_line;
use text_pieces::{Unread, push, push_decimal};
use tff_reader::read;

const FRONT: &[u8] =
    b"tff(s,type,d:$tType). tff(p,type,p:$int>$o). tff(c,type,c:$int). tff(q,type,q:$o). tff(r,type,r:$o). ";

/// What is shown of the clauses of a problem.
#[derive(Clone, Copy)]
pub enum Shown {
    /// The clauses, where a variable of sort $int is an abstraction variable.
    Clauses,
    /// The clauses, where it is ordinary in a clause that has a foreground symbol.
    Ordinary,
    /// The same, and how many symbols there are.
    Symbols,
    /// How many clauses the problem has, and how many are made of it.
    Count,
    /// The sorts and the classes of the Skolem symbols.
    Skolem,
}

// the symbols, and statements behind them
fn text_of(alloc: Global, before: &[u8], text: &str, behind: &[u8]) -> Result<Vec<u8>, Unread> {
    let mut bytes = Vec::new(alloc);
    push(&mut bytes, FRONT)?;
    push(&mut bytes, before)?;
    put_text(&mut bytes, text)?;
    push(&mut bytes, behind)?;
    Ok(bytes)
}

// a clause without the end of its line
fn put_clause(alloc: Global, answer: &mut Vec<u8>, c: &Clause) -> Result<(), AllocError> {
    let mut line = Vec::new(alloc);
    push_clause_line(alloc, &mut line, c)?;
    match line.as_slice() {
        [text @ .., _] => push(answer, text),
        [] => Ok(()),
    }
}

fn put_all(alloc: Global, answer: &mut Vec<u8>, all: &[Clause]) -> Result<(), AllocError> {
    for c in all {
        put_clause(alloc, answer, c)?;
        push(answer, b";")?;
    }
    Ok(())
}

fn class_word(class: Class) -> &'static [u8] {
    match class {
        Class::Parameter => b"parameter ",
        Class::Foreground => b"foreground ",
    }
}

// the symbols behind the first four
fn put_skolem(answer: &mut Vec<u8>, symbols: &[Symbol]) -> Result<(), AllocError> {
    for (number, symbol) in symbols.iter().enumerate() {
        if number > 3 {
            put_sorts(answer, symbol)?;
            push(answer, class_word(symbol.class))?;
        }
    }
    Ok(())
}

fn put_prepared(
    alloc: Global,
    prepared: &Prepared,
    shown: Shown,
    answer: &mut Vec<u8>,
) -> Result<(), AllocError> {
    let all = prepared.clauses.as_slice();
    match shown {
        Shown::Clauses | Shown::Ordinary => put_all(alloc, answer, all),
        Shown::Symbols => {
            put_all(alloc, answer, all)?;
            push(answer, b" ")?;
            push_decimal(alloc, answer, prepared.symbols.len() as u128)
        }
        Shown::Count => push_decimal(alloc, answer, all.len() as u128),
        Shown::Skolem => put_skolem(answer, prepared.symbols.as_slice()),
    }
}

fn put_many(alloc: Global, many: TooMany, answer: &mut Vec<u8>) -> Result<(), AllocError> {
    let text = format!(in alloc; "{many}")?;
    push(answer, text.as_bytes())
}

fn put_found(
    alloc: Global,
    found: &Result<Prepared, ClausesError>,
    shown: Shown,
    answer: &mut Vec<u8>,
) -> Result<(), Unread> {
    match found {
        Ok(prepared) => put_prepared(alloc, prepared, shown, answer)?,
        Err(ClausesError::TooMany(many)) => put_many(alloc, *many, answer)?,
        Err(ClausesError::Memory) => return Err(Unread::Memory),
    }
    Ok(())
}

fn put_number(alloc: Global, problem: &Problem, answer: &mut Vec<u8>) -> Result<(), AllocError> {
    push_decimal(alloc, answer, u128::from(count(problem)))?;
    push(answer, b": ")
}

fn put_problem(
    alloc: Global,
    problem: &Problem,
    shown: Shown,
    answer: &mut Vec<u8>,
) -> Result<(), Unread> {
    if matches!(shown, Shown::Count) {
        put_number(alloc, problem, answer)?;
    }
    let ordinary = matches!(shown, Shown::Ordinary | Shown::Symbols);
    let found = clauses(alloc, problem, ordinary);
    put_found(alloc, &found, shown, answer)
}

fn put_read(alloc: Global, text: &[u8], shown: Shown, answer: &mut Vec<u8>) -> Result<(), Unread> {
    match read(alloc, text) {
        Ok(problem) => put_problem(alloc, &problem, shown, answer),
        Err(_) => bad(),
    }
}

/// What is shown of a formula as the only premise.
pub fn put_axiom(
    alloc: Global,
    arguments: &str,
    shown: Shown,
    answer: &mut Vec<u8>,
) -> Result<(), Unread> {
    let text = text_of(alloc, b"tff(a,axiom,", arguments, b").")?;
    put_read(alloc, text.as_slice(), shown, answer)
}

/// What is shown of a formula as the conjecture.
pub fn put_conjecture(
    alloc: Global,
    arguments: &str,
    shown: Shown,
    answer: &mut Vec<u8>,
) -> Result<(), Unread> {
    let text = text_of(alloc, b"tff(a,conjecture,", arguments, b").")?;
    put_read(alloc, text.as_slice(), shown, answer)
}

/// The clauses of statements and the number of symbols.
pub fn put_statements(alloc: Global, arguments: &str, answer: &mut Vec<u8>) -> Result<(), Unread> {
    let text = text_of(alloc, b"", arguments, b"")?;
    put_read(alloc, text.as_slice(), Shown::Symbols, answer)
}
