//! Views of background clauses as pools.

use crate::printing::{put_pool, put_wide};
use bg_view::{ViewError, Viewed, are_background, entail_view, is_background_clause, view};
use row_lines::{bad, clause};
use sqlite_items::Items;
use std::alloc::{AllocError, Global};
use term_base::{Clause, Symbol};
use text_pieces::{Bad, Unread, push, push_decimal};

// the numbers of the symbols that the parameters stand for, and the pool
fn put_viewed(alloc: Global, answer: &mut Vec<u8>, viewed: &Viewed) -> Result<(), AllocError> {
    for symbol in viewed.symbols.as_slice() {
        push(answer, b"s")?;
        push_decimal(alloc, answer, u128::from(*symbol))?;
        push(answer, b" ")?;
    }
    put_pool(alloc, answer, &viewed.pool)
}

fn put_answer(
    alloc: Global,
    answer: &mut Vec<u8>,
    found: Result<Viewed, ViewError>,
) -> Result<(), Unread> {
    match found {
        Ok(viewed) => put_viewed(alloc, answer, &viewed)?,
        Err(ViewError::Wide(at)) => {
            push(answer, b"clause ")?;
            push_decimal(alloc, answer, u128::from(at.clause))?;
            push(answer, b" ")?;
            put_wide(alloc, answer, at.wide)?;
        }
        Err(ViewError::Memory) => return Err(Unread::Memory),
    }
    Ok(())
}

fn clauses(alloc: Global, text: &str) -> Result<Items<Clause>, Unread> {
    let mut all = Items::new(alloc);
    if !text.is_empty() {
        for part in text.split(" ; ") {
            all.push(clause(alloc, part)?)?;
        }
    }
    Ok(all)
}

/// The view of clauses.
pub fn put_view(
    alloc: Global,
    symbols: &[Symbol],
    arguments: &str,
    answer: &mut Vec<u8>,
) -> Result<(), Unread> {
    let all = clauses(alloc, arguments)?;
    if !are_background(symbols, all.as_slice()) {
        return bad();
    }
    put_answer(alloc, answer, view(alloc, symbols, all.as_slice()))
}

// the clauses before ` without ` and the target behind it
fn parts(arguments: &str) -> Result<(&str, &str), Unread> {
    let found = arguments.split_once("without ");
    let (before, behind) = found.ok_or(Unread::Bad(Bad { left: 0 }))?;
    Ok((before.strip_suffix(" ").unwrap_or(before), behind))
}

/// The view of clauses without a target.
pub fn put_entail_view(
    alloc: Global,
    symbols: &[Symbol],
    arguments: &str,
    answer: &mut Vec<u8>,
) -> Result<(), Unread> {
    let (before, last) = parts(arguments)?;
    let all = clauses(alloc, before)?;
    let target = clause(alloc, last)?;
    if !are_background(symbols, all.as_slice()) || !is_background_clause(symbols, &target) {
        return bad();
    }
    put_answer(
        alloc,
        answer,
        entail_view(alloc, symbols, all.as_slice(), &target),
    )
}
