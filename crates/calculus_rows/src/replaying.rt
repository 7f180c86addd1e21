//! Derivations over clauses of a file, whose lines stand with ` / ` between each two.

use proof_steps::{Derivation, Replay, replay};
use proof_text::{TextError, parse_derivation};
use row_lines::{bad, clause};
use sqlite_items::Items;
use std::alloc::{AllocError, Global};
use term_base::{Clause, Prepared, Symbol};
use text_pieces::{Bad, Unread, push, push_decimal};

fn clauses(alloc: Global, text: &str) -> Result<Items<Clause>, Unread> {
    let mut all = Items::new(alloc);
    if !text.is_empty() {
        for part in text.split(" / ") {
            all.push(clause(alloc, part)?)?;
        }
    }
    Ok(all)
}

fn copies(alloc: Global, symbols: &[Symbol]) -> Result<Items<Symbol>, AllocError> {
    let mut all = Items::new(alloc);
    for symbol in symbols {
        all.push(symbol.copy(alloc)?)?;
    }
    Ok(all)
}

// the lines with their ends
fn derivation_text(alloc: Global, text: &str) -> Result<Vec<u8>, AllocError> {
    let mut bytes = Vec::new(alloc);
    for line in text.split(" / ") {
        push(&mut bytes, line.as_bytes())?;
        push(&mut bytes, b"\n")?;
    }
    Ok(bytes)
}

fn derivation(alloc: Global, text: &str) -> Result<Derivation, Unread> {
    let bytes = derivation_text(alloc, text)?;
    match parse_derivation(alloc, bytes.as_slice()) {
        Ok(d) => Ok(d),
        Err(TextError::Memory) => Err(Unread::Memory),
        Err(TextError::BadText(_)) => bad(),
    }
}

fn put_answer(alloc: Global, answer: &mut Vec<u8>, found: Replay) -> Result<(), AllocError> {
    match found {
        Replay::Verified => push(answer, b"verified"),
        Replay::Refused { step } => {
            push(answer, b"refused ")?;
            push_decimal(alloc, answer, u128::from(step))
        }
    }
}

// the clauses of the file before ` by ` and the derivation behind it
fn parts(arguments: &str) -> Result<(&str, &str), Unread> {
    let found = arguments.split_once("by ");
    let (before, behind) = found.ok_or(Unread::Bad(Bad { left: 0 }))?;
    Ok((before.strip_suffix(" ").unwrap_or(before), behind))
}

/// Whether a derivation over clauses of a file is verified, or its first step that is refused.
pub fn put_replay(
    alloc: Global,
    symbols: &[Symbol],
    arguments: &str,
    answer: &mut Vec<u8>,
) -> Result<(), Unread> {
    let (before, behind) = parts(arguments)?;
    let clauses = clauses(alloc, before)?;
    let d = derivation(alloc, behind)?;
    let symbols = copies(alloc, symbols)?;
    let prepared = Prepared { symbols, clauses };
    put_answer(alloc, answer, replay(alloc, &prepared, &d)?)?;
    Ok(())
}
