//! Statements of texts, or the first fault by the grammar.

use row_lines::bytes_of;
use sqlite_items::Items;
use std::alloc::{AllocError, Global};
use text_pieces::{Unread, push, push_decimal};
use tff_grammar::{Fault, FaultName, ParseError, Statement, parse};

fn fault_word(name: FaultName) -> &'static [u8] {
    match name {
        FaultName::Lex => b"Lex",
        FaultName::Unsupported => b"Unsupported",
        FaultName::Language => b"Language",
        FaultName::TwoConjectures => b"TwoConjectures",
        FaultName::TooDeep => b"TooDeep",
        FaultName::NumberTooWide => b"NumberTooWide",
        FaultName::Syntax => b"Syntax",
    }
}

fn put_fault(alloc: Global, fault: Fault, answer: &mut Vec<u8>) -> Result<(), AllocError> {
    push(answer, fault_word(fault.name))?;
    push(answer, b" at ")?;
    push_decimal(alloc, answer, u128::from(fault.at))
}

fn put_found(
    alloc: Global,
    found: &Result<Items<Statement>, ParseError>,
    answer: &mut Vec<u8>,
) -> Result<(), Unread> {
    match found {
        Ok(statements) => push_decimal(alloc, answer, statements.len() as u128)?,
        Err(ParseError::Fault(fault)) => put_fault(alloc, *fault, answer)?,
        Err(ParseError::Memory) => return Err(Unread::Memory),
    }
    Ok(())
}

/// How many statements a text has, or its first fault and the byte.
pub fn put_parsed(alloc: Global, arguments: &str, answer: &mut Vec<u8>) -> Result<(), Unread> {
    let text = bytes_of(alloc, arguments)?;
    let found = parse(alloc, text.as_slice());
    put_found(alloc, &found, answer)
}

fn put_name(
    text: &[u8],
    found: &Result<Items<Statement>, ParseError>,
    answer: &mut Vec<u8>,
) -> Result<(), AllocError> {
    match found {
        Ok(statements) => match statements.as_slice() {
            [statement, ..] => push(answer, statement.name.bytes(text)),
            [] => push(answer, b"none"),
        },
        Err(_) => push(answer, b"none"),
    }
}

/// The name of the first statement, or `none`.
pub fn put_statement(alloc: Global, arguments: &str, answer: &mut Vec<u8>) -> Result<(), Unread> {
    let text = bytes_of(alloc, arguments)?;
    let found = parse(alloc, text.as_slice());
    put_name(text.as_slice(), &found, answer)?;
    Ok(())
}
