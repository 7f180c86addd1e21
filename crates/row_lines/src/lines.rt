//! The lines of a text, answered one after the other.

use crate::arguments::bad;
use crate::symbols::signature;
use sqlite_items::Items;
use std::alloc::Global;
use term_base::Symbol;
use text_pieces::{Unread, push, push_decimal};

/// What the lines of a row program may call.
pub trait Calls {
    /// Puts the answer of a call behind `answer`; Bad where the call isn't known or an argument can't be read.
    fn put(
        &self,
        alloc: Global,
        symbols: &[Symbol],
        call: &str,
        arguments: &str,
        answer: &mut Vec<u8>,
    ) -> Result<(), Unread>;
}

// the call and its arguments
fn call_of(row: &str) -> (&str, &str) {
    match row.split_once(' ') {
        Some(parts) => parts,
        None => (row, ""),
    }
}

// a row whose answer is another one is told with it
fn tell(told: &mut Vec<u8>, row: &str, answer: &[u8]) -> Result<(), Unread> {
    push(told, row.as_bytes())?;
    push(told, b" => ")?;
    push(told, answer)?;
    push(told, b"\n")?;
    Ok(())
}

fn check_row<C: Calls>(
    alloc: Global,
    calls: &C,
    symbols: &[Symbol],
    line: &str,
    told: &mut Vec<u8>,
) -> Result<(), Unread> {
    let Some((row, stated)) = line.split_once(" => ") else {
        return bad();
    };
    let (call, arguments) = call_of(row);
    let mut answer = Vec::new(alloc);
    calls.put(alloc, symbols, call, arguments, &mut answer)?;
    if answer.as_slice() != stated.as_bytes() {
        tell(told, row, answer.as_slice())?;
    }
    Ok(())
}

// whether a line says nothing
fn is_silent(line: &str) -> bool {
    line.is_empty() || line.starts_with('#')
}

/// A line for each row whose answer isn't the stated one, with the answer that was given, and the number of rows.
pub fn report<C: Calls>(alloc: Global, calls: &C, text: &str) -> Result<Vec<u8>, Unread> {
    let mut symbols = Items::new(alloc);
    let mut told = Vec::new(alloc);
    let mut rows: u64 = 0;
    for line in text.lines() {
        if is_silent(line) {
            continue;
        }
        match line.strip_prefix("symbols ") {
            Some(words) => symbols = signature(alloc, words)?,
            None => {
                check_row(alloc, calls, symbols.as_slice(), line, &mut told)?;
                rows = rows.saturating_add(1);
            }
        }
    }
    push_decimal(alloc, &mut told, u128::from(rows))?;
    push(&mut told, b" rows\n")?;
    Ok(told)
}
