//! The rows of a text, answered one after the other.

use crate::answers::put_line;
use crate::calls;
use crate::runs::Judges;
use crate::words::{NO_ROW, first};
use std::alloc::{AllocError, Global};
use text_pieces::{Unread, push, push_decimal};

/// What stands behind each row.
const BEHIND: &str = "\n---\n";

// what stands behind the line of a comment
fn behind_comment(row: &str) -> Option<&str> {
    let comment = row.strip_prefix('#')?;
    let (_, rest) = comment.split_once('\n')?;
    Some(rest)
}

// the row without the comments in front
fn without_comments(row: &str) -> &str {
    let mut rest = row;
    for _ in row.lines() {
        match behind_comment(rest) {
            Some(behind) => rest = behind,
            None => return rest,
        }
    }
    rest
}

// the first line and what follows it
fn head(row: &str) -> (&str, &str) {
    match row.split_once('\n') {
        Some(parts) => parts,
        None => (row, ""),
    }
}

fn put_row(
    alloc: Global,
    row: &str,
    judges: &mut Judges,
    told: &mut Vec<u8>,
) -> Result<(), Unread> {
    let (head, text) = head(without_comments(row));
    let (call, line) = first(head);
    put_line(told, head)?;
    match call {
        "options" => calls::options(alloc, line, told),
        "beagle" => calls::program(alloc, line, text, judges, told),
        "begin" => calls::begin(alloc, line, text, judges, told),
        "verify" => calls::verify(alloc, line, text, judges, told),
        "blanks" => calls::blanks(alloc, line, judges, told),
        "beagle-over" => calls::program_over(alloc, line, text, judges, told),
        "check" => calls::check_text(alloc, text, told),
        "check-over" => calls::check_over(alloc, line, text, told),
        "alone" => calls::prove_with(alloc, line, text, told),
        "forgetful" => calls::forgetful(alloc, line, text, judges, told),
        _ => Err(NO_ROW),
    }
}

fn put_count(alloc: Global, told: &mut Vec<u8>, count: u64) -> Result<(), AllocError> {
    push_decimal(alloc, told, u128::from(count))?;
    push(told, b" rows\n")
}

/// What each row does, and how many there are.
pub fn report(alloc: Global, text: &str, judges: &mut Judges) -> Result<Vec<u8>, Unread> {
    let Some(rows) = text.strip_suffix(BEHIND) else {
        return Err(NO_ROW);
    };
    let mut told = Vec::new(alloc);
    let mut count: u64 = 0;
    for row in rows.split(BEHIND) {
        put_row(alloc, row, judges, &mut told)?;
        put_line(&mut told, "---")?;
        count = count.saturating_add(1);
    }
    put_count(alloc, &mut told, count)?;
    Ok(told)
}
