//! What a row prints.

use crate::runs::{Ends, Outcome};
use crate::words::NO_ROW;
use beagle_top::{Mode, Options};
use judge_base::Judge;
use std::alloc::{AllocError, Global};
use std::str;
use text_pieces::{Unread, push, push_decimal};

/// Puts a line behind the text.
pub fn put_line(told: &mut Vec<u8>, line: &str) -> Result<(), AllocError> {
    push(told, line.as_bytes())?;
    push(told, b"\n")
}

/// Puts the line of words that are refused.
pub fn put_usage(told: &mut Vec<u8>) -> Result<(), AllocError> {
    push(told, b"usage\n")
}

// puts a word, a blank and a number
fn put_number(
    alloc: Global,
    told: &mut Vec<u8>,
    word: &[u8],
    number: u64,
) -> Result<(), AllocError> {
    push(told, word)?;
    push(told, b" ")?;
    push_decimal(alloc, told, u128::from(number))
}

fn put_mode(alloc: Global, told: &mut Vec<u8>, mode: Mode) -> Result<(), AllocError> {
    match mode {
        Mode::Prove => push(told, b", prove\n"),
        Mode::Check => push(told, b", check\n"),
        Mode::Make(number) => {
            put_number(alloc, told, b", make", u64::from(number))?;
            push(told, b"\n")
        }
    }
}

fn kind_word(ordinary: bool) -> &'static [u8] {
    if ordinary {
        b", ordinary"
    } else {
        b", abstraction"
    }
}

/// Puts the line of the options.
pub fn put_options(alloc: Global, told: &mut Vec<u8>, options: &Options) -> Result<(), AllocError> {
    put_number(alloc, told, b"workers", u64::from(options.workers))?;
    put_number(alloc, told, b", turns", u64::from(options.turns))?;
    put_number(alloc, told, b", judge-steps", options.judge_steps)?;
    push(told, kind_word(options.ordinary))?;
    put_mode(alloc, told, options.mode)
}

// puts the line of the status
fn put_status(alloc: Global, told: &mut Vec<u8>, status: u8) -> Result<(), AllocError> {
    put_number(alloc, told, b"status", u64::from(status))?;
    push(told, b"\n")
}

// puts a text, and ends its last line
fn put_text(told: &mut Vec<u8>, text: &[u8]) -> Result<(), AllocError> {
    push(told, text)?;
    match text {
        [] | [.., b'\n'] => Ok(()),
        [..] => push(told, b"\n"),
    }
}

/// Puts the status and the text of a run.
pub fn put_written(
    alloc: Global,
    told: &mut Vec<u8>,
    outcome: &Outcome,
    ends: &Ends,
) -> Result<(), AllocError> {
    put_status(alloc, told, outcome.status)?;
    put_text(told, ends.sink.bytes())
}

// the line, up to a certificate
fn before_certificate(line: &str) -> &str {
    match line.split_once(" cert ") {
        Some((front, _)) => front,
        None => line,
    }
}

// puts the first lines of a text, each up to its certificate, which is the judge's choice
fn put_lines(told: &mut Vec<u8>, text: &str, count: u64) -> Result<(), AllocError> {
    let mut left = count;
    for line in text.lines() {
        if left > 0 {
            put_line(told, before_certificate(line))?;
            left -= 1;
        }
    }
    Ok(())
}

/// Puts the first lines of a text, each up to its certificate, which is the judge's choice.
pub fn put_first_lines(told: &mut Vec<u8>, text: &[u8], count: u64) -> Result<(), Unread> {
    match str::from_utf8(text) {
        Ok(text) => {
            put_lines(told, text, count)?;
            Ok(())
        }
        Err(_) => Err(NO_ROW),
    }
}

/// Puts the status and the first lines of a run.
pub fn put_front(
    alloc: Global,
    told: &mut Vec<u8>,
    outcome: &Outcome,
    ends: &Ends,
    count: u64,
) -> Result<(), Unread> {
    put_status(alloc, told, outcome.status)?;
    put_first_lines(told, ends.sink.bytes(), count)
}

/// Puts the status, how many judges came back, and the options.
pub fn put_end(alloc: Global, told: &mut Vec<u8>, outcome: &Outcome) -> Result<(), AllocError> {
    put_status(alloc, told, outcome.status)?;
    put_number(alloc, told, b"judges", outcome.judges as u64)?;
    push(told, b"\n")?;
    match &outcome.options {
        Some(options) => put_options(alloc, told, options),
        None => push(told, b"no options\n"),
    }
}

/// Puts how a run over failing ends ended, how many calls failed, and what was written.
pub fn put_run(
    alloc: Global,
    told: &mut Vec<u8>,
    outcome: &Outcome,
    ends: &Ends,
) -> Result<(), AllocError> {
    put_end(alloc, told, outcome)?;
    put_number(alloc, told, b"failed reads", ends.source.faults())?;
    put_number(alloc, told, b", failed writes", ends.sink.faults())?;
    push(told, b"\n")?;
    put_text(told, ends.sink.bytes())
}

/// Puts the numbers of the first queries that a judge was asked.
pub fn put_asked(
    alloc: Global,
    told: &mut Vec<u8>,
    judge: &(dyn Judge + Send),
) -> Result<(), AllocError> {
    push(told, b"asked")?;
    for at in 0..8 {
        if let Some(number) = judge.asked(at) {
            put_number(alloc, told, b"", number)?;
        }
    }
    push(told, b"\n")
}

/// Puts the status of a run, what its judges were asked, and its text.
pub fn put_judged(
    alloc: Global,
    told: &mut Vec<u8>,
    outcome: &Outcome,
    ends: &Ends,
    judges: &[Box<dyn Judge + Send>],
) -> Result<(), AllocError> {
    put_status(alloc, told, outcome.status)?;
    for judge in judges {
        put_asked(alloc, told, &**judge)?;
    }
    put_text(told, ends.sink.bytes())
}
