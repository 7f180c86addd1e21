//! The calls of the rows.

use crate::answers::{
    put_asked, put_end, put_first_lines, put_front, put_judged, put_options, put_run, put_usage,
    put_written,
};
use crate::runs::{Ends, Failing, Judges, SOUND, alone, check, whole};
use crate::words::{NO_ROW, number, split};
use command_line::{WordsFault, options_of};
use judges::CooperJudge;
use std::alloc::{AllocError, Global};
use text_pieces::Unread;

/// The options that words give.
pub fn options(alloc: Global, line: &str, told: &mut Vec<u8>) -> Result<(), Unread> {
    let words = split(alloc, line)?;
    match options_of(alloc, &words) {
        Ok(options) => put_options(alloc, told, &options)?,
        Err(WordsFault::Usage) => put_usage(told)?,
        Err(WordsFault::Memory) => return Err(Unread::Memory),
    }
    Ok(())
}

// the status and the text of a run over these ends
fn run(
    alloc: Global,
    line: &str,
    ends: &mut Ends,
    judges: &mut Judges,
    told: &mut Vec<u8>,
) -> Result<(), Unread> {
    let outcome = whole(alloc, line, ends, &mut judges.cooper)?;
    put_written(alloc, told, &outcome, ends)?;
    Ok(())
}

/// The status and the text of a run.
pub fn program(
    alloc: Global,
    line: &str,
    text: &str,
    judges: &mut Judges,
    told: &mut Vec<u8>,
) -> Result<(), Unread> {
    let mut ends = Ends::of_text(alloc, text)?;
    run(alloc, line, &mut ends, judges, told)
}

/// The status of a run, and so many first lines of its text.
pub fn begin(
    alloc: Global,
    line: &str,
    text: &str,
    judges: &mut Judges,
    told: &mut Vec<u8>,
) -> Result<(), Unread> {
    let (count, line) = number(line)?;
    let mut ends = Ends::of_text(alloc, text)?;
    let outcome = whole(alloc, line, &mut ends, &mut judges.cooper)?;
    put_front(alloc, told, &outcome, &ends, count)
}

// the text, and behind it what is written for it
fn answered(alloc: Global, text: &str, judges: &mut Judges) -> Result<Vec<u8>, Unread> {
    let mut ends = Ends::of_text(alloc, text)?;
    whole(alloc, "", &mut ends, &mut judges.cooper)?;
    let mut all = Vec::from_slice(alloc, text.as_bytes())?;
    all.push(b'\n')?;
    all.extend_from_slice(ends.sink.bytes())?;
    Ok(all)
}

/// The status of a run, so many first lines of its text, and what a check says of this text behind the problem.
pub fn verify(
    alloc: Global,
    line: &str,
    text: &str,
    judges: &mut Judges,
    told: &mut Vec<u8>,
) -> Result<(), Unread> {
    begin(alloc, line, text, judges, told)?;
    let all = answered(alloc, text, judges)?;
    let mut ends = Ends::new(alloc, all, SOUND)?;
    run(alloc, "--check", &mut ends, judges, told)
}

/// A run over so many blanks.
pub fn blanks(
    alloc: Global,
    line: &str,
    judges: &mut Judges,
    told: &mut Vec<u8>,
) -> Result<(), Unread> {
    let (count, line) = number(line)?;
    let bytes = vec![in alloc; b' '; count as usize]?;
    let mut ends = Ends::new(alloc, bytes, SOUND)?;
    run(alloc, line, &mut ends, judges, told)
}

/// The status and the text of a check.
pub fn check_text(alloc: Global, text: &str, told: &mut Vec<u8>) -> Result<(), Unread> {
    let mut ends = Ends::of_text(alloc, text)?;
    let outcome = check(alloc, &mut ends);
    put_written(alloc, told, &outcome, &ends)?;
    Ok(())
}

// the calls that fail by these numbers, and the words behind them
fn failing(line: &str) -> Result<(Failing, &str), Unread> {
    let (read, line) = number(line)?;
    let (chunk, line) = number(line)?;
    let (write, line) = number(line)?;
    let Ok(chunk) = u32::try_from(chunk) else {
        return Err(NO_ROW);
    };
    Ok((Failing { read, chunk, write }, line))
}

// a source of this text and an empty sink, of which these calls fail
fn failing_ends(alloc: Global, failing: Failing, text: &str) -> Result<Ends, AllocError> {
    let bytes = Vec::from_slice(alloc, text.as_bytes())?;
    Ends::new(alloc, bytes, failing)
}

/// A run over ends that may fail: the read that fails, how many bytes a write takes, the write that fails, and the words.
pub fn program_over(
    alloc: Global,
    line: &str,
    text: &str,
    judges: &mut Judges,
    told: &mut Vec<u8>,
) -> Result<(), Unread> {
    let (failing, line) = failing(line)?;
    let mut ends = failing_ends(alloc, failing, text)?;
    let outcome = whole(alloc, line, &mut ends, &mut judges.cooper)?;
    put_run(alloc, told, &outcome, &ends)?;
    Ok(())
}

/// A check over ends that may fail.
pub fn check_over(alloc: Global, line: &str, text: &str, told: &mut Vec<u8>) -> Result<(), Unread> {
    let (failing, _) = failing(line)?;
    let mut ends = failing_ends(alloc, failing, text)?;
    let outcome = check(alloc, &mut ends);
    put_run(alloc, told, &outcome, &ends)?;
    Ok(())
}

/// A proof by one judge within so many steps: what the judge was asked, how it ended, and so many first lines of the text.
pub fn prove_with(alloc: Global, line: &str, text: &str, told: &mut Vec<u8>) -> Result<(), Unread> {
    let (count, line) = number(line)?;
    let (steps, _) = number(line)?;
    let mut ends = Ends::of_text(alloc, text)?;
    let mut judge = CooperJudge::new(alloc);
    let outcome = alone(alloc, steps, &mut ends, &mut judge);
    put_asked(alloc, told, &judge)?;
    put_end(alloc, told, &outcome)?;
    put_first_lines(told, ends.sink.bytes(), count)
}

/// A run with two judges without memory, which were asked 7 and 8 first: the status, and what they were asked so far.
pub fn forgetful(
    alloc: Global,
    line: &str,
    text: &str,
    judges: &mut Judges,
    told: &mut Vec<u8>,
) -> Result<(), Unread> {
    let mut ends = Ends::of_text(alloc, text)?;
    let outcome = whole(alloc, line, &mut ends, &mut judges.forgetful)?;
    put_judged(alloc, told, &outcome, &ends, &judges.forgetful)?;
    Ok(())
}
