//! Runs of the program over ends in memory.

use crate::words::{NO_ROW, split};
use beagle_top::{Ended, Mode, Options, beagle, check_bytes, prove_alone};
use byte_ends::{MemorySink, MemorySource};
use judge_base::Judge;
use std::alloc::{AllocError, Global};
use std::mem;
use text_pieces::Unread;

/// The room of a sink.
const ROOM: u64 = 100_000;

/// The judges of the rows.
#[derive(Drop)]
pub struct Judges {
    /// One that decides.
    pub cooper: Vec<Box<dyn Judge + Send>>,
    /// Two without memory, which were asked 7 and 8 before.
    pub forgetful: Vec<Box<dyn Judge + Send>>,
}

/// Where a run reads and writes.
#[derive(Drop)]
pub struct Ends {
    pub source: MemorySource,
    pub sink: MemorySink,
}

/// Which calls of the ends fail, counted from 1, none by 0, and how many bytes the sink takes at a call.
#[derive(Clone, Copy)]
pub struct Failing {
    pub read: u64,
    pub chunk: u32,
    pub write: u64,
}

/// Ends of which no call fails.
pub const SOUND: Failing = Failing {
    read: 0,
    chunk: 100_000,
    write: 0,
};

impl Ends {
    /// A source of these bytes, and an empty sink.
    pub fn new(alloc: Global, bytes: Vec<u8>, failing: Failing) -> Result<Ends, AllocError> {
        let reads = vec![in alloc; failing.read]?;
        let writes = vec![in alloc; failing.write]?;
        let sink = MemorySink::new(alloc, ROOM, failing.chunk.max(1), writes)?;
        Ok(Ends {
            source: MemorySource::new(bytes, reads),
            sink,
        })
    }

    /// A source of this text, and an empty sink, of which no call fails.
    pub fn of_text(alloc: Global, text: &str) -> Result<Ends, AllocError> {
        Ends::new(alloc, Vec::from_slice(alloc, text.as_bytes())?, SOUND)
    }
}

/// How a run ended, and how many judges came back.
#[derive(Drop)]
pub struct Outcome {
    pub status: u8,
    pub options: Option<Options>,
    pub judges: usize,
}

fn outcome_of(ended: &Ended) -> Outcome {
    Outcome {
        status: ended.status,
        options: ended.options,
        judges: ended.judges.len(),
    }
}

// the judges, in whose place there is none
fn taken(alloc: Global, judges: &mut Vec<Box<dyn Judge + Send>>) -> Vec<Box<dyn Judge + Send>> {
    mem::replace(judges, Vec::new(alloc))
}

/// A run of the whole program with these words, after which the judges are those that came back.
pub fn whole(
    alloc: Global,
    line: &str,
    ends: &mut Ends,
    judges: &mut Vec<Box<dyn Judge + Send>>,
) -> Result<Outcome, Unread> {
    let words = split(alloc, line)?;
    let given = taken(alloc, judges);
    if given.is_empty() {
        return Err(NO_ROW);
    }
    let ended = beagle(alloc, &words, &mut ends.source, &mut ends.sink, given);
    let outcome = outcome_of(&ended);
    *judges = ended.judges;
    Ok(outcome)
}

/// A check of the bytes.
pub fn check(alloc: Global, ends: &mut Ends) -> Outcome {
    let ended = check_bytes(alloc, &mut ends.source, &mut ends.sink);
    outcome_of(&ended)
}

/// A proof by one judge, by options of another mode.
pub fn alone(alloc: Global, judge_steps: u64, ends: &mut Ends, judge: &mut dyn Judge) -> Outcome {
    let options = Options {
        workers: 1,
        turns: 1,
        judge_steps,
        ordinary: false,
        mode: Mode::Check,
    };
    let ended = prove_alone(alloc, &options, &mut ends.source, &mut ends.sink, judge);
    outcome_of(&ended)
}
