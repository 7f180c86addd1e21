// Sources and sinks over std's readers and writers: the edge where nothing is known of the bytes.
ghost use Rattle.std.specs.Prelude.{◌≡◌, ◌<◌, ◌≤◌, ℕ, None, length, take, IfOk, OnOk, OnErr, IfSome, IfNone};
ghost use Rattle.std.specs.Io.KnownBytes.{Appends, ReadConsumes};
ghost use Rattle.byte_ends.specs.Faults.{Rose, counted};

use crate::{Failed, Sink, Source};
use std::io::{Read, Write};

/// A reader of std as a source. It doesn't tell its bytes. Each error of the reader counts as a fault.
#[derive(Drop)]
pub struct StdSource<R> {
    reader: R,
    faults: u64,
}

impl<R: Read> StdSource<R> {
    ghost use Rattle.byte_ends.specs.StdEnds.{source_reader, source_faults};

    /// A source of what the reader gives, with no fault so far.
    pub fn new(reader: R) -> Self
        ensures reader { source_reader result ≡ reader }
        ensures faults { source_faults result ≡ 0 }
    {
        StdSource { reader, faults: 0 }
    }
}

impl<R: Read> Source for StdSource<R> {
    ghost use Rattle.byte_ends.specs.StdEnds.{source_reader, source_faults};

    ghost left = { λ _. None };

    ghost faults = { source_faults };

    fn read(&mut self, into: &mut [u8]) -> Result<usize, Failed>
        // As of each source.
        ensures count { IfOk result (λ n. n ≤ length into.new) }
        ensures failed { OnErr result (Rose (source_faults self.old) (source_faults self.new)) }
        ensures never_falls { source_faults self.old ≤ source_faults self.new }

        // It gives what the reader gives, and counts the reader's errors.
        ensures passes_on { ReadConsumes (R.remaining (source_reader self.old))
            (R.remaining (source_reader self.new)) result into.new }
        ensures ok { OnOk result (source_faults self.new ≡ source_faults self.old) }
        ensures err { OnErr result (source_faults self.new ≡ counted (source_faults self.old)) }
    {
        match self.reader.read(into) {
            Ok(n) => Ok(n),
            Err(_) => {
                self.faults = self.faults.saturating_add(1);
                Err(Failed)
            }
        }
    }
}

/// A writer of std as a sink. It doesn't tell its bytes. Each piece is flushed, so that no byte is lost
/// in a buffer. Each error of the writer counts as a fault, and so does a write that takes nothing.
#[derive(Drop)]
pub struct StdSink<W> {
    writer: W,
    faults: u64,
}

impl<W: Write> StdSink<W> {
    ghost use Rattle.byte_ends.specs.StdEnds.{sink_writer, sink_faults};

    /// A sink that writes to the writer, with no fault so far.
    pub fn new(writer: W) -> Self
        ensures writer { sink_writer result ≡ writer }
        ensures faults { sink_faults result ≡ 0 }
    {
        StdSink { writer, faults: 0 }
    }
}

impl<W: Write> Sink for StdSink<W> {
    ghost use Rattle.byte_ends.specs.StdEnds.{sink_writer, sink_faults};

    ghost holds = { λ _. None };

    ghost faults = { sink_faults };

    fn write(&mut self, from: &[u8]) -> Result<usize, Failed>
        // As of each sink.
        ensures count { IfOk result (λ n. n ≤ length from.now) }
        ensures progress { IfOk result (λ n. 0 < length from.now → 0 < n) }
        ensures failed { OnErr result (Rose (sink_faults self.old) (sink_faults self.new)) }
        ensures never_falls { sink_faults self.old ≤ sink_faults self.new }

        // It gives the piece to the writer, and counts the writer's failures.
        ensures passes_on { IfOk result (λ n. Appends (W.contents (sink_writer self.old))
            (W.contents (sink_writer self.new)) (take n from.now)) }
        ensures prefix { OnErr result ((n : ℕ) × Appends (W.contents (sink_writer self.old))
            (W.contents (sink_writer self.new)) (take n from.now)) }
        ensures ok { OnOk result (sink_faults self.new ≡ sink_faults self.old) }
        ensures err { OnErr result (sink_faults self.new ≡ counted (sink_faults self.old)) }
    {
        match write_through(&mut self.writer, from) {
            Some(n) => Ok(n),
            None => {
                self.faults = self.faults.saturating_add(1);
                Err(Failed)
            }
        }
    }
}

// Writes the front of a piece, and through the writer's buffer. None at an error, and where nothing of a piece
// that isn't empty was taken.
fn write_through<W: Write>(writer: &mut W, from: &[u8]) -> Option<usize>
    ensures count { IfSome result (λ n. n ≤ length from.now) }
    ensures progress { IfSome result (λ n. 0 < length from.now → 0 < n) }
    ensures bytes { IfSome result (λ n. Appends (W.contents writer.old) (W.contents writer.new) (take n from.now)) }
    ensures prefix { IfNone result ((n : ℕ) × Appends (W.contents writer.old) (W.contents writer.new) (take n from.now)) }
{
    let n = writer.write(from).ok()?;
    if n == 0 && !from.is_empty() {
        return None;
    }
    writer.flush().ok()?;
    Some(n)
}
