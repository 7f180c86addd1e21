// Sinks of bytes in memory.
ghost use Rattle.std.specs.Prelude.{◌≡◌, ◌↔◌, ◌⊎◌, ◌<◌, ◌≤◌, ◌++◌, [], length, take, min, Contains, IsOk, IsErr, IfOk, OnErr, Some, None};
ghost use Rattle.std.specs.Io.KnownBytes.{Appends, Keeps};
ghost use Rattle.byte_ends.specs.Faults.{Rose, counted};
ghost use Rattle.byte_ends.specs.MemoryEnds.{taken_of};

use crate::counted_calls::CountedCalls;
use crate::{Failed, Sink};
use std::alloc::{AllocError, Global};
use std::marker::Model;

/// Takes each piece whole and forgets it. It tells nothing and never fails.
#[derive(Clone, Copy, Debug, Default)]
pub struct SureSink;

impl SureSink {
    /// A sink that takes and forgets everything.
    pub fn new() -> Self {
        SureSink
    }

    /// The count of its faults: always 0.
    pub fn faults(&self) -> u64
        ensures { result ≡ 0 }
    {
        0
    }
}

impl Sink for SureSink {
    ghost holds = { λ _. None };

    ghost faults = { λ _. 0 };

    fn write(&mut self, from: &[u8]) -> Result<usize, Failed>
        ensures { result ≡ Ok (length from.now) }
    {
        Ok(from.len())
    }
}

/// Room for bytes in memory, which it tells, and calls that are to fail.
#[derive(Drop)]
pub struct MemorySink {
    held: Vec<u8>,
    room: usize,
    chunk: u32,
    calls: CountedCalls,
}

impl Model for MemorySink {
    ghost use Rattle.std.specs.Prelude.{◌≤◌, ◌<◌, length, vec_capacity};
    ghost use Rattle.byte_ends.specs.MemoryEnds.{SinkState};

    ghost Value = { SinkState };

    ghost view = { λ s. record { held = s.held.items; room = s.room; chunk = s.chunk; failing = s.calls.failing.items; calls = s.calls.made; faults = s.calls.faults } };

    ghost invariant = { λ s. (length s.held.items ≤ s.room) × (s.room ≤ vec_capacity s.held) × (0 < s.chunk) };
}

impl MemorySink {
    /// A sink with room for so many bytes, which it reserves, of which a call takes `chunk` at most
    /// and the calls with these numbers fail, counted from 1.
    /// The number of a call stays at `u64::MAX` once it is there.
    pub fn new(alloc: Global, room: u64, chunk: u32, failing: Vec<u64>) -> Result<Self, AllocError>
        requires { 1 ≤ chunk }
        ensures { IfOk result (λ sink. sink ≡ record {
          held = [];
          room = room;
          chunk = chunk;
          failing = failing.items;
          calls = 0;
          faults = 0;
        }) }
    {
        let room = room as usize;
        Ok(MemorySink {
            held: Vec::with_capacity(alloc, room)?,
            room,
            chunk,
            calls: CountedCalls::new(failing),
        })
    }

    /// The bytes taken so far.
    pub fn bytes(&self) -> &[u8]
        ensures { result.now ≡ self.now.held }
    {
        &self.held
    }

    /// How many calls have failed, up to `u64::MAX`.
    pub fn faults(&self) -> u64
        ensures { result ≡ self.now.faults }
    {
        self.calls.faults
    }
}

impl Sink for MemorySink {
    ghost holds = { λ s. Some s.held };

    ghost faults = { λ s. s.faults };

    fn write(&mut self, from: &[u8]) -> Result<usize, Failed>
        // As of each sink.
        ensures count { IfOk result (λ n. n ≤ length from.now) }
        ensures progress { IfOk result (λ n. 0 < length from.now → 0 < n) }
        ensures failed { OnErr result (Rose self.old.faults self.new.faults) }
        ensures never_falls { self.old.faults ≤ self.new.faults }

        // It fails exactly where the call's number stands among those that fail, or no room is left.
        ensures fails { IsErr result ↔ (Contains self.old.failing (counted self.old.calls)
            ⊎ (self.old.room ≤ length self.old.held)) }
        ensures err { OnErr result (self.new ≡ record self.old {
          calls = counted self.old.calls;
          faults = counted self.old.faults;
        }) }

        // Each other call takes as many bytes as the piece, the chunk and the room left allow.
        ensures takes { IfOk result (λ n. n ≡ taken_of self.old from.now) }
        ensures ok { IfOk result (λ n. self.new ≡ record self.old {
          held = self.old.held ++ take n from.now;
          calls = counted self.old.calls;
        }) }
    {
        let is_failing = self.calls.begin();
        let room = self.room - self.held.len();
        if is_failing || room == 0 {
            self.calls.fail();
            return Err(Failed);
        }
        let n = from.len().min((self.chunk as usize).min(room));
        self.held.extend_from_slice(&from[..n]).unwrap();
        Ok(n)
    }
}
