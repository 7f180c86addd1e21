// Sources of bytes in memory.
ghost use Rattle.std.specs.Prelude.{◌≡◌, ◌↔◌, ◌<◌, ◌≤◌, ◌++◌, [], length, take, drop, min, Contains, IsOk, IsErr, IfOk, OnErr, IfSome, Some};
ghost use Rattle.std.specs.Io.KnownBytes.{Consumes, Keeps};
ghost use Rattle.byte_ends.specs.Faults.{Rose, counted};

use crate::counted_calls::CountedCalls;
use crate::{Failed, Source};
use std::marker::Model;

/// Bytes in memory, which it tells, and no failures. A caller sees it as the bytes that are left.
#[derive(Drop)]
pub struct SureSource {
    bytes: Vec<u8>,
    given: usize,
}

impl Model for SureSource {
    ghost use Rattle.std.specs.Prelude.{ℕ, List, drop, length, ◌≤◌};

    ghost Value = { List ℕ };

    ghost view = { λ s. drop s.given s.bytes.items };

    ghost invariant = { λ s. s.given ≤ length s.bytes.items };
}

impl SureSource {
    /// A source of these bytes.
    pub fn new(bytes: Vec<u8>) -> Self
        ensures { result ≡ bytes.items }
    {
        SureSource { bytes, given: 0 }
    }

    /// The count of its faults: always 0.
    pub fn faults(&self) -> u64
        ensures { result ≡ 0 }
    {
        0
    }

    // Gives as many bytes as the buffer and what is left allow.
    fn give(&mut self, into: &mut [u8]) -> usize
        ensures count { result ≡ min (length into.old) (length self.old) }
        ensures filled { into.new ≡ take result self.old ++ drop result into.old }
        ensures left { self.new ≡ drop result self.old }
    {
        let left = &self.bytes[self.given..];
        let n = into.len().min(left.len());
        into[..n].copy_from_slice(&left[..n]);
        self.given += n;
        n
    }
}

impl Source for SureSource {
    ghost left = { λ s. Some s };

    ghost faults = { λ _. 0 };

    fn read(&mut self, into: &mut [u8]) -> Result<usize, Failed>
        // As of each source.
        ensures count { IfOk result (λ n. n ≤ length into.new) }
        ensures bytes { IfOk result (λ n. Consumes (Some self.old) (Some self.new) (take n into.new)) }
        ensures end { IfOk result (λ n. 0 < length into.new → ((n ≡ 0) ↔ (self.old ≡ []))) }

        // It never fails, and gives as many bytes as the buffer and what is left allow.
        ensures ok { IsOk result }
        ensures gives { IfOk result (λ n. n ≡ min (length into.old) (length self.old)) }
        ensures filled { IfOk result (λ n. into.new ≡ take n self.old ++ drop n into.old) }
        ensures left { IfOk result (λ n. self.new ≡ drop n self.old) }
    {
        Ok(self.give(into))
    }
}

/// Bytes in memory, which it tells, and calls that are to fail.
#[derive(Drop)]
pub struct MemorySource {
    bytes: SureSource,
    calls: CountedCalls,
}

impl Model for MemorySource {
    ghost use Rattle.byte_ends.specs.MemoryEnds.{SourceState};

    ghost Value = { SourceState };

    ghost view = { λ s. record {
      left = s.bytes;
      failing = s.calls.failing.items;
      calls = s.calls.made;
      faults = s.calls.faults;
    } };
}

impl MemorySource {
    /// A source of these bytes, of which the calls with these numbers fail, counted from 1.
    /// The number of a call stays at `u64::MAX` once it is there.
    pub fn new(bytes: Vec<u8>, failing: Vec<u64>) -> Self
        ensures { result ≡ record {
          left = bytes.items;
          failing = failing.items;
          calls = 0;
          faults = 0;
        } }
    {
        MemorySource {
            bytes: SureSource::new(bytes),
            calls: CountedCalls::new(failing),
        }
    }

    /// How many calls have failed, up to `u64::MAX`.
    pub fn faults(&self) -> u64
        ensures { result ≡ self.now.faults }
    {
        self.calls.faults
    }
}

impl Source for MemorySource {
    ghost left = { λ s. Some s.left };

    ghost faults = { λ s. s.faults };

    fn read(&mut self, into: &mut [u8]) -> Result<usize, Failed>
        // As of each source.
        ensures count { IfOk result (λ n. n ≤ length into.new) }
        ensures bytes { IfOk result (λ n. Consumes (Some self.old.left) (Some self.new.left) (take n into.new)) }
        ensures end { IfOk result (λ n. 0 < length into.new → ((n ≡ 0) ↔ (self.old.left ≡ []))) }
        ensures failed { OnErr result (Rose self.old.faults self.new.faults) }
        ensures never_falls { self.old.faults ≤ self.new.faults }

        // It fails exactly where the call's number stands among those that fail.
        ensures fails { IsErr result ↔ Contains self.old.failing (counted self.old.calls) }
        ensures err { OnErr result (self.new ≡ record self.old {
          calls = counted self.old.calls;
          faults = counted self.old.faults;
        }) }

        // Each other call gives as many bytes as the buffer and what is left allow.
        ensures gives { IfOk result (λ n. n ≡ min (length into.old) (length self.old.left)) }
        ensures filled { IfOk result (λ n. into.new ≡ take n self.old.left ++ drop n into.old) }
        ensures ok { IfOk result (λ n. self.new ≡ record self.old {
          left = drop n self.old.left;
          calls = counted self.old.calls;
        }) }
    {
        if self.calls.begin() {
            self.calls.fail();
            return Err(Failed);
        }
        Ok(self.bytes.give(into))
    }
}
