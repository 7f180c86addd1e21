// What gives bytes and what takes them.
ghost use Rattle.std.specs.Prelude.{◌≡◌, ◌↔◌, ◌<◌, ◌≤◌, ℕ, List, Option, [], length, take, IfOk, OnErr, IfSome};
ghost use Rattle.std.specs.Io.KnownBytes.{Appends, Consumes, Keeps};
ghost use Rattle.byte_ends.specs.Faults.{Rose};

use thiserror::Error;

/// A source could not give bytes, or a sink could not take them. Its count of faults rose.
#[derive(Clone, Copy, Debug, PartialEq, Eq, Error)]
#[error("a call of a source or a sink failed")]
pub struct Failed;

/// What gives bytes, a piece at a call.
pub trait Source {
    /// The bytes that it will still give, where it tells them. What is told once stays told.
    ghost left: { Self → Option (List ℕ) };

    /// How often it has failed. It never falls, and stays at 2 ^ 64 - 1 once it is there.
    ghost faults: { Self → ℕ };

    /// Gives bytes into the front of the buffer, and answers how many.
    /// For a buffer that isn't empty, 0 is the end of input.
    fn read(&mut self, into: &mut [u8]) -> Result<usize, Failed>
        ensures count { IfOk result (λ n. n ≤ length into.new) }
        ensures bytes { IfOk result (λ n. Consumes (left self.old) (left self.new) (take n into.new)) }
        ensures end { IfOk result (λ n. IfSome (left self.old)
            (λ bytes. 0 < length into.new → ((n ≡ 0) ↔ (bytes ≡ [])))) }
        ensures kept { OnErr result (Keeps (left self.old) (left self.new)) }
        ensures failed { OnErr result (Rose (faults self.old) (faults self.new)) }
        ensures faults { faults self.old ≤ faults self.new };
}

/// What takes bytes, a piece at a call.
pub trait Sink {
    /// The bytes taken so far, where it tells them. What is told once stays told.
    ghost holds: { Self → Option (List ℕ) };

    /// How often it has failed. It never falls, and stays at 2 ^ 64 - 1 once it is there.
    ghost faults: { Self → ℕ };

    /// Takes bytes from the front of the piece, and answers how many: at least one of a piece that isn't empty.
    fn write(&mut self, from: &[u8]) -> Result<usize, Failed>
        ensures count { IfOk result (λ n. n ≤ length from.now) }
        ensures progress { IfOk result (λ n. 0 < length from.now → 0 < n) }
        ensures bytes { IfOk result (λ n. Appends (holds self.old) (holds self.new) (take n from.now)) }
        ensures kept { OnErr result (Keeps (holds self.old) (holds self.new)) }
        ensures failed { OnErr result (Rose (faults self.old) (faults self.new)) }
        ensures faults { faults self.old ≤ faults self.new };
}
