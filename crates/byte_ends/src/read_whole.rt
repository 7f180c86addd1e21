// Reads a source to its end.
ghost use Rattle.std.specs.Prelude.{◌≡◌, ◌+◌, ◌<◌, ◌≤◌, ◌++◌, ℕ, List, [], length, take, drop, IfOk, OnOk, IfSome, IsErrOf, Some};
ghost use Rattle.std.specs.Io.KnownBytes.{Consumes};
ghost use Rattle.byte_ends.specs.Faults.{Rose};
ghost use Rattle.byte_ends.specs.declared.read_whole.ReadEnd.TheVariants as end;

use crate::{Failed, Source};
use std::alloc::{AllocError, Global};
use thiserror::Error;

/// Why a source was not read to its end.
#[derive(Clone, Copy, Debug, PartialEq, Eq, Error)]
pub enum ReadEnd {
    /// The source failed, and its count of faults rose.
    #[error("the source failed")]
    Failed,

    /// The source gave a byte past the limit.
    #[error("the input is longer than its limit")]
    TooLong,

    /// There was no memory for the bytes.
    #[error("out of memory")]
    Memory,
}

impl From<Failed> for ReadEnd {
    ghost from_gives = { λ _ e. e ≡ end.Failed };

    fn from(_: Failed) -> Self {
        ReadEnd::Failed
    }
}

impl From<AllocError> for ReadEnd {
    ghost from_gives = { λ _ e. e ≡ end.Memory };

    fn from(_: AllocError) -> Self {
        ReadEnd::Memory
    }
}

// How many bytes are asked for at once.
const PIECE: usize = 65_536;

/// Reads the bytes to the end of input, in large pieces. It reads at most `limit` bytes and one more.
///
/// After an error the bytes read so far are gone.
pub fn read_all<S: Source>(alloc: Global, source: &mut S, limit: u64) -> Result<Vec<u8>, ReadEnd>
    ensures bytes { IfOk result (λ all. IfSome (S.left source.old) (λ bytes. all.items ≡ bytes)) }
    ensures emptied { OnOk result (IfSome (S.left source.old) (λ _. S.left source.new ≡ Some [])) }
    ensures within_limit { IfOk result (λ all. length all.items ≤ limit) }

    // Too long is said exactly where byte `limit + 1` was read, and no byte past it.
    ensures too_long { IsErrOf result ReadEnd.TooLong →
        IfSome (S.left source.old) (λ bytes. limit < length bytes) }
    ensures stops { IsErrOf result ReadEnd.TooLong →
        IfSome (S.left source.old) (λ bytes. S.left source.new ≡ Some (drop (limit + 1) bytes)) }

    ensures failed { IsErrOf result ReadEnd.Failed → Rose (S.faults source.old) (S.faults source.new) }
    ensures failed_within { IsErrOf result ReadEnd.Failed → IfSome (S.left source.old) (λ bytes.
        (n : ℕ) × (n ≤ limit) × (S.left source.new ≡ Some (drop n bytes))) }
    ensures memory_within { IsErrOf result ReadEnd.Memory → IfSome (S.left source.old) (λ bytes.
        (n : ℕ) × (n ≤ limit) × (S.left source.new ≡ Some (drop n bytes))) }
    ensures faults { S.faults source.old ≤ S.faults source.new }
{
    let mut buffer = vec![in alloc; 0u8; PIECE]?;
    let mut all = Vec::new(alloc);
    let mut room = limit;
    'pieces: loop {
        let n = read_piece(source, &mut buffer, &mut all, room)?;
        if n == 0 {
            return Ok(all);
        }
        room -= n;
    }
}

// Appends what one read gives, and answers how many bytes that is: none at the end of input. It reads `room` bytes
// and one more at most, and doesn't append that one.
fn read_piece<S: Source>(
    source: &mut S,
    buffer: &mut [u8],
    all: &mut Vec<u8>,
    room: u64,
) -> Result<u64, ReadEnd>
    requires { 0 < length buffer.old }
    ensures room { IfOk result (λ n. n ≤ room) }
    ensures appends { IfOk result (λ n. (piece : List ℕ) × (length piece ≡ n)
        × (all.new.items ≡ all.old.items ++ piece)
        × Consumes (S.left source.old) (S.left source.new) piece) }
    ensures end { IfOk result (λ n. n ≡ 0 → IfSome (S.left source.old) (λ bytes. bytes ≡ [])) }
    ensures too_long { IsErrOf result ReadEnd.TooLong → ((piece : List ℕ) × (length piece ≡ room + 1)
        × Consumes (S.left source.old) (S.left source.new) piece) }
    ensures failed_within { IsErrOf result ReadEnd.Failed → ((piece : List ℕ) × (length piece ≤ room)
        × Consumes (S.left source.old) (S.left source.new) piece) }
    ensures memory_within { IsErrOf result ReadEnd.Memory → ((piece : List ℕ) × (length piece ≤ room)
        × Consumes (S.left source.old) (S.left source.new) piece) }
    ensures failed { IsErrOf result ReadEnd.Failed → Rose (S.faults source.old) (S.faults source.new) }
    ensures faults { S.faults source.old ≤ S.faults source.new }
{
    let most = room.min(buffer.len() as u64 - 1) as usize + 1;
    let n = source.read(&mut buffer[..most])?;
    if n as u64 > room {
        return Err(ReadEnd::TooLong);
    }
    all.extend_from_slice(&buffer[..n])?;
    Ok(n as u64)
}
