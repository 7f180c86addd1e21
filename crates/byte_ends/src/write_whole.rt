// Writes all bytes to a sink.
ghost use Rattle.std.specs.Prelude.{◌≡◌, ◌++◌, ◌<◌, ◌≤◌, ℕ, [], length, take, IsOk, OnOk, OnErr};
ghost use Rattle.std.specs.Io.KnownBytes.{Appends};
ghost use Rattle.byte_ends.specs.Faults.{Rose};

use crate::{Failed, Sink};

/// Writes all the bytes, in as many calls as the sink asks for, and none for no bytes.
/// After a failure the sink has taken a prefix of them.
pub fn put_all<K: Sink>(sink: &mut K, bytes: &[u8]) -> Result<(), Failed>
    ensures ok { OnOk result (Appends (K.holds sink.old) (K.holds sink.new) bytes.now) }
    ensures err { OnErr result ((n : ℕ) × (n < length bytes.now)
        × Appends (K.holds sink.old) (K.holds sink.new) (take n bytes.now)) }
    ensures failed { OnErr result (Rose (K.faults sink.old) (K.faults sink.new)) }
    ensures faults { K.faults sink.old ≤ K.faults sink.new }
    ensures nothing { bytes.now ≡ [] → IsOk result × (sink.new ≡ sink.old) }
{
    let mut taken = 0;
    while taken < bytes.len() {
        taken += sink.write(&bytes[taken..])?;
    }
    Ok(())
}
