//! The parts of the input of a check.

ghost use Rattle.std.specs.Prelude.{◌≡◌, ◌≤◌, length, true};
ghost use Rattle.proof_check.specs.Sections as spec;

/// Whether the bytes begin as the first line of a saturated list does.
pub fn begins_list(bytes: &[u8]) -> bool
    ensures { result ≡ spec.begins_list bytes.now }
{
    bytes.starts_with(b"% Saturated ")
}

// Whether the bytes begin as the first line of a derivation or of a saturated list does.
fn begins_answer(bytes: &[u8]) -> bool
    ensures { result ≡ spec.begins_answer bytes.now }
{
    bytes.starts_with(b"% SZS status ") || begins_list(bytes)
}

/// The bytes of a problem, before the answer that stands behind it: those before the first line that begins so.
pub fn before_answer(bytes: &[u8]) -> &[u8]
    ensures part { result.now ≡ spec.before_answer true bytes.now }
    ensures within { length result.now ≤ length bytes.now }
{
    let mut begins_line = true;
    for place in 0..bytes.len() {
        if begins_line && begins_answer(&bytes[place..]) {
            return &bytes[..place];
        }
        begins_line = bytes[place] == b'\n';
    }
    bytes
}
