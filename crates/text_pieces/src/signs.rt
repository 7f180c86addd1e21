//! Numbers with a sign.

ghost use Rattle.std.specs.Prelude.{◌≡◌, ◌≤◌, ◌-◌, ◌^◌, pos, neg_ℤ, MatchResult};
ghost use Rattle.text_pieces.specs.Languages.{Reads, Fails};
ghost use Rattle.text_pieces.specs.Numbers.{Signed, Signed128};

use crate::bad_texts::Bad;
use crate::numbers::number;
use crate::words::after_byte;

// The number below 0 that is so far from it.
fn below_zero(distance: u128) -> i128
    requires low { 1 ≤ distance }
    requires high { distance ≤ 2 ^ 127 }
    ensures { result ≡ neg_ℤ (pos distance) }
{
    -((distance - 1) as i128) - 1
}

/// The `i128` in front of the bytes that is at least so far from 0, and what follows. Bad at the first byte with which none goes on.
pub fn signed(text: &[u8], least: u64) -> Result<(i128, &[u8]), Bad>
    ensures { MatchResult result (λ f. Reads (Signed (Signed128 least)) text.now f.0 f.1.now)
        (λ e. Fails (Signed (Signed128 least)) text.now e.left) }
{
    if let Some(digits) = after_byte(text, b'-') {
        let (distance, rest) = number(digits, u128::from(least.max(1)), 1 << 127)?;
        return Ok((below_zero(distance), rest));
    }
    let (value, rest) = number(text, u128::from(least), i128::MAX as u128)?;
    Ok((value as i128, rest))
}
