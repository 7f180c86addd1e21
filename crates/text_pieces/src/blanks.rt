//! Numbers behind a blank.

ghost use Rattle.std.specs.Prelude.{◌≡◌, ◌<◌, ◌≤◌, ◌^◌, MatchResult};
ghost use Rattle.text_pieces.specs.Counting.{BlankCount};
ghost use Rattle.text_pieces.specs.Languages.{Reads, Fails, Blank};
ghost use Rattle.text_pieces.specs.Numbers.{Number, Within, Any, Signed, Signed128};

use crate::bad_texts::Bad;
use crate::numbers::{count, number};
use crate::signs::signed;
use crate::words::blank;

/// A blank and behind it the number from low to high, and what follows. Bad at the first byte with which none goes on.
pub fn blank_number(text: &[u8], low: u128, high: u128) -> Result<(u128, &[u8]), Bad>
    requires narrow { low < 2 ^ 64 }
    requires ordered { low ≤ high }
    ensures { MatchResult result (λ f. Reads (Blank (Number (Within low high))) text.now f.0 f.1.now)
        (λ e. Fails (Blank (Number (Within low high))) text.now e.left) }
{
    number(blank(text)?, low, high)
}

/// A blank and behind it the `i128` that is at least so far from 0, and what follows. Bad at the first byte with which none goes on.
pub fn blank_signed(text: &[u8], least: u64) -> Result<(i128, &[u8]), Bad>
    ensures { MatchResult result (λ f. Reads (Blank (Signed (Signed128 least))) text.now f.0 f.1.now)
        (λ e. Fails (Blank (Signed (Signed128 least))) text.now e.left) }
{
    signed(blank(text)?, least)
}

/// A blank and behind it a count of any size, and what follows. Each count past the largest `u128` is read as that one.
/// Bad at the first byte with which no count goes on.
pub fn blank_count(text: &[u8]) -> Result<(u128, &[u8]), Bad>
    ensures { MatchResult result (λ f. BlankCount text.now f.0 f.1.now)
        (λ e. Fails (Blank (Number Any)) text.now e.left) }
{
    count(blank(text)?)
}
