//! Numbers without a sign.

ghost use Rattle.std.specs.Prelude.{◌≡◌, ℕ, false, ◌+◌, ◌*◌, ◌-◌, ◌^◌, ◌<◌, ◌≤◌, ◌++◌, ◌↔◌, min, IsTrue, MatchResult, IfOk, IfErr, IfSome, IfNone, length, ◌∷◌};
ghost use Rattle.text_pieces.specs.Decimals.{decimal};
ghost use Rattle.text_pieces.specs.Languages.{NoDigit, GoesOn, Reads, Fails};
ghost use Rattle.text_pieces.specs.Numbers.{Number, Within, Any, Word32, Signed, Signed128, Reaches, IsCount, ReadsCount};

use crate::bad_texts::Bad;

// The digit in front, and what follows it.
fn next_digit(text: &[u8]) -> Option<(u8, &[u8])>
    ensures digit { IfSome result (λ f. (text.now ≡ (48 + f.0) ∷ f.1.now) × (f.0 < 10)) }
    ensures none { IfNone result (NoDigit text.now) }
{
    let (first, rest) = text.split_first()?;
    if b'0' <= *first && *first <= b'9' {
        Some((*first - b'0', rest))
    } else {
        None
    }
}

// Whether the first byte is a digit.
pub(crate) fn begins_with_digit(text: &[u8]) -> bool
    ensures no { result ≡ false → NoDigit text.now }
    ensures yes { IsTrue result → NoDigit text.now → ⊥ }
{
    match text {
        [first, ..] => b'0' <= *first && *first <= b'9',
        [] => false,
    }
}

// Whether the digits of a value other than 0 begin those of a number from low to high.
fn reaches(value: u128, low: u128, high: u128) -> bool
    requires positive { 0 < value }
    requires narrow { low < 2 ^ 64 }
    requires ordered { low ≤ high }
    ensures yes { IsTrue result → Reaches (Within low high) value }
    ensures other { Reaches (Within low high) value → IsTrue result }
{
    let mut least = value;
    let mut most = value;
    while most < low {
        least = 10 * least;
        most = 10 * most + 9;
    }
    least <= high
}

// Whether the digits of a value begin those of a number from low to high, none of which begins with 0 but 0.
fn goes_on(value: u128, low: u128, high: u128) -> bool
    requires narrow { low < 2 ^ 64 }
    requires ordered { low ≤ high }
    ensures yes { IsTrue result → GoesOn (Number (Within low high)) (decimal value) }
    ensures zero { value ≡ 0 → Within low high 0 → IsTrue result }
    ensures positive { 0 < value → Reaches (Within low high) value → IsTrue result }
{
    if 0 < value {
        return reaches(value, low, high);
    }
    low == 0
}

// The number with one digit more, where a number from low to high goes on so.
fn with_digit(value: u128, digit: u8, low: u128, high: u128) -> Option<u128>
    requires digit { digit < 10 }
    requires narrow { low < 2 ^ 64 }
    requires ordered { low ≤ high }
    ensures some { IfSome result
        (λ w. (w ≡ 10 * value + digit) × (0 < value) × GoesOn (Number (Within low high)) (decimal w)) }
    ensures none { IfNone result (0 < value → Reaches (Within low high) (10 * value + digit) → ⊥) }
{
    if value == 0 {
        return None;
    }
    let longer = value.checked_mul(10)?.checked_add(u128::from(digit))?;
    if goes_on(longer, low, high) {
        Some(longer)
    } else {
        None
    }
}

// The first digit of a number from low to high.
fn first_digit(text: &[u8], low: u128, high: u128) -> Result<(u128, &[u8]), Bad>
    requires narrow { low < 2 ^ 64 }
    requires ordered { low ≤ high }
    ensures ok { IfOk result
        (λ f. (text.now ≡ decimal f.0 ++ f.1.now) × GoesOn (Number (Within low high)) (decimal f.0)) }
    ensures err { IfErr result (λ e. Fails (Number (Within low high)) text.now e.left) }
{
    let Some((digit, rest)) = next_digit(text) else {
        return Err(Bad { left: text.len() });
    };
    let value = u128::from(digit);
    if !goes_on(value, low, high) {
        return Err(Bad { left: text.len() });
    }
    Ok((value, rest))
}

/// The number from low to high in front of the bytes, without leading zeros and with no digit behind it, and what follows.
/// Bad at the first byte with which no such number goes on.
pub fn number(text: &[u8], low: u128, high: u128) -> Result<(u128, &[u8]), Bad>
    requires narrow { low < 2 ^ 64 }
    requires ordered { low ≤ high }
    ensures { MatchResult result (λ f. Reads (Number (Within low high)) text.now f.0 f.1.now)
        (λ e. Fails (Number (Within low high)) text.now e.left) }
{
    let (mut value, mut rest) = first_digit(text, low, high)?;
    while let Some((digit, more)) = next_digit(rest) {
        let Some(longer) = with_digit(value, digit, low, high) else {
            return Err(Bad { left: rest.len() });
        };
        value = longer;
        rest = more;
    }
    if value < low {
        return Err(Bad { left: rest.len() });
    }
    Ok((value, rest))
}

/// The `u32` in front of the bytes, and what follows. Bad at the first byte with which none goes on.
pub fn word32(text: &[u8]) -> Result<(u32, &[u8]), Bad>
    ensures { MatchResult result (λ f. Reads (Number Word32) text.now f.0 f.1.now)
        (λ e. Fails (Number Word32) text.now e.left) }
{
    let (value, rest) = number(text, 0, u128::from(u32::MAX))?;
    Ok((value as u32, rest))
}

// The count with one digit more, or the largest that there is.
fn longer_count(count: u128, digit: u8) -> u128
    requires digit { digit < 10 }
    ensures { (n : ℕ) → IsCount count n → IsCount result (10 * n + digit) }
{
    match count.checked_mul(10) {
        Some(tens) => tens.saturating_add(u128::from(digit)),
        None => u128::MAX,
    }
}

/// The count in front of the bytes, without leading zeros and with no digit behind it, and what follows.
/// Each count past the largest `u128` is read as that one. Bad at the first byte with which no count goes on.
pub fn count(text: &[u8]) -> Result<(u128, &[u8]), Bad>
    ensures { MatchResult result (λ f. ReadsCount text.now f.0 f.1.now)
        (λ e. Fails (Number Any) text.now e.left) }
{
    let Some((digit, mut rest)) = next_digit(text) else {
        return Err(Bad { left: text.len() });
    };
    let mut count = u128::from(digit);
    while let Some((digit, more)) = next_digit(rest) {
        if count == 0 {
            return Err(Bad { left: rest.len() });
        }
        count = longer_count(count, digit);
        rest = more;
    }
    Ok((count, rest))
}
