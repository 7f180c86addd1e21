//! Numerals, rationals and reals.
ghost use Rattle.std.specs.Prelude.{◌≡◌, ◌≤◌, length};
ghost use Rattle.std.specs.List.{prefix_len};
ghost use Rattle.tff_lexer.specs.declared.spans.TokenKind.TheVariants.{Numeral};
ghost use Rattle.tff_lexer.specs.Forms.{is_digit, is_one_of, are_digits, unsigned, is_numeral, is_slash_digits, is_exponent, is_fraction_or_exponent};
ghost use Rattle.tff_lexer.specs.Prefixes.{IsLongestPrefix, kind_by_first_byte};
ghost use Rattle.tff_lexer.specs.Scans.{FirstToken};

use crate::spans::TokenKind;
use crate::words::joined_length;

/// How many digits the text begins with.
fn digits_length(text: &[u8]) -> usize
    ensures count { result ≡ prefix_len is_digit text.now }
    ensures within { result ≤ length text.now }
{
    text.iter().take_while(|b| b.is_ascii_digit()).count()
}

/// The text without a leading `+` or `-`.
pub(crate) fn unsigned(text: &[u8]) -> &[u8]
    ensures { result.now ≡ unsigned text.now }
{
    match text.split_first() {
        Some((b'+' | b'-', rest)) => rest,
        _ => text,
    }
}

/// The length of the longest prefix that is a numeral, or 0.
fn numeral_length(text: &[u8]) -> usize
    ensures { IsLongestPrefix is_numeral text.now result }
{
    let digits = unsigned(text);
    joined_length(text.len() - digits.len(), digits_length(digits))
}

/// The length of the longest prefix that is `/` and digits, or 0.
fn slash_digits_length(text: &[u8]) -> usize
    ensures { IsLongestPrefix is_slash_digits text.now result }
{
    match text.split_first() {
        Some((b'/', rest)) => joined_length(1, digits_length(rest)),
        _ => 0,
    }
}

/// Whether the byte is `e` or `E`.
fn is_exponent_letter(b: u8) -> bool
    ensures { result ≡ is_one_of "eE" b }
{
    b == b'e' || b == b'E'
}

/// The length of the longest prefix that is an exponent, or 0.
fn exponent_length(text: &[u8]) -> usize
    ensures { IsLongestPrefix is_exponent text.now result }
{
    match text.split_first() {
        Some((letter, rest)) if is_exponent_letter(*letter) => joined_length(
            1,
            numeral_length(rest),
        ),
        _ => 0,
    }
}

/// The length of the longest prefix that is `.` and digits, an exponent, or both, or 0.
fn fraction_or_exponent_length(text: &[u8]) -> usize
    ensures { IsLongestPrefix is_fraction_or_exponent text.now result }
{
    match text.split_first() {
        Some((b'.', rest)) => match digits_length(rest) {
            0 => 0,
            digits => 1 + digits + exponent_length(&rest[digits..]),
        },
        _ => exponent_length(text),
    }
}

/// The longest numeral, rational or real that begins here, if one does.
pub(crate) fn number_token(text: &[u8]) -> Option<(TokenKind, usize)>
    requires { kind_by_first_byte text.now ≡ Numeral }
    ensures { FirstToken text.now result }
{
    let unsigned = unsigned(text);
    let digits = digits_length(unsigned);
    if digits == 0 {
        return None;
    }
    let numeral = text.len() - unsigned.len() + digits;
    let rest = &unsigned[digits..];
    let denominator = slash_digits_length(rest);
    if denominator > 0 {
        return Some((TokenKind::Rational, numeral + denominator));
    }
    let fraction = fraction_or_exponent_length(rest);
    if fraction > 0 {
        return Some((TokenKind::Real, numeral + fraction));
    }
    Some((TokenKind::Numeral, numeral))
}
