//! Words: letters, digits and `_`, perhaps behind `$` or `$$`.
ghost use Rattle.std.specs.Prelude.{◌≡◌, ◌+◌, ◌≤◌, ◌^◌, ◌<◌, length};
ghost use Rattle.std.specs.List.{prefix_len};
ghost use Rattle.tff_lexer.specs.Forms.{is_alpha_numeric, is_lower, is_upper, is_dollar};
ghost use Rattle.tff_lexer.specs.Prefixes.{IsLongestPrefix, joined_length};

/// Whether the byte is a letter, a digit or `_`.
fn is_alpha_numeric(b: u8) -> bool
    ensures { result ≡ is_alpha_numeric b }
{
    b.is_ascii_alphanumeric() || b == b'_'
}

/// How many letters, digits and `_` the text begins with.
fn alpha_numeric_length(text: &[u8]) -> usize
    ensures count { result ≡ prefix_len is_alpha_numeric text.now }
    ensures within { result ≤ length text.now }
{
    text.iter().take_while(|b| is_alpha_numeric(**b)).count()
}

/// The length of the longest prefix that is a lower word, or 0.
pub(crate) fn lower_length(text: &[u8]) -> usize
    ensures { IsLongestPrefix is_lower text.now result }
{
    match text.split_first() {
        Some((b'a'..=b'z', rest)) => 1 + alpha_numeric_length(rest),
        _ => 0,
    }
}

/// The length of the longest prefix that is an upper word, or 0.
pub(crate) fn upper_length(text: &[u8]) -> usize
    ensures { IsLongestPrefix is_upper text.now result }
{
    match text.split_first() {
        Some((b'A'..=b'Z', rest)) => 1 + alpha_numeric_length(rest),
        _ => 0,
    }
}

/// The length of these bytes and of what follows them, or 0 where that has none.
pub(crate) fn joined_length(bytes: usize, length: usize) -> usize
    requires { bytes + length < 2 ^ 64 }
    ensures { result ≡ joined_length bytes length }
{
    if length == 0 { 0 } else { bytes + length }
}

/// The length of the longest prefix that is a dollar word, or 0.
pub(crate) fn dollar_length(text: &[u8]) -> usize
    ensures { IsLongestPrefix is_dollar text.now result }
{
    let Some((b'$', rest)) = text.split_first() else {
        return 0;
    };
    if rest.starts_with(b"$") {
        joined_length(2, lower_length(&rest[1..]))
    } else {
        joined_length(1, lower_length(rest))
    }
}
