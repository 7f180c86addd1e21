//! Quoted words and distinct objects.
ghost use Rattle.std.specs.Prelude.{◌≡◌, ◌≢◌, ◌||◌, ◌==◌, ◌+◌, ◌-◌, ◌≤◌, ℕ, ◌∷◌, length, IfSome, IfNone};
ghost use Rattle.tff_lexer.specs.Forms.{is_content_and_quote, is_unescaped, is_quoted, is_distinct};
ghost use Rattle.tff_lexer.specs.Prefixes.{IsLongestPrefix, joined_length};

use crate::words::joined_length;

/// Whether the byte stands for itself between quotes.
fn is_unescaped(b: u8, quote: u8) -> bool
    ensures { result ≡ is_unescaped quote b }
{
    if b == quote {
        return false;
    }
    if b == b'\\' {
        return false;
    }
    b >= b' ' && b <= b'~'
}

/// Whether `\` may stand before the byte.
fn may_be_escaped(b: u8, quote: u8) -> bool
    ensures { result ≡ (b == quote || b == 92) }
{
    b == quote || b == b'\\'
}

/// What follows the byte that stands for itself, or the `\` and the byte behind it, where the text begins with either.
fn after_character<'a>(first: u8, rest: &'a [u8], quote: u8) -> Option<&'a [u8]>
    requires no_backslash { quote ≢ 92 }
    requires no_quote { first ≢ quote }
    ensures next { IfSome result (λ after. (n : ℕ) → IsLongestPrefix (is_content_and_quote quote) after.now n
        → IsLongestPrefix (is_content_and_quote quote) (first ∷ rest.now) (joined_length (length rest.now + 1 - length after.now) n)) }
    ensures shorter { IfSome result (λ after. length after.now ≤ length rest.now) }
    ensures none { IfNone result (IsLongestPrefix (is_content_and_quote quote) (first ∷ rest.now) 0) }
{
    if first == b'\\' {
        let (escaped, after) = rest.split_first()?;
        return if may_be_escaped(*escaped, quote) {
            Some(after)
        } else {
            None
        };
    }
    if is_unescaped(first, quote) {
        Some(rest)
    } else {
        None
    }
}

/// The length of the longest prefix that ends with the closing quote, or 0.
fn content_and_quote_length(text: &[u8], quote: u8) -> usize
    requires { quote ≢ 92 }
    ensures { IsLongestPrefix (is_content_and_quote quote) text.now result }
{
    let mut rest = text;
    while let Some((first, more)) = rest.split_first() {
        if *first == quote {
            return text.len() - more.len();
        }
        match after_character(*first, more, quote) {
            Some(after) => rest = after,
            None => return 0,
        }
    }
    0
}

/// The length of the longest prefix that is a quoted word, or 0.
pub(crate) fn quoted_length(text: &[u8]) -> usize
    ensures { IsLongestPrefix is_quoted text.now result }
{
    match text.split_first() {
        Some((b'\'', rest)) => match content_and_quote_length(rest, b'\'') {
            1 => 0,
            length => joined_length(1, length),
        },
        _ => 0,
    }
}

/// The length of the longest prefix that is a distinct object, or 0.
pub(crate) fn distinct_length(text: &[u8]) -> usize
    ensures { IsLongestPrefix is_distinct text.now result }
{
    match text.split_first() {
        Some((b'"', rest)) => joined_length(1, content_and_quote_length(rest, b'"')),
        _ => 0,
    }
}
