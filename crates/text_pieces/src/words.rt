//! Single bytes, the blank among them, and words.

ghost use Rattle.std.specs.Prelude.{◌≡◌, ℕ, ◌<◌, ◌∷◌, List, map, MatchResult, IfOk, IfErr, IfSome, IfNone, length};
ghost use Rattle.text_pieces.specs.Languages.{NoDigit, GoesOn, Reads, Fails, Exactly, OneOf, NoneBefore};

use crate::bad_texts::Bad;
use crate::numbers::begins_with_digit;

/// What follows this byte, where it stands in front.
pub fn after_byte(text: &[u8], byte: u8) -> Option<&[u8]>
    ensures some { IfSome result (λ rest. text.now ≡ byte ∷ rest.now) }
    ensures none { IfNone result ((rest : List ℕ) → text.now ≡ byte ∷ rest → ⊥) }
{
    let (first, rest) = text.split_first()?;
    if *first == byte { Some(rest) } else { None }
}

/// What follows this byte. Bad at the first byte where it is another one, or there is none.
pub fn behind(text: &[u8], byte: u8) -> Result<&[u8], Bad>
    ensures ok { IfOk result (λ rest. text.now ≡ byte ∷ rest.now) }
    ensures err { IfErr result (λ e. (e.left ≡ length text.now) × ((rest : List ℕ) → text.now ≡ byte ∷ rest → ⊥)) }
{
    match after_byte(text, byte) {
        Some(rest) => Ok(rest),
        None => Err(Bad { left: text.len() }),
    }
}

/// What follows a blank. Bad at the first byte where it is another one, or there is none.
pub fn blank(text: &[u8]) -> Result<&[u8], Bad>
    ensures ok { IfOk result (λ rest. text.now ≡ 32 ∷ rest.now) }
    ensures err { IfErr result (λ e. (e.left ≡ length text.now) × ((rest : List ℕ) → text.now ≡ 32 ∷ rest → ⊥)) }
{
    behind(text, b' ')
}

/// What follows these bytes, where no digit does. Bad at the first byte that is another one.
pub fn exactly<'a>(text: &'a [u8], word: &[u8]) -> Result<&'a [u8], Bad>
    ensures { MatchResult result (λ rest. Reads (Exactly word.now) text.now tt rest.now)
        (λ e. Fails (Exactly word.now) text.now e.left) }
{
    let mut rest = text;
    for byte in word {
        let Some(more) = after_byte(rest, *byte) else {
            return Err(Bad { left: rest.len() });
        };
        rest = more;
    }
    if begins_with_digit(rest) {
        return Err(Bad { left: rest.len() });
    }
    Ok(rest)
}

/// The place of the first of the words that stands in front of the bytes with no digit behind it, and what follows.
/// Bad at the first byte with which none of them goes on.
pub fn one_of<'a>(text: &'a [u8], words: &[&[u8]]) -> Result<(usize, &'a [u8]), Bad>
    requires { 0 < length words.now }
    ensures reads { MatchResult result (λ f. Reads (OneOf (map (λ w. w.now) words.now)) text.now f.0 f.1.now)
        (λ e. Fails (OneOf (map (λ w. w.now) words.now)) text.now e.left) }
    ensures first { IfOk result (λ f. NoneBefore (map (λ w. w.now) words.now) f.0 text.now) }
{
    let mut left = text.len();
    for (i, word) in words.iter().enumerate() {
        match exactly(text, word) {
            Ok(rest) => return Ok((i, rest)),
            Err(bad) => left = left.min(bad.left),
        }
    }
    Err(Bad { left })
}
