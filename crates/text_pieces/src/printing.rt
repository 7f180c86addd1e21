//! Printing of pieces.

ghost use Rattle.std.specs.Prelude.{◌≡◌, ◌∷◌, ◌++◌, MatchResult};
ghost use Rattle.text_pieces.specs.Decimals.{decimal, signed_decimal};

use std::alloc::{AllocError, Global};

/// Puts these bytes behind the text, or leaves it as it is.
pub fn push(text: &mut Vec<u8>, bytes: &[u8]) -> Result<(), AllocError>
    ensures { MatchResult result (λ _. text.new.items ≡ text.old.items ++ bytes.now)
        (λ _. text.new.items ≡ text.old.items) }
{
    text.extend_from_slice(bytes)
}

/// Puts a number behind the text, or leaves it as it is.
pub fn push_decimal(alloc: Global, text: &mut Vec<u8>, n: u128) -> Result<(), AllocError>
    ensures { MatchResult result (λ _. text.new.items ≡ text.old.items ++ decimal n)
        (λ _. text.new.items ≡ text.old.items) }
{
    let digits = format!(in alloc; "{n}")?;
    push(text, digits.as_bytes())
}

/// Puts a number with its sign behind the text, or leaves it as it is.
pub fn push_signed_decimal(alloc: Global, text: &mut Vec<u8>, z: i128) -> Result<(), AllocError>
    ensures { MatchResult result (λ _. text.new.items ≡ text.old.items ++ signed_decimal z)
        (λ _. text.new.items ≡ text.old.items) }
{
    let digits = format!(in alloc; "{z}")?;
    push(text, digits.as_bytes())
}

/// Puts a blank and a number behind the text, or leaves it as it is.
pub fn push_blank_decimal(alloc: Global, text: &mut Vec<u8>, n: u128) -> Result<(), AllocError>
    ensures { MatchResult result (λ _. text.new.items ≡ text.old.items ++ 32 ∷ decimal n)
        (λ _. text.new.items ≡ text.old.items) }
{
    let digits = format!(in alloc; " {n}")?;
    push(text, digits.as_bytes())
}

/// Puts a blank and a number with its sign behind the text, or leaves it as it is.
pub fn push_blank_signed(alloc: Global, text: &mut Vec<u8>, z: i128) -> Result<(), AllocError>
    ensures { MatchResult result (λ _. text.new.items ≡ text.old.items ++ 32 ∷ signed_decimal z)
        (λ _. text.new.items ≡ text.old.items) }
{
    let digits = format!(in alloc; " {z}")?;
    push(text, digits.as_bytes())
}
