//! Printing and parsing of derivations.

ghost use Rattle.std.specs.Prelude.{◌≡◌, ◌≤◌, ◌-◌, length, IsTrue, IfOk, MatchResult};
ghost use Rattle.proof_text.specs.Derivations.{SpellsDerivation, Spells, is_spelled};
ghost use Rattle.proof_text.specs.Parsing.{WhereBad};

use crate::kinds::{Status, status_word};
use crate::step_printing::push_derivation;
use crate::steps::{derivation, proof};
use cert_text::{BadText, TextError};
use proof_steps::Derivation;
use std::alloc::{AllocError, Global};
use text_pieces::{Unread, push};

// Bad text where so many bytes are left.
fn bad(bytes: &[u8], left: usize) -> TextError
    requires { left ≤ length bytes.now }
    ensures { result ≡ TextError.BadText (record { at = length bytes.now - left }) }
{
    TextError::BadText(BadText {
        at: (bytes.len() - left) as u64,
    })
}

/// The derivation that the bytes spell, without a status line. BadText exactly where they are no spelling, at the first byte with
/// which no spelling goes on, or behind the last byte where the bytes end too early.
pub fn parse_derivation(alloc: Global, bytes: &[u8]) -> Result<Derivation, TextError>
    ensures { MatchResult result (λ d. SpellsDerivation d bytes.now) (WhereBad SpellsDerivation bytes.now) }
{
    match derivation(alloc, bytes) {
        Ok((d, [])) => Ok(d),
        Ok((_, rest)) => Err(bad(bytes, rest.len())),
        Err(Unread::Memory) => Err(TextError::Memory),
        Err(Unread::Bad(e)) => Err(bad(bytes, e.left)),
    }
}

/// The status and the derivation that the bytes spell, with the status line. BadText exactly where they are no spelling, at the
/// first byte with which no spelling goes on, or behind the last byte where the bytes end too early.
pub fn parse_text(alloc: Global, bytes: &[u8]) -> Result<(Status, Derivation), TextError>
    ensures { MatchResult result (λ p. Spells p bytes.now) (WhereBad Spells bytes.now) }
{
    match proof(alloc, bytes) {
        Ok((p, [])) => Ok(p),
        Ok((_, rest)) => Err(bad(bytes, rest.len())),
        Err(Unread::Memory) => Err(TextError::Memory),
        Err(Unread::Bad(e)) => Err(bad(bytes, e.left)),
    }
}

/// The spelling of a derivation without a status line, on the condition that each of its certificates has one. Where memory runs out
/// there is no text.
pub fn print_derivation(alloc: Global, d: &Derivation) -> Result<Vec<u8>, AllocError>
    requires { IsTrue (is_spelled d.now) }
    ensures { IfOk result (λ text. SpellsDerivation d.now text.items) }
{
    let mut text = Vec::new(alloc);
    push_derivation(alloc, &mut text, d)?;
    Ok(text)
}

/// The spelling of a derivation with its status line, on the condition that each of its certificates has one. Where memory runs out
/// there is no text.
pub fn print_text(alloc: Global, status: Status, d: &Derivation) -> Result<Vec<u8>, AllocError>
    requires { IsTrue (is_spelled d.now) }
    ensures { IfOk result (λ text. Spells (status, d.now) text.items) }
{
    let mut text = Vec::new(alloc);
    push(&mut text, b"% SZS status ")?;
    push(&mut text, status_word(status))?;
    push(&mut text, b" for stdin\n")?;
    push_derivation(alloc, &mut text, d)?;
    Ok(text)
}
