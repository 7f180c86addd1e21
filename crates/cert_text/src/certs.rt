//! The text of certificates.

ghost use Rattle.std.specs.Prelude.{◌≡◌, MatchResult, IsTrue, IfOk};
ghost use Rattle.text_pieces.specs.Languages.{Reads};
ghost use Rattle.text_pieces.specs.Failing.{Unreadable};
ghost use Rattle.cert_text.specs.Grammar.{Spells};
ghost use Rattle.text_pieces.specs.Printing.{Puts};
ghost use Rattle.cert_text.specs.Spelled.{is_spelled};
ghost use Rattle.cert_text.specs.Parsing.{Begins, WhereBad};
ghost use Rattle.cert_text.specs.declared.certs.TextError.TheVariants as text;

use crate::parts::rows;
use crate::printing::push_rows;
use crate::tree_printing::push_blank_tree;
use crate::trees::blank_tree;
use cert_tree::Cert;
use std::alloc::{AllocError, Global};
use text_pieces::{Unread, exactly, push};
use thiserror::Error;

/// No spelling begins the bytes.
#[derive(Clone, Copy, Debug, PartialEq, Eq, Error)]
#[error("bad text at {at}")]
pub struct BadText {
    /// How many bytes stand before the first with which no spelling goes on.
    pub at: u64,
}

/// Why a text gives no value.
#[derive(Clone, Copy, Debug, PartialEq, Eq, Error)]
pub enum TextError {
    /// Memory ran out.
    #[error("out of memory")]
    Memory,
    /// No spelling begins the bytes.
    #[error("bad text at {}", .0.at)]
    BadText(BadText),
}

/// The certificate in front of the bytes, and what follows. Bad at the first byte with which none goes on.
pub fn cert(alloc: Global, text: &[u8]) -> Result<(Cert, &[u8]), Unread>
    ensures { MatchResult result (λ f. Reads Spells text.now f.0 f.1.now) (Unreadable Spells text.now) }
{
    let behind = exactly(text, b"cert")?;
    let (rows, rest) = rows(alloc, behind)?;
    let (tree, rest) = blank_tree(alloc, rest)?;
    Ok((Cert { rows, tree }, rest))
}

/// The certificate whose spelling begins the bytes where no digit follows it, and how many bytes it takes. Nothing is reserved for
/// a count in advance. BadText exactly where no such spelling begins the bytes, at the first byte with which no spelling goes on,
/// or behind the last byte where the bytes end too early.
pub fn parse_cert(alloc: Global, bytes: &[u8]) -> Result<(Cert, u64), TextError>
    ensures { MatchResult result (λ f. Begins f.0 f.1 bytes.now) (WhereBad bytes.now) }
{
    match cert(alloc, bytes) {
        Ok((cert, rest)) => Ok((cert, (bytes.len() - rest.len()) as u64)),
        Err(Unread::Memory) => Err(TextError::Memory),
        Err(Unread::Bad(bad)) => Err(TextError::BadText(BadText {
            at: (bytes.len() - bad.left) as u64,
        })),
    }
}

/// Puts the spelling of a certificate behind the text, on the condition of `print_cert`. Where memory runs out, the text still begins
/// with what it held.
pub fn push_cert(alloc: Global, text: &mut Vec<u8>, cert: &Cert) -> Result<(), AllocError>
    requires { IsTrue (is_spelled cert.now) }
    ensures { Puts Spells cert.now text.old.items text.new.items result }
{
    push(text, b"cert")?;
    push_rows(alloc, text, cert.rows.as_slice())?;
    push_blank_tree(alloc, text, &cert.tree)
}

/// The spelling of a certificate, on the condition that in each sum the unknowns ascend and no coefficient is 0, and that each node
/// `residues` has as many children as its modulus says. Where memory runs out there is no text.
pub fn print_cert(alloc: Global, cert: &Cert) -> Result<Vec<u8>, AllocError>
    requires { IsTrue (is_spelled cert.now) }
    ensures { IfOk result (λ text. Spells cert.now text.items) }
{
    let mut text = Vec::new(alloc);
    push_cert(alloc, &mut text, cert)?;
    Ok(text)
}
