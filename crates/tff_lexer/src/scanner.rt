//! The scan of a text.
ghost use Rattle.std.specs.Prelude.{◌≡◌, ◌<◌, IfOk, IfSome, length};
ghost use Rattle.tff_lexer.specs.Prefixes.{kind_by_first_byte, kind_by_byte, token_of_length};
ghost use Rattle.tff_lexer.specs.Scans.{BeginsNoToken, FirstToken, Scans, SpansAscend, StopsAt};

use crate::blanks::skip_blanks;
use crate::numbers::number_token;
use crate::quotes::{distinct_length, quoted_length};
use crate::signs::sign_length;
use crate::spans::{Scan, Token, TokenKind};
use crate::words::{dollar_length, lower_length, upper_length};
use std::alloc::{AllocError, Global};

/// The kind of the tokens that begin with the first byte, if any do; Numeral stands for rationals and reals too.
fn kind_by_first_byte(text: &[u8]) -> TokenKind
    ensures { result ≡ kind_by_first_byte text.now }
{
    match text.first() {
        Some(b'a'..=b'z') => TokenKind::Lower,
        Some(b'A'..=b'Z') => TokenKind::Upper,
        Some(b'$') => TokenKind::Dollar,
        Some(b'\'') => TokenKind::Quoted,
        Some(b'"') => TokenKind::Distinct,
        Some(b'0'..=b'9' | b'+' | b'-') => TokenKind::Numeral,
        _ => TokenKind::Sign,
    }
}

/// The token of this length, where that isn't 0.
fn token_of_length(kind: TokenKind, length: usize) -> Option<(TokenKind, usize)>
    ensures { result ≡ token_of_length kind length }
{
    if length == 0 {
        None
    } else {
        Some((kind, length))
    }
}

/// The kind and the length of the longest token that begins here, if one does.
fn first_token(text: &[u8]) -> Option<(TokenKind, usize)>
    ensures { FirstToken text.now result }
{
    match kind_by_first_byte(text) {
        TokenKind::Lower => token_of_length(TokenKind::Lower, lower_length(text)),
        TokenKind::Upper => token_of_length(TokenKind::Upper, upper_length(text)),
        TokenKind::Dollar => token_of_length(TokenKind::Dollar, dollar_length(text)),
        TokenKind::Quoted => token_of_length(TokenKind::Quoted, quoted_length(text)),
        TokenKind::Distinct => token_of_length(TokenKind::Distinct, distinct_length(text)),
        TokenKind::Numeral => number_token(text),
        _ => token_of_length(TokenKind::Sign, sign_length(text)),
    }
}

/// The place, where something is left there.
fn stop_at(at: u64, rest: &[u8]) -> Option<u64>
    requires { BeginsNoToken rest.now }
    ensures stops { StopsAt at rest.now result }
    ensures within { IfSome result (λ place. (place ≡ at) × (0 < length rest.now)) }
{
    if rest.is_empty() { None } else { Some(at) }
}

/// The tokens of a text (TPTP) in order, each the longest that begins at its place behind white space and comments, and the
/// first byte at which no token begins: None where the text was read to its end. Places are bytes, counted from 0. Err where
/// memory is wanting.
pub fn tokens(alloc: Global, bytes: &[u8]) -> Result<Scan, AllocError>
    ensures scan { IfOk result (λ scan. Scans bytes.now scan.tokens.items scan.stop) }
    ensures spans { IfOk result (λ scan. SpansAscend (length bytes.now) 0 scan.tokens.items) }
    ensures stop { IfOk result (λ scan. IfSome scan.stop (λ place. place < length bytes.now)) }
{
    let mut tokens = Vec::new(alloc);
    let mut rest = skip_blanks(bytes);
    while let Some((kind, length)) = first_token(rest) {
        let start = bytes.len() - rest.len();
        let end = start + length;
        tokens.push(Token {
            kind,
            start: start as u64,
            end: end as u64,
        })?;
        rest = skip_blanks(&rest[length..]);
    }
    let stop = stop_at((bytes.len() - rest.len()) as u64, rest);
    Ok(Scan { tokens, stop })
}
