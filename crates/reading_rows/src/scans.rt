//! Tokens of texts.

ghost use Rattle.std.specs.Prelude.{◌≡◌, IsTrue};
ghost use Rattle.std.specs.List.{list_all};
ghost use Rattle.tff_lexer.specs.Forms.{are_digits, is_digit, is_numeral, unsigned};

use row_lines::{bad, bytes_of};
use std::alloc::{AllocError, Global};
use text_pieces::{Unread, push, push_decimal, push_signed_decimal};
use tff_lexer::{Token, TokenKind, numeral_value, tokens};

// a letter for each kind, a capital at a token's first byte
fn letter(kind: TokenKind, first: bool) -> u8 {
    let small = match kind {
        TokenKind::Lower => b'l',
        TokenKind::Upper => b'u',
        TokenKind::Dollar => b'd',
        TokenKind::Quoted => b'q',
        TokenKind::Distinct => b'o',
        TokenKind::Numeral => b'n',
        TokenKind::Rational => b'r',
        TokenKind::Real => b'e',
        TokenKind::Sign => b's',
    };
    if first {
        small.to_ascii_uppercase()
    } else {
        small
    }
}

// puts the letters of a token under its bytes
fn put_token(picture: &mut [u8], token: Token) {
    for at in token.start..token.end {
        if let Some(cell) = picture.get_mut(at as usize) {
            *cell = letter(token.kind, at == token.start);
        }
    }
}

// puts `#` from a place on
fn put_stop(picture: &mut [u8], stop: u64) {
    for at in stop..picture.len() as u64 {
        if let Some(cell) = picture.get_mut(at as usize) {
            *cell = b'#';
        }
    }
}

// under each byte the letter of its token, a dot between tokens, `#` from the stop on
fn picture(alloc: Global, text: &[u8]) -> Result<Vec<u8>, AllocError> {
    let scan = tokens(alloc, text)?;
    let mut picture = vec![in alloc; b'.'; text.len()]?;
    for token in scan.tokens.iter() {
        put_token(&mut picture, *token);
    }
    if let Some(stop) = scan.stop {
        put_stop(&mut picture, stop);
    }
    Ok(picture)
}

/// The picture of a text.
pub fn put_picture(alloc: Global, arguments: &str, answer: &mut Vec<u8>) -> Result<(), Unread> {
    let text = bytes_of(alloc, arguments)?;
    let picture = picture(alloc, text.as_slice())?;
    push(answer, picture.as_slice())?;
    Ok(())
}

/// How many tokens there are, and the first byte at which none begins.
pub fn put_count(alloc: Global, arguments: &str, answer: &mut Vec<u8>) -> Result<(), Unread> {
    let text = bytes_of(alloc, arguments)?;
    let scan = tokens(alloc, text.as_slice())?;
    push_decimal(alloc, answer, scan.tokens.len() as u128)?;
    if let Some(stop) = scan.stop {
        push(answer, b" stop ")?;
        push_decimal(alloc, answer, u128::from(stop))?;
    }
    Ok(())
}

// the text without a sign
fn unsigned(text: &[u8]) -> &[u8]
    ensures { result.now ≡ unsigned text.now }
{
    match text.split_first() {
        Some((b'+' | b'-', rest)) => rest,
        _ => text,
    }
}

fn all_digits(text: &[u8]) -> bool
    ensures { result ≡ list_all is_digit text.now }
{
    text.iter().all(|b| b.is_ascii_digit())
}

// whether there are digits and nothing else
fn are_digits(text: &[u8]) -> bool
    ensures { result ≡ are_digits text.now }
{
    match text {
        [] => false,
        [first, ..] => first.is_ascii_digit() && all_digits(text),
    }
}

// the number of a numeral, or `none`
fn put_value(alloc: Global, text: &[u8], answer: &mut Vec<u8>) -> Result<(), AllocError>
    requires { IsTrue (is_numeral text.now) }
{
    match numeral_value(text) {
        Some(z) => push_signed_decimal(alloc, answer, z),
        None => push(answer, b"none"),
    }
}

/// The number of a numeral, or `none`.
pub fn put_numeral(alloc: Global, arguments: &str, answer: &mut Vec<u8>) -> Result<(), Unread> {
    let text = arguments.as_bytes();
    if !are_digits(unsigned(text)) {
        return bad();
    }
    put_value(alloc, text, answer)?;
    Ok(())
}
