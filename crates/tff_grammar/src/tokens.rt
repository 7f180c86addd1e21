//! Tokens as the grammar sees them, by their kinds and their bytes.
ghost use Rattle.std.specs.Prelude.{◌≡◌, ◌<◌, ◌≤◌, [], ◌∷◌, IsTrue, MatchOption, length};
ghost use Rattle.tff_lexer.specs.Forms.{is_token, is_numeral};
ghost use Rattle.tff_lexer.specs.Values.{value};
ghost use Rattle.tff_grammar.specs.Pieces.{bytes_of, numeral_piece, piece_of, place};

use crate::pieces::{Number, Piece, Span};
use crate::words::{dollar, keyword, sign};
use tff_lexer::{Token, TokenKind, numeral_value};

/// A numeral as the grammar sees it.
fn numeral(text: &[u8], span: Span) -> Piece
    requires { IsTrue (is_numeral text.now) }
    ensures { result ≡ numeral_piece (value text.now) span }
{
    match numeral_value(text) {
        Some(value) => Piece::Numeral(Number { value, span }),
        None => Piece::WideNumeral,
    }
}

/// A token of this kind, with this text and at this place.
fn piece(kind: TokenKind, text: &[u8], span: Span) -> Piece
    requires { IsTrue (is_token kind text.now) }
    ensures { result ≡ piece_of kind text.now span }
{
    match kind {
        TokenKind::Lower => Piece::Lower(keyword(text), span),
        TokenKind::Upper => Piece::Upper(span),
        TokenKind::Dollar => dollar(text, span),
        TokenKind::Quoted => Piece::Quoted(span),
        TokenKind::Numeral => numeral(text, span),
        TokenKind::Sign => sign(text),
        TokenKind::Distinct | TokenKind::Rational | TokenKind::Real => Piece::Unsupported,
    }
}

/// A token of a text.
pub(crate) fn piece_at(bytes: &[u8], token: Token) -> Piece
    requires spans { (token.start < token.end) × (token.end ≤ length bytes.now) }
    requires form { IsTrue (is_token token.kind (bytes_of bytes.now token)) }
    ensures { result ≡ piece_of token.kind (bytes_of bytes.now token) (place token) }
{
    let span = Span {
        start: token.start,
        end: token.end,
    };
    piece(
        token.kind,
        &bytes[token.start as usize..token.end as usize],
        span,
    )
}

/// The first token, and the rest.
pub(crate) fn next_token(tokens: &[Token]) -> Option<(Token, &[Token])>
    ensures { MatchOption result (tokens.now ≡ []) (λ (t, rest). tokens.now ≡ t ∷ rest.now) }
{
    let (first, rest) = tokens.split_first()?;
    Some((*first, rest))
}
