//! The front of the tokens that are left, and the fault that stands there.
ghost use Rattle.std.specs.Prelude.{◌≡◌, ◌+◌, ◌≤◌, [], ◌∷◌, length, IfOk, IfErr, MatchOption};
ghost use Rattle.tff_lexer.specs.Scans.{HaveForms, SpansAscend};
ghost use Rattle.tff_grammar.specs.Pieces.{pieces_at};
ghost use Rattle.tff_grammar.specs.Machine.{plain_name, start_name, role_name, argument_name, result_name, binder_name, refusal, IsOther};

use crate::faults::{FaultName, Found, Stop};
use crate::pieces::{Keyword, Piece, Sign};
use crate::tokens::{next_token, piece_at};
use std::marker::Model;
use tff_lexer::Token;

/// The most levels that may be open.
pub(crate) const MAX_LEVELS: usize = 500;

/// The tokens that are left. A clause sees them as the grammar does; they are classified one by one, where they are looked at.
#[derive(Drop)]
pub(crate) struct Pieces<'a> {
    bytes: &'a [u8],
    tokens: &'a [Token],
}

impl<'a> Model for Pieces<'a> {
    ghost use Rattle.std.specs.Prelude.{List};
    ghost use Rattle.tff_grammar.specs.declared.pieces.Piece.{Piece};

    ghost Value = { List Piece };

    ghost use Rattle.tff_grammar.specs.Left.{left_pieces, AreOfText};

    ghost view = { left_pieces };

    ghost invariant = { AreOfText };
}

impl<'a> Pieces<'a> {
    /// The tokens of a text.
    pub(crate) fn new(bytes: &'a [u8], tokens: &'a [Token]) -> Pieces<'a>
        requires spans { SpansAscend (length bytes.now) 0 tokens.now }
        requires forms { HaveForms bytes.now tokens.now }
        ensures { result ≡ pieces_at bytes.now tokens.now }
    {
        Pieces { bytes, tokens }
    }
}

/// The same tokens.
pub(crate) fn copied<'a>(pieces: &Pieces<'a>) -> Pieces<'a>
    ensures { result ≡ pieces.now }
{
    Pieces {
        bytes: pieces.bytes,
        tokens: pieces.tokens,
    }
}

/// The first token, and the rest.
pub(crate) fn next<'a>(pieces: &Pieces<'a>) -> Option<(Piece, Pieces<'a>)>
    ensures { MatchOption result (pieces.now ≡ []) (λ (p, rest). pieces.now ≡ p ∷ rest) }
{
    let bytes = pieces.bytes;
    let (first, tokens) = next_token(pieces.tokens)?;
    Some((piece_at(bytes, first), Pieces { bytes, tokens }))
}

/// How many tokens are left.
pub(crate) fn count(pieces: &Pieces) -> usize
    ensures { result ≡ length pieces.now }
{
    pieces.tokens.len()
}

fn fault(name: FaultName, pieces: &Pieces) -> Stop
    ensures { result ≡ Stop.Fault (record { name = name; left = length pieces.now }) }
{
    Stop::Fault(Found {
        name,
        left: count(pieces),
    })
}

fn plain_name(piece: Piece, level: usize) -> FaultName
    ensures { result ≡ plain_name level piece }
{
    match piece {
        Piece::Unsupported => FaultName::Unsupported,
        Piece::WideNumeral => FaultName::NumberTooWide,
        Piece::Sign(Sign::OpenRound | Sign::Not) | Piece::Quantifier(_) if level >= MAX_LEVELS => {
            FaultName::TooDeep
        }
        _ => FaultName::Syntax,
    }
}

/// The fault of a first token that the grammar doesn't have here, where so many levels are open.
pub(crate) fn syntax(pieces: &Pieces, level: usize) -> Stop
    ensures { result ≡ refusal (plain_name level) pieces.now }
{
    match next(pieces) {
        None => fault(FaultName::Syntax, pieces),
        Some((piece, _)) => fault(plain_name(piece, level), pieces),
    }
}

/// The fault of a first token that begins no statement.
pub(crate) fn start_fault(pieces: &Pieces) -> Stop
    ensures { result ≡ refusal start_name pieces.now }
{
    match next(pieces) {
        Some((Piece::Lower(Keyword::Include, _), _)) => fault(FaultName::Unsupported, pieces),
        Some((Piece::Lower(Keyword::Language, _), _)) => fault(FaultName::Language, pieces),
        _ => syntax(pieces, 0),
    }
}

/// The fault of a first token that is no role, or that of a second conjecture.
pub(crate) fn role_fault(pieces: &Pieces) -> Stop
    ensures { result ≡ refusal (role_name 0) pieces.now }
{
    match next(pieces) {
        Some((Piece::Lower(Keyword::Conjecture, _), _)) => fault(FaultName::TwoConjectures, pieces),
        Some((Piece::Lower(_, _), _)) => fault(FaultName::Unsupported, pieces),
        _ => syntax(pieces, 0),
    }
}

/// The fault of a first token that is no sort of an argument, where so many levels are open.
pub(crate) fn argument_fault(pieces: &Pieces, level: usize) -> Stop
    ensures { result ≡ refusal (argument_name level) pieces.now }
{
    match next(pieces) {
        Some((Piece::Truth | Piece::OfTypes, _)) => fault(FaultName::Unsupported, pieces),
        _ => syntax(pieces, level),
    }
}

/// The fault of a first token that is no sort of a result, where so many levels are open.
pub(crate) fn result_fault(pieces: &Pieces, level: usize) -> Stop
    ensures { result ≡ refusal (result_name level) pieces.now }
{
    match next(pieces) {
        Some((Piece::OfTypes, _)) => fault(FaultName::Unsupported, pieces),
        _ => syntax(pieces, level),
    }
}

/// The fault of a first token that is no sort of a variable, where so many levels are open.
pub(crate) fn binder_fault(pieces: &Pieces, level: usize) -> Stop
    ensures { result ≡ refusal (binder_name level) pieces.now }
{
    match next(pieces) {
        Some((Piece::Truth, _)) => fault(FaultName::Unsupported, pieces),
        _ => syntax(pieces, level),
    }
}

/// The fault of a `$o` at the front that is the sort of an argument.
pub(crate) fn truth_fault(pieces: &Pieces) -> Stop
    ensures { result ≡ Stop.Fault (record { name = FaultName.Unsupported; left = length pieces.now }) }
{
    fault(FaultName::Unsupported, pieces)
}

/// The first token opens one more level.
pub(crate) fn deeper(pieces: &Pieces, level: usize) -> Result<usize, Stop>
    requires { level ≤ MAX_LEVELS }
    ensures ok { IfOk result (λ inside. (inside ≡ level + 1) × (inside ≤ MAX_LEVELS)) }
    ensures err { IfErr result
        (λ e. (level + 1 ≡ 501) × (e ≡ Stop.Fault (record { name = FaultName.TooDeep; left = length pieces.now }))) }
{
    if level >= MAX_LEVELS {
        return Err(fault(FaultName::TooDeep, pieces));
    }
    Ok(level + 1)
}

/// This sign at the front, where so many levels are open.
pub(crate) fn expect<'a>(pieces: &Pieces<'a>, sign: Sign, level: usize) -> Result<Pieces<'a>, Stop>
    ensures ok { IfOk result (λ rest. pieces.now ≡ Piece.Sign sign ∷ rest) }
    ensures err { IfErr result (λ e. (e ≡ refusal (plain_name level) pieces.now) × IsOther sign pieces.now) }
{
    match next(pieces) {
        Some((Piece::Sign(found), rest)) if found == sign => Ok(rest),
        _ => Err(syntax(pieces, level)),
    }
}
