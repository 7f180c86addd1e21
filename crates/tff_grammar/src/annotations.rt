//! Passes over annotations.
ghost use Rattle.std.specs.Prelude.{◌≡◌, ◌≤◌, ◌<◌, [], ◌∷◌, length, IfOk, IfErr};
ghost use Rattle.tff_grammar.specs.Notes.{note_of};
ghost use Rattle.tff_grammar.specs.Machine.{Reads, Stops};
ghost use Rattle.tff_grammar.specs.Machine as m;

use crate::cursor::{MAX_LEVELS, Pieces, copied, count, deeper, expect, next, syntax};
use crate::faults::Stop;
use crate::pieces::{Piece, Sign};

/// What a token is in annotations.
#[derive(Clone, Copy)]
enum Note {
    OpenRound,
    CloseRound,
    OpenSquare,
    CloseSquare,
    /// A numeral out of the range.
    Wide,
    Other,
}

fn note_at(piece: Piece) -> Note
    ensures { result ≡ note_of piece }
{
    match piece {
        Piece::Sign(Sign::OpenRound) => Note::OpenRound,
        Piece::Sign(Sign::CloseRound) => Note::CloseRound,
        Piece::Sign(Sign::OpenSquare) => Note::OpenSquare,
        Piece::Sign(Sign::CloseSquare) => Note::CloseSquare,
        Piece::WideNumeral => Note::Wide,
        _ => Note::Other,
    }
}

/// What is behind a round bracket of annotations, what stands in it, and the other bracket.
#[cycle(annotations)]
fn round<'a>(pieces: &Pieces<'a>, after: &Pieces<'a>, level: usize) -> Result<Pieces<'a>, Stop>
    requires level { level ≤ MAX_LEVELS }
    requires front { pieces.now ≡ Piece.Sign Sign.OpenRound ∷ after.now }
    ensures ok { IfOk result (λ rest. Reads (m.notes ∷ []) [] (m.notes ∷ []) [] level pieces.now rest) }
    ensures rest { IfOk result (λ rest. length rest < length pieces.now) }
    ensures err { IfErr result (Stops (m.notes ∷ []) [] level pieces.now) }
{
    let inside = deeper(pieces, level)?;
    let behind = annotations(after, inside)?;
    expect(&behind, Sign::CloseRound, inside)
}

/// What is behind annotations: the first closing bracket that none of theirs opens, or the end.
#[cycle(annotations)]
pub(crate) fn annotations<'a>(pieces: &Pieces<'a>, level: usize) -> Result<Pieces<'a>, Stop>
    requires { level ≤ MAX_LEVELS }
    ensures ok { IfOk result (λ rest. Reads (m.notes ∷ []) [] [] [] level pieces.now rest) }
    ensures rest { IfOk result (λ rest. length rest ≤ length pieces.now) }
    ensures err { IfErr result (Stops (m.notes ∷ []) [] level pieces.now) }
{
    let mut squares: usize = 0;
    let mut rest = copied(pieces);
    while let Some((piece, after)) = next(&rest) {
        match note_at(piece) {
            Note::OpenRound => rest = round(&rest, &after, level)?,
            Note::OpenSquare => {
                prove!(squares < count(pieces));
                squares += 1;
                rest = after;
            }
            Note::CloseSquare => {
                if squares == 0 {
                    return Ok(rest);
                }
                squares -= 1;
                rest = after;
            }
            Note::CloseRound => {
                if squares == 0 {
                    return Ok(rest);
                }
                return Err(syntax(&rest, level));
            }
            Note::Wide => return Err(syntax(&rest, level)),
            Note::Other => rest = after,
        }
    }
    if squares == 0 {
        return Ok(rest);
    }
    Err(syntax(&rest, level))
}
