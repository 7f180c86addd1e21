//! Reads terms.
ghost use Rattle.std.specs.Prelude.{◌≡◌, ◌+◌, ◌<◌, ◌≤◌, [], ◌∷◌, length, IfOk, IfErr};
ghost use Rattle.tff_grammar.specs.declared.trees.Term.TheVariants as the_terms;
ghost use Rattle.tff_grammar.specs.Machine.{term_head, head_value, term_value, Reads, Stops};
ghost use Rattle.tff_grammar.specs.Machine as m;

use crate::cursor::{MAX_LEVELS, Pieces, copied, deeper, next, syntax};
use crate::faults::Stop;
use crate::lists::{add, exact};
use crate::pieces::{Piece, Sign};
use crate::trees::{Head, Term, Word};
use sqlite_items::Items;
use std::alloc::Global;

/// The head of a term that a token is.
fn term_head(piece: Piece) -> Option<Head>
    ensures { result ≡ term_head piece }
{
    match piece {
        Piece::Lower(_, span) => Some(Head::Word(Word::Lower(span))),
        Piece::Quoted(span) => Some(Head::Word(Word::Quoted(span))),
        Piece::Operation(operation, span) => Some(Head::Operation(operation, span)),
        _ => None,
    }
}

#[cycle(term)]
pub(crate) fn term<'a>(
    alloc: Global,
    pieces: &Pieces<'a>,
    level: usize,
) -> Result<(Term, Pieces<'a>), Stop>
    requires { level ≤ MAX_LEVELS }
    ensures ok { IfOk result (λ (t, rest). Reads (m.term ∷ []) [] [] (term_value t ∷ []) level pieces.now rest) }
    ensures rest { IfOk result (λ (t, rest). length rest < length pieces.now) }
    ensures err { IfErr result (Stops (m.term ∷ []) [] level pieces.now) }
{
    match next(pieces) {
        Some((Piece::Upper(span), rest)) => Ok((Term::Variable(span), rest)),
        Some((Piece::Numeral(number), rest)) => Ok((Term::Numeral(number), rest)),
        Some((piece, rest)) => match term_head(piece) {
            Some(head) => arguments(alloc, head, &rest, level),
            None => Err(syntax(pieces, level)),
        },
        None => Err(syntax(pieces, level)),
    }
}

/// The term of a head and what stands behind it.
#[cycle(term)]
fn arguments<'a>(
    alloc: Global,
    head: Head,
    pieces: &Pieces<'a>,
    level: usize,
) -> Result<(Term, Pieces<'a>), Stop>
    requires { level ≤ MAX_LEVELS }
    ensures ok { IfOk result
        (λ (t, rest). Reads (m.arguments ∷ []) (head_value head [] ∷ []) [] (term_value t ∷ []) level pieces.now rest) }
    ensures rest { IfOk result (λ (t, rest). length rest ≤ length pieces.now) }
    ensures err { IfErr result (Stops (m.arguments ∷ []) (head_value head [] ∷ []) level pieces.now) }
{
    match next(pieces) {
        Some((Piece::Sign(Sign::OpenRound), after)) => {
            deeper(pieces, level)?;
            let (arguments, rest) = terms(alloc, head, &after, level)?;
            Ok((Term::Apply(head, arguments), rest))
        }
        _ => Ok((Term::Apply(head, Items::new(alloc)), copied(pieces))),
    }
}

/// The arguments of a head up to the bracket that closes them, in a bracket above `level` levels.
#[cycle(term)]
fn terms<'a>(
    alloc: Global,
    head: Head,
    pieces: &Pieces<'a>,
    level: usize,
) -> Result<(Items<Term>, Pieces<'a>), Stop>
    requires { level < MAX_LEVELS }
    ensures ok { IfOk result
        (λ (ts, rest). Reads (m.term ∷ m.more_terms ∷ []) (head_value head [] ∷ []) []
        (term_value (the_terms.Apply head ts) ∷ []) level pieces.now rest) }
    ensures rest { IfOk result (λ (ts, rest). length rest ≤ length pieces.now) }
    ensures err { IfErr result (Stops (m.term ∷ m.more_terms ∷ []) (head_value head [] ∷ []) level pieces.now) }
{
    let mut terms = Vec::new(alloc);
    let mut rest = copied(pieces);
    loop {
        let (term, behind) = term(alloc, &rest, level + 1)?;
        add(&mut terms, term)?;
        match next(&behind) {
            Some((Piece::Sign(Sign::Comma), after)) => rest = after,
            Some((Piece::Sign(Sign::CloseRound), after)) => return Ok((exact(terms), after)),
            _ => return Err(syntax(&behind, level + 1)),
        }
    }
}
