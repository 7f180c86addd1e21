//! Reads the types that declarations give.
ghost use Rattle.std.specs.Prelude.{◌≡◌, ◌+◌, ◌<◌, ◌≤◌, [], ◌∷◌, ◌++◌, true, false, List, length, IfOk, IfErr};
ghost use Rattle.tff_grammar.specs.declared.trees.Sort as sorts;
ghost use Rattle.tff_grammar.specs.declared.trees.DeclaredType.TheVariants as types;
ghost use Rattle.tff_grammar.specs.Machine.{argument_sort, argument_follows, sorts_value, type_value, Reads, Stops};
ghost use Rattle.tff_grammar.specs.Machine as m;

use crate::cursor::{
    MAX_LEVELS, Pieces, argument_fault, copied, deeper, expect, next, result_fault, syntax,
    truth_fault,
};
use crate::faults::Stop;
use crate::pieces::{Piece, Sign};
use crate::trees::{DeclaredType, Sort, Word};
use sqlite_items::Items;
use std::alloc::Global;

/// The sort of an argument or a variable that a token is.
pub(crate) fn argument_sort(piece: Piece) -> Option<Sort>
    ensures { result ≡ argument_sort piece }
{
    match piece {
        Piece::Lower(_, span) => Some(Sort::Word(Word::Lower(span))),
        Piece::Quoted(span) => Some(Sort::Word(Word::Quoted(span))),
        Piece::Basic(basic) => Some(Sort::Basic(basic)),
        _ => None,
    }
}

/// In front of these tokens a `$o` is the sort of an argument.
fn argument_follows(pieces: &Pieces) -> bool
    ensures { result ≡ argument_follows false pieces.now }
{
    match next(pieces) {
        Some((Piece::Sign(Sign::Arrow), _)) => true,
        _ => false,
    }
}

/// In front of these tokens a `$o` behind a bracket is the sort of an argument.
fn argument_follows_in(pieces: &Pieces) -> bool
    ensures { result ≡ argument_follows true pieces.now }
{
    match next(pieces) {
        Some((Piece::Sign(Sign::Arrow | Sign::Star), _)) => true,
        Some((Piece::Sign(Sign::CloseRound), behind)) => argument_follows(&behind),
        _ => false,
    }
}

/// The sort behind a `>`.
fn result_sort<'a>(pieces: &Pieces<'a>, level: usize) -> Result<(Sort, Pieces<'a>), Stop>
    ensures ok { IfOk result
        (λ (s, rest). (args : List sorts.Sort)
        → Reads (m.result_sort ∷ []) (sorts_value args ∷ []) []
        (type_value (types.Function args s) ∷ []) level pieces.now rest) }
    ensures rest { IfOk result (λ (s, rest). length rest ≤ length pieces.now) }
    ensures err { IfErr result (Stops (m.result_sort ∷ []) [] level pieces.now) }
{
    match next(pieces) {
        Some((Piece::Truth, rest)) => Ok((Sort::Truth, rest)),
        Some((piece, rest)) => match argument_sort(piece) {
            Some(sort) => Ok((sort, rest)),
            None => Err(result_fault(pieces, level)),
        },
        None => Err(result_fault(pieces, level)),
    }
}

/// The type that begins with a sort: that of a constant, or a function of one argument.
fn type_behind<'a>(
    alloc: Global,
    sort: Sort,
    pieces: &Pieces<'a>,
    level: usize,
) -> Result<(DeclaredType, Pieces<'a>), Stop>
    ensures ok { IfOk result
        (λ (t, rest). Reads (m.result ∷ []) (sorts_value (sort ∷ []) ∷ []) []
        (type_value t ∷ []) level pieces.now rest) }
    ensures rest { IfOk result (λ (t, rest). length rest ≤ length pieces.now) }
    ensures err { IfErr result (Stops (m.result ∷ []) (sorts_value (sort ∷ []) ∷ []) level pieces.now) }
{
    let mut arguments = Items::new(alloc);
    match next(pieces) {
        Some((Piece::Sign(Sign::Arrow), after)) => {
            let (result, rest) = result_sort(&after, level)?;
            arguments.push(sort)?;
            Ok((DeclaredType::Function(arguments, result), rest))
        }
        _ => Ok((DeclaredType::Function(arguments, sort), copied(pieces))),
    }
}

/// A sort of an argument behind a `*`, in a bracket above `level` levels.
fn argument<'a>(pieces: &Pieces<'a>, level: usize) -> Result<(Sort, Pieces<'a>), Stop>
    requires { level < MAX_LEVELS }
    ensures ok { IfOk result
        (λ (s, rest). (args : List sorts.Sort)
        → Reads (m.argument ∷ []) (sorts_value args ∷ []) (m.more_args ∷ [])
        (sorts_value (args ++ s ∷ []) ∷ []) level pieces.now rest) }
    ensures rest { IfOk result (λ (s, rest). length rest < length pieces.now) }
    ensures err { IfErr result (Stops (m.argument ∷ []) [] level pieces.now) }
{
    match next(pieces) {
        Some((piece, rest)) => match argument_sort(piece) {
            Some(sort) => Ok((sort, rest)),
            None => Err(argument_fault(pieces, level + 1)),
        },
        None => Err(argument_fault(pieces, level + 1)),
    }
}

/// Further sorts behind a first one, each behind a `*`, and the bracket, above `level` levels.
fn arguments<'a>(
    alloc: Global,
    first: Sort,
    pieces: &Pieces<'a>,
    level: usize,
) -> Result<(Items<Sort>, Pieces<'a>), Stop>
    requires { level < MAX_LEVELS }
    ensures ok { IfOk result
        (λ (args, rest). Reads (m.argument ∷ []) (sorts_value (first ∷ []) ∷ []) (m.arrow_result ∷ [])
        (sorts_value args ∷ []) level pieces.now rest) }
    ensures rest { IfOk result (λ (args, rest). length rest ≤ length pieces.now) }
    ensures err { IfErr result (Stops (m.argument ∷ []) (sorts_value (first ∷ []) ∷ []) level pieces.now) }
{
    let mut arguments = Items::new(alloc);
    arguments.push(first)?;
    let (second, rest) = argument(pieces, level)?;
    arguments.push(second)?;
    let mut rest = rest;
    while let Some((Piece::Sign(Sign::Star), after)) = next(&rest) {
        let (sort, behind) = argument(&after, level)?;
        arguments.push(sort)?;
        rest = behind;
    }
    match next(&rest) {
        Some((Piece::Sign(Sign::CloseRound), behind)) => Ok((arguments, behind)),
        _ => Err(syntax(&rest, level + 1)),
    }
}

/// The type that begins with a sort behind a bracket, above `level` levels.
fn type_in<'a>(
    alloc: Global,
    sort: Sort,
    pieces: &Pieces<'a>,
    level: usize,
) -> Result<(DeclaredType, Pieces<'a>), Stop>
    requires { level < MAX_LEVELS }
    ensures ok { IfOk result
        (λ (t, rest). Reads (m.in_args ∷ []) (sorts_value (sort ∷ []) ∷ []) []
        (type_value t ∷ []) level pieces.now rest) }
    ensures rest { IfOk result (λ (t, rest). length rest ≤ length pieces.now) }
    ensures err { IfErr result (Stops (m.in_args ∷ []) (sorts_value (sort ∷ []) ∷ []) level pieces.now) }
{
    match next(pieces) {
        Some((Piece::Sign(Sign::CloseRound), after)) => type_behind(alloc, sort, &after, level),
        Some((Piece::Sign(Sign::Arrow), after)) => {
            let (result, rest) = result_sort(&after, level + 1)?;
            let behind = expect(&rest, Sign::CloseRound, level + 1)?;
            let mut arguments = Items::new(alloc);
            arguments.push(sort)?;
            Ok((DeclaredType::Function(arguments, result), behind))
        }
        Some((Piece::Sign(Sign::Star), after)) => {
            let (arguments, rest) = arguments(alloc, sort, &after, level)?;
            let behind = expect(&rest, Sign::Arrow, level)?;
            let (result, end) = result_sort(&behind, level)?;
            Ok((DeclaredType::Function(arguments, result), end))
        }
        _ => Err(syntax(pieces, level + 1)),
    }
}

/// A type and the bracket behind it, or sorts, the bracket and a result, in a bracket above `level` levels.
fn bracketed<'a>(
    alloc: Global,
    pieces: &Pieces<'a>,
    level: usize,
) -> Result<(DeclaredType, Pieces<'a>), Stop>
    requires { level < MAX_LEVELS }
    ensures ok { IfOk result (λ (t, rest). Reads (m.in_type ∷ []) [] [] (type_value t ∷ []) level pieces.now rest) }
    ensures rest { IfOk result (λ (t, rest). length rest ≤ length pieces.now) }
    ensures err { IfErr result (Stops (m.in_type ∷ []) [] level pieces.now) }
{
    match next(pieces) {
        Some((Piece::OfTypes, after)) => {
            let rest = expect(&after, Sign::CloseRound, level + 1)?;
            Ok((DeclaredType::OfTypes, rest))
        }
        Some((Piece::Sign(Sign::OpenRound), after)) => {
            deeper(pieces, level + 1)?;
            let (inner, behind) = bracketed(alloc, &after, level + 1)?;
            let rest = expect(&behind, Sign::CloseRound, level + 1)?;
            Ok((inner, rest))
        }
        Some((Piece::Truth, after)) => {
            if argument_follows_in(&after) {
                return Err(truth_fault(pieces));
            }
            let rest = expect(&after, Sign::CloseRound, level + 1)?;
            Ok((DeclaredType::Function(Items::new(alloc), Sort::Truth), rest))
        }
        Some((piece, after)) => match argument_sort(piece) {
            Some(sort) => type_in(alloc, sort, &after, level),
            None => Err(syntax(pieces, level + 1)),
        },
        None => Err(syntax(pieces, level + 1)),
    }
}

/// The type that a declaration gives.
pub(crate) fn declared_type<'a>(
    alloc: Global,
    pieces: &Pieces<'a>,
    level: usize,
) -> Result<(DeclaredType, Pieces<'a>), Stop>
    requires { level ≤ MAX_LEVELS }
    ensures ok { IfOk result (λ (t, rest). Reads (m.type ∷ []) [] [] (type_value t ∷ []) level pieces.now rest) }
    ensures rest { IfOk result (λ (t, rest). length rest ≤ length pieces.now) }
    ensures err { IfErr result (Stops (m.type ∷ []) [] level pieces.now) }
{
    match next(pieces) {
        Some((Piece::OfTypes, rest)) => Ok((DeclaredType::OfTypes, rest)),
        Some((Piece::Sign(Sign::OpenRound), after)) => {
            deeper(pieces, level)?;
            bracketed(alloc, &after, level)
        }
        Some((Piece::Truth, rest)) => {
            if argument_follows(&rest) {
                return Err(truth_fault(pieces));
            }
            Ok((DeclaredType::Function(Items::new(alloc), Sort::Truth), rest))
        }
        Some((piece, rest)) => match argument_sort(piece) {
            Some(sort) => type_behind(alloc, sort, &rest, level),
            None => Err(syntax(pieces, level)),
        },
        None => Err(syntax(pieces, level)),
    }
}

/// A word and its type, in brackets or not.
pub(crate) fn typing<'a>(
    alloc: Global,
    pieces: &Pieces<'a>,
    level: usize,
) -> Result<((Word, DeclaredType), Pieces<'a>), Stop>
    requires { level ≤ MAX_LEVELS }
    ensures ok { IfOk result
        (λ ((w, t), rest). Reads (m.typing ∷ []) [] [] (type_value t ∷ m.word_value w ∷ []) level pieces.now rest) }
    ensures rest { IfOk result (λ (t, rest). length rest ≤ length pieces.now) }
    ensures err { IfErr result (Stops (m.typing ∷ []) [] level pieces.now) }
{
    let (word, after) = match next(pieces) {
        Some((Piece::Lower(_, span), after)) => (Word::Lower(span), after),
        Some((Piece::Quoted(span), after)) => (Word::Quoted(span), after),
        Some((Piece::Sign(Sign::OpenRound), after)) => {
            let inside = deeper(pieces, level)?;
            let (inner, behind) = typing(alloc, &after, inside)?;
            let rest = expect(&behind, Sign::CloseRound, inside)?;
            return Ok((inner, rest));
        }
        _ => return Err(syntax(pieces, level)),
    };
    let behind = expect(&after, Sign::Colon, level)?;
    let (given, rest) = declared_type(alloc, &behind, level)?;
    Ok(((word, given), rest))
}
