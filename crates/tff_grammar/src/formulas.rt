//! Reads formulas.
ghost use Rattle.std.specs.Prelude.{◌≡◌, ◌+◌, ◌<◌, ◌≤◌, [], ◌∷◌, ◌++◌, List, length, IfOk, IfErr, MatchOption};
ghost use Rattle.tff_grammar.specs.declared.trees.Variable as variables;
ghost use Rattle.tff_grammar.specs.declared.trees.Formula.TheVariants as the_formulas;
ghost use Rattle.tff_grammar.specs.Machine.{binders_value, formula_value, members_value, EndsChain, Reads, Stops};
ghost use Rattle.tff_grammar.specs.Machine as m;

use crate::cursor::{MAX_LEVELS, Pieces, binder_fault, copied, deeper, expect, next, syntax};
use crate::faults::Stop;
use crate::lists::{add, exact};
use crate::pieces::{Junction, Piece, Sign};
use crate::terms::term;
use crate::trees::{Formula, Variable};
use crate::types::argument_sort;
use sqlite_items::{Boxed, Items};
use std::alloc::Global;

/// A variable that a quantifier binds, and its sort where one is written.
fn variable<'a>(pieces: &Pieces<'a>, level: usize) -> Result<(Variable, Pieces<'a>), Stop>
    requires { level ≤ MAX_LEVELS }
    ensures ok { IfOk result
        (λ (v, rest). (bs : List variables.Variable)
        → Reads (m.binder ∷ []) (binders_value bs ∷ []) (m.more_binders ∷ [])
        (binders_value (bs ++ v ∷ []) ∷ []) level pieces.now rest) }
    ensures rest { IfOk result (λ (v, rest). length rest < length pieces.now) }
    ensures err { IfErr result (Stops (m.binder ∷ []) [] level pieces.now) }
{
    match next(pieces) {
        Some((Piece::Upper(name), after)) => match next(&after) {
            Some((Piece::Sign(Sign::Colon), behind)) => match next(&behind) {
                Some((piece, rest)) => match argument_sort(piece) {
                    Some(sort) => Ok((
                        Variable {
                            name,
                            sort: Some(sort),
                        },
                        rest,
                    )),
                    None => Err(binder_fault(&behind, level)),
                },
                None => Err(binder_fault(&behind, level)),
            },
            _ => Ok((Variable { name, sort: None }, after)),
        },
        _ => Err(syntax(pieces, level)),
    }
}

/// The variables that a quantifier binds, and the bracket behind them.
fn variables<'a>(
    alloc: Global,
    pieces: &Pieces<'a>,
    level: usize,
) -> Result<(Items<Variable>, Pieces<'a>), Stop>
    requires { level ≤ MAX_LEVELS }
    ensures ok { IfOk result
        (λ (vs, rest). Reads (m.binder ∷ []) (binders_value [] ∷ []) [] (binders_value vs ∷ []) level pieces.now rest) }
    ensures rest { IfOk result (λ (vs, rest). length rest ≤ length pieces.now) }
    ensures err { IfErr result (Stops (m.binder ∷ []) (binders_value [] ∷ []) level pieces.now) }
{
    let mut variables = Vec::new(alloc);
    let mut rest = copied(pieces);
    loop {
        let (variable, behind) = variable(&rest, level)?;
        add(&mut variables, variable)?;
        match next(&behind) {
            Some((Piece::Sign(Sign::Comma), after)) => rest = after,
            Some((Piece::Sign(Sign::CloseSquare), after)) => return Ok((exact(variables), after)),
            _ => return Err(syntax(&behind, level)),
        }
    }
}

/// A term, or two with a sign between them.
fn atom<'a>(alloc: Global, pieces: &Pieces<'a>, level: usize) -> Result<(Formula, Pieces<'a>), Stop>
    requires { level ≤ MAX_LEVELS }
    ensures ok { IfOk result
        (λ (f, rest). Reads (m.term ∷ m.second ∷ []) [] [] (formula_value f ∷ []) level pieces.now rest) }
    ensures rest { IfOk result (λ (f, rest). length rest < length pieces.now) }
    ensures err { IfErr result (Stops (m.term ∷ m.second ∷ []) [] level pieces.now) }
{
    let (left, rest) = term(alloc, pieces, level)?;
    match next(&rest) {
        Some((Piece::Relation(relation), after)) => {
            let (right, behind) = term(alloc, &after, level)?;
            Ok((Formula::Relation(relation, left, right), behind))
        }
        _ => Ok((Formula::Atom(left), rest)),
    }
}

/// What stands behind this sign at the front, where it does.
fn behind_junction<'a>(pieces: &Pieces<'a>, junction: Junction) -> Option<Pieces<'a>>
    ensures { MatchOption result (EndsChain junction pieces.now) (λ rest. pieces.now ≡ Piece.Junction junction ∷ rest) }
{
    match next(pieces) {
        Some((Piece::Junction(found), rest)) if found == junction => Some(rest),
        _ => None,
    }
}

#[cycle(formula)]
fn unit<'a>(alloc: Global, pieces: &Pieces<'a>, level: usize) -> Result<(Formula, Pieces<'a>), Stop>
    requires { level ≤ MAX_LEVELS }
    ensures ok { IfOk result (λ (f, rest). Reads (m.unit ∷ []) [] [] (formula_value f ∷ []) level pieces.now rest) }
    ensures rest { IfOk result (λ (f, rest). length rest < length pieces.now) }
    ensures err { IfErr result (Stops (m.unit ∷ []) [] level pieces.now) }
{
    match next(pieces) {
        Some((Piece::Sign(Sign::Not), after)) => {
            let inside = deeper(pieces, level)?;
            let (operand, rest) = unit(alloc, &after, inside)?;
            Ok((Formula::Not(Boxed::new(alloc, operand)?), rest))
        }
        Some((Piece::Quantifier(quantifier), after)) => {
            let inside = deeper(pieces, level)?;
            let open = expect(&after, Sign::OpenSquare, inside)?;
            let (variables, close) = variables(alloc, &open, inside)?;
            let behind = expect(&close, Sign::Colon, inside)?;
            let (body, rest) = unit(alloc, &behind, inside)?;
            Ok((
                Formula::Quantified(quantifier, variables, Boxed::new(alloc, body)?),
                rest,
            ))
        }
        Some((Piece::Sign(Sign::OpenRound), after)) => {
            let inside = deeper(pieces, level)?;
            let (formula, behind) = formula(alloc, &after, inside)?;
            let rest = expect(&behind, Sign::CloseRound, inside)?;
            Ok((formula, rest))
        }
        Some((Piece::Constant(constant), rest)) => Ok((Formula::Constant(constant), rest)),
        _ => atom(alloc, pieces, level),
    }
}

#[cycle(formula)]
pub(crate) fn formula<'a>(
    alloc: Global,
    pieces: &Pieces<'a>,
    level: usize,
) -> Result<(Formula, Pieces<'a>), Stop>
    requires { level ≤ MAX_LEVELS }
    ensures ok { IfOk result
        (λ (f, rest). Reads (m.unit ∷ m.tail ∷ []) [] [] (formula_value f ∷ []) level pieces.now rest) }
    ensures rest { IfOk result (λ (f, rest). length rest < length pieces.now) }
    ensures err { IfErr result (Stops (m.unit ∷ m.tail ∷ []) [] level pieces.now) }
{
    let (first, rest) = unit(alloc, pieces, level)?;
    match next(&rest) {
        Some((Piece::Link(link), after)) => {
            let (second, behind) = unit(alloc, &after, level)?;
            let formula = Formula::Linked(
                link,
                Boxed::new(alloc, first)?,
                Boxed::new(alloc, second)?,
            );
            Ok((formula, behind))
        }
        Some((Piece::Junction(junction), after)) => {
            let (members, behind) = members(alloc, junction, first, &after, level)?;
            Ok((Formula::Joined(junction, members), behind))
        }
        _ => Ok((first, rest)),
    }
}

/// The formulas behind a first one that the same sign joins to it.
#[cycle(formula)]
fn members<'a>(
    alloc: Global,
    junction: Junction,
    first: Formula,
    pieces: &Pieces<'a>,
    level: usize,
) -> Result<(Items<Formula>, Pieces<'a>), Stop>
    requires { level ≤ MAX_LEVELS }
    ensures ok { IfOk result
        (λ (fs, rest). Reads (m.unit ∷ m.chain junction ∷ []) (members_value (first ∷ []) ∷ []) []
        (formula_value (the_formulas.Joined junction fs) ∷ []) level pieces.now rest) }
    ensures rest { IfOk result (λ (fs, rest). length rest < length pieces.now) }
    ensures err { IfErr result
        (Stops (m.unit ∷ m.chain junction ∷ []) (members_value (first ∷ []) ∷ []) level pieces.now) }
{
    let mut members = Vec::new(alloc);
    add(&mut members, first)?;
    let mut rest = copied(pieces);
    loop {
        let (member, behind) = unit(alloc, &rest, level)?;
        add(&mut members, member)?;
        match behind_junction(&behind, junction) {
            Some(after) => rest = after,
            None => return Ok((exact(members), behind)),
        }
    }
}
