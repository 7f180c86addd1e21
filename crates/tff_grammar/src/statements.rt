//! Reads statements, and all that a file says.
ghost use Rattle.std.specs.Prelude.{◌≡◌, ◌<◌, ◌≤◌, [], ◌∷◌, ◌++◌, false, List, length, IfOk, IfErr};
ghost use Rattle.tff_grammar.specs.declared.trees.Statement as the_statements;
ghost use Rattle.tff_grammar.specs.Machine.{Stack, Values, file_value, name_value, content_values, again_behind, go, whole, read, Reads, Stops, Faults};
ghost use Rattle.tff_grammar.specs.Machine as m;

use crate::annotations::annotations;
use crate::cursor::{Pieces, copied, expect, next, role_fault, start_fault, syntax};
use crate::faults::Stop;
use crate::formulas::formula;
use crate::pieces::{Keyword, Piece, Sign, Span};
use crate::trees::{Content, Statement};
use crate::types::typing;
use sqlite_items::Items;
use std::alloc::Global;

/// The place of a statement's name.
fn name<'a>(pieces: &Pieces<'a>) -> Result<(Span, Pieces<'a>), Stop>
    ensures ok { IfOk result (λ (s, rest). Reads (m.a_name ∷ []) [] [] (name_value s ∷ []) 0 pieces.now rest) }
    ensures rest { IfOk result (λ (s, rest). length rest < length pieces.now) }
    ensures err { IfErr result (Stops (m.a_name ∷ []) [] 0 pieces.now) }
{
    match next(pieces) {
        Some((Piece::Lower(_, span) | Piece::Quoted(span), rest)) => Ok((span, rest)),
        Some((Piece::Numeral(number), rest)) => Ok((number.span, rest)),
        _ => Err(syntax(pieces, 0)),
    }
}

/// What stands behind a role and a comma, by the role; `again` where a conjecture came before.
fn content<'a>(
    alloc: Global,
    pieces: &Pieces<'a>,
    again: bool,
) -> Result<(Content, Pieces<'a>), Stop>
    ensures ok { IfOk result
        (λ (c, rest). (k : Stack) (vs : Values)
        → go (m.role again ∷ k) vs pieces.now
        ≡ go (m.ending ∷ m.statements (again_behind again c) ∷ k) (content_values c vs) rest) }
    ensures rest { IfOk result (λ (c, rest). length rest ≤ length pieces.now) }
    ensures err { IfErr result (Stops (m.role again ∷ []) [] 0 pieces.now) }
{
    match next(pieces) {
        Some((Piece::Lower(Keyword::Declaration, _), after)) => {
            let behind = expect(&after, Sign::Comma, 0)?;
            let ((word, given), rest) = typing(alloc, &behind, 0)?;
            Ok((Content::Declaration(word, given), rest))
        }
        Some((Piece::Lower(Keyword::Premise, _), after)) => {
            let behind = expect(&after, Sign::Comma, 0)?;
            let (premise, rest) = formula(alloc, &behind, 0)?;
            Ok((Content::Premise(premise), rest))
        }
        Some((Piece::Lower(Keyword::Conjecture, _), after)) if !again => {
            let behind = expect(&after, Sign::Comma, 0)?;
            let (conjecture, rest) = formula(alloc, &behind, 0)?;
            Ok((Content::Conjecture(conjecture), rest))
        }
        _ => Err(role_fault(pieces)),
    }
}

/// The end of a statement, behind annotations where there are some.
fn ending<'a>(pieces: &Pieces<'a>) -> Result<Pieces<'a>, Stop>
    ensures ok { IfOk result
        (λ rest. (k : Stack) (vs : Values) → m.levels k ≡ 0
        → go (m.ending ∷ k) vs pieces.now ≡ go k (m.ending_taken vs) rest) }
    ensures rest { IfOk result (λ rest. length rest ≤ length pieces.now) }
    ensures err { IfErr result (Stops (m.ending ∷ []) [] 0 pieces.now) }
{
    let behind = match next(pieces) {
        Some((Piece::Sign(Sign::CloseRound), after)) => after,
        Some((Piece::Sign(Sign::Comma), after)) => {
            let close = annotations(&after, 0)?;
            expect(&close, Sign::CloseRound, 0)?
        }
        _ => return Err(syntax(pieces, 0)),
    };
    expect(&behind, Sign::Dot, 0)
}

/// A statement behind its first word; `again` where a conjecture came before.
fn statement<'a>(
    alloc: Global,
    pieces: &Pieces<'a>,
    again: bool,
) -> Result<(Statement, Pieces<'a>), Stop>
    ensures ok { IfOk result
        (λ (s, rest). (ss : List the_statements.Statement)
        → go (m.sign Sign.OpenRound ∷ m.a_name ∷ m.sign Sign.Comma ∷ m.role again ∷ []) (file_value ss ∷ []) pieces.now
        ≡ go (m.statements (again_behind again s.content) ∷ []) (file_value (ss ++ s ∷ []) ∷ []) rest) }
    ensures rest { IfOk result (λ (s, rest). length rest ≤ length pieces.now) }
    ensures err { IfErr result
        (Stops (m.sign Sign.OpenRound ∷ m.a_name ∷ m.sign Sign.Comma ∷ m.role again ∷ []) [] 0 pieces.now) }
{
    let inner = expect(pieces, Sign::OpenRound, 0)?;
    let (name, after) = name(&inner)?;
    let behind = expect(&after, Sign::Comma, 0)?;
    let (content, close) = content(alloc, &behind, again)?;
    let rest = ending(&close)?;
    Ok((Statement { name, content }, rest))
}

fn is_conjecture(content: &Content) -> bool
    ensures { result ≡ again_behind false content.now }
{
    match content {
        Content::Conjecture(_) => true,
        _ => false,
    }
}

/// All statements of a text.
pub(crate) fn statements(alloc: Global, pieces: &Pieces) -> Result<Items<Statement>, Stop>
    ensures ok { IfOk result (λ ss. read pieces.now ≡ whole (file_value ss ∷ [])) }
    ensures err { IfErr result (Faults pieces.now) }
{
    let mut statements = Items::new(alloc);
    let mut again = false;
    let mut rest = copied(pieces);
    while let Some((Piece::Lower(Keyword::Tff, _), after)) = next(&rest) {
        let (statement, behind) = statement(alloc, &after, again)?;
        again = again || is_conjecture(&statement.content);
        statements.push(statement)?;
        rest = behind;
    }
    match next(&rest) {
        None => Ok(statements),
        Some(_) => Err(start_fault(&rest)),
    }
}
