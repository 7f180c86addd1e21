//! Literals and clauses.

ghost use Rattle.std.specs.Prelude.{◌≡◌, false, true, codes, MatchResult};
ghost use Rattle.text_pieces.specs.Languages.{ReadsTo};
ghost use Rattle.text_pieces.specs.Failing.{UnreadTo};
ghost use Rattle.text_pieces.specs.Ending.{is_digit_or_bracket, no_byte};
ghost use Rattle.text_pieces.specs.Fronts.{Front};
ghost use Rattle.term_text.specs.Clauses.{SpellsLiteral, SpellsClauseLine, ClauseParts, related};

use crate::kinds::Relation;
use crate::operations::relation;
use crate::terms::term;
use sqlite_items::Items;
use std::alloc::Global;
use term_base::{Clause, Literal, Term};
use text_pieces::{Unread, after_byte, begins_with, front};

// The literal of a relation and its sides.
fn make_literal(relation: Relation, s: Term, t: Term) -> Literal
    ensures { result ≡ related relation s t }
{
    match relation {
        Relation::Equal => Literal::Equal(s, t),
        Relation::Differ => Literal::Differ(s, t),
        Relation::AtMost => Literal::AtMost(s, t),
    }
}

/// The literal in front of the bytes, and what follows. Bad at the first byte with which none goes on.
pub fn literal(alloc: Global, text: &[u8]) -> Result<(Literal, &[u8]), Unread>
    ensures { MatchResult result (λ f. ReadsTo is_digit_or_bracket SpellsLiteral text.now f.0 f.1.now)
        (UnreadTo is_digit_or_bracket SpellsLiteral text.now) }
{
    let (s, behind_s) = term(alloc, text)?;
    let word = front(behind_s, b" ")?;
    let (relation, behind_word) = relation(word)?;
    let at_t = front(behind_word, b" ")?;
    let (t, rest) = term(alloc, at_t)?;
    Ok((make_literal(relation, s, t), rest))
}

// A stroke, a blank and a literal.
fn stroke_literal(alloc: Global, text: &[u8]) -> Result<(Literal, &[u8]), Unread>
    ensures { MatchResult result
        (λ f. ReadsTo is_digit_or_bracket (Front (codes "| ") SpellsLiteral) text.now f.0 f.1.now)
        (UnreadTo is_digit_or_bracket (Front (codes "| ") SpellsLiteral) text.now) }
{
    let behind = front(text, b"| ")?;
    literal(alloc, behind)
}

// The literals of a clause that isn't empty, and the end of the line.
fn literals(alloc: Global, text: &[u8]) -> Result<(Clause, &[u8]), Unread>
    ensures { MatchResult result (λ f. ReadsTo no_byte (ClauseParts false) text.now f.0 f.1.now)
        (UnreadTo no_byte (ClauseParts false) text.now) }
{
    let (first, mut rest) = literal(alloc, text)?;
    let mut all = Items::new(alloc);
    all.push(first)?;
    while let Some(behind) = after_byte(rest, b' ') {
        let (next, more) = stroke_literal(alloc, behind)?;
        all.push(next)?;
        rest = more;
    }
    let last = front(rest, b"\n")?;
    Ok((Clause { literals: all }, last))
}

// The empty clause, and the end of the line.
fn empty_clause(alloc: Global, text: &[u8]) -> Result<(Clause, &[u8]), Unread>
    ensures { MatchResult result (λ f. ReadsTo no_byte (ClauseParts true) text.now f.0 f.1.now)
        (UnreadTo no_byte (ClauseParts true) text.now) }
{
    let last = front(text, b"$false\n")?;
    let literals = Items::new(alloc);
    Ok((Clause { literals }, last))
}

/// The clause and the end of its line in front of the bytes, and what follows. Bad at the first byte with which none goes on.
pub fn clause_line(alloc: Global, text: &[u8]) -> Result<(Clause, &[u8]), Unread>
    ensures { MatchResult result (λ f. ReadsTo no_byte SpellsClauseLine text.now f.0 f.1.now)
        (UnreadTo no_byte SpellsClauseLine text.now) }
{
    if begins_with(text, b'$') {
        empty_clause(alloc, text)
    } else {
        literals(alloc, text)
    }
}
