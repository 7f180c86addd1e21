//! Terms.

ghost use Rattle.std.specs.Prelude.{◌≡◌, ◌∷◌, MatchResult};
ghost use Rattle.text_pieces.specs.Languages.{NoDigit, ReadsTo};
ghost use Rattle.text_pieces.specs.Failing.{UnreadTo};
ghost use Rattle.text_pieces.specs.Ending.{is_digit_or_bracket, no_byte};
ghost use Rattle.term_text.specs.Terms.{SpellsTerm, TermParts, Arguments, ListedArguments, MoreArguments};
ghost use Rattle.term_text.specs.declared.kinds.TermKind.TheVariants as kind;

use crate::kinds::{TermKind, term_kind};
use crate::operations::{apply_operation, check_end, sign};
use crate::variables::variable;
use sqlite_items::Items;
use std::alloc::Global;
use term_base::Term;
use text_pieces::{Unread, after_byte, begins_with, front, signed, word32};

/// The term in front of the bytes, and what follows: neither a digit nor an opening bracket. Bad at the first byte with which
/// none goes on.
#[cycle(term)]
pub fn term(alloc: Global, text: &[u8]) -> Result<(Term, &[u8]), Unread>
    ensures { MatchResult result (λ f. ReadsTo is_digit_or_bracket SpellsTerm text.now f.0 f.1.now)
        (UnreadTo is_digit_or_bracket SpellsTerm text.now) }
{
    match term_kind(text) {
        TermKind::Variable => variable_term(text),
        TermKind::Number => number_term(text),
        TermKind::Truth => truth(text),
        TermKind::Bracket => bracket(alloc, text),
        TermKind::Symbol => symbol(alloc, text),
    }
}

// A variable.
fn variable_term(text: &[u8]) -> Result<(Term, &[u8]), Unread>
    ensures { MatchResult result
        (λ f. ReadsTo is_digit_or_bracket (TermParts SpellsTerm kind.Variable) text.now f.0 f.1.now)
        (UnreadTo is_digit_or_bracket (TermParts SpellsTerm kind.Variable) text.now) }
{
    let (v, rest) = variable(text)?;
    check_end(rest)?;
    Ok((Term::Var(v), rest))
}

// A number.
fn number_term(text: &[u8]) -> Result<(Term, &[u8]), Unread>
    ensures { MatchResult result
        (λ f. ReadsTo is_digit_or_bracket (TermParts SpellsTerm kind.Number) text.now f.0 f.1.now)
        (UnreadTo is_digit_or_bracket (TermParts SpellsTerm kind.Number) text.now) }
{
    let (n, rest) = signed(text, 0)?;
    check_end(rest)?;
    Ok((Term::Num(n), rest))
}

// The truth value.
fn truth(text: &[u8]) -> Result<(Term, &[u8]), Unread>
    ensures { MatchResult result
        (λ f. ReadsTo is_digit_or_bracket (TermParts SpellsTerm kind.Truth) text.now f.0 f.1.now)
        (UnreadTo is_digit_or_bracket (TermParts SpellsTerm kind.Truth) text.now) }
{
    let rest = front(text, b"true")?;
    check_end(rest)?;
    Ok((Term::True, rest))
}

// A sum or a multiple.
#[cycle(term)]
fn bracket(alloc: Global, text: &[u8]) -> Result<(Term, &[u8]), Unread>
    ensures { MatchResult result
        (λ f. ReadsTo is_digit_or_bracket (TermParts SpellsTerm kind.Bracket) text.now f.0 f.1.now)
        (UnreadTo is_digit_or_bracket (TermParts SpellsTerm kind.Bracket) text.now) }
{
    let (t, rest) = in_brackets(alloc, text)?;
    check_end(rest)?;
    Ok((t, rest))
}

// Two terms in brackets with a sign between them.
#[cycle(term)]
fn in_brackets(alloc: Global, text: &[u8]) -> Result<(Term, &[u8]), Unread>
    ensures { MatchResult result (λ f. ReadsTo no_byte (TermParts SpellsTerm kind.Bracket) text.now f.0 f.1.now)
        (UnreadTo no_byte (TermParts SpellsTerm kind.Bracket) text.now) }
{
    let inner = front(text, b"(")?;
    let (a, behind_a) = term(alloc, inner)?;
    let at_sign = front(behind_a, b" ")?;
    let (operation, behind_sign) = sign(at_sign, &a)?;
    let at_b = front(behind_sign, b" ")?;
    let (b, behind_b) = term(alloc, at_b)?;
    let rest = front(behind_b, b")")?;
    let whole = apply_operation(alloc, a, operation, b)?;
    Ok((whole, rest))
}

// A symbol with its arguments.
#[cycle(term)]
fn symbol(alloc: Global, text: &[u8]) -> Result<(Term, &[u8]), Unread>
    ensures { MatchResult result
        (λ f. ReadsTo is_digit_or_bracket (TermParts SpellsTerm kind.Symbol) text.now f.0 f.1.now)
        (UnreadTo is_digit_or_bracket (TermParts SpellsTerm kind.Symbol) text.now) }
{
    let number = front(text, b"s")?;
    let (f, rest) = word32(number)?;
    let (all, last) = arguments(alloc, rest)?;
    Ok((Term::App(f, all), last))
}

// Arguments in brackets, or none.
#[cycle(term)]
fn arguments(alloc: Global, text: &[u8]) -> Result<(Items<Term>, &[u8]), Unread>
    requires { NoDigit text.now }
    ensures { MatchResult result (λ f. ReadsTo is_digit_or_bracket (Arguments SpellsTerm) text.now f.0 f.1.now)
        (UnreadTo is_digit_or_bracket (Arguments SpellsTerm) text.now) }
{
    if !begins_with(text, b'(') {
        return Ok((Items::new(alloc), text));
    }
    let (all, rest) = listed(alloc, text)?;
    check_end(rest)?;
    Ok((all, rest))
}

// Arguments in brackets.
#[cycle(term)]
fn listed(alloc: Global, text: &[u8]) -> Result<(Items<Term>, &[u8]), Unread>
    ensures { MatchResult result (λ f. ReadsTo no_byte (ListedArguments SpellsTerm) text.now f.0 f.1.now)
        (UnreadTo no_byte (ListedArguments SpellsTerm) text.now) }
{
    let inner = front(text, b"(")?;
    let (first, mut rest) = term(alloc, inner)?;
    let mut all = Items::new(alloc);
    all.push(first)?;
    while let Some(behind) = after_byte(rest, b',') {
        let (next, more) = term(alloc, behind)?;
        all.push(next)?;
        rest = more;
    }
    let last = front(rest, b")")?;
    Ok((all, last))
}
