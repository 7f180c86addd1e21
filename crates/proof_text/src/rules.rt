//! Rules.

ghost use Rattle.std.specs.Prelude.{false, codes, MatchResult};
ghost use Rattle.text_pieces.specs.Languages.{ReadsTo, Fails, Reads};
ghost use Rattle.text_pieces.specs.Failing.{UnreadTo, Unreadable};
ghost use Rattle.text_pieces.specs.Ending.{is_digit_or_bracket, no_byte};
ghost use Rattle.text_pieces.specs.Fronts.{Front};
ghost use Rattle.text_pieces.specs.Numbers.{Number, Word32};
ghost use Rattle.term_text.specs.Terms.{SpellsTerm};
ghost use Rattle.proof_text.specs.Rules.{Index, Written, At, Sided, Premises, PremisesParts, RuleParts, SpellsRule};
ghost use Rattle.proof_text.specs.declared.kinds.RuleKind.TheVariants as kind;

use crate::kinds::{RuleKind, rule_kind};
use cert_text::cert;
use proof_steps::Rule;
use sqlite_items::Items;
use std::alloc::Global;
use term_base::{Place, Side, Subst, Term};
use term_text::{place, side, substitution, term};
use text_pieces::{Bad, Reader, Unread, begins_with, exactly, front, separated, word32};

// A blank and the number of a clause, a step or a literal.
fn index(text: &[u8]) -> Result<(u32, &[u8]), Bad>
    ensures { MatchResult result (λ f. Reads Index text.now f.0 f.1.now)
        (λ e. Fails Index text.now e.left) }
{
    let behind = front(text, b" ")?;
    word32(behind)
}

// A blank and a substitution, which no digit follows.
fn blank_substitution(alloc: Global, text: &[u8]) -> Result<(Subst, &[u8]), Unread>
    ensures { MatchResult result (λ f. Reads Written text.now f.0 f.1.now) (Unreadable Written text.now) }
{
    let behind = front(text, b" ")?;
    let (s, rest) = substitution(alloc, behind)?;
    let last = exactly(rest, b"")?;
    Ok((s, last))
}

// A place between blanks.
fn at(alloc: Global, text: &[u8]) -> Result<(Place, &[u8]), Unread>
    ensures { MatchResult result (λ f. ReadsTo no_byte At text.now f.0 f.1.now) (UnreadTo no_byte At text.now) }
{
    let behind = front(text, b" ")?;
    place(alloc, behind)
}

// A dot and the number of a literal.
fn dot_and_literal(text: &[u8]) -> Result<(u32, &[u8]), Bad>
    ensures { MatchResult result (λ f. Reads (Front (codes ".") (Number Word32)) text.now f.0 f.1.now)
        (λ e. Fails (Front (codes ".") (Number Word32)) text.now e.left) }
{
    let behind = front(text, b".")?;
    word32(behind)
}

// A blank and a term.
fn blank_term(alloc: Global, text: &[u8]) -> Result<(Term, &[u8]), Unread>
    ensures { MatchResult result (λ f. ReadsTo is_digit_or_bracket (Front (codes " ") SpellsTerm) text.now f.0 f.1.now)
        (UnreadTo is_digit_or_bracket (Front (codes " ") SpellsTerm) text.now) }
{
    let behind = front(text, b" ")?;
    term(alloc, behind)
}

// A blank, the number of a literal and a side.
fn literal_and_side(text: &[u8]) -> Result<((u32, Side), &[u8]), Bad>
    ensures { MatchResult result (λ f. Reads Sided text.now f.0 f.1.now)
        (λ e. Fails Sided text.now e.left) }
{
    let (literal, behind) = index(text)?;
    let (side, rest) = side(behind)?;
    Ok(((literal, side), rest))
}

// Reads the numbers of steps.
struct ReadStep;

impl Reader for ReadStep {
    type Value = u32;

    ghost spells = { Number Word32 };

    fn read(_alloc: Global, text: &[u8]) -> Result<(u32, &[u8]), Unread> {
        Ok(word32(text)?)
    }
}

// One premise or more, and the blank behind the last.
fn some_premises(alloc: Global, text: &[u8]) -> Result<(Items<u32>, &[u8]), Unread>
    ensures { MatchResult result (λ f. Reads (PremisesParts false) text.now f.0 f.1.now)
        (Unreadable (PremisesParts false) text.now) }
{
    separated::<ReadStep>(alloc, text, b',', b' ')
}

// Premises between blanks.
fn premises(alloc: Global, text: &[u8]) -> Result<(Items<u32>, &[u8]), Unread>
    ensures { MatchResult result (λ f. Reads Premises text.now f.0 f.1.now)
        (Unreadable Premises text.now) }
{
    let behind = front(text, b" ")?;
    if begins_with(behind, b'-') {
        let rest = exactly(behind, b"- ")?;
        return Ok((Items::new(alloc), rest));
    }
    some_premises(alloc, behind)
}

// What stands behind `input`.
fn input(text: &[u8]) -> Result<(Rule, &[u8]), Unread>
    ensures { MatchResult result (λ f. Reads (RuleParts kind.Input) text.now f.0 f.1.now)
        (Unreadable (RuleParts kind.Input) text.now) }
{
    let (clause, rest) = index(text)?;
    Ok((Rule::Input { clause }, rest))
}

// What stands behind `superpose`.
fn superpose(alloc: Global, text: &[u8]) -> Result<(Rule, &[u8]), Unread>
    ensures { MatchResult result (λ f. Reads (RuleParts kind.Superpose) text.now f.0 f.1.now)
        (Unreadable (RuleParts kind.Superpose) text.now) }
{
    let (from, after_from) = index(text)?;
    let (literal, after_literal) = dot_and_literal(after_from)?;
    let (side, after_side) = side(after_literal)?;
    let (into, after_into) = index(after_side)?;
    let (place, after_place) = at(alloc, after_into)?;
    let (s1, after_s1) = substitution(alloc, after_place)?;
    let (s2, rest) = blank_substitution(alloc, after_s1)?;
    let rule = Rule::Superpose {
        from,
        literal,
        side,
        into,
        place,
        s1,
        s2,
    };
    Ok((rule, rest))
}

// What stands behind `resolve`.
fn resolve(alloc: Global, text: &[u8]) -> Result<(Rule, &[u8]), Unread>
    ensures { MatchResult result (λ f. Reads (RuleParts kind.Resolve) text.now f.0 f.1.now)
        (Unreadable (RuleParts kind.Resolve) text.now) }
{
    let (of, after_of) = index(text)?;
    let (literal, after_literal) = index(after_of)?;
    let (s1, rest) = blank_substitution(alloc, after_literal)?;
    Ok((Rule::Resolve { of, literal, s1 }, rest))
}

// What stands behind `factor`.
fn factor(alloc: Global, text: &[u8]) -> Result<(Rule, &[u8]), Unread>
    ensures { MatchResult result (λ f. Reads (RuleParts kind.Factor) text.now f.0 f.1.now)
        (Unreadable (RuleParts kind.Factor) text.now) }
{
    let (of, after_of) = index(text)?;
    let (one, after_one) = literal_and_side(after_of)?;
    let (two, after_two) = literal_and_side(after_one)?;
    let (s1, rest) = blank_substitution(alloc, after_two)?;
    let (first, first_side) = one;
    let (second, second_side) = two;
    let rule = Rule::Factor {
        of,
        first,
        first_side,
        second,
        second_side,
        s1,
    };
    Ok((rule, rest))
}

// What stands behind `abstract`.
fn abstraction(text: &[u8]) -> Result<(Rule, &[u8]), Unread>
    ensures { MatchResult result (λ f. Reads (RuleParts kind.Abstract) text.now f.0 f.1.now)
        (Unreadable (RuleParts kind.Abstract) text.now) }
{
    let (of, rest) = index(text)?;
    Ok((Rule::Abstract { of }, rest))
}

// What stands behind `normal`.
fn normal(text: &[u8]) -> Result<(Rule, &[u8]), Unread>
    ensures { MatchResult result (λ f. Reads (RuleParts kind.Normal) text.now f.0 f.1.now)
        (Unreadable (RuleParts kind.Normal) text.now) }
{
    let (of, rest) = index(text)?;
    Ok((Rule::Normal { of }, rest))
}

// What stands behind `pin`.
fn pin(text: &[u8]) -> Result<(Rule, &[u8]), Unread>
    ensures { MatchResult result (λ f. Reads (RuleParts kind.Pin) text.now f.0 f.1.now)
        (Unreadable (RuleParts kind.Pin) text.now) }
{
    let (of, after_of) = index(text)?;
    let (literal, rest) = index(after_of)?;
    Ok((Rule::Pin { of, literal }, rest))
}

// What stands behind `demodulate`.
fn demodulate(alloc: Global, text: &[u8]) -> Result<(Rule, &[u8]), Unread>
    ensures { MatchResult result (λ f. Reads (RuleParts kind.Demodulate) text.now f.0 f.1.now)
        (Unreadable (RuleParts kind.Demodulate) text.now) }
{
    let (of, after_of) = index(text)?;
    let (place, after_place) = at(alloc, after_of)?;
    let (by, after_by) = word32(after_place)?;
    let (side, after_side) = side(after_by)?;
    let (s1, rest) = blank_substitution(alloc, after_side)?;
    let rule = Rule::Demodulate {
        of,
        place,
        by,
        side,
        s1,
    };
    Ok((rule, rest))
}

// What stands behind `define`.
fn define(alloc: Global, text: &[u8]) -> Result<(Rule, &[u8]), Unread>
    ensures { MatchResult result (λ f. Reads (RuleParts kind.Define) text.now f.0 f.1.now)
        (Unreadable (RuleParts kind.Define) text.now) }
{
    let (term, after_term) = blank_term(alloc, text)?;
    let at_symbol = front(after_term, b" s")?;
    let (symbol, rest) = word32(at_symbol)?;
    Ok((Rule::Define { term, symbol }, rest))
}

// What stands behind `close`.
fn close(alloc: Global, text: &[u8]) -> Result<(Rule, &[u8]), Unread>
    ensures { MatchResult result (λ f. Reads (RuleParts kind.Close) text.now f.0 f.1.now)
        (Unreadable (RuleParts kind.Close) text.now) }
{
    let (of, after_of) = premises(alloc, text)?;
    let (cert, rest) = cert(alloc, after_of)?;
    Ok((Rule::Close { of, cert }, rest))
}

/// The rule in front of the bytes, and what follows. Bad at the first byte with which none goes on.
pub fn rule(alloc: Global, text: &[u8]) -> Result<(Rule, &[u8]), Unread>
    ensures { MatchResult result (λ f. Reads SpellsRule text.now f.0 f.1.now)
        (Unreadable SpellsRule text.now) }
{
    let (kind, rest) = rule_kind(text)?;
    match kind {
        RuleKind::Input => input(rest),
        RuleKind::Superpose => superpose(alloc, rest),
        RuleKind::Resolve => resolve(alloc, rest),
        RuleKind::Factor => factor(alloc, rest),
        RuleKind::Abstract => abstraction(rest),
        RuleKind::Normal => normal(rest),
        RuleKind::Pin => pin(rest),
        RuleKind::Demodulate => demodulate(alloc, rest),
        RuleKind::Define => define(alloc, rest),
        RuleKind::Close => close(alloc, rest),
    }
}
