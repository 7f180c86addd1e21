//! Steps, and derivations in front of bytes.

ghost use Rattle.std.specs.Prelude.{◌≡◌, false, MatchResult};
ghost use Rattle.text_pieces.specs.Languages.{ReadsTo};
ghost use Rattle.text_pieces.specs.Failing.{UnreadTo};
ghost use Rattle.text_pieces.specs.Ending.{no_byte};
ghost use Rattle.text_pieces.specs.Kinds.{kind_at};
ghost use Rattle.proof_text.specs.Derivations.{StepLine, StepLines, SpellsDerivation, Spells, isnt_end};

use crate::kinds::{Status, is_ordinary, szs_status};
use crate::rules::rule;
use proof_steps::{Derivation, Step};
use sqlite_items::Items;
use std::alloc::Global;
use term_text::clause_line;
use text_pieces::{Unread, front, number};

// The line of the step of this number.
fn step(alloc: Global, text: &[u8], n: usize) -> Result<(Step, &[u8]), Unread>
    ensures { MatchResult result (λ f. ReadsTo no_byte (StepLine n) text.now f.0 f.1.now)
        (UnreadTo no_byte (StepLine n) text.now) }
{
    let (_number, after_number) = number(text, n as u128, n as u128)?;
    let at_rule = front(after_number, b" ")?;
    let (rule, after_rule) = rule(alloc, at_rule)?;
    let at_clause = front(after_rule, b" : ")?;
    let (clause, rest) = clause_line(alloc, at_clause)?;
    Ok((Step { rule, clause }, rest))
}

// Whether a line is there that isn't the last one.
fn is_step(text: &[u8]) -> bool
    ensures { result ≡ kind_at isnt_end false text.now }
{
    match text {
        [first, ..] => *first != b'e',
        [] => false,
    }
}

// The lines of the steps, and the last line.
fn steps(alloc: Global, text: &[u8]) -> Result<(Items<Step>, &[u8]), Unread>
    ensures { MatchResult result (λ f. ReadsTo no_byte (StepLines 0) text.now f.0 f.1.now)
        (UnreadTo no_byte (StepLines 0) text.now) }
{
    let mut steps = Items::new(alloc);
    let mut rest = text;
    while is_step(rest) {
        let (next, more) = step(alloc, rest, steps.len())?;
        steps.push(next)?;
        rest = more;
    }
    let last = front(rest, b"end\n")?;
    Ok((steps, last))
}

/// The derivation in front of the bytes, and what follows. Bad at the first byte with which none goes on.
pub fn derivation(alloc: Global, text: &[u8]) -> Result<(Derivation, &[u8]), Unread>
    ensures { MatchResult result (λ f. ReadsTo no_byte SpellsDerivation text.now f.0 f.1.now)
        (UnreadTo no_byte SpellsDerivation text.now) }
{
    let header = front(text, b"derivation 1 ")?;
    let (ordinary, after_word) = is_ordinary(header)?;
    let lines = front(after_word, b"\n")?;
    let (steps, rest) = steps(alloc, lines)?;
    Ok((Derivation { ordinary, steps }, rest))
}

/// The derivation with its status line in front of the bytes, and what follows. Bad at the first byte with which none goes on.
pub fn proof(alloc: Global, text: &[u8]) -> Result<((Status, Derivation), &[u8]), Unread>
    ensures { MatchResult result (λ f. ReadsTo no_byte Spells text.now f.0 f.1.now)
        (UnreadTo no_byte Spells text.now) }
{
    let word = front(text, b"% SZS status ")?;
    let (status, after_word) = szs_status(word)?;
    let inner = front(after_word, b" for stdin\n")?;
    let (derivation, rest) = derivation(alloc, inner)?;
    Ok(((status, derivation), rest))
}
