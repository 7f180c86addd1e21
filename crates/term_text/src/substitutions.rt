//! Substitutions.

ghost use Rattle.std.specs.Prelude.{◌≡◌, ◌<◌, ◌+◌, ◌*◌, ◌^◌, ◌≤◌, ◌⊎◌, ◌∷◌, ℕ, List, false, None, MatchResult, IfSome, IfNone, IfOk, option_map};
ghost use Rattle.text_pieces.specs.Languages.{HasSpelling, ReadsTo};
ghost use Rattle.text_pieces.specs.Printing.{Puts};
ghost use Rattle.text_pieces.specs.Failing.{UnreadTo};
ghost use Rattle.text_pieces.specs.Ending.{is_digit_or_bracket, no_byte};
ghost use Rattle.term_text.specs.Variables.{SpellsVariable, rank};
ghost use Rattle.term_text.specs.Substitutions.{PairAfter, TermBut, PairsParts, SpellsSubst, SpellsPair, SpellsMore, low_after, is_full, BehindVariable, IsNumbered};

use crate::term_printing::push_term;
use crate::terms::term;
use crate::variables::{push_variable, rank, variable_from};
use sqlite_items::Items;
use std::alloc::{AllocError, Global};
use term_base::{Subst, Term, Variable};
use text_pieces::{Bad, Unread, after_byte, begins_with, front, push};

// The number that variables end before.
const END: u128 = (3 + (1 << 32)) << 32;

// Whether no longer number begins with the digits of this one.
fn is_full(id: u32) -> bool
    ensures { result ≡ is_full id }
{
    id == 0 || id > u32::MAX / 10
}

// What follows the text of the variable, where it stands in front.
fn behind_variable<'a>(
    alloc: Global,
    text: &'a [u8],
    v: Variable,
) -> Result<Option<&'a [u8]>, AllocError>
    ensures { IfOk result (λ o. BehindVariable v text.now (option_map (λ r. r.now) o)) }
{
    let mut own = Vec::new(alloc);
    push_variable(alloc, &mut own, v)?;
    match front(text, own.as_slice()) {
        Ok(rest) => Ok(Some(rest)),
        Err(_) => Ok(None),
    }
}

// The term in front of the bytes, where it isn't this variable. Its text doesn't stand there, or longer numbers begin with its id.
fn unlike(alloc: Global, text: &[u8], v: Variable) -> Result<(Term, &[u8]), Unread>
    requires numbered { HasSpelling SpellsVariable v }
    requires open { (is_full v.id ≡ false) ⊎ BehindVariable v text.now None }
    ensures { MatchResult result (λ f. ReadsTo is_digit_or_bracket (TermBut v) text.now f.0 f.1.now)
        (UnreadTo is_digit_or_bracket (TermBut v) text.now) }
{
    let (t, rest) = term(alloc, text)?;
    if t == Term::Var(v) {
        return Err(Unread::Bad(Bad { left: rest.len() }));
    }
    Ok((t, rest))
}

// The term in front of the bytes, which isn't this variable.
fn term_but(alloc: Global, text: &[u8], v: Variable) -> Result<(Term, &[u8]), Unread>
    requires { HasSpelling SpellsVariable v }
    ensures { MatchResult result (λ f. ReadsTo is_digit_or_bracket (TermBut v) text.now f.0 f.1.now)
        (UnreadTo is_digit_or_bracket (TermBut v) text.now) }
{
    if !is_full(v.id) {
        return unlike(alloc, text, v);
    }
    match behind_variable(alloc, text, v)? {
        // the last digit is wrong: each term that begins so is the variable
        Some(rest) => Err(Unread::Bad(Bad {
            left: rest.len() + 1,
        })),
        None => unlike(alloc, text, v),
    }
}

// The number from which variables are above the last one.
fn low_after(last: Option<Variable>) -> u128
    ensures { result ≡ low_after last }
{
    match last {
        None => 0,
        Some(v) => rank(v) + 1,
    }
}

// The pair of a variable above the last one and the term for it.
fn pair_after(
    alloc: Global,
    text: &[u8],
    last: Option<Variable>,
) -> Result<((Variable, Term), &[u8]), Unread>
    requires room { low_after last < (3 + 2 ^ 32) * 2 ^ 32 }
    requires numbered { IsNumbered last }
    ensures { MatchResult result (λ f. ReadsTo is_digit_or_bracket (PairAfter last) text.now f.0 f.1.now)
        (UnreadTo is_digit_or_bracket (PairAfter last) text.now) }
{
    let (v, rest) = variable_from(text, low_after(last))?;
    let behind = front(rest, b">")?;
    let (t, more) = term_but(alloc, behind, v)?;
    Ok(((v, t), more))
}

// What stands behind a comma, where there is a variable above this one.
fn behind_comma(rest: &[u8], last: Variable) -> Option<&[u8]>
    ensures some { IfSome result (λ behind. (rest.now ≡ 44 ∷ behind.now) × (rank last + 1 < (3 + 2 ^ 32) * 2 ^ 32)) }
    ensures none { IfNone result
        (((behind : List ℕ) → rest.now ≡ 44 ∷ behind → ⊥) ⊎ ((3 + 2 ^ 32) * 2 ^ 32 ≤ rank last + 1)) }
{
    if rank(last) + 1 < END {
        after_byte(rest, b',')
    } else {
        None
    }
}

// One pair or more, and the closing bracket.
fn pairs(alloc: Global, text: &[u8]) -> Result<(Items<(Variable, Term)>, &[u8]), Unread>
    ensures { MatchResult result (λ f. ReadsTo no_byte (PairsParts false) text.now f.0 f.1.now)
        (UnreadTo no_byte (PairsParts false) text.now) }
{
    let (first, mut rest) = pair_after(alloc, text, None)?;
    let mut last = first.0;
    let mut all = Items::new(alloc);
    all.push(first)?;
    while let Some(behind) = behind_comma(rest, last) {
        let (next, more) = pair_after(alloc, behind, Some(last))?;
        last = next.0;
        all.push(next)?;
        rest = more;
    }
    let end = front(rest, b"]")?;
    Ok((all, end))
}

/// The substitution in front of the bytes, and what follows. Bad at the first byte with which none goes on: also where its
/// variables don't ascend, or one stands beside itself.
pub fn substitution(alloc: Global, text: &[u8]) -> Result<(Subst, &[u8]), Unread>
    ensures { MatchResult result (λ f. ReadsTo no_byte SpellsSubst text.now f.0 f.1.now)
        (UnreadTo no_byte SpellsSubst text.now) }
{
    let inner = front(text, b"[")?;
    if begins_with(inner, b']') {
        let rest = front(inner, b"]")?;
        return Ok((Subst::empty(alloc), rest));
    }
    let (all, rest) = pairs(alloc, inner)?;
    Ok((Subst::from_pairs(all), rest))
}

// Puts a pair behind the text.
fn push_pair(alloc: Global, text: &mut Vec<u8>, pair: &(Variable, Term)) -> Result<(), AllocError>
    ensures { Puts SpellsPair pair.now text.old.items text.new.items result }
{
    push_variable(alloc, text, pair.0)?;
    push(text, b">")?;
    push_term(alloc, text, &pair.1)
}

// Puts pairs behind the text, each behind a comma, and the closing bracket.
fn push_pairs(
    alloc: Global,
    text: &mut Vec<u8>,
    pairs: &[(Variable, Term)],
) -> Result<(), AllocError>
    ensures { Puts SpellsMore pairs.now text.old.items text.new.items result }
{
    for pair in pairs {
        push(text, b",")?;
        push_pair(alloc, text, pair)?;
    }
    push(text, b"]")
}

/// Puts a substitution behind the text.
pub fn push_substitution(alloc: Global, text: &mut Vec<u8>, s: &Subst) -> Result<(), AllocError>
    ensures { Puts SpellsSubst s.now text.old.items text.new.items result }
{
    push(text, b"[")?;
    match s.pairs() {
        [] => push(text, b"]"),
        [first, more @ ..] => {
            push_pair(alloc, text, first)?;
            push_pairs(alloc, text, more)
        }
    }
}
