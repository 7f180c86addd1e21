//! Words between terms, and what may not follow a term.

ghost use Rattle.std.specs.Prelude.{◌≡◌, MatchResult, IfOk, IfErr};
ghost use Rattle.text_pieces.specs.Languages.{Free, Fails, Reads};
ghost use Rattle.text_pieces.specs.Ending.{is_digit_or_bracket, Followed};
ghost use Rattle.term_text.specs.Clauses.{RelationWord, relation_at};
ghost use Rattle.term_text.specs.Terms.{Sign, number_of, operated, operation_at};

use crate::kinds::{Operation, Relation};
use std::alloc::{AllocError, Global};
use term_base::Term;
use text_pieces::{Bad, exactly, one_of};

const SIGNS: [&[u8]; 2] = [b"+", b"*"];

const RELATIONS: [&[u8]; 3] = [b"=", b"!=", b"<="];

// The number that a term is, if it is one.
fn number_of(t: &Term) -> Option<i128>
    ensures { result ≡ number_of t.now }
{
    match t {
        Term::Num(n) => Some(*n),
        Term::Var(_) | Term::True | Term::Sum(_, _) | Term::Scale(_, _) | Term::App(_, _) => None,
    }
}

// The operation whose sign stands at this place of the list.
fn operation_at(place: usize, k: i128) -> Operation
    ensures { result ≡ operation_at place k }
{
    match place {
        0 => Operation::Plus,
        _ => Operation::Times(k),
    }
}

/// The sign behind the first term in brackets, and what follows. Bad at the first byte with which none goes on.
pub fn sign<'a>(text: &'a [u8], first: &Term) -> Result<(Operation, &'a [u8]), Bad>
    ensures { MatchResult result (λ f. Reads (Sign (number_of first.now)) text.now f.0 f.1.now)
        (λ e. Fails (Sign (number_of first.now)) text.now e.left) }
{
    match number_of(first) {
        Some(k) => {
            let (place, rest) = one_of(text, &SIGNS)?;
            Ok((operation_at(place, k), rest))
        }
        None => Ok((Operation::Plus, exactly(text, b"+")?)),
    }
}

/// The term that a sign and the terms around it make.
pub fn apply_operation(
    alloc: Global,
    a: Term,
    operation: Operation,
    b: Term,
) -> Result<Term, AllocError>
    ensures { IfOk result (λ t. t ≡ operated a operation b) }
{
    match operation {
        Operation::Plus => Term::sum(alloc, a, b),
        Operation::Times(k) => Term::scale(alloc, k, b),
    }
}

// The relation whose word stands at this place of the list.
fn relation_at(place: usize) -> Relation
    ensures { result ≡ relation_at place }
{
    match place {
        0 => Relation::Equal,
        1 => Relation::Differ,
        _ => Relation::AtMost,
    }
}

/// The word of a relation, and what follows. Bad at the first byte with which none goes on.
pub fn relation(text: &[u8]) -> Result<(Relation, &[u8]), Bad>
    ensures { MatchResult result (λ f. Reads RelationWord text.now f.0 f.1.now)
        (λ e. Fails RelationWord text.now e.left) }
{
    let (place, rest) = one_of(text, &RELATIONS)?;
    Ok((relation_at(place), rest))
}

/// Bad where a digit or an opening bracket follows a term.
pub fn check_end(rest: &[u8]) -> Result<(), Bad>
    ensures ok { IfOk result (λ _. Free is_digit_or_bracket rest.now) }
    ensures err { IfErr result (λ e. Followed is_digit_or_bracket rest.now e.left) }
{
    match rest {
        [next, ..] => {
            if (b'0' <= *next && *next <= b'9') || *next == b'(' {
                return Err(Bad { left: rest.len() });
            }
            Ok(())
        }
        [] => Ok(()),
    }
}
