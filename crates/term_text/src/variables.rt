//! Variables.

ghost use Rattle.std.specs.Prelude.{◌≡◌, ◌<◌, ◌+◌, ◌*◌, ◌-◌, ◌^◌, MatchResult};
ghost use Rattle.text_pieces.specs.Numbers.{Number, Within, Word32};
ghost use Rattle.text_pieces.specs.Printing.{Puts};
ghost use Rattle.text_pieces.specs.Fronts.{Front};
ghost use Rattle.text_pieces.specs.Kinds.{kind_at};
ghost use Rattle.text_pieces.specs.Languages.{Fails, Reads};
ghost use Rattle.term_text.specs.Variables.{SpellsVariable, VariableFrom, SortedFrom, declared, id_from, variable_kind_of, rank, ordinary_rank};
ghost use Rattle.term_text.specs.declared.kinds.VariableKind.TheVariants as kind;

use crate::kinds::{VariableKind, variable_kind};
use std::alloc::{AllocError, Global};
use term_base::{Kind, Sort, Variable};
use text_pieces::{Bad, front, number, push, push_decimal};

// The largest number of 32 bits.
const LARGEST: u128 = (1 << 32) - 1;

// The numbers of this letter's variables begin here in the order of all.
const INDIVIDUALS: u128 = 1 << 32;

const INTEGERS: u128 = 2 << 32;

const DECLARED: u128 = 3 << 32;

// The number of an ordinary variable in the order.
fn ordinary_rank(sort: Sort, id: u32) -> u128
    ensures { result ≡ ordinary_rank sort id }
{
    match sort {
        Sort::Individual => INDIVIDUALS + u128::from(id),
        Sort::Int => INTEGERS + u128::from(id),
        Sort::Declared(n) => DECLARED + u128::from(n) * INDIVIDUALS + u128::from(id),
        Sort::Truth => u128::from(id),
    }
}

/// The number of a variable in the order of variables.
pub fn rank(v: Variable) -> u128
    ensures { result ≡ rank v }
{
    match v.kind {
        Kind::Abstraction => u128::from(v.id),
        Kind::Ordinary => ordinary_rank(v.sort, v.id),
    }
}

// The letter and the id from this one on, and what follows.
fn letter_and_id<'a>(text: &'a [u8], letter: &[u8], least: u128) -> Result<(u32, &'a [u8]), Bad>
    requires { least < 2 ^ 32 }
    ensures { MatchResult result
        (λ f. Reads (Front letter.now (Number (Within least (2 ^ 32 - 1)))) text.now f.0 f.1.now)
        (λ e. Fails (Front letter.now (Number (Within least (2 ^ 32 - 1)))) text.now e.left) }
{
    let behind = front(text, letter)?;
    let (id, rest) = number(behind, least, LARGEST)?;
    Ok((id as u32, rest))
}

// The abstraction variable from this number on.
fn abstraction_from(text: &[u8], low: u128) -> Result<(Variable, &[u8]), Bad>
    requires low { low < (3 + 2 ^ 32) * 2 ^ 32 }
    requires kind { kind_at variable_kind_of kind.Declared text.now ≡ kind.Abstraction }
    ensures { MatchResult result (λ f. Reads (VariableFrom low) text.now f.0 f.1.now)
        (λ e. Fails (VariableFrom low) text.now e.left) }
{
    if low >= INDIVIDUALS {
        return Err(Bad { left: text.len() });
    }
    let (id, rest) = letter_and_id(text, b"A", low)?;
    Ok((Variable::abstraction(id), rest))
}

// The variable of sort $i from this number on.
fn individual_from(text: &[u8], low: u128) -> Result<(Variable, &[u8]), Bad>
    requires low { low < (3 + 2 ^ 32) * 2 ^ 32 }
    requires kind { kind_at variable_kind_of kind.Declared text.now ≡ kind.Individual }
    ensures { MatchResult result (λ f. Reads (VariableFrom low) text.now f.0 f.1.now)
        (λ e. Fails (VariableFrom low) text.now e.left) }
{
    if low >= INTEGERS {
        return Err(Bad { left: text.len() });
    }
    let (id, rest) = letter_and_id(text, b"I", low.saturating_sub(INDIVIDUALS))?;
    Ok((Variable::ordinary(Sort::Individual, id), rest))
}

// The ordinary variable of sort Int from this number on.
fn integer_from(text: &[u8], low: u128) -> Result<(Variable, &[u8]), Bad>
    requires low { low < (3 + 2 ^ 32) * 2 ^ 32 }
    requires kind { kind_at variable_kind_of kind.Declared text.now ≡ kind.Int }
    ensures { MatchResult result (λ f. Reads (VariableFrom low) text.now f.0 f.1.now)
        (λ e. Fails (VariableFrom low) text.now e.left) }
{
    if low >= DECLARED {
        return Err(Bad { left: text.len() });
    }
    let (id, rest) = letter_and_id(text, b"N", low.saturating_sub(INTEGERS))?;
    Ok((Variable::ordinary(Sort::Int, id), rest))
}

// The id from which variables of this sort's number are from this number of both on, where the sort's number is.
fn id_from(least: u128, n: u128) -> u128
    ensures { result ≡ id_from least n }
{
    if n == least / INDIVIDUALS {
        least % INDIVIDUALS
    } else {
        0
    }
}

// The number of a sort and the id of one of its variables, from this number of both on.
fn sort_and_id(text: &[u8], least: u128) -> Result<((u32, u32), &[u8]), Bad>
    requires { least < 2 ^ 32 * 2 ^ 32 }
    ensures { MatchResult result (λ f. Reads (SortedFrom least) text.now f.0 f.1.now)
        (λ e. Fails (SortedFrom least) text.now e.left) }
{
    let begin = least / INDIVIDUALS;
    let behind = front(text, b"D")?;
    let (n, rest) = number(behind, begin, LARGEST)?;
    let behind_dot = front(rest, b".")?;
    let first = id_from(least, n);
    let (id, last) = number(behind_dot, first, LARGEST)?;
    Ok(((n as u32, id as u32), last))
}

// The variable of a declared sort from this number on.
fn declared_from(text: &[u8], low: u128) -> Result<(Variable, &[u8]), Bad>
    requires low { low < (3 + 2 ^ 32) * 2 ^ 32 }
    requires kind { kind_at variable_kind_of kind.Declared text.now ≡ kind.Declared }
    ensures { MatchResult result (λ f. Reads (VariableFrom low) text.now f.0 f.1.now)
        (λ e. Fails (VariableFrom low) text.now e.left) }
{
    let ((n, id), rest) = sort_and_id(text, low.saturating_sub(DECLARED))?;
    Ok((Variable::ordinary(Sort::Declared(n), id), rest))
}

/// The variable from this number on in front of the bytes, and what follows. Bad at the first byte with which none goes on.
pub fn variable_from(text: &[u8], low: u128) -> Result<(Variable, &[u8]), Bad>
    requires { low < (3 + 2 ^ 32) * 2 ^ 32 }
    ensures { MatchResult result (λ f. Reads (VariableFrom low) text.now f.0 f.1.now)
        (λ e. Fails (VariableFrom low) text.now e.left) }
{
    match variable_kind(text) {
        VariableKind::Abstraction => abstraction_from(text, low),
        VariableKind::Individual => individual_from(text, low),
        VariableKind::Int => integer_from(text, low),
        VariableKind::Declared => declared_from(text, low),
    }
}

/// The variable in front of the bytes, and what follows. Bad at the first byte with which none goes on.
pub fn variable(text: &[u8]) -> Result<(Variable, &[u8]), Bad>
    ensures { MatchResult result (λ f. Reads SpellsVariable text.now f.0 f.1.now)
        (λ e. Fails SpellsVariable text.now e.left) }
{
    variable_from(text, 0)
}

// Puts a letter and a number behind the text.
fn push_numbered(alloc: Global, text: &mut Vec<u8>, letter: &[u8], n: u32) -> Result<(), AllocError>
    ensures { Puts (Front letter.now (Number Word32)) n text.old.items text.new.items result }
{
    push(text, letter)?;
    push_decimal(alloc, text, u128::from(n))
}

// Puts a variable of a declared sort behind the text.
fn push_declared(alloc: Global, text: &mut Vec<u8>, n: u32, id: u32) -> Result<(), AllocError>
    ensures { Puts SpellsVariable (declared (n, id)) text.old.items text.new.items result }
{
    push_numbered(alloc, text, b"D", n)?;
    push_numbered(alloc, text, b".", id)
}

// Puts an ordinary variable behind the text.
fn push_ordinary(alloc: Global, text: &mut Vec<u8>, v: Variable) -> Result<(), AllocError>
    requires { v.kind ≡ Kind.Ordinary }
    ensures { Puts SpellsVariable v text.old.items text.new.items result }
{
    match v.sort {
        Sort::Individual => push_numbered(alloc, text, b"I", v.id),
        Sort::Int => push_numbered(alloc, text, b"N", v.id),
        Sort::Declared(n) => push_declared(alloc, text, n, v.id),
        Sort::Truth => Ok(()),
    }
}

/// Puts a variable behind the text.
pub fn push_variable(alloc: Global, text: &mut Vec<u8>, v: Variable) -> Result<(), AllocError>
    ensures { Puts SpellsVariable v text.old.items text.new.items result }
{
    match v.kind {
        Kind::Abstraction => push_numbered(alloc, text, b"A", v.id),
        Kind::Ordinary => push_ordinary(alloc, text, v),
    }
}
