//! Symbols of a file.

ghost use Rattle.std.specs.Prelude.{IfOk};
ghost use Rattle.tff_signature.specs.Tables.{IsNamed};

use row_lines::{bad, bytes_of, number, two};
use std::alloc::{AllocError, Global};
use term_base::{Sort, Symbol};
use text_pieces::{Bad, Unread, push, push_decimal};
use tff_grammar::{Span, Statement, Word, parse};
use tff_signature::{
    Names, Signature, check_declarations, declarations_of, name, signature_of, sort_number, span,
};

fn sort_word(sort: Sort) -> &'static [u8] {
    match sort {
        Sort::Individual => b"i",
        Sort::Int => b"z",
        Sort::Truth => b"o",
        Sort::Declared(0) => b"d",
        Sort::Declared(_) => b"e",
    }
}

/// Puts the letters of a symbol's arguments' sorts and of its result.
pub fn put_sorts(answer: &mut Vec<u8>, symbol: &Symbol) -> Result<(), AllocError> {
    push(answer, b":")?;
    for sort in symbol.args.as_slice() {
        push(answer, sort_word(*sort))?;
    }
    push(answer, sort_word(symbol.result))?;
    push(answer, b" ")
}

// the name and the sorts
fn put_symbol(answer: &mut Vec<u8>, symbol: &Symbol) -> Result<(), AllocError> {
    push(answer, symbol.name.as_bytes())?;
    put_sorts(answer, symbol)
}

// the declared sorts and the symbols
fn tables(
    alloc: Global,
    text: &[u8],
    statements: &[Statement],
) -> Result<(Names, Signature), Unread>
    ensures { IfOk result (λ found. IsNamed found.1) }
{
    let declared = declarations_of(alloc, text, statements)?;
    if check_declarations(text, &declared, statements).is_err() {
        return Err(Unread::Bad(Bad { left: 0 }));
    }
    let signature = signature_of(alloc, text, &declared, statements)?;
    Ok((declared.sorts, signature))
}

fn put_all(
    alloc: Global,
    sorts: &Names,
    symbols: &[Symbol],
    answer: &mut Vec<u8>,
) -> Result<(), AllocError> {
    push_decimal(alloc, answer, sorts.len() as u128)?;
    push(answer, b" sorts, ")?;
    for symbol in symbols {
        put_symbol(answer, symbol)?;
    }
    Ok(())
}

fn put_tables(
    alloc: Global,
    text: &[u8],
    statements: &[Statement],
    answer: &mut Vec<u8>,
) -> Result<(), Unread> {
    let (sorts, signature) = tables(alloc, text, statements)?;
    put_all(alloc, &sorts, signature.symbols.as_slice(), answer)?;
    Ok(())
}

/// How many sorts a text declares, and its symbols.
pub fn put_signature(alloc: Global, arguments: &str, answer: &mut Vec<u8>) -> Result<(), Unread> {
    let text = bytes_of(alloc, arguments)?;
    match parse(alloc, text.as_slice()) {
        Ok(statements) => put_tables(alloc, text.as_slice(), statements.as_slice(), answer),
        Err(_) => bad(),
    }
}

// the number of a symbol and the symbol, or the number of a sort
fn put_found(
    alloc: Global,
    sorts: &Names,
    signature: &Signature,
    word: &[u8],
    answer: &mut Vec<u8>,
) -> Result<(), AllocError>
    requires { IsNamed signature.now }
{
    match signature.symbol_named(word) {
        Some(symbol) => {
            push_decimal(alloc, answer, signature.number_of(word) as u128)?;
            push(answer, b" ")?;
            put_symbol(answer, symbol)
        }
        None => {
            push(answer, b"sort ")?;
            push_decimal(alloc, answer, u128::from(sort_number(sorts, word)?))
        }
    }
}

fn put_looked_up(
    alloc: Global,
    text: &[u8],
    statements: &[Statement],
    word: &[u8],
    answer: &mut Vec<u8>,
) -> Result<(), Unread> {
    let (sorts, signature) = tables(alloc, text, statements)?;
    put_found(alloc, &sorts, &signature, word, answer)?;
    Ok(())
}

/// The number and the type of a symbol of a text, or the number of a sort.
pub fn put_named(alloc: Global, arguments: &str, answer: &mut Vec<u8>) -> Result<(), Unread> {
    let (word, text) = two(arguments)?;
    let text = bytes_of(alloc, text)?;
    match parse(alloc, text.as_slice()) {
        Ok(statements) => put_looked_up(
            alloc,
            text.as_slice(),
            statements.as_slice(),
            word.as_bytes(),
            answer,
        ),
        Err(_) => bad(),
    }
}

fn put_quoted(
    alloc: Global,
    text: &[u8],
    span_of: Span,
    answer: &mut Vec<u8>,
) -> Result<(), AllocError> {
    let word = Word::Quoted(span_of);
    push(answer, name(text, word))?;
    push(answer, b" at ")?;
    push_decimal(alloc, answer, u128::from(span(word).start))
}

// the place between two numbers
fn place(first: &str, second: &str) -> Result<Span, Unread> {
    let start = u64::from(number(first)?);
    let end = u64::from(number(second)?);
    Ok(Span { start, end })
}

/// The name of a quoted word at a place of a text.
pub fn put_word(alloc: Global, arguments: &str, answer: &mut Vec<u8>) -> Result<(), Unread> {
    let (first, more) = two(arguments)?;
    let (second, text) = two(more)?;
    let place = place(first, second)?;
    let text = bytes_of(alloc, text)?;
    put_quoted(alloc, text.as_slice(), place, answer)?;
    Ok(())
}
