//! What is seen of a term or a clause.

use crate::answers::{put_option, put_word};
use row_lines::{clause, number, put_flag, term, two};
use std::alloc::Global;
use term_base::{
    Class, Clause, Purity, Sort, Symbol, Term, child, class_of, has_foreground, is_background,
    is_foreground, purity, sort_of, weight, well_sorted,
};
use text_pieces::{Unread, push, push_decimal};

fn sort_word(sort: Option<Sort>) -> &'static [u8] {
    match sort {
        Some(Sort::Individual) => b"individual",
        Some(Sort::Int) => b"int",
        Some(Sort::Truth) => b"truth",
        Some(Sort::Declared(_)) => b"declared",
        None => b"none",
    }
}

/// The sort of a term.
pub fn put_sort(
    alloc: Global,
    symbols: &[Symbol],
    arguments: &str,
    answer: &mut Vec<u8>,
) -> Result<(), Unread> {
    let t = term(alloc, arguments)?;
    put_word(answer, sort_word(sort_of(symbols, &t)))
}

fn purity_word(purity: Purity) -> &'static [u8] {
    match purity {
        Purity::Pure => b"pure",
        Purity::Impure => b"impure",
        Purity::Foreground => b"foreground",
    }
}

/// How pure a term is, and whether it has a foreground symbol.
pub fn put_purity(
    alloc: Global,
    symbols: &[Symbol],
    arguments: &str,
    answer: &mut Vec<u8>,
) -> Result<(), Unread> {
    let t = term(alloc, arguments)?;
    put_purity_of(symbols, &t, answer)
}

fn put_purity_of(symbols: &[Symbol], t: &Term, answer: &mut Vec<u8>) -> Result<(), Unread> {
    push(answer, purity_word(purity(symbols, t)))?;
    push(answer, b" ")?;
    put_flag(answer, has_foreground(symbols, t))
}

fn class_word(class: Class) -> &'static [u8] {
    match class {
        Class::Parameter => b"parameter",
        Class::Foreground => b"foreground",
    }
}

fn class_at(symbols: &[Symbol], f: u32) -> &'static [u8] {
    match symbols.get(f as usize) {
        Some(symbol) => class_word(class_of(symbol.args.as_slice(), symbol.result)),
        None => b"none",
    }
}

/// The class of a symbol by its sorts, and whether it is a foreground symbol.
pub fn put_class(
    alloc: Global,
    symbols: &[Symbol],
    arguments: &str,
    answer: &mut Vec<u8>,
) -> Result<(), Unread> {
    let _alloc = alloc;
    let f = number(arguments)?;
    push(answer, class_at(symbols, f))?;
    push(answer, b" ")?;
    put_flag(answer, is_foreground(symbols, f))
}

fn weight_of(alloc: Global, symbols: &[Symbol], text: &str) -> Result<u64, Unread> {
    let c = clause(alloc, text)?;
    Ok(weight(symbols, &c))
}

/// The weight of a clause.
pub fn put_weight(
    alloc: Global,
    symbols: &[Symbol],
    arguments: &str,
    answer: &mut Vec<u8>,
) -> Result<(), Unread> {
    let weight = weight_of(alloc, symbols, arguments)?;
    push_decimal(alloc, answer, u128::from(weight))?;
    Ok(())
}

/// Whether a clause is well sorted, and whether it is a background clause.
pub fn put_tests(
    alloc: Global,
    symbols: &[Symbol],
    arguments: &str,
    answer: &mut Vec<u8>,
) -> Result<(), Unread> {
    let c = clause(alloc, arguments)?;
    put_tests_of(symbols, &c, answer)
}

fn put_tests_of(symbols: &[Symbol], c: &Clause, answer: &mut Vec<u8>) -> Result<(), Unread> {
    put_flag(answer, well_sorted(symbols, c))?;
    push(answer, b" ")?;
    put_flag(answer, is_background(symbols, c))
}

/// A child of a term by its number.
pub fn put_child(alloc: Global, arguments: &str, answer: &mut Vec<u8>) -> Result<(), Unread> {
    let (left, right) = two(arguments)?;
    let at = number(right)?;
    let t = term(alloc, left)?;
    put_option(alloc, answer, child(&t, at))
}
