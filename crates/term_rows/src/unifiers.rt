//! Unifiers and matches. Where an answer is free up to the names of its variables, a row has one variable at most in it,
//! which has number 0.

use crate::answers::{put_subst, put_term, put_under, put_word, two_terms, variable};
use row_lines::{term, two};
use std::alloc::Global;
use term_base::{Subst, Symbol, Term, Variable, apply, is_simple};
use text_pieces::{Unread, push};
use unifier::{matches, unify, unify_over, unify_within};

// the images of two terms, once where they are the same
fn put_images(
    alloc: Global,
    symbols: &[Symbol],
    l: &Term,
    s: &Subst,
    u: &Term,
    t: &Subst,
    answer: &mut Vec<u8>,
) -> Result<(), Unread> {
    let left = apply(alloc, symbols, l, s)?;
    put_with_other(alloc, symbols, &left, u, t, answer)
}

fn put_with_other(
    alloc: Global,
    symbols: &[Symbol],
    left: &Term,
    u: &Term,
    t: &Subst,
    answer: &mut Vec<u8>,
) -> Result<(), Unread> {
    let right = apply(alloc, symbols, u, t)?;
    put_once_or_both(alloc, left, &right, answer)
}

fn put_once_or_both(
    alloc: Global,
    left: &Term,
    right: &Term,
    answer: &mut Vec<u8>,
) -> Result<(), Unread> {
    put_term(alloc, answer, left)?;
    if !left.same(right) {
        push(answer, b" / ")?;
        put_term(alloc, answer, right)?;
    }
    Ok(())
}

/// What both terms become, of two premises; or `none`.
pub fn put_unified(
    alloc: Global,
    symbols: &[Symbol],
    arguments: &str,
    answer: &mut Vec<u8>,
) -> Result<(), Unread> {
    let (left, right) = two(arguments)?;
    let pair = two_terms(alloc, left, right)?;
    put_unifier(alloc, symbols, &pair.0, &pair.1, answer)
}

fn put_unifier(
    alloc: Global,
    symbols: &[Symbol],
    l: &Term,
    u: &Term,
    answer: &mut Vec<u8>,
) -> Result<(), Unread> {
    match unify(alloc, symbols, l, u)? {
        Some((s, t)) => put_images(alloc, symbols, l, &s, u, &t, answer),
        None => put_word(answer, b"none"),
    }
}

/// What both terms become, of one premise; or `none`.
pub fn put_within(
    alloc: Global,
    symbols: &[Symbol],
    arguments: &str,
    answer: &mut Vec<u8>,
) -> Result<(), Unread> {
    let (left, right) = two(arguments)?;
    let pair = two_terms(alloc, left, right)?;
    put_unifier_within(alloc, symbols, &pair.0, &pair.1, answer)
}

fn put_unifier_within(
    alloc: Global,
    symbols: &[Symbol],
    l: &Term,
    u: &Term,
    answer: &mut Vec<u8>,
) -> Result<(), Unread> {
    match unify_within(alloc, symbols, l, u, &[])? {
        Some(s) => put_images(alloc, symbols, l, &s, u, &s, answer),
        None => put_word(answer, b"none"),
    }
}

// a substitution that isn't simple is told
fn put_doubt(symbols: &[Symbol], s: &Subst, answer: &mut Vec<u8>) -> Result<(), Unread> {
    if is_simple(symbols, s) {
        Ok(())
    } else {
        put_word(answer, b" (not simple)")
    }
}

/// What a variable of the second premise becomes.
pub fn put_second(
    alloc: Global,
    symbols: &[Symbol],
    arguments: &str,
    answer: &mut Vec<u8>,
) -> Result<(), Unread> {
    let (left, more) = two(arguments)?;
    let (right, last) = two(more)?;
    let v = term(alloc, last)?;
    put_second_of(alloc, symbols, left, right, &v, answer)
}

fn put_second_of(
    alloc: Global,
    symbols: &[Symbol],
    left: &str,
    right: &str,
    v: &Term,
    answer: &mut Vec<u8>,
) -> Result<(), Unread> {
    let pair = two_terms(alloc, left, right)?;
    put_second_image(alloc, symbols, &pair.0, &pair.1, v, answer)
}

fn put_second_image(
    alloc: Global,
    symbols: &[Symbol],
    l: &Term,
    u: &Term,
    v: &Term,
    answer: &mut Vec<u8>,
) -> Result<(), Unread> {
    match unify(alloc, symbols, l, u)? {
        Some((_, t)) => put_simple_image(alloc, symbols, v, &t, answer),
        None => put_word(answer, b"none"),
    }
}

fn put_simple_image(
    alloc: Global,
    symbols: &[Symbol],
    v: &Term,
    t: &Subst,
    answer: &mut Vec<u8>,
) -> Result<(), Unread> {
    put_under(alloc, symbols, v, t, answer)?;
    put_doubt(symbols, t, answer)
}

fn put_apart(
    alloc: Global,
    symbols: &[Symbol],
    v: Variable,
    pair: &(Subst, Subst),
    answer: &mut Vec<u8>,
) -> Result<(), Unread> {
    let left = apply(alloc, symbols, &Term::Var(v), &pair.0)?;
    put_whether_one(alloc, symbols, &left, v, &pair.1, answer)
}

fn put_whether_one(
    alloc: Global,
    symbols: &[Symbol],
    left: &Term,
    v: Variable,
    t: &Subst,
    answer: &mut Vec<u8>,
) -> Result<(), Unread> {
    let right = apply(alloc, symbols, &Term::Var(v), t)?;
    if left.same(&right) {
        put_word(answer, b"one variable")
    } else {
        put_word(answer, b"two variables")
    }
}

/// Whether a further variable of both premises becomes one variable or two, where `true` and `true` are unified.
pub fn put_over(
    alloc: Global,
    symbols: &[Symbol],
    arguments: &str,
    answer: &mut Vec<u8>,
) -> Result<(), Unread> {
    let v = variable(arguments)?;
    match unify_over(alloc, symbols, &Term::True, &Term::True, &[v], &[v])? {
        Some(pair) => put_apart(alloc, symbols, v, &pair, answer),
        None => put_word(answer, b"none"),
    }
}

/// The substitution that makes the first term the second; or `none`.
pub fn put_match(
    alloc: Global,
    symbols: &[Symbol],
    arguments: &str,
    answer: &mut Vec<u8>,
) -> Result<(), Unread> {
    let (left, right) = two(arguments)?;
    let pair = two_terms(alloc, left, right)?;
    put_match_of(alloc, symbols, &pair.0, &pair.1, answer)
}

fn put_match_of(
    alloc: Global,
    symbols: &[Symbol],
    p: &Term,
    t: &Term,
    answer: &mut Vec<u8>,
) -> Result<(), Unread> {
    match matches(alloc, symbols, p, t)? {
        Some(s) => put_simple(alloc, symbols, &s, answer),
        None => put_word(answer, b"none"),
    }
}

fn put_simple(
    alloc: Global,
    symbols: &[Symbol],
    s: &Subst,
    answer: &mut Vec<u8>,
) -> Result<(), Unread> {
    put_subst(alloc, answer, s)?;
    put_doubt(symbols, s, answer)
}
