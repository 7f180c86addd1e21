//! Which call a row names.

use crate::{abstractions, copies, large, orders, substitutions, unifiers, views};
use row_lines::{Calls, bad};
use std::alloc::Global;
use term_base::Symbol;
use text_pieces::Unread;

/// The calls of these rows.
pub struct Rows;

fn put_on_terms(
    alloc: Global,
    symbols: &[Symbol],
    call: &str,
    arguments: &str,
    answer: &mut Vec<u8>,
) -> Result<(), Unread> {
    match call {
        "compare" => orders::put_order(alloc, symbols, arguments, answer),
        "maximal" => orders::put_maximal(alloc, symbols, arguments, answer),
        "variables" => orders::put_variable_order(alloc, arguments, answer),
        "sort" => views::put_sort(alloc, symbols, arguments, answer),
        "purity" => views::put_purity(alloc, symbols, arguments, answer),
        "class" => views::put_class(alloc, symbols, arguments, answer),
        "weight" => views::put_weight(alloc, symbols, arguments, answer),
        "clause" => views::put_tests(alloc, symbols, arguments, answer),
        "child" => views::put_child(alloc, arguments, answer),
        _ => put_more(alloc, symbols, call, arguments, answer),
    }
}

fn put_more(
    alloc: Global,
    symbols: &[Symbol],
    call: &str,
    arguments: &str,
    answer: &mut Vec<u8>,
) -> Result<(), Unread> {
    match call {
        "unify" => unifiers::put_unified(alloc, symbols, arguments, answer),
        "within" => unifiers::put_within(alloc, symbols, arguments, answer),
        "second" => unifiers::put_second(alloc, symbols, arguments, answer),
        "over" => unifiers::put_over(alloc, symbols, arguments, answer),
        "match" => unifiers::put_match(alloc, symbols, arguments, answer),
        "abstracted" => abstractions::put_abstracted(alloc, symbols, arguments, answer),
        "targets" => abstractions::put_targets(alloc, symbols, arguments, answer),
        "towers" => large::put_towers(alloc, symbols, arguments, answer),
        "sums" => large::put_sums(alloc, symbols, arguments, answer),
        "match-sums" => large::put_match_of_sums(alloc, arguments, answer),
        _ => bad(),
    }
}

fn put_on_clauses(
    alloc: Global,
    symbols: &[Symbol],
    call: &str,
    arguments: &str,
    answer: &mut Vec<u8>,
) -> Result<(), Unread> {
    match call {
        "apply" => substitutions::put_applied(alloc, symbols, arguments, answer),
        "apply-clause" => substitutions::put_applied_clause(alloc, symbols, arguments, answer),
        "image" => substitutions::put_image(alloc, arguments, answer),
        "simple" => substitutions::put_simple(alloc, symbols, arguments, answer),
        "pairs" => substitutions::put_pairs(alloc, arguments, answer),
        "replace" => substitutions::put_replaced(alloc, symbols, arguments, answer),
        "replace-in" => substitutions::put_in_literal(alloc, arguments, answer),
        "at" => substitutions::put_at(alloc, symbols, arguments, answer),
        "copy" => copies::put_copy(alloc, arguments, answer),
        "same" => copies::put_same(alloc, arguments, answer),
        "copy-terms" => copies::put_terms(alloc, arguments, answer),
        "copy-place" => copies::put_place(alloc, arguments, answer),
        "copy-substitution" => copies::put_substitution(alloc, arguments, answer),
        "copy-symbol" => copies::put_symbol(alloc, symbols, arguments, answer),
        _ => put_on_terms(alloc, symbols, call, arguments, answer),
    }
}

impl Calls for Rows {
    fn put(
        &self,
        alloc: Global,
        symbols: &[Symbol],
        call: &str,
        arguments: &str,
        answer: &mut Vec<u8>,
    ) -> Result<(), Unread> {
        put_on_clauses(alloc, symbols, call, arguments, answer)
    }
}
