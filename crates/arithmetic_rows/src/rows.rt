//! Which call a row names.

use crate::{certificates, decisions, facts, numbers, sums, views};
use row_lines::{Calls, bad};
use std::alloc::Global;
use term_base::Symbol;
use text_pieces::Unread;

/// The calls of these rows.
pub struct Rows;

fn put_on_numbers(
    alloc: Global,
    call: &str,
    arguments: &str,
    answer: &mut Vec<u8>,
) -> Result<(), Unread> {
    match call {
        "plus" => numbers::put_sum(alloc, arguments, answer),
        "times" => numbers::put_product(alloc, arguments, answer),
        "lcm" => numbers::put_lcm(alloc, arguments, answer),
        "gcd" => numbers::put_gcd(alloc, arguments, answer),
        "div-ceil" => numbers::put_quotient(alloc, arguments, answer),
        "divides" => numbers::put_divides(arguments, answer),
        _ => put_on_sums(alloc, call, arguments, answer),
    }
}

fn put_on_sums(
    alloc: Global,
    call: &str,
    arguments: &str,
    answer: &mut Vec<u8>,
) -> Result<(), Unread> {
    match call {
        "sum" => sums::put_tests(alloc, arguments, answer),
        "coef" => sums::put_coefficient(alloc, arguments, answer),
        "without" => sums::put_without(alloc, arguments, answer),
        "add" => sums::put_added(alloc, arguments, answer),
        "add-number" => sums::put_number_added(alloc, arguments, answer),
        "add-scaled" => sums::put_scaled_added(alloc, arguments, answer),
        "scale" => sums::put_scaled(alloc, arguments, answer),
        "negate" => sums::put_negated(alloc, arguments, answer),
        "above" => sums::put_above(alloc, arguments, answer),
        _ => put_on_facts(alloc, call, arguments, answer),
    }
}

fn put_on_facts(
    alloc: Global,
    call: &str,
    arguments: &str,
    answer: &mut Vec<u8>,
) -> Result<(), Unread> {
    match call {
        "fact" => facts::put_tests(alloc, arguments, answer),
        "tight" => facts::put_tight(alloc, arguments, answer),
        "replace" => facts::put_replaced(alloc, arguments, answer),
        "pool" => facts::put_pool(alloc, arguments, answer),
        "unsat" => certificates::put_unsat(alloc, arguments, answer),
        "used-up" => certificates::put_used_up(alloc, arguments, answer),
        "sat" => certificates::put_sat(alloc, arguments, answer),
        "eliminate" => decisions::put_eliminated(alloc, arguments, answer),
        "complete" => decisions::put_completed(alloc, arguments, answer),
        "ground" => decisions::put_grounded(alloc, arguments, answer),
        _ => put_decisions(alloc, call, arguments, answer),
    }
}

fn put_decisions(
    alloc: Global,
    call: &str,
    arguments: &str,
    answer: &mut Vec<u8>,
) -> Result<(), Unread> {
    match call {
        "decide" => decisions::put_decided(alloc, arguments, answer),
        "judge" => decisions::put_judged(alloc, arguments, answer),
        "long-sum" => decisions::put_long_sum(alloc, arguments, answer),
        "bounds" => decisions::put_bounds(alloc, arguments, answer),
        _ => bad(),
    }
}

impl Calls for Rows {
    fn put(
        &self,
        alloc: Global,
        symbols: &[Symbol],
        call: &str,
        arguments: &str,
        answer: &mut Vec<u8>,
    ) -> Result<(), Unread> {
        match call {
            "view" => views::put_view(alloc, symbols, arguments, answer),
            "entail" => views::put_entail_view(alloc, symbols, arguments, answer),
            _ => put_on_numbers(alloc, call, arguments, answer),
        }
    }
}
