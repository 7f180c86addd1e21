//! Which call a row names.

use crate::{boards, conclusions, forms, replaying, steps};
use row_lines::{Calls, bad};
use std::alloc::Global;
use term_base::Symbol;
use text_pieces::Unread;

/// The calls of these rows.
pub struct Rows;

fn put_search(
    alloc: Global,
    symbols: &[Symbol],
    call: &str,
    arguments: &str,
    answer: &mut Vec<u8>,
) -> Result<(), Unread> {
    match call {
        "candidate" => conclusions::put_copy(alloc, arguments, answer),
        "conclude" => conclusions::put_conclusion(alloc, symbols, arguments, answer),
        "substitutions" => conclusions::put_substitutions(alloc, symbols, arguments, answer),
        "pairs" => conclusions::put_pairs(alloc, symbols, arguments, answer),
        "silent" => conclusions::put_silent(alloc, symbols, arguments, answer),
        "own" => conclusions::put_own(alloc, symbols, arguments, answer),
        "next" => conclusions::put_next(alloc, symbols, arguments, answer),
        "board" => boards::put_board(alloc, arguments, answer),
        "becomes" => boards::put_becomes(alloc, arguments, answer),
        _ => put_steps(alloc, symbols, call, arguments, answer),
    }
}

fn put_steps(
    alloc: Global,
    symbols: &[Symbol],
    call: &str,
    arguments: &str,
    answer: &mut Vec<u8>,
) -> Result<(), Unread> {
    match call {
        "superposed" => steps::put_superposed(alloc, symbols, arguments, answer),
        "demodulated" => steps::put_demodulated(alloc, symbols, arguments, answer),
        "resolved" => steps::put_resolved(alloc, symbols, arguments, answer),
        "factored" => steps::put_factored(alloc, symbols, arguments, answer),
        "pinned" => steps::put_pinned(alloc, symbols, arguments, answer),
        "abstraction" => steps::put_abstraction(alloc, symbols, arguments, answer),
        "known" => steps::put_known(alloc, arguments, answer),
        "written" => steps::put_written(alloc, symbols, arguments, answer),
        "definable" => steps::put_definable(alloc, symbols, arguments, answer),
        "replay" => replaying::put_replay(alloc, symbols, arguments, answer),
        _ => put_forms(alloc, symbols, call, arguments, answer),
    }
}

fn put_forms(
    alloc: Global,
    symbols: &[Symbol],
    call: &str,
    arguments: &str,
    answer: &mut Vec<u8>,
) -> Result<(), Unread> {
    match call {
        "summands" => forms::put_summands(alloc, arguments, answer),
        "linear" => forms::put_linear(alloc, arguments, answer),
        "same" => forms::put_same(alloc, symbols, arguments, answer),
        "false" => forms::put_false(alloc, symbols, arguments, answer),
        "normal" => forms::put_normal(alloc, symbols, arguments, answer),
        _ => bad(),
    }
}

impl Calls for Rows {
    fn put(
        &self,
        alloc: Global,
        symbols: &[Symbol],
        call: &str,
        arguments: &str,
        answer: &mut Vec<u8>,
    ) -> Result<(), Unread> {
        put_search(alloc, symbols, call, arguments, answer)
    }
}
