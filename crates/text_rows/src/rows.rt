//! Which call a row names.

use crate::{certificates, checks, derivations, lists, pieces, terms};
use row_lines::{Calls, bad};
use std::alloc::Global;
use term_base::Symbol;
use text_pieces::Unread;

/// The calls of these rows.
pub struct Rows;

fn put_pieces(
    alloc: Global,
    call: &str,
    arguments: &str,
    answer: &mut Vec<u8>,
) -> Result<(), Unread> {
    match call {
        "word32" => pieces::put_word32(alloc, arguments, answer),
        "signed" => pieces::put_signed(alloc, arguments, answer),
        "number" => pieces::put_number(alloc, arguments, answer),
        "count" => pieces::put_count(alloc, arguments, answer),
        "after" => pieces::put_after(alloc, arguments, answer),
        "behind" => pieces::put_behind(alloc, arguments, answer),
        "exactly" => pieces::put_exactly(alloc, arguments, answer),
        "front" => pieces::put_front(alloc, arguments, answer),
        "begins" => pieces::put_begins(alloc, arguments, answer),
        "one-of" => pieces::put_one_of(alloc, arguments, answer),
        "printed" => pieces::put_printed(alloc, arguments, answer),
        "commas" => lists::put_listed(alloc, arguments, answer),
        "counted" => lists::put_several(alloc, arguments, answer),
        "printed-lists" => lists::put_printed(alloc, arguments, answer),
        _ => put_values(alloc, call, arguments, answer),
    }
}

fn put_values(
    alloc: Global,
    call: &str,
    arguments: &str,
    answer: &mut Vec<u8>,
) -> Result<(), Unread> {
    match call {
        "term" => terms::put_term(alloc, arguments, answer),
        "clause" => terms::put_clause(alloc, arguments, answer),
        "place" => terms::put_place(alloc, arguments, answer),
        "substitution" => terms::put_substitution(alloc, arguments, answer),
        "cert" => certificates::put_taken(alloc, arguments, answer),
        "cert-prefixes" => certificates::put_prefixes(alloc, arguments, answer),
        "derivation" => derivations::put_derivation(alloc, arguments, answer),
        "answer" => derivations::put_answer(alloc, arguments, answer),
        "answer-prefixes" => derivations::put_prefixes(alloc, arguments, answer),
        "check" => checks::put_checked(alloc, arguments, answer),
        _ => bad(),
    }
}

impl Calls for Rows {
    fn put(
        &self,
        alloc: Global,
        _symbols: &[Symbol],
        call: &str,
        arguments: &str,
        answer: &mut Vec<u8>,
    ) -> Result<(), Unread> {
        put_pieces(alloc, call, arguments, answer)
    }
}
