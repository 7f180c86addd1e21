//! Which call a row names.

use crate::normal_forms::Shown;
use crate::{grammar, normal_forms, problems, scans, signatures};
use row_lines::{Calls, bad};
use std::alloc::Global;
use term_base::Symbol;
use text_pieces::Unread;

/// The calls of these rows.
pub struct Rows;

fn put_texts(
    alloc: Global,
    call: &str,
    arguments: &str,
    answer: &mut Vec<u8>,
) -> Result<(), Unread> {
    match call {
        "tokens" => scans::put_picture(alloc, arguments, answer),
        "scan" => scans::put_count(alloc, arguments, answer),
        "numeral" => scans::put_numeral(alloc, arguments, answer),
        "parse" => grammar::put_parsed(alloc, arguments, answer),
        "statement" => grammar::put_statement(alloc, arguments, answer),
        "signature" => signatures::put_signature(alloc, arguments, answer),
        "named" => signatures::put_named(alloc, arguments, answer),
        "word" => signatures::put_word(alloc, arguments, answer),
        "read" => problems::put_read(alloc, arguments, answer),
        "meaning" => problems::put_meaning(alloc, arguments, answer),
        _ => put_clauses(alloc, call, arguments, answer),
    }
}

fn put_clauses(
    alloc: Global,
    call: &str,
    arguments: &str,
    answer: &mut Vec<u8>,
) -> Result<(), Unread> {
    match call {
        "axiom" => normal_forms::put_axiom(alloc, arguments, Shown::Clauses, answer),
        "ordinary-axiom" => normal_forms::put_axiom(alloc, arguments, Shown::Ordinary, answer),
        "conjecture" => normal_forms::put_conjecture(alloc, arguments, Shown::Clauses, answer),
        "ordinary-conjecture" => {
            normal_forms::put_conjecture(alloc, arguments, Shown::Ordinary, answer)
        }
        "statements" => normal_forms::put_statements(alloc, arguments, answer),
        "count" => normal_forms::put_axiom(alloc, arguments, Shown::Count, answer),
        "skolem" => normal_forms::put_axiom(alloc, arguments, Shown::Skolem, answer),
        _ => bad(),
    }
}

impl Calls for Rows {
    fn put(
        &self,
        alloc: Global,
        _symbols: &[Symbol],
        call: &str,
        arguments: &str,
        answer: &mut Vec<u8>,
    ) -> Result<(), Unread> {
        put_texts(alloc, call, arguments, answer)
    }
}
