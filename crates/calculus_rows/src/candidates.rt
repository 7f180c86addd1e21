//! Candidates as text: `superpose LITERAL SIDE PLACE`, `resolve LITERAL`, `factor LITERAL SIDE LITERAL SIDE`, `define TERM`.

use hier_rules::Candidate;
use query_board::Stamp;
use row_lines::{bad, number, place, term, whole};
use std::alloc::{AllocError, Global};
use term_base::Side;
use term_text::{push_place, push_side, push_term};
use text_pieces::{Unread, push, push_decimal, word32};

const FIRST: Stamp = Stamp {
    clause: 0,
    version: 0,
};

const SECOND: Stamp = Stamp {
    clause: 1,
    version: 0,
};

/// A literal and its side.
pub fn literal_side(text: &str) -> Result<(u32, Side), Unread> {
    let (literal, rest) = word32(text.as_bytes())?;
    let (side, rest) = term_text::side(rest)?;
    whole((literal, side), rest)
}

// the two parts of a text around a blank
fn words(text: &str) -> Result<(&str, &str), Unread> {
    text.split_once(' ')
        .ok_or(Unread::Bad(text_pieces::Bad { left: 0 }))
}

fn superposition(alloc: Global, text: &str) -> Result<Candidate, Unread> {
    let (from, into) = words(text)?;
    let (literal, side) = literal_side(from)?;
    let place = place(alloc, into)?;
    Ok(Candidate::Superpose {
        from: FIRST,
        literal,
        side,
        into: SECOND,
        place,
    })
}

fn factoring(text: &str) -> Result<Candidate, Unread> {
    let (one, other) = words(text)?;
    let (first, first_side) = literal_side(one)?;
    let (second, second_side) = literal_side(other)?;
    Ok(Candidate::Factor {
        of: FIRST,
        first,
        first_side,
        second,
        second_side,
    })
}

/// A candidate; clause 0 is the first premise, clause 1 the second.
pub fn candidate(alloc: Global, text: &str) -> Result<Candidate, Unread> {
    let (word, rest) = words(text)?;
    match word {
        "superpose" => superposition(alloc, rest),
        "resolve" => Ok(Candidate::Resolve {
            of: FIRST,
            literal: number(rest)?,
        }),
        "factor" => factoring(rest),
        "define" => Ok(Candidate::Define {
            of: FIRST,
            term: term(alloc, rest)?,
        }),
        _ => bad(),
    }
}

fn put_literal_side(
    alloc: Global,
    answer: &mut Vec<u8>,
    literal: u32,
    side: Side,
) -> Result<(), AllocError> {
    push_decimal(alloc, answer, u128::from(literal))?;
    push_side(answer, side)
}

/// Puts a candidate behind the answer; the text of a place ends with a blank.
pub fn put_candidate(
    alloc: Global,
    answer: &mut Vec<u8>,
    candidate: &Candidate,
) -> Result<(), AllocError> {
    match candidate {
        Candidate::Superpose {
            from: _,
            literal,
            side,
            into: _,
            place,
        } => {
            push(answer, b"superpose ")?;
            put_literal_side(alloc, answer, *literal, *side)?;
            push(answer, b" ")?;
            push_place(alloc, answer, place)
        }
        Candidate::Resolve { of: _, literal } => {
            push(answer, b"resolve ")?;
            push_decimal(alloc, answer, u128::from(*literal))?;
            push(answer, b" ")
        }
        Candidate::Factor {
            of: _,
            first,
            first_side,
            second,
            second_side,
        } => {
            push(answer, b"factor ")?;
            put_literal_side(alloc, answer, *first, *first_side)?;
            push(answer, b" ")?;
            put_literal_side(alloc, answer, *second, *second_side)?;
            push(answer, b" ")
        }
        Candidate::Define { of: _, term } => {
            push(answer, b"define ")?;
            push_term(alloc, answer, term)?;
            push(answer, b" ")
        }
    }
}
