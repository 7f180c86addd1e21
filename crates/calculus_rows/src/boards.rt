//! The board of queries.

use query_board::{Asked, Board, Mark, Stamp};
use row_lines::{bad, number};
use sqlite_items::Items;
use std::alloc::{AllocError, Global};
use text_pieces::{Unread, push, push_decimal};

const MARKS: [Mark; 5] = [
    Mark::Open,
    Mark::Claimed,
    Mark::Taken,
    Mark::Stale,
    Mark::Retired,
];

fn mark(text: &str) -> Result<Mark, Unread> {
    match text {
        "open" => Ok(Mark::Open),
        "claimed" => Ok(Mark::Claimed),
        "taken" => Ok(Mark::Taken),
        "stale" => Ok(Mark::Stale),
        "retired" => Ok(Mark::Retired),
        _ => bad(),
    }
}

fn mark_word(mark: Mark) -> &'static [u8] {
    match mark {
        Mark::Open => b"open",
        Mark::Claimed => b"claimed",
        Mark::Taken => b"taken",
        Mark::Stale => b"stale",
        Mark::Retired => b"retired",
    }
}

/// The marks that may follow a mark.
pub fn put_becomes(alloc: Global, arguments: &str, answer: &mut Vec<u8>) -> Result<(), Unread> {
    let _alloc = alloc;
    let from = mark(arguments)?;
    for to in MARKS {
        if from.may_become(to) {
            push(answer, mark_word(to))?;
            push(answer, b" ")?;
        }
    }
    push(answer, b".")?;
    Ok(())
}

fn put_posted(
    alloc: Global,
    board: &mut Board,
    asked: Asked,
    answer: &mut Vec<u8>,
) -> Result<(), AllocError> {
    let query = board.post(asked)?;
    push_decimal(alloc, answer, u128::from(query))
}

// `QUERY MARK`
fn put_set(board: &mut Board, text: &str, answer: &mut Vec<u8>) -> Result<(), Unread> {
    match text.split_once(' ') {
        Some((query, word)) => {
            let query = u64::from(number(query)?);
            if board.set(query, mark(word)?) {
                push(answer, b"yes")?;
            } else {
                push(answer, b"no")?;
            }
            Ok(())
        }
        None => bad(),
    }
}

fn put_done(
    alloc: Global,
    board: &mut Board,
    text: &str,
    answer: &mut Vec<u8>,
) -> Result<(), Unread> {
    match text {
        "close" => put_posted(alloc, board, Asked::Close(Items::new(alloc)), answer)?,
        "entail" => {
            let target = Stamp {
                clause: 3,
                version: 0,
            };
            put_posted(
                alloc,
                board,
                Asked::Entail(Items::new(alloc), target),
                answer,
            )?
        }
        _ => put_set(board, text, answer)?,
    }
    Ok(())
}

// the marks of all queries, and whether there is a further one
fn put_marks(alloc: Global, board: &Board, answer: &mut Vec<u8>) -> Result<(), AllocError> {
    push_decimal(alloc, answer, u128::from(board.len()))?;
    push(answer, b" queries:")?;
    for query in 0..board.len() {
        push(answer, b" ")?;
        match (board.mark(query), board.get(query)) {
            (Some(mark), Some(_)) => push(answer, mark_word(mark))?,
            _ => push(answer, b"none")?,
        }
    }
    if board.mark(board.len()).is_some() || board.get(board.len()).is_some() {
        push(answer, b" and more")?;
    }
    Ok(())
}

/// What a new board answers to posts and marks, one after the other, and its marks then.
pub fn put_board(alloc: Global, arguments: &str, answer: &mut Vec<u8>) -> Result<(), Unread> {
    let mut board = Board::new(alloc);
    if !arguments.is_empty() {
        for part in arguments.split(" ; ") {
            put_done(alloc, &mut board, part, answer)?;
            push(answer, b", ")?;
        }
    }
    put_marks(alloc, &board, answer)?;
    Ok(())
}
