//! Sums, facts, pools and refusals, printed.

use lin_base::{ArithmeticError, Fact, Lin, Op, Pool, Wide};
use sqlite_items::Items;
use std::alloc::{AllocError, Global};
use text_pieces::{Unread, push, push_decimal, push_signed_decimal};

/// Puts a sum behind the answer.
pub fn put_sum(alloc: Global, answer: &mut Vec<u8>, t: &Lin) -> Result<(), AllocError> {
    for (unknown, coefficient) in t.coefs.as_slice() {
        push_signed_decimal(alloc, answer, *coefficient)?;
        push(answer, b"*u")?;
        push_decimal(alloc, answer, u128::from(*unknown))?;
        push(answer, b" + ")?;
    }
    push_signed_decimal(alloc, answer, t.constant)
}

fn put_modulus(
    alloc: Global,
    answer: &mut Vec<u8>,
    m: i128,
    word: &[u8],
    t: &Lin,
) -> Result<(), AllocError> {
    push_signed_decimal(alloc, answer, m)?;
    push(answer, word)?;
    put_sum(alloc, answer, t)
}

fn put_relation(
    alloc: Global,
    answer: &mut Vec<u8>,
    t: &Lin,
    word: &[u8],
) -> Result<(), AllocError> {
    put_sum(alloc, answer, t)?;
    push(answer, word)
}

/// Puts a fact.
pub fn put_fact(alloc: Global, answer: &mut Vec<u8>, fact: &Fact) -> Result<(), AllocError> {
    match fact {
        Fact::AtMostZero(t) => put_relation(alloc, answer, t, b" <= 0"),
        Fact::Zero(t) => put_relation(alloc, answer, t, b" = 0"),
        Fact::Divides(m, t) => put_modulus(alloc, answer, *m, b" divides ", t),
        Fact::NotDivides(m, t) => put_modulus(alloc, answer, *m, b" avoids ", t),
    }
}

/// Puts the facts of a clause.
pub fn put_facts(alloc: Global, answer: &mut Vec<u8>, clause: &[Fact]) -> Result<(), AllocError> {
    if clause.is_empty() {
        push(answer, b"false")?;
    }
    let mut between: &[u8] = b"";
    for fact in clause {
        push(answer, between)?;
        put_fact(alloc, answer, fact)?;
        between = b" or ";
    }
    Ok(())
}

/// Puts clauses.
pub fn put_clauses(
    alloc: Global,
    answer: &mut Vec<u8>,
    clauses: &[Items<Fact>],
) -> Result<(), AllocError> {
    let mut between: &[u8] = b"";
    for clause in clauses {
        push(answer, between)?;
        put_facts(alloc, answer, clause.as_slice())?;
        between = b" , ";
    }
    Ok(())
}

/// Puts a pool.
pub fn put_pool(alloc: Global, answer: &mut Vec<u8>, pool: &Pool) -> Result<(), AllocError> {
    push_decimal(alloc, answer, u128::from(pool.params))?;
    push(answer, b" : ")?;
    put_clauses(alloc, answer, pool.clauses.as_slice())
}

/// Puts the operation that leaves the range.
pub fn put_wide(alloc: Global, answer: &mut Vec<u8>, wide: Wide) -> Result<(), AllocError> {
    match wide.op {
        Op::Add => push(answer, b"wide add ")?,
        Op::Mul => push(answer, b"wide mul ")?,
    }
    push_signed_decimal(alloc, answer, wide.left)?;
    push(answer, b" ")?;
    push_signed_decimal(alloc, answer, wide.right)
}

/// Puts a sum, or the operation that leaves the range.
pub fn put_formed(
    alloc: Global,
    answer: &mut Vec<u8>,
    formed: Result<Lin, ArithmeticError>,
) -> Result<(), Unread> {
    match formed {
        Ok(t) => put_sum(alloc, answer, &t)?,
        Err(ArithmeticError::Wide(wide)) => put_wide(alloc, answer, wide)?,
        Err(ArithmeticError::Memory) => return Err(Unread::Memory),
    }
    Ok(())
}
