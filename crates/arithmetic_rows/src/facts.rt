//! Calls on facts and pools.

use crate::printing::{put_fact, put_pool as put_pool_text, put_wide};
use crate::texts::{any_fact, fact, integer, pool, sum};
use lin_base::{
    ArithmeticError, Fact, copy_facts, holds_at, is_fact, is_false, occurs, replace, same_fact,
    tight,
};
use row_lines::{bad, number, put_flag, two};
use std::alloc::Global;
use text_pieces::{Unread, push};

/// Whether a fact is well formed, whether it is false by itself, and whether it holds at 0.
pub fn put_tests(alloc: Global, arguments: &str, answer: &mut Vec<u8>) -> Result<(), Unread> {
    let made = any_fact(alloc, arguments)?;
    put_flag(answer, is_fact(&made))?;
    push(answer, b" ")?;
    put_flag(answer, is_false(&made))?;
    push(answer, b" ")?;
    put_flag(answer, holds_at(&made, 0))
}

/// A fact, tightened.
pub fn put_tight(alloc: Global, arguments: &str, answer: &mut Vec<u8>) -> Result<(), Unread> {
    let made = fact(alloc, arguments)?;
    let found = tight(alloc, &made)?;
    put_fact(alloc, answer, &found)?;
    Ok(())
}

fn put_replacement(
    alloc: Global,
    answer: &mut Vec<u8>,
    formed: Result<Fact, ArithmeticError>,
) -> Result<(), Unread> {
    match formed {
        Ok(made) => put_fact(alloc, answer, &made)?,
        Err(ArithmeticError::Wide(wide)) => put_wide(alloc, answer, wide)?,
        Err(ArithmeticError::Memory) => return Err(Unread::Memory),
    }
    Ok(())
}

/// A fact with a sum in place of a multiple of an unknown.
pub fn put_replaced(alloc: Global, arguments: &str, answer: &mut Vec<u8>) -> Result<(), Unread> {
    let (first, more) = two(arguments)?;
    let (second, more) = two(more)?;
    let (third, fourth) = two(more)?;
    let x = number(second)?;
    let a = integer(third)?;
    let t = sum(alloc, fourth)?;
    let made = fact(alloc, first)?;
    if a < 1 || occurs(x, &t) {
        return bad();
    }
    put_replacement(alloc, answer, replace(alloc, &made, x, a, &t))
}

/// The copy of a pool, if each of its clauses has the same facts as its copy.
pub fn put_pool(alloc: Global, arguments: &str, answer: &mut Vec<u8>) -> Result<(), Unread> {
    let made = pool(alloc, arguments)?;
    let copy = made.copy(alloc)?;
    for clause in made.clauses.as_slice() {
        let facts = copy_facts(alloc, clause.as_slice())?;
        if facts.len() != clause.len() {
            return bad();
        }
        for (one, other) in clause.as_slice().iter().zip(facts.as_slice()) {
            if !same_fact(one, other) {
                return bad();
            }
        }
    }
    put_pool_text(alloc, answer, &copy)?;
    Ok(())
}
