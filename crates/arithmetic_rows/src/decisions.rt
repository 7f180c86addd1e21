//! Elimination and decisions; each verdict is copied and checked.

ghost use Rattle.std.specs.Prelude.{◌≡◌, [], ◌∷◌, IfOk, IsTrue};
ghost use Rattle.lin_base.specs.Fact.{is_pool};

use crate::printing::{put_clauses, put_facts, put_wide};
use crate::texts::{fact, integer, pool};
use cert_tree::{check_sat, check_unsat};
use cooper::{decide, eliminate};
use cooper_rows::completing::complete;
use cooper_rows::counting::BudgetError;
use cooper_rows::grounding::ground;
use judge_base::{Judge, Query, Verdict, Why};
use judges::CooperJudge;
use lin_base::{ArithmeticError, Fact, Lin, Pool, is_fact, is_pool};
use row_lines::{bad, number, two};
use sqlite_items::Items;
use std::alloc::{AllocError, Global};
use text_pieces::{Unread, push, push_decimal};

// a clause of one fact
fn unit(alloc: Global, made: Fact) -> Result<Items<Fact>, AllocError>
    ensures { IfOk result (λ c. c ≡ made ∷ []) }
{
    let mut clause = Items::new(alloc);
    clause.push(made)?;
    Ok(clause)
}

// the clauses that are left of a fact
fn put_elimination(
    alloc: Global,
    made: Fact,
    params: u32,
    x: u32,
    answer: &mut Vec<u8>,
) -> Result<(), Unread> {
    if !is_fact(&made) {
        return bad();
    }
    let clause = unit(alloc, made)?;
    match eliminate(alloc, clause.as_slice(), params, x) {
        Ok(left) => put_clauses(alloc, answer, left.as_slice())?,
        Err(ArithmeticError::Wide(wide)) => put_wide(alloc, answer, wide)?,
        Err(ArithmeticError::Memory) => return Err(Unread::Memory),
    }
    Ok(())
}

/// The clauses that are left of a clause of one fact without an unknown.
pub fn put_eliminated(alloc: Global, arguments: &str, answer: &mut Vec<u8>) -> Result<(), Unread> {
    let (first, more) = two(arguments)?;
    let (second, third) = two(more)?;
    let params = number(second)?;
    let x = number(third)?;
    put_elimination(alloc, fact(alloc, first)?, params, x, answer)
}

fn put_budget(answer: &mut Vec<u8>, error: BudgetError) -> Result<(), Unread> {
    match error {
        BudgetError::Memory => Err(Unread::Memory),
        BudgetError::Wide => Ok(push(answer, b"wide")?),
        BudgetError::Spent => Ok(push(answer, b"spent")?),
    }
}

// how many rows were made, and how much room is left
fn put_counts(
    alloc: Global,
    answer: &mut Vec<u8>,
    rows: usize,
    room: u64,
) -> Result<(), AllocError> {
    push_decimal(alloc, answer, rows as u128)?;
    push(answer, b" rows, room ")?;
    push_decimal(alloc, answer, u128::from(room))?;
    push(answer, b": ")
}

fn put_completion(
    alloc: Global,
    made: Fact,
    room: u64,
    x: u32,
    answer: &mut Vec<u8>,
) -> Result<(), Unread> {
    if !is_fact(&made) {
        return bad();
    }
    let clause = unit(alloc, made)?;
    let mut left = room;
    match complete(alloc, &mut left, 0, x, clause.as_slice()) {
        Ok(found) => {
            put_counts(alloc, answer, found.rows.len(), left)?;
            put_clauses(alloc, answer, found.clauses.as_slice())?;
            Ok(())
        }
        Err(error) => put_budget(answer, error),
    }
}

/// The rows of a clause of one fact without an unknown, with room for so many.
pub fn put_completed(alloc: Global, arguments: &str, answer: &mut Vec<u8>) -> Result<(), Unread> {
    let (first, more) = two(arguments)?;
    let (second, third) = two(more)?;
    let room = u64::from(number(first)?);
    let x = number(third)?;
    put_completion(alloc, fact(alloc, second)?, room, x, answer)
}

/// The rows of a pool, with room for so many.
pub fn put_grounded(alloc: Global, arguments: &str, answer: &mut Vec<u8>) -> Result<(), Unread> {
    let (first, second) = two(arguments)?;
    let mut room = u64::from(number(first)?);
    let made = pool(alloc, second)?;
    if !is_pool(&made) {
        return bad();
    }
    match ground(alloc, &mut room, &made) {
        Ok(found) => {
            put_counts(alloc, answer, found.rows.len(), room)?;
            for (number, left) in found.clauses.as_slice() {
                push(answer, b"clause ")?;
                push_decimal(alloc, answer, u128::from(*number))?;
                push(answer, b" ")?;
                put_facts(alloc, answer, left.as_slice())?;
            }
            Ok(())
        }
        Err(error) => put_budget(answer, error),
    }
}

// whether a certificate stands, or values hold
fn is_checked(alloc: Global, pool: &Pool, verdict: &Verdict) -> Result<bool, AllocError>
    requires { IsTrue (is_pool pool.now) }
{
    match verdict {
        Verdict::Unsat(cert) => check_unsat(alloc, pool, cert),
        Verdict::Sat(values) => check_sat(alloc, pool, values.as_slice()),
        Verdict::Unknown(_) => Ok(true),
    }
}

fn verdict_word(verdict: &Verdict) -> &'static [u8] {
    match verdict {
        Verdict::Unsat(_) => b"unsat",
        Verdict::Sat(_) => b"sat",
        Verdict::Unknown(Why::Spent) => b"unknown spent",
        Verdict::Unknown(Why::Wide) => b"unknown wide",
        Verdict::Unknown(Why::Deep) => b"unknown deep",
    }
}

fn put_verdict(
    alloc: Global,
    pool: &Pool,
    verdict: &Verdict,
    answer: &mut Vec<u8>,
) -> Result<(), Unread>
    requires { IsTrue (is_pool pool.now) }
{
    let copy = verdict.copy(alloc)?;
    push(answer, verdict_word(&copy))?;
    if !is_checked(alloc, pool, &copy)? {
        push(answer, b" (refused)")?;
    }
    Ok(())
}

fn put_decision(
    alloc: Global,
    pool: &Pool,
    limit: u64,
    answer: &mut Vec<u8>,
) -> Result<(), Unread> {
    if !is_pool(pool) {
        return bad();
    }
    let verdict = decide(alloc, pool, limit)?;
    put_verdict(alloc, pool, &verdict, answer)
}

/// What a pool comes to within a limit of rows and nodes.
pub fn put_decided(alloc: Global, arguments: &str, answer: &mut Vec<u8>) -> Result<(), Unread> {
    let (first, second) = two(arguments)?;
    let limit = u64::from(number(first)?);
    let made = pool(alloc, second)?;
    put_decision(alloc, &made, limit, answer)
}

// what the judge was asked at a place
fn put_asked(
    alloc: Global,
    judge: &CooperJudge,
    at: u64,
    answer: &mut Vec<u8>,
) -> Result<(), AllocError> {
    match judge.asked(at) {
        Some(query) => {
            push(answer, b", asked ")?;
            push_decimal(alloc, answer, u128::from(query))
        }
        None => push(answer, b", no more"),
    }
}

/// What a judge answers to a query of this number, within a limit, and what it was asked then.
pub fn put_judged(alloc: Global, arguments: &str, answer: &mut Vec<u8>) -> Result<(), Unread> {
    let (first, more) = two(arguments)?;
    let (second, third) = two(more)?;
    let query_number = u64::from(number(first)?);
    let limit = u64::from(number(second)?);
    let made = pool(alloc, third)?;
    if !is_pool(&made) {
        return bad();
    }
    let mut judge = CooperJudge::new(alloc);
    let query = Query {
        number: query_number,
        pool: made,
    };
    let verdict = judge.judge(&query, limit)?;
    push(answer, verdict_word(&verdict))?;
    put_asked(alloc, &judge, 0, answer)?;
    put_asked(alloc, &judge, 1, answer)?;
    Ok(())
}

// m divides u0 + .. of so many unknowns
fn of_long_sum(alloc: Global, count: u32, m: i128) -> Result<Pool, AllocError> {
    let mut coefs = Items::new(alloc);
    for x in 0..count {
        coefs.push((x, 1))?;
    }
    let mut clauses = Items::new(alloc);
    clauses.push(unit(alloc, Fact::Divides(m, Lin { coefs, constant: 0 }))?)?;
    Ok(Pool {
        params: count,
        clauses,
    })
}

/// The decision of the pool in which a number divides the sum of so many parameters.
pub fn put_long_sum(alloc: Global, arguments: &str, answer: &mut Vec<u8>) -> Result<(), Unread> {
    let (first, more) = two(arguments)?;
    let (second, third) = two(more)?;
    let limit = u64::from(number(first)?);
    let made = of_long_sum(alloc, number(second)?, integer(third)?)?;
    put_decision(alloc, &made, limit, answer)
}

// u >= 0 for each of so many parameters
fn of_bounds(alloc: Global, count: u32) -> Result<Pool, AllocError> {
    let mut clauses = Items::new(alloc);
    for x in 0..count {
        let coefs = Items::from_slice(alloc, &[(x, -1)])?;
        clauses.push(unit(alloc, Fact::AtMostZero(Lin { coefs, constant: 0 }))?)?;
    }
    Ok(Pool {
        params: count,
        clauses,
    })
}

/// The decision of the pool in which each of so many parameters is at least 0.
pub fn put_bounds(alloc: Global, arguments: &str, answer: &mut Vec<u8>) -> Result<(), Unread> {
    let (first, second) = two(arguments)?;
    let limit = u64::from(number(first)?);
    let made = of_bounds(alloc, number(second)?)?;
    put_decision(alloc, &made, limit, answer)
}
