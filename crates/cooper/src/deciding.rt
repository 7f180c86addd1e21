//! Decides a pool within a limit of rows and nodes.

ghost use Rattle.std.specs.Prelude.{◌≡◌, ◌≤◌, ◌<◌, ◌^◌, ◌+◌, ◌↔◌, [], length, nat_lt, ℕ, IfOk, IsTrue};
ghost use Rattle.lin_base.specs.Fact.{is_pool};
ghost use Rattle.cert_tree.specs.Ground.{grounding};
ghost use Rattle.cert_tree.specs.Measures.{bulk, span, depth, values_at, visit_of};
ghost use Rattle.judge_base.specs.Verdicts.{Promises, max_depth};
ghost use Rattle.judge_base.specs.declared.verdicts.Verdict.TheVariants.{Unknown};
ghost use Rattle.judge_base.specs.declared.verdicts.Why.TheVariants.{Spent};
ghost use Rattle.cooper.specs.Deciding.{IsDecided, Settled, Settles, stated};
ghost use Rattle.cooper.specs.Walks.{valuation_of, found_by};
ghost use Rattle.cert_tree.specs.Search as search;

use crate::closing::the_one;
use crate::search::Search;
use crate::valuing::value_at;
use cert_tree::{Cert, check_sat};
use cooper_rows::counting::BudgetError;
use cooper_rows::grounding::ground;
use judge_base::{MAX_DEPTH, Verdict, Why};
use lin_base::Pool;
use sqlite_items::Items;
use std::alloc::{AllocError, Global};

/// Whether there are more ground clauses and parameters than have to be decided.
fn is_deep(clauses: usize, params: u32) -> bool
    ensures { result ≡ nat_lt max_depth (clauses + params) }
{
    clauses as u128 + u128::from(params) > u128::from(MAX_DEPTH)
}

/// The values of the parameters.
fn parameter_values(
    alloc: Global,
    params: u32,
    values: &[(u32, i128)],
) -> Result<Items<i128>, AllocError>
    ensures { IfOk result (λ vs. vs ≡ values_at params (valuation_of values.now)) }
{
    let mut made = Items::new(alloc);
    for p in 0..params {
        made.push(value_at(values, p))?;
    }
    Ok(made)
}

/// The values that were found, where their check says yes. Else a number of it leaves the range.
fn with_values(alloc: Global, pool: &Pool, values: &[(u32, i128)]) -> Result<Verdict, AllocError>
    requires pool { IsTrue (is_pool pool.now) }
    requires found { (visit_of pool.now).found ≡ search.satisfied (valuation_of values.now) }
    ensures { IfOk result (λ v. (limit : ℕ) → bulk pool.now ≤ limit → Settles pool.now limit v) }
{
    let values = parameter_values(alloc, pool.params, values)?;
    if check_sat(alloc, pool, values.as_slice())? {
        return Ok(Verdict::Sat(values));
    }
    Ok(Verdict::Unknown(Why::Wide))
}

/// Grounds the pool and searches.
fn settle(alloc: Global, pool: &Pool, limit: u64) -> Result<Verdict, BudgetError>
    requires { IsTrue (is_pool pool.now) }
    ensures { Settled result pool.now limit }
{
    let mut room = limit;
    let grounded = ground(alloc, &mut room, pool)?;
    if is_deep(grounded.clauses.len(), pool.params) {
        return Ok(Verdict::Unknown(Why::Deep));
    }
    let mut search = Search::new(alloc, room);
    let mut trees = Items::new(alloc);
    let clauses = grounded.clauses.as_slice();
    match search.visit_clauses(clauses, &mut trees)? {
        Some(values) => Ok(with_values(alloc, pool, values.as_slice())?),
        None => Ok(Verdict::Unsat(Cert {
            rows: grounded.rows,
            tree: the_one(trees),
        })),
    }
}

/// Decides a pool by Cooper's elimination (Cooper 1972), within a limit of rows and nodes.
///
/// The answer is Unsat with a certificate that stands, or Sat with values for which the check of values says yes, where
/// Bulk is at most the limit, Span below 2^127 and Depth at most `MAX_DEPTH`. Else it is Unknown: Spent only where Bulk
/// is greater than the limit, and exactly there where the other two hold; Wide only where Span is 2^127 or greater;
/// Deep only where Depth is greater than `MAX_DEPTH`.
///
/// A certificate has the rows of the grounding, Case, Solve and Least as the stated search visits them, and a Clash
/// that names the first false fact; values are those of the first satisfied leaf.
pub fn decide(alloc: Global, pool: &Pool, limit: u64) -> Result<Verdict, AllocError>
    requires { IsTrue (is_pool pool.now) }
    ensures promises { IfOk result (Promises pool.now limit) }
    ensures spent { IfOk result (λ v. depth pool.now ≤ max_depth → span pool.now < 2 ^ 127 →
        (v ≡ Unknown Spent) ↔ (limit < bulk pool.now)) }
    ensures decided { IfOk result (λ v. bulk pool.now ≤ limit → span pool.now < 2 ^ 127 → depth pool.now ≤ max_depth →
        IsDecided v) }
    ensures stated { IfOk result (λ v. IsDecided v → v ≡ stated pool.now) }
{
    match settle(alloc, pool, limit) {
        Ok(verdict) => Ok(verdict),
        Err(BudgetError::Memory) => Err(AllocError),
        Err(BudgetError::Wide) => Ok(Verdict::Unknown(Why::Wide)),
        Err(BudgetError::Spent) => Ok(Verdict::Unknown(Why::Spent)),
    }
}
