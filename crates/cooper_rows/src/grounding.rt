//! Ground of a pool: its rows, and the clauses without variables that are left.

ghost use Rattle.std.specs.Prelude.{◌≡◌, ◌++◌, [], ◌∷◌, length, IfOk, OnOk, IsTrue};
ghost use Rattle.std.specs.List.{enumerate_from, list_all};
ghost use Rattle.lin_base.specs.Fact.{is_fact, is_pool};
ghost use Rattle.cert_tree.specs.Ground as spec;
ghost use Rattle.cooper_rows.specs.Rows.{Grounded, are_facts};

use crate::completing::{Completed, complete};
use crate::counting::{BudgetError, number_after};
use cert_tree::Row;
use cert_tree::search_tools::{occurs_in, variables};
use lin_base::{Fact, Pool, copy_facts};
use sqlite_items::Items;
use std::alloc::{AllocError, Global};

/// The rows that ground clauses, and the clauses that are left, each with its number in the extended pool.
#[derive(Debug, Drop)]
pub struct GroundPool {
    /// The rows.
    pub rows: Items<Row>,
    /// The clauses without variables, by number.
    pub clauses: Items<(u32, Items<Fact>)>,
}

/// No rows and no clauses.
fn nothing(alloc: Global) -> GroundPool
    ensures rows { result.rows ≡ [] }
    ensures clauses { result.clauses ≡ [] }
{
    GroundPool {
        rows: Items::new(alloc),
        clauses: Items::new(alloc),
    }
}

/// Puts more rows and clauses after those that are there.
fn append(made: &mut GroundPool, more: GroundPool) -> Result<(), AllocError>
    ensures rows { OnOk result (made.new.rows ≡ made.old.rows ++ more.rows) }
    ensures clauses { OnOk result (made.new.clauses ≡ made.old.clauses ++ more.clauses) }
{
    let GroundPool { rows, clauses } = more;
    made.rows.append(rows)?;
    made.clauses.append(clauses)
}

/// The clause alone, without a row.
fn alone(alloc: Global, number: u32, clause: &[Fact]) -> Result<GroundPool, AllocError>
    ensures rows { IfOk result (λ g. g.rows ≡ []) }
    ensures clauses { IfOk result (λ g. g.clauses ≡ (number, clause.now) ∷ []) }
{
    let mut made = nothing(alloc);
    made.clauses.push((number, copy_facts(alloc, clause)?))?;
    Ok(made)
}

/// The rows of Complete, and what grounds the clauses that they give.
fn with_rows(completed: Completed, rest: GroundPool) -> Result<GroundPool, AllocError>
    ensures rows { IfOk result (λ g. g.rows ≡ completed.rows ++ rest.rows) }
    ensures clauses { IfOk result (λ g. g.clauses ≡ rest.clauses) }
{
    let mut all = completed.rows;
    all.append(rest.rows)?;
    Ok(GroundPool {
        rows: all,
        clauses: rest.clauses,
    })
}

/// Grounds the clause of this number by Complete for each of these variables that it has, one after the other. The next
/// row has the number `next`.
#[cycle(ground_by)]
fn ground_by(
    alloc: Global,
    room: &mut u64,
    variables: &[u32],
    next: u32,
    number: u32,
    clause: &[Fact],
) -> Result<GroundPool, BudgetError>
    requires { IsTrue (list_all is_fact clause.now) }
    ensures formed { Grounded result room.old room.new (spec.ground_by variables.now next (number, clause.now)) }
    ensures well_formed { IfOk result (λ g. IsTrue (are_facts g.clauses)) }
{
    match variables {
        [] => Ok(alone(alloc, number, clause)?),
        [x, others @ ..] => {
            if !occurs_in(*x, clause) {
                return ground_by(alloc, room, others, next, number, clause);
            }
            let completed = complete(alloc, room, number, *x, clause)?;
            let after = number_after(next, completed.rows.len())?;
            let given = completed.clauses.as_slice();
            let rest = ground_each(alloc, room, others, after, next, given)?;
            Ok(with_rows(completed, rest)?)
        }
    }
}

/// Grounds several clauses, numbered from `first` on. The next row has the number `next`.
#[cycle(ground_by)]
fn ground_each(
    alloc: Global,
    room: &mut u64,
    variables: &[u32],
    next: u32,
    first: u32,
    clauses: &[Items<Fact>],
) -> Result<GroundPool, BudgetError>
    requires { IsTrue (list_all (list_all is_fact) clauses.now) }
    ensures formed { Grounded result room.old room.new
        (spec.ground_each (spec.ground_by variables.now) next (enumerate_from first clauses.now)) }
    ensures well_formed { IfOk result (λ g. IsTrue (are_facts g.clauses)) }
{
    let mut made = nothing(alloc);
    let mut after = next;
    let mut number = first;
    for clause in clauses {
        let more = ground_by(alloc, room, variables, after, number, clause.as_slice())?;
        after = number_after(after, more.rows.len())?;
        number = number_after(number, 1)?;
        append(&mut made, more)?;
    }
    Ok(made)
}

/// Grounds the clause of this number by all of its variables.
fn ground_clause(
    alloc: Global,
    room: &mut u64,
    params: u32,
    next: u32,
    number: u32,
    clause: &[Fact],
) -> Result<GroundPool, BudgetError>
    requires { IsTrue (list_all is_fact clause.now) }
    ensures formed { Grounded result room.old room.new (spec.ground_clause params next (number, clause.now)) }
    ensures well_formed { IfOk result (λ g. IsTrue (are_facts g.clauses)) }
{
    let all = variables(alloc, params, clause)?;
    ground_by(alloc, room, all.as_slice(), next, number, clause)
}

/// Grounds the clauses of a pool, numbered from 0 on. The first row has the number after the last clause.
fn ground_clauses(
    alloc: Global,
    room: &mut u64,
    params: u32,
    clauses: &[Items<Fact>],
) -> Result<GroundPool, BudgetError>
    requires { IsTrue (list_all (list_all is_fact) clauses.now) }
    ensures formed { Grounded result room.old room.new
        (spec.ground_each (spec.ground_clause params) (length clauses.now) (enumerate_from 0 clauses.now)) }
    ensures well_formed { IfOk result (λ g. IsTrue (are_facts g.clauses)) }
{
    let mut made = nothing(alloc);
    let mut after = number_after(0, clauses.len())?;
    let mut number = 0;
    for clause in clauses {
        let more = ground_clause(alloc, room, params, after, number, clause.as_slice())?;
        after = number_after(after, more.rows.len())?;
        number = number_after(number, 1)?;
        append(&mut made, more)?;
    }
    Ok(made)
}

/// Grounds a pool. Each row is counted; Wide only where a step of the grounding leaves the range, Spent only where
/// there are more rows than the room.
pub fn ground(alloc: Global, room: &mut u64, pool: &Pool) -> Result<GroundPool, BudgetError>
    requires { IsTrue (is_pool pool.now) }
    ensures formed { Grounded result room.old room.new (spec.grounding pool.now) }
    ensures well_formed { IfOk result (λ g. IsTrue (are_facts g.clauses)) }
{
    ground_clauses(alloc, room, pool.params, pool.clauses.as_slice())
}
