//! Complete of a clause and one of its variables: its rows and the clauses that they give.

ghost use Rattle.std.specs.Prelude.{◌≡◌, ◌≤ℤ◌, ◌++◌, [], ◌∷◌, length, map, pos, IfOk, OnOk, IsTrue};
ghost use Rattle.std.specs.List.{list_all, flat_map};
ghost use Rattle.lin_base.specs.Fact.{is_fact, is_lin};
ghost use Rattle.lin_base.specs.Numbers.{results};
ghost use Rattle.lin_base.specs.Steps.{Forms};
ghost use Rattle.cert_tree.specs.Above.{above_bound};
ghost use Rattle.cert_tree.specs.Bounds.{is_side};
ghost use Rattle.cert_tree.specs.Complete as spec;
ghost use Rattle.cert_tree.specs.Counting.{count_from};
ghost use Rattle.cert_tree.specs.Rows.{low_at, low_steps};
ghost use Rattle.cert_tree.specs.declared.certs.Row.TheVariants as row;
ghost use Rattle.cooper_rows.specs.Counted.{Counted};
ghost use Rattle.cooper_rows.specs.Rows.{completed, step_of, moved_row, bound_rows, literal_rows, uppers_rows, low_rows, lows_rows, rows_by, rows_steps};

use crate::counting::{BudgetError, length_of, take};
use cert_tree::Row;
use cert_tree::search_tools::{
    Bound, Side, formed_far_down, formed_instance, formed_upper, has_upper_bound, move_up, period,
};
use lin_base::{ArithmeticError, Fact, above, checked_mul, number as numeral};
use sqlite_items::Items;
use std::alloc::{AllocError, Global};

/// Rows on a clause, and the clause that each gives.
#[derive(Debug, Drop)]
pub struct Completed {
    /// The rows.
    pub rows: Items<Row>,
    /// Their clauses.
    pub clauses: Items<Items<Fact>>,
}

/// A row on a clause, and the clause that it gives.
#[derive(Debug, Drop)]
struct Step {
    row: Row,
    clause: Items<Fact>,
}

/// No rows.
fn none(alloc: Global) -> Completed
    ensures rows { result.rows ≡ [] }
    ensures clauses { result.clauses ≡ [] }
{
    Completed {
        rows: Items::new(alloc),
        clauses: Items::new(alloc),
    }
}

/// Puts more rows, and their clauses, after those that are there.
fn append(made: &mut Completed, more: Completed) -> Result<(), AllocError>
    ensures rows { OnOk result (made.new.rows ≡ made.old.rows ++ more.rows) }
    ensures clauses { OnOk result (made.new.clauses ≡ made.old.clauses ++ more.clauses) }
{
    let Completed { rows, clauses } = more;
    made.rows.append(rows)?;
    made.clauses.append(clauses)
}

/// Puts one more row, and its clause, after those that are there.
fn push(made: &mut Completed, step: Step) -> Result<(), AllocError>
    ensures rows { OnOk result (made.new.rows ≡ made.old.rows ++ step.row ∷ []) }
    ensures clauses { OnOk result (made.new.clauses ≡ made.old.clauses ++ step.clause ∷ []) }
{
    let Step { row, clause } = step;
    made.rows.push(row)?;
    made.clauses.push(clause)?;
    Ok(())
}

/// The row at `b*x = rest + j`, and its clause.
fn formed_step(
    alloc: Global,
    number: u32,
    x: u32,
    bound: &Side,
    j: usize,
    clause: &[Fact],
) -> Result<Step, ArithmeticError>
    requires bound { IsTrue (is_side x bound.now) }
    requires clause { IsTrue (list_all is_fact clause.now) }
    ensures { Forms result (spec.moved_steps x clause.now bound.now.b bound.now.rest j)
        (step_of clause.now (moved_row number x bound.now.b bound.now.rest j)) }
{
    let moved = move_up(alloc, x, bound, j)?;
    let clause = formed_instance(alloc, x, &moved.b, &moved.rest, clause)?;
    let Side { b, rest } = moved;
    let row = Row::Inst {
        clause: number,
        x,
        a: b,
        t: rest,
    };
    Ok(Step { row, clause })
}

/// The first of these rows, and their clauses.
fn formed_instances_at(
    alloc: Global,
    number: u32,
    x: u32,
    bound: &Side,
    count: usize,
    clause: &[Fact],
) -> Result<Completed, ArithmeticError>
    requires bound { IsTrue (is_side x bound.now) }
    requires clause { IsTrue (list_all is_fact clause.now) }
    ensures { Forms result (flat_map (spec.moved_steps x clause.now bound.now.b bound.now.rest) (count_from 0 count))
        (completed clause.now (map (moved_row number x bound.now.b bound.now.rest) (count_from 0 count))) }
{
    let mut made = none(alloc);
    for j in 0..count {
        let step = formed_step(alloc, number, x, bound, j, clause)?;
        push(&mut made, step)?;
    }
    Ok(made)
}

/// The bound that is 1 - rest, and how many instances it has: `b*d`.
#[tactic(auto, using(crate::proofs::Budgets::counting))]
fn formed_above_bound(alloc: Global, d: &i128, side: &Side) -> Result<Bound, ArithmeticError>
    requires { IsTrue (is_lin side.now.rest) }
    ensures { Forms result (spec.above_bound_steps d.now side.now.b side.now.rest) (above_bound d.now side.now) }
{
    let children = checked_mul(side.b, *d)?;
    let rest = above(alloc, &side.rest)?;
    let side = Side { b: side.b, rest };
    Ok(Bound { side, children })
}

/// All instances above `b*x + rest`: `b*d` of them, at 1 - rest and on.
fn instances(
    alloc: Global,
    room: &mut u64,
    number: u32,
    x: u32,
    d: &i128,
    side: &Side,
    clause: &[Fact],
) -> Result<Completed, BudgetError>
    requires d { pos 1 ≤ℤ d.now }
    requires side { IsTrue (is_side x side.now) }
    requires clause { IsTrue (list_all is_fact clause.now) }
    ensures { Counted result room.old room.new (length (bound_rows number x d.now side.now))
        (results (spec.instances_steps x clause.now d.now side.now.b side.now.rest))
        (λ v. v ≡ completed clause.now (bound_rows number x d.now side.now)) }
{
    let bound = formed_above_bound(alloc, d, side)?;
    take(room, &bound.children)?;
    let count = length_of(&bound.children)?;
    let made = formed_instances_at(alloc, number, x, &bound.side, count, clause)?;
    Ok(made)
}

/// All instances above the bound that a literal is, if it is one.
fn literal(
    alloc: Global,
    room: &mut u64,
    number: u32,
    x: u32,
    d: &i128,
    fact: &Fact,
    clause: &[Fact],
) -> Result<Completed, BudgetError>
    requires d { pos 1 ≤ℤ d.now }
    requires fact { IsTrue (is_fact fact.now) }
    requires clause { IsTrue (list_all is_fact clause.now) }
    ensures { Counted result room.old room.new (length (literal_rows number x d.now (spec.upper x fact.now)))
        (results (spec.literal_steps x clause.now d.now (spec.upper x fact.now)))
        (λ v. v ≡ completed clause.now (literal_rows number x d.now (spec.upper x fact.now))) }
{
    match formed_upper(alloc, x, fact)? {
        Some(side) => instances(alloc, room, number, x, d, &side, clause),
        None => Ok(none(alloc)),
    }
}

/// All instances, by literal.
fn uppers(
    alloc: Global,
    room: &mut u64,
    number: u32,
    x: u32,
    d: &i128,
    clause: &[Fact],
) -> Result<Completed, BudgetError>
    requires d { pos 1 ≤ℤ d.now }
    requires clause { IsTrue (list_all is_fact clause.now) }
    ensures { Counted result room.old room.new (length (uppers_rows number x d.now clause.now))
        (results (spec.uppers_steps x clause.now d.now clause.now))
        (λ v. v ≡ completed clause.now (uppers_rows number x d.now clause.now)) }
{
    let mut made = none(alloc);
    for fact in clause {
        let more = literal(alloc, room, number, x, d, fact, clause)?;
        append(&mut made, more)?;
    }
    Ok(made)
}

/// The row where `x` is far down and `j` modulo the period, and its clause.
#[tactic(auto, using(crate::proofs::Budgets::counting))]
fn formed_low_step(
    alloc: Global,
    number: u32,
    x: u32,
    j: usize,
    clause: &[Fact],
) -> Result<Step, ArithmeticError>
    requires { IsTrue (list_all is_fact clause.now) }
    ensures { Forms result (low_steps x (pos j) clause.now) (step_of clause.now (row.Low number x (pos j))) }
{
    let j = j as i128;
    let clause = formed_far_down(alloc, x, &numeral(alloc, j), clause)?;
    let row = Row::Low {
        clause: number,
        x,
        j,
    };
    Ok(Step { row, clause })
}

/// The first of these rows, and their clauses.
fn formed_lows_at(
    alloc: Global,
    number: u32,
    x: u32,
    count: usize,
    clause: &[Fact],
) -> Result<Completed, ArithmeticError>
    requires { IsTrue (list_all is_fact clause.now) }
    ensures { Forms result (spec.numbered_low_steps x clause.now (count_from 0 count))
        (completed clause.now (low_rows number x (count_from 0 count))) }
{
    let mut made = none(alloc);
    for j in 0..count {
        let step = formed_low_step(alloc, number, x, j, clause)?;
        push(&mut made, step)?;
    }
    Ok(made)
}

/// All rows where `x` is far down, none where a literal bounds `x` above.
fn lows(
    alloc: Global,
    room: &mut u64,
    number: u32,
    x: u32,
    d: &i128,
    clause: &[Fact],
) -> Result<Completed, BudgetError>
    requires d { pos 1 ≤ℤ d.now }
    requires clause { IsTrue (list_all is_fact clause.now) }
    ensures { Counted result room.old room.new (length (lows_rows number x d.now clause.now))
        (results (spec.lows_steps x clause.now d.now))
        (λ v. v ≡ completed clause.now (lows_rows number x d.now clause.now)) }
{
    if has_upper_bound(x, clause) {
        return Ok(none(alloc));
    }
    take(room, d)?;
    let count = length_of(d)?;
    let made = formed_lows_at(alloc, number, x, count, clause)?;
    Ok(made)
}

/// All rows of Complete but those that the period needs.
fn rows(
    alloc: Global,
    room: &mut u64,
    number: u32,
    x: u32,
    d: &i128,
    clause: &[Fact],
) -> Result<Completed, BudgetError>
    requires d { pos 1 ≤ℤ d.now }
    requires clause { IsTrue (list_all is_fact clause.now) }
    ensures { Counted result room.old room.new (length (rows_by number x d.now clause.now))
        (results (rows_steps x d.now clause.now))
        (λ v. v ≡ completed clause.now (rows_by number x d.now clause.now)) }
{
    let mut made = uppers(alloc, room, number, x, d, clause)?;
    let low = lows(alloc, room, number, x, d, clause)?;
    append(&mut made, low)?;
    Ok(made)
}

/// All rows of Complete of the clause of this number and `x`, and their clauses.
pub fn complete(
    alloc: Global,
    room: &mut u64,
    number: u32,
    x: u32,
    clause: &[Fact],
) -> Result<Completed, BudgetError>
    requires { IsTrue (list_all is_fact clause.now) }
    ensures formed { Counted result room.old room.new (length (spec.complete_rows number x clause.now))
        (results (spec.complete_steps x clause.now))
        (λ v. v ≡ completed clause.now (spec.complete_rows number x clause.now)) }
    ensures well_formed { IfOk result (λ v. IsTrue (list_all (list_all is_fact) v.clauses)) }
{
    match period(x, clause)? {
        Some(d) => rows(alloc, room, number, x, &d, clause),
        None => Err(BudgetError::Wide),
    }
}
