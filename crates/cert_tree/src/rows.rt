//! The rows of a certificate: clauses that follow from a clause with a variable.

ghost use Rattle.std.specs.Prelude.{◌≡◌, ◌≤ℤ◌, ◌++◌, false, map, option_map, pos, slice_get, IfOk, IfSome, IsTrue, Some};
ghost use Rattle.std.specs.List.{list_all, list_any};
ghost use Rattle.std.specs.Option.{option_copied};
ghost use Rattle.lin_base.specs.Fact.{is_fact, is_lin, is_pool};
ghost use Rattle.lin_base.specs.Change.{replace};
ghost use Rattle.lin_base.specs.Steps.{Forms, replace_all_steps};
ghost use Rattle.lin_base.specs.Sum as sum;
ghost use Rattle.lin_base.specs.Sum.{each_unknown, occurs};
ghost use Rattle.cert_tree.specs.Counting as counting;
ghost use Rattle.cert_tree.specs.Rows as spec;

use crate::certs::Row;
use crate::children::replace_all;
use crate::clauses::clause_at;
use crate::sums::narrow;
use lin_base::{ArithmeticError, Fact, Lin, Pool, coef, is_lin, number, occurs};
use sqlite_items::Items;
use std::alloc::{AllocError, Global};

/// Whether `x` occurs in a literal of the clause.
pub fn occurs_in(x: u32, clause: &[Fact]) -> bool
    ensures { result ≡ counting.occurs_in x clause.now }
{
    for fact in clause {
        if occurs(x, fact.sum()) {
            return true;
        }
    }
    false
}

/// Whether `x` is a variable of the clause.
fn is_variable_of(params: u32, x: u32, clause: &[Fact]) -> bool
    ensures { result ≡ spec.is_variable_of params x clause.now }
{
    params <= x && occurs_in(x, clause)
}

/// Whether `y` is a parameter, or another variable of the clause than `x`.
fn may_stand_for(params: u32, x: u32, clause: &[Fact], y: u32) -> bool
    ensures { result ≡ spec.may_stand_for params x clause.now y }
{
    y < params || y != x && occurs_in(y, clause)
}

/// Whether each unknown of a sum is a parameter, or another variable of the clause than `x`.
fn is_over_others(params: u32, x: u32, clause: &[Fact], t: &Lin) -> bool
    ensures { result ≡ each_unknown (spec.may_stand_for params x clause.now) t.now }
{
    for term in t.coefs.as_slice() {
        if !may_stand_for(params, x, clause, term.0) {
            return false;
        }
    }
    true
}

/// Whether a fact is an AtMostZero fact with a positive coefficient at `x`.
fn bounds_above(x: u32, fact: &Fact) -> bool
    requires { IsTrue (is_fact fact.now) }
    ensures { result ≡ spec.bounds_above x fact.now }
{
    match fact {
        Fact::AtMostZero(t) => coef(x, t) > 0,
        _ => false,
    }
}

/// Whether some AtMostZero literal has a positive coefficient at `x`.
pub fn has_upper_bound(x: u32, clause: &[Fact]) -> bool
    requires { IsTrue (list_all is_fact clause.now) }
    ensures { result ≡ list_any (spec.bounds_above x) clause.now }
{
    for fact in clause {
        if bounds_above(x, fact) {
            return true;
        }
    }
    false
}

/// Whether a fact is an AtMostZero or Zero fact with `x`.
fn falls_out(x: u32, fact: &Fact) -> bool
    requires { IsTrue (is_fact fact.now) }
    ensures { result ≡ spec.falls_out x fact.now }
{
    match fact {
        Fact::AtMostZero(t) | Fact::Zero(t) => coef(x, t) != 0,
        _ => false,
    }
}

/// The literals that are no AtMostZero or Zero facts with `x`.
pub fn stays_in(alloc: Global, x: u32, clause: &[Fact]) -> Result<Items<Fact>, AllocError>
    requires { IsTrue (list_all is_fact clause.now) }
    ensures { IfOk result (λ fs. fs ≡ spec.stays_in x clause.now) }
{
    let mut kept = Items::new(alloc);
    for fact in clause {
        if !falls_out(x, fact) {
            kept.push(fact.copy(alloc)?)?;
        }
    }
    Ok(kept)
}

/// The clause at `a*x = t`: the literal that `a` doesn't divide `t`, left out where `a` is 1, then each literal with
/// `t` in place of `a*x`.
pub fn formed_instance(
    alloc: Global,
    x: u32,
    a: &i128,
    t: &Lin,
    clause: &[Fact],
) -> Result<Items<Fact>, ArithmeticError>
    requires positive { pos 1 ≤ℤ a.now }
    requires absent { occurs x t.now ≡ false }
    requires value { IsTrue (is_lin t.now) }
    requires clause { IsTrue (list_all is_fact clause.now) }
    ensures { Forms result (replace_all_steps x a.now t.now clause.now) (spec.instance_at x a.now t.now clause.now) }
{
    let mut made = Items::new(alloc);
    if *a != 1 {
        made.push(Fact::NotDivides(*a, t.copy(alloc)?))?;
    }
    made.append(replace_all(alloc, x, *a, t, clause)?)?;
    Ok(made)
}

/// The clause where `x` is far down: its AtMostZero and Zero literals with `x` are left out, and in the others `t` is
/// put for `x`.
pub fn formed_far_down(
    alloc: Global,
    x: u32,
    t: &Lin,
    clause: &[Fact],
) -> Result<Items<Fact>, ArithmeticError>
    requires absent { occurs x t.now ≡ false }
    requires value { IsTrue (is_lin t.now) }
    requires clause { IsTrue (list_all is_fact clause.now) }
    ensures { Forms result (replace_all_steps x (pos 1) t.now (spec.stays_in x clause.now))
        (map (replace x (pos 1) t.now) (spec.stays_in x clause.now)) }
{
    let kept = stays_in(alloc, x, clause)?;
    replace_all(alloc, x, 1, t, kept.as_slice())
}

/// The clause where `x` is far down and `j` modulo the period.
#[tactic(auto, using(crate::proofs::Forming::forming))]
fn formed_low(
    alloc: Global,
    x: u32,
    j: &i128,
    clause: &[Fact],
) -> Result<Items<Fact>, ArithmeticError>
    requires { IsTrue (list_all is_fact clause.now) }
    ensures { Forms result (spec.low_steps x j.now clause.now) (spec.low_at x j.now clause.now) }
{
    formed_far_down(alloc, x, &number(alloc, *j), clause)
}

/// Whether `x` is a variable of the clause, `a` at least 1, and `t` a sum over parameters and other variables of the
/// clause.
fn instance_is_allowed(params: u32, clause: &[Fact], x: u32, a: &i128, t: &Lin) -> bool
    ensures { result ≡ spec.instance_is_allowed params clause.now x a.now t.now }
{
    is_variable_of(params, x, clause)
        && *a >= 1
        && is_lin(t)
        && is_over_others(params, x, clause, t)
}

/// The clause that a row Inst gives, where it stands.
#[tactic(auto, using(crate::proofs::Forming::narrowing))]
fn instance_on(
    alloc: Global,
    params: u32,
    clause: &[Fact],
    x: u32,
    a: &i128,
    t: &Lin,
) -> Result<Option<Items<Fact>>, AllocError>
    requires { IsTrue (list_all is_fact clause.now) }
    ensures value { IfOk result (λ c. c ≡ spec.instance_on params clause.now x a.now t.now) }
    ensures well_formed { IfOk result (λ c. IfSome c (λ fs. IsTrue (list_all is_fact fs))) }
{
    if !instance_is_allowed(params, clause, x, a, t) {
        return Ok(None);
    }
    narrow(formed_instance(alloc, x, a, t, clause))
}

/// Whether `x` is a variable of the clause that no AtMostZero literal bounds above.
fn low_is_allowed(params: u32, clause: &[Fact], x: u32) -> bool
    requires { IsTrue (list_all is_fact clause.now) }
    ensures { result ≡ spec.low_is_allowed params clause.now x }
{
    is_variable_of(params, x, clause) && !has_upper_bound(x, clause)
}

/// The clause that a row Low gives, where it stands.
#[tactic(auto, using(crate::proofs::Forming::narrowing))]
fn low_on(
    alloc: Global,
    params: u32,
    clause: &[Fact],
    x: u32,
    j: &i128,
) -> Result<Option<Items<Fact>>, AllocError>
    requires { IsTrue (list_all is_fact clause.now) }
    ensures value { IfOk result (λ c. c ≡ spec.low_on params clause.now x j.now) }
    ensures well_formed { IfOk result (λ c. IfSome c (λ fs. IsTrue (list_all is_fact fs))) }
{
    if !low_is_allowed(params, clause, x) {
        return Ok(None);
    }
    narrow(formed_low(alloc, x, j, clause))
}

/// The clause that a row gives on a clause, where it stands.
fn row_on(
    alloc: Global,
    params: u32,
    clause: &[Fact],
    row: &Row,
) -> Result<Option<Items<Fact>>, AllocError>
    requires { IsTrue (list_all is_fact clause.now) }
    ensures value { IfOk result (λ c. c ≡ spec.row_on params row.now (Some clause.now)) }
    ensures well_formed { IfOk result (λ c. IfSome c (λ fs. IsTrue (list_all is_fact fs))) }
{
    match row {
        Row::Inst { x, a, t, .. } => instance_on(alloc, params, clause, *x, a, t),
        Row::Low { x, j, .. } => low_on(alloc, params, clause, *x, j),
    }
}

/// The number of the clause that a row is on.
fn clause_of(row: &Row) -> u32
    ensures { result ≡ spec.clause_of row.now }
{
    match row {
        Row::Inst { clause, .. } | Row::Low { clause, .. } => *clause,
    }
}

/// The clause that a row gives over the clauses of a pool, where it stands.
fn row_over(alloc: Global, pool: &Pool, row: &Row) -> Result<Option<Items<Fact>>, AllocError>
    requires { IsTrue (is_pool pool.now) }
    ensures value { IfOk result (λ c. c ≡ spec.row_over pool.now.params pool.now.clauses row.now) }
    ensures well_formed { IfOk result (λ c. IfSome c (λ fs. IsTrue (list_all is_fact fs))) }
{
    match clause_at(pool, clause_of(row)) {
        Some(clause) => row_on(alloc, pool.params, clause.as_slice(), row),
        None => Ok(None),
    }
}

/// The pool, its clauses followed by those that the rows give, one after the other. None where a row doesn't stand.
pub fn extend(alloc: Global, pool: &Pool, rows: &[Row]) -> Result<Option<Pool>, AllocError>
    requires { IsTrue (is_pool pool.now) }
    ensures value { IfOk result (λ o. option_map (λ p. p.clauses) o ≡
        spec.extended pool.now.params rows.now pool.now.clauses) }
    ensures params { IfOk result (λ o. IfSome o (λ p. p.params ≡ pool.now.params)) }
    ensures well_formed { IfOk result (λ o. IfSome o (λ p. IsTrue (is_pool p))) }
{
    let mut longer = pool.copy(alloc)?;
    for row in rows {
        match row_over(alloc, &longer, row)? {
            Some(clause) => longer.clauses.push(clause)?,
            None => return Ok(None),
        }
    }
    Ok(Some(longer))
}
