//! The check of values.

ghost use Rattle.std.specs.Prelude.{◌≡◌, ◌≤◌, ◌^◌, ◌<◌, length, map, pos, IfOk, IfSome, IsTrue};
ghost use Rattle.std.specs.List.{list_all, flat_map};
ghost use Rattle.lin_base.specs.Fact.{clause_holds, is_fact, is_pool, HoldsAt};
ghost use Rattle.lin_base.specs.Change.{replace};
ghost use Rattle.lin_base.specs.Steps.{Forms, is_narrow, replace_all_steps};
ghost use Rattle.lin_base.specs.Sum as sum;
ghost use Rattle.cert_tree.specs.Holds as spec;
ghost use Rattle.cert_tree.specs.Laws.{valuation};
ghost use Rattle.cert_tree.specs.Narrow.{if_narrow};

use crate::children::replace_all;
use crate::completing::complete;
use crate::rows::occurs_in;
use crate::sums::narrow;
use crate::variables::variables;
use lin_base::{ArithmeticError, Fact, Pool, copy_facts, holds_at, number};
use sqlite_items::Items;
use std::alloc::{AllocError, Global};

/// Whether a clause is true where each unknown is 0.
#[tactic(auto, using(crate::proofs::ValueChecks::holds_zero))]
fn is_true(clause: &[Fact]) -> bool
    ensures { result ≡ clause_holds (λ x. pos 0) clause.now }
{
    for fact in clause {
        if holds_at(fact, fact.sum().constant) {
            return true;
        }
    }
    false
}

/// Whether the clauses without unknowns that Complete gives, down from a clause, are true and every number formed for
/// them stays in the range. These are the variables that may occur.
#[cycle(ground_holds)]
fn ground_holds(alloc: Global, variables: &[u32], clause: &[Fact]) -> Result<bool, AllocError>
    requires { IsTrue (list_all is_fact clause.now) }
    ensures { IfOk result (λ yes. yes ≡ spec.ground_holds variables.now clause.now) }
{
    match variables {
        [] => Ok(is_true(clause)),
        [x, others @ ..] => {
            if !occurs_in(*x, clause) {
                return ground_holds(alloc, others, clause);
            }
            match complete(alloc, *x, clause)? {
                Some(clauses) => each_ground_holds(alloc, others, clauses.as_slice()),
                None => Ok(false),
            }
        }
    }
}

/// Whether that holds of each clause.
#[cycle(ground_holds)]
fn each_ground_holds(
    alloc: Global,
    variables: &[u32],
    clauses: &[Items<Fact>],
) -> Result<bool, AllocError>
    requires { IsTrue (list_all (list_all is_fact) clauses.now) }
    ensures { IfOk result (λ yes. yes ≡ list_all (spec.ground_holds variables.now) clauses.now) }
{
    for clause in clauses {
        if !ground_holds(alloc, variables, clause.as_slice())? {
            return Ok(false);
        }
    }
    Ok(true)
}

/// The clause with a value for a parameter.
#[tactic(auto, using(crate::proofs::Forming::forming))]
fn formed_at(
    alloc: Global,
    p: u32,
    z: &i128,
    clause: &[Fact],
) -> Result<Items<Fact>, ArithmeticError>
    requires { IsTrue (list_all is_fact clause.now) }
    ensures { Forms result (spec.at_steps p z.now clause.now) (spec.at_value p z.now clause.now) }
{
    replace_all(alloc, p, 1, &number(alloc, *z), clause)
}

/// The clause with a value for a parameter. None where a number leaves the range.
#[tactic(auto, using(crate::proofs::Forming::narrowing))]
fn at_value(
    alloc: Global,
    p: u32,
    z: &i128,
    clause: &[Fact],
) -> Result<Option<Items<Fact>>, AllocError>
    requires { IsTrue (list_all is_fact clause.now) }
    ensures value { IfOk result (λ o. o ≡ if_narrow (spec.at_steps p z.now clause.now)
        (spec.at_value p z.now clause.now)) }
    ensures well_formed { IfOk result (λ o. IfSome o (λ fs. IsTrue (list_all is_fact fs))) }
{
    narrow(formed_at(alloc, p, z, clause))
}

/// The clause with a value for a parameter: as it is where the parameter doesn't occur. None where a number leaves the
/// range.
fn put_value(
    alloc: Global,
    p: u32,
    z: &i128,
    clause: Items<Fact>,
) -> Result<Option<Items<Fact>>, AllocError>
    requires { IsTrue (list_all is_fact clause) }
    ensures value { IfOk result (λ o. o ≡ if_narrow (spec.at_steps p z.now clause) (spec.at_value p z.now clause)) }
    ensures well_formed { IfOk result (λ o. IfSome o (λ fs. IsTrue (list_all is_fact fs))) }
{
    if !occurs_in(p, clause.as_slice()) {
        return Ok(Some(clause));
    }
    at_value(alloc, p, z, clause.as_slice())
}

/// The clause with the values for the parameters, put one after the other. None where a number leaves the range.
fn at_values(
    alloc: Global,
    values: &[i128],
    clause: &[Fact],
) -> Result<Option<Items<Fact>>, AllocError>
    requires count { length values.now < 2 ^ 32 }
    requires clause { IsTrue (list_all is_fact clause.now) }
    ensures value { IfOk result (λ o. o ≡ if_narrow (spec.put_steps_from 0 values.now clause.now)
        (spec.put_from 0 values.now clause.now)) }
    ensures well_formed { IfOk result (λ o. IfSome o (λ fs. IsTrue (list_all is_fact fs))) }
{
    let mut put = copy_facts(alloc, clause)?;
    for (p, z) in values.iter().enumerate() {
        match put_value(alloc, p as u32, z, put)? {
            Some(next) => put = next,
            None => return Ok(None),
        }
    }
    Ok(Some(put))
}

/// Whether a clause is true at the values for all values of its variables, and no number of its check leaves the range.
fn clause_checks(
    alloc: Global,
    params: u32,
    values: &[i128],
    clause: &[Fact],
) -> Result<bool, AllocError>
    requires count { length values.now < 2 ^ 32 }
    requires clause { IsTrue (list_all is_fact clause.now) }
    ensures { IfOk result (λ yes. yes ≡ spec.clause_checks params values.now clause.now) }
{
    match at_values(alloc, values, clause)? {
        Some(put) => {
            let variables = variables(alloc, params, put.as_slice())?;
            ground_holds(alloc, variables.as_slice(), put.as_slice())
        }
        None => Ok(false),
    }
}

/// Whether there is one value for each parameter, and each clause checks.
fn checks(alloc: Global, pool: &Pool, values: &[i128]) -> Result<bool, AllocError>
    requires { IsTrue (is_pool pool.now) }
    ensures { IfOk result (λ yes. yes ≡ spec.checks pool.now values.now) }
{
    let params = pool.params;
    if values.len() as u64 != u64::from(params) {
        return Ok(false);
    }
    for clause in pool.clauses.as_slice() {
        if !clause_checks(alloc, params, values, clause.as_slice())? {
            return Ok(false);
        }
    }
    Ok(true)
}

/// Whether there is one value for each parameter, every clause is true at the values for all values of its variables,
/// and no number of the check leaves the range. The check puts the values into each clause, one after the other by
/// ascending parameter, and then forms Complete (Cooper 1972) down to clauses without unknowns.
pub fn check_sat(alloc: Global, pool: &Pool, values: &[i128]) -> Result<bool, AllocError>
    requires { IsTrue (is_pool pool.now) }
    ensures value { IfOk result (λ yes. yes ≡ spec.checks pool.now values.now) }
    ensures true_there { IfOk result (λ yes. IsTrue yes → HoldsAt pool.now (valuation values.now)) }
    ensures found { IfOk result (λ yes. length values.now ≡ pool.now.params →
        IsTrue (is_narrow (flat_map (spec.check_steps pool.now.params values.now) pool.now.clauses)) →
        HoldsAt pool.now (valuation values.now) → IsTrue yes) }
{
    checks(alloc, pool, values)
}
