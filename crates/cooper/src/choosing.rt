//! What a node of the search looks at: a false fact, an equation, the least unknown, a lower bound.

ghost use Rattle.std.specs.Prelude.{◌≡◌, false, option_map, IfOk, IfErr, IfSome, IsTrue};
ghost use Rattle.std.specs.List.{list_all, list_any, position};
ghost use Rattle.lin_base.specs.Whole.{is_zero};
ghost use Rattle.lin_base.specs.Fact as spec_facts;
ghost use Rattle.lin_base.specs.Fact.{is_fact, is_lin};
ghost use Rattle.lin_base.specs.Sum as sum;
ghost use Rattle.cert_tree.specs.Ground.{unknowns as unknowns_in};
ghost use Rattle.cert_tree.specs.Leasts.{is_lower_bound};
ghost use Rattle.cert_tree.specs.Search.{choice_from, choice_in, least_coef};
ghost use Rattle.cooper_rows.specs.declared.counting.BudgetError.TheVariants.{Memory};
ghost use Rattle.cooper.specs.Walks as spec;

use cooper_rows::counting::{BudgetError, number_after};
use lin_base::{Fact, Lin, coef, is_false};
use std::alloc::{AllocError, Global};

/// The number of the first fact that has no unknown and is false. Memory where that is no `u32`.
pub fn first_false(facts: &[Fact]) -> Result<Option<u32>, BudgetError>
    ensures value { IfOk result (λ o. o ≡ position spec_facts.is_false facts.now) }
    ensures memory { IfErr result (λ e. e ≡ Memory) }
{
    for (i, fact) in facts.iter().enumerate() {
        if is_false(fact) {
            return Ok(Some(number_after(0, i)?));
        }
    }
    Ok(None)
}

/// Whether a fact is a lower bound of `p`.
fn is_bound(p: u32, fact: &Fact) -> bool
    requires { IsTrue (is_fact fact.now) }
    ensures { result ≡ is_lower_bound p fact.now }
{
    match fact {
        Fact::AtMostZero(t) => coef(p, t) < 0,
        Fact::Zero(t) => coef(p, t) != 0,
        _ => false,
    }
}

/// Whether some fact is a lower bound of `p`.
pub fn has_bound(p: u32, facts: &[Fact]) -> bool
    requires { IsTrue (list_all is_fact facts.now) }
    ensures { result ≡ list_any (is_lower_bound p) facts.now }
{
    for fact in facts {
        if is_bound(p, fact) {
            return true;
        }
    }
    false
}

/// The term with the less absolute coefficient, the first of equals.
fn nearer(term: (u32, i128), other: Option<(u32, i128)>) -> (u32, i128)
    ensures { result ≡ spec.nearer term other }
{
    match other {
        Some(found) if found.1.unsigned_abs() < term.1.unsigned_abs() => found,
        _ => term,
    }
}

/// The unknown with the least absolute coefficient, the first of equals.
fn least_coefficient(terms: &[(u32, i128)]) -> Option<(u32, i128)>
    ensures { result ≡ least_coef terms.now }
{
    match terms {
        [] => None,
        [term, others @ ..] => Some(nearer(*term, least_coefficient(others))),
    }
}

/// A Zero fact, and the parameter for which it is solved.
#[derive(Debug, Drop)]
pub struct Equation {
    /// The fact's number.
    pub fact: u32,
    /// The parameter.
    pub p: u32,
    /// The sum that is 0.
    pub sum: Lin,
}

/// The equation that a fact of this number is, if it is a Zero fact with a parameter.
fn equation_in(alloc: Global, number: u32, fact: &Fact) -> Result<Option<Equation>, AllocError>
    requires { IsTrue (is_fact fact.now) }
    ensures value { IfOk result (λ o. option_map spec.choice_of o ≡ choice_in number fact.now) }
    ensures well_formed { IfOk result (λ o. IfSome o (λ e. IsTrue (is_lin e.sum))) }
    ensures occurring { IfOk result (λ o. IfSome o (λ e. is_zero (sum.coef e.p e.sum) ≡ false)) }
{
    let Fact::Zero(t) = fact else {
        return Ok(None);
    };
    match least_coefficient(t.coefs.as_slice()) {
        Some(term) => Ok(Some(Equation {
            fact: number,
            p: term.0,
            sum: t.copy(alloc)?,
        })),
        None => Ok(None),
    }
}

/// That of the first such fact. Memory where its number is no `u32`.
pub fn first_equation(alloc: Global, facts: &[Fact]) -> Result<Option<Equation>, BudgetError>
    requires { IsTrue (list_all is_fact facts.now) }
    ensures value { IfOk result (λ o. option_map spec.choice_of o ≡ choice_from 0 facts.now) }
    ensures memory { IfErr result (λ e. e ≡ Memory) }
    ensures well_formed { IfOk result (λ o. IfSome o (λ e. IsTrue (is_lin e.sum))) }
    ensures occurring { IfOk result (λ o. IfSome o (λ e. is_zero (sum.coef e.p e.sum) ≡ false)) }
{
    for (i, fact) in facts.iter().enumerate() {
        let number = number_after(0, i)?;
        if let Some(equation) = equation_in(alloc, number, fact)? {
            return Ok(Some(equation));
        }
    }
    Ok(None)
}

/// The lesser of two unknowns that may be there.
fn lesser(x: Option<u32>, y: Option<u32>) -> Option<u32>
    ensures { result ≡ spec.lesser_of x y }
{
    match (x, y) {
        (Some(x), Some(y)) => Some(if y < x { y } else { x }),
        (Some(x), None) => Some(x),
        (None, y) => y,
    }
}

/// The first unknown of a fact.
fn first_in(fact: &Fact) -> Option<u32>
    ensures { result ≡ spec.first_term (spec_facts.sum_of fact.now).coefs }
{
    match fact.sum().coefs.as_slice() {
        [] => None,
        [term, ..] => Some(term.0),
    }
}

/// The least unknown: since those of each fact ascend, the least of the first ones.
pub fn first_unknown(facts: &[Fact]) -> Option<u32>
    requires { IsTrue (list_all is_fact facts.now) }
    ensures { result ≡ spec.first_of (unknowns_in facts.now) }
{
    let mut first = None;
    for fact in facts {
        first = lesser(first, first_in(fact));
    }
    first
}
