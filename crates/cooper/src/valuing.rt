//! The values that come back from a satisfied leaf.

ghost use Rattle.std.specs.Prelude.{◌≡◌, ◌+ℤ◌, ◌-ℤ◌, ◌*ℤ◌, ◌<ℤ◌, ◌≤ℤ◌, ◌++◌, [], ◌∷◌, neg_ℤ, pos, false, Option, None, Some, IfOk, IfSome, IsTrue};
ghost use Rattle.std.specs.Int.{int_rem_euclid};
ghost use Rattle.std.specs.List.{list_all, flat_map, filter_map};
ghost use Rattle.lin_base.specs.Whole.{is_zero, div_floor};
ghost use Rattle.lin_base.specs.Fact.{is_fact, is_lin};
ghost use Rattle.lin_base.specs.Numbers.{results};
ghost use Rattle.lin_base.specs.Steps.{Forms, adds, multiplies, value_steps, value_steps_from};
ghost use Rattle.lin_base.specs.Sum as sum;
ghost use Rattle.cert_tree.specs.Search as search;
ghost use Rattle.cooper_rows.specs.Counted.{Fits};
ghost use Rattle.cooper.specs.Walks as spec;
ghost use Rattle.cooper.specs.Walks.{valuation_of, side_value, side_value_formed};

use cert_tree::search_tools::Side;
use cooper_rows::counting::BudgetError;
use lin_base::{ArithmeticError, Fact, Lin, checked_add, checked_mul, coef, occurs, without};
use std::alloc::Global;

/// The value of an unknown, 0 where there is none.
pub fn value_at(values: &[(u32, i128)], x: u32) -> i128
    ensures { result ≡ valuation_of values.now x }
{
    match values {
        [] => 0,
        [first, others @ ..] => {
            if x == first.0 {
                first.1
            } else {
                value_at(others, x)
            }
        }
    }
}

/// `so_far` and a term at the values.
#[tactic(auto, using(crate::proofs::Places::placing))]
fn add_term(
    values: &[(u32, i128)],
    so_far: &i128,
    term: (u32, i128),
) -> Result<i128, ArithmeticError>
    ensures { let v = valuation_of values.now in
        Forms result (multiplies term.1 (v term.0) ∷ adds so_far.now (term.1 *ℤ v term.0) ∷ [])
        (so_far.now +ℤ term.1 *ℤ v term.0) }
{
    let multiple = checked_mul(term.1, value_at(values, term.0))?;
    Ok(checked_add(*so_far, multiple)?)
}

/// The value of a sum.
#[tactic(auto, using(crate::proofs::Places::placing))]
fn formed_value(values: &[(u32, i128)], t: &Lin) -> Result<i128, ArithmeticError>
    ensures { let v = valuation_of values.now in
        Forms result (value_steps v t.now) (sum.value v t.now) }
{
    let mut so_far = 0;
    for term in t.coefs.as_slice() {
        so_far = add_term(values, &so_far, *term)?;
    }
    Ok(checked_add(so_far, t.constant)?)
}

/// The quotient rounded down, for a divisor other than 0.
fn quotient_down(a: i128, b: i128) -> i128
    requires { is_zero b ≡ false }
    ensures { result ≡ div_floor a b }
{
    let divisor = b.unsigned_abs();
    if a < 0 {
        return -(((a.unsigned_abs() - 1) / divisor) as i128) - 1;
    }
    (a.unsigned_abs() / divisor) as i128
}

/// The value of `p` where it is by a side.
#[tactic(auto, using(crate::proofs::Places::placing))]
pub fn value_by(values: &[(u32, i128)], side: &Side) -> Result<i128, BudgetError>
    requires { is_zero side.now.b ≡ false }
    ensures { let v = valuation_of values.now in
        Fits result (side_value_formed side.now v) (λ z. z ≡ side_value side.now v) }
{
    let at = formed_value(values, &side.rest)?;
    Ok(quotient_down(at, side.b))
}

/// `-z`.
#[tactic(auto, using(crate::proofs::Places::placing))]
fn opposite(z: i128) -> Result<i128, BudgetError>
    ensures { Fits result (neg_ℤ z ∷ []) (λ y. y ≡ neg_ℤ z) }
{
    if z == i128::MIN {
        return Err(BudgetError::Wide);
    }
    Ok(-z)
}

/// The greatest number at which a sum with `p` is at most 0.
#[tactic(auto, using(crate::proofs::Choices::choices))]
fn top_in(alloc: Global, p: u32, values: &[(u32, i128)], t: &Lin) -> Result<i128, BudgetError>
    requires value { IsTrue (is_lin t.now) }
    requires occurring { IsTrue (sum.occurs p t.now) }
    ensures { let v = valuation_of values.now in
        let top = div_floor (neg_ℤ (sum.value v (sum.without p t.now))) (sum.coef p t.now) in
        Fits result (results (value_steps v (sum.without p t.now)) ++ neg_ℤ (sum.value v (sum.without p t.now)) ∷ top ∷ [])
        (λ z. z ≡ top) }
{
    let rest = without(alloc, p, t)?;
    let at = formed_value(values, &rest)?;
    let most = opposite(at)?;
    Ok(quotient_down(most, coef(p, t)))
}

/// The greatest number at which an AtMostZero fact with `p` holds.
#[tactic(auto, using(crate::proofs::Places::placing))]
fn top_of(
    alloc: Global,
    p: u32,
    values: &[(u32, i128)],
    fact: &Fact,
) -> Result<Option<i128>, BudgetError>
    requires { IsTrue (is_fact fact.now) }
    ensures { let v = valuation_of values.now in
        Fits result (search.top_formed p v fact.now) (λ o. o ≡ search.top_of p v fact.now) }
{
    match fact {
        Fact::AtMostZero(t) => {
            if !occurs(p, t) {
                return Ok(None);
            }
            let top = top_in(alloc, p, values, t)?;
            Ok(Some(top))
        }
        _ => Ok(None),
    }
}

/// The lesser of two numbers that may be there.
fn least_with(top: Option<i128>, other: Option<i128>) -> Option<i128>
    ensures { result ≡ spec.least_with top other }
{
    match (top, other) {
        (Some(z), Some(y)) => Some(z.min(y)),
        (Some(z), None) => Some(z),
        (None, least) => least,
    }
}

/// The least of these numbers and those of the facts, where there is one.
#[tactic(auto, using(crate::proofs::Places::placing))]
fn least_top(
    alloc: Global,
    p: u32,
    values: &[(u32, i128)],
    facts: &[Fact],
) -> Result<Option<i128>, BudgetError>
    requires { IsTrue (list_all is_fact facts.now) }
    ensures { let v = valuation_of values.now in
        Fits result (flat_map (search.top_formed p v) facts.now)
        (λ o. o ≡ search.least_of (filter_map (search.top_of p v) facts.now)) }
{
    match facts {
        [] => Ok(None),
        [fact, others @ ..] => {
            let top = top_of(alloc, p, values, fact)?;
            let least = least_top(alloc, p, values, others)?;
            Ok(least_with(top, least))
        }
    }
}

/// The remainder of `top - j` divided by `d`. The difference isn't formed.
fn remainder(top: i128, j: i128, d: i128) -> i128
    requires remainder { pos 0 ≤ℤ j }
    requires below { j <ℤ d }
    ensures value { result ≡ int_rem_euclid (top -ℤ j) d }
    ensures least { pos 0 ≤ℤ result }
    ensures below { result <ℤ d }
{
    let at = top.rem_euclid(d);
    if at >= j { at - j } else { at - j + d }
}

/// How far the greatest number up to `top` that is `j` modulo `d` is from `top`.
fn step_down(top: i128, j: i128, d: i128) -> i128
    requires remainder { pos 0 ≤ℤ j }
    requires below { j <ℤ d }
    ensures { result ≡ neg_ℤ (int_rem_euclid (top -ℤ j) d) }
{
    -remainder(top, j, d)
}

/// The sum of two numbers, as a step.
fn formed_total(left: &i128, right: &i128) -> Result<i128, ArithmeticError>
    ensures { Forms result (adds left.now right.now ∷ []) (left.now +ℤ right.now) }
{
    Ok(checked_add(*left, *right)?)
}

/// The sum of two numbers.
#[tactic(auto, using(crate::proofs::Places::placing))]
fn total(left: &i128, right: &i128) -> Result<i128, BudgetError>
    ensures { Fits result ((left.now +ℤ right.now) ∷ []) (λ z. z ≡ left.now +ℤ right.now) }
{
    let sum = formed_total(left, right)?;
    Ok(sum)
}

/// The greatest number up to `top` that is `j` modulo `d`.
fn down_to(top: i128, j: i128, d: i128) -> Result<i128, BudgetError>
    requires remainder { pos 0 ≤ℤ j }
    requires below { j <ℤ d }
    ensures { Fits result (spec.down_from top j d ∷ []) (λ z. z ≡ spec.down_from top j d) }
{
    total(&top, &step_down(top, j, d))
}

/// The value where the greatest number is `top`, or there is none.
#[tactic(auto, using(crate::proofs::Places::placing))]
fn value_below(top: Option<i128>, j: i128, d: i128) -> Result<i128, BudgetError>
    requires remainder { pos 0 ≤ℤ j }
    requires below { j <ℤ d }
    ensures { Fits result (spec.far_from top j d ∷ []) (λ z. z ≡ spec.far_from top j d) }
{
    match top {
        Some(most) => down_to(most, j, d),
        None => Ok(j),
    }
}

/// Where a parameter is far down: with this remainder modulo the period.
#[derive(Debug, Drop)]
pub struct Far {
    /// The parameter.
    pub p: u32,
    /// The remainder.
    pub j: i128,
    /// The period.
    pub d: i128,
}

/// The value of a parameter that is far down: the greatest number of its remainder at which all AtMostZero facts with it
/// hold, or the remainder.
#[tactic(auto, using(crate::proofs::Places::placing))]
pub fn far_value(
    alloc: Global,
    far: &Far,
    values: &[(u32, i128)],
    facts: &[Fact],
) -> Result<i128, BudgetError>
    requires remainder { pos 0 ≤ℤ far.now.j }
    requires below { far.now.j <ℤ far.now.d }
    requires facts { IsTrue (list_all is_fact facts.now) }
    ensures { let v = valuation_of values.now in
        Fits result (spec.far_formed far.now.p facts.now far.now.j far.now.d v)
        (λ z. z ≡ spec.far_at far.now.p facts.now far.now.j far.now.d v) }
{
    let top = least_top(alloc, far.p, values, facts)?;
    value_below(top, far.j, far.d)
}
