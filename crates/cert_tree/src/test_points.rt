//! The test points of Least.

ghost use Rattle.std.specs.Prelude.{◌≡◌, ◌≤◌, ◌≤ℤ◌, option_map, pos, IfOk, IfSome, IsTrue};
ghost use Rattle.std.specs.List.{list_all};
ghost use Rattle.lin_base.specs.Fact.{is_fact, is_lin};
ghost use Rattle.lin_base.specs.Change.{replace};
ghost use Rattle.lin_base.specs.Steps.{Forms, formed_by, add_number_steps, replace_steps};
ghost use Rattle.lin_base.specs.Sum as sum;
ghost use Rattle.cert_tree.specs.Narrow.{if_narrow};
ghost use Rattle.cert_tree.specs.Children as spec;
ghost use Rattle.cert_tree.specs.Points as points;
ghost use Rattle.cert_tree.specs.Leasts.{count_within, is_count};
ghost use Rattle.cert_tree.specs.Bounds.{bound_of, is_side, moved_by};

use crate::children::with_value;
use crate::sums::{Side, below, narrow, solve_for};
use lin_base::{
    ArithmeticError, Fact, Lin, Wide, add_number, checked_mul, coef, lcm, number, occurs, replace,
};
use sqlite_items::Items;
use std::alloc::{AllocError, Global};

/// The modulus of a fact with `x`.
fn modulus_at(x: u32, fact: &Fact) -> Option<i128>
    requires { IsTrue (is_fact fact.now) }
    ensures value { result ≡ points.modulus_at x fact.now }
    ensures positive { IfSome result (λ m. pos 1 ≤ℤ m) }
{
    match fact {
        Fact::Divides(m, t) | Fact::NotDivides(m, t) => {
            if occurs(x, t) { Some(*m) } else { None }
        }
        _ => None,
    }
}

/// The least common multiple of the period so far and the modulus of a fact with `x`.
#[tactic(auto, using(crate::proofs::Periods::periods))]
fn next_period(so_far: &i128, x: u32, fact: &Fact) -> Result<i128, Wide>
    requires so_far { pos 1 ≤ℤ so_far.now }
    requires fact { IsTrue (is_fact fact.now) }
    ensures { result ≡ formed_by (points.next_period_steps so_far.now (points.modulus_at x fact.now))
        (points.next_period so_far.now (points.modulus_at x fact.now)) }
{
    match modulus_at(x, fact) {
        Some(m) => lcm(*so_far, m),
        None => Ok(*so_far),
    }
}

/// The least common multiple of the moduli of the facts with `x`, or 1.
#[tactic(auto, using(crate::proofs::Periods::periods))]
pub fn formed_period(x: u32, facts: &[Fact]) -> Result<i128, ArithmeticError>
    requires { IsTrue (list_all is_fact facts.now) }
    ensures positive { IfOk result (λ d. pos 1 ≤ℤ d) }
    ensures value { Forms result (points.period_steps x facts.now) (points.period x facts.now) }
{
    let mut so_far = 1;
    for fact in facts {
        so_far = next_period(&so_far, x, fact)?;
    }
    Ok(so_far)
}

/// The least common multiple of the moduli of the facts with `x`, or 1. None where a number leaves the range.
#[tactic(auto, using(crate::proofs::Forming::narrowing))]
pub fn period(x: u32, facts: &[Fact]) -> Result<Option<i128>, AllocError>
    requires { IsTrue (list_all is_fact facts.now) }
    ensures value { IfOk result (λ o. o ≡ if_narrow (points.period_steps x facts.now) (points.period x facts.now)) }
    ensures positive { IfOk result (λ o. IfSome o (λ d. pos 1 ≤ℤ d)) }
{
    narrow(formed_period(x, facts))
}

/// A lower bound of a parameter, and how many children it has.
#[derive(Debug, Drop)]
pub struct Bound {
    /// `b*p` is at least `rest`, or is `rest`.
    pub side: Side,
    /// The number of its children.
    pub children: i128,
}

/// The bound of `-a*p + s <= 0` with `a` positive: `a*d` children.
#[tactic(auto, using(crate::proofs::Forming::forming))]
fn bound_below(alloc: Global, p: u32, d: &i128, t: &Lin) -> Result<Bound, ArithmeticError>
    requires { IsTrue (is_lin t.now) }
    ensures { Forms result (spec.below_steps p d.now t.now) (bound_of (spec.below_bound p d.now t.now)) }
{
    let side = below(alloc, p, t)?;
    let children = checked_mul(side.b, *d)?;
    Ok(Bound { side, children })
}

/// The bound of a sum with `p` that is 0: one child.
#[tactic(auto, using(crate::proofs::Forming::forming))]
fn bound_at(alloc: Global, p: u32, t: &Lin) -> Result<Bound, ArithmeticError>
    requires { IsTrue (is_lin t.now) }
    ensures { Forms result (points.solved p t.now).steps (bound_of (spec.solved_bound p t.now)) }
{
    let side = solve_for(alloc, p, t)?;
    Ok(Bound { side, children: 1 })
}

/// The lower bound of `p` that a fact is, if it is one.
#[tactic(auto, using(crate::proofs::Forming::forming))]
fn formed_bound(
    alloc: Global,
    p: u32,
    d: &i128,
    fact: &Fact,
) -> Result<Option<Bound>, ArithmeticError>
    requires { IsTrue (is_fact fact.now) }
    ensures { Forms result (spec.bound_steps_of (spec.lower_bound p d.now fact.now))
        (option_map bound_of (spec.lower_bound p d.now fact.now)) }
{
    match fact {
        Fact::AtMostZero(t) => {
            if coef(p, t) >= 0 {
                return Ok(None);
            }
            let bound = bound_below(alloc, p, d, t)?;
            Ok(Some(bound))
        }
        Fact::Zero(t) => {
            if coef(p, t) == 0 {
                return Ok(None);
            }
            let bound = bound_at(alloc, p, t)?;
            Ok(Some(bound))
        }
        _ => Ok(None),
    }
}

/// The lower bound of `p` that a fact is, if it is one. None where a number leaves the range.
#[tactic(auto, using(crate::proofs::Forming::narrowing))]
pub fn lower_bound(
    alloc: Global,
    p: u32,
    d: &i128,
    fact: &Fact,
) -> Result<Option<Option<Bound>>, AllocError>
    requires { IsTrue (is_fact fact.now) }
    ensures value { IfOk result (λ o. o ≡ if_narrow (spec.bound_steps_of (spec.lower_bound p d.now fact.now))
        (option_map bound_of (spec.lower_bound p d.now fact.now))) }
    ensures well_formed { IfOk result (λ o. IfSome o (λ b. IfSome b (λ bound. IsTrue (is_side p bound.side)))) }
{
    narrow(formed_bound(alloc, p, d, fact))
}

/// How many children a bound has, where there are so many.
pub fn count_within(children: &i128, available: usize) -> Option<usize>
    ensures value { result ≡ count_within children.now available }
    ensures within { IfSome result (λ n. n ≤ available) }
{
    let count = children.unsigned_abs();
    if count > available as u128 {
        return None;
    }
    Some(count as usize)
}

/// Whether there are just as many children.
pub fn is_count(count: &i128, available: usize) -> bool
    ensures { result ≡ is_count count.now available }
{
    available as u128 == count.unsigned_abs()
}

/// The bound moved up by `j`.
#[tactic(auto, using(crate::proofs::Forming::forming))]
pub fn move_up(alloc: Global, p: u32, side: &Side, j: usize) -> Result<Side, ArithmeticError>
    requires { IsTrue (is_side p side.now) }
    ensures formed { Forms result (add_number_steps side.now.rest (pos j)) (moved_by side.now j) }
    ensures value { IfOk result (λ moved. IsTrue (is_lin moved.rest)) }
{
    let rest = add_number(alloc, &side.rest, j as i128)?;
    Ok(Side { b: side.b, rest })
}

/// The facts of child `j` of a lower bound.
fn formed_point(
    alloc: Global,
    p: u32,
    side: &Side,
    j: usize,
    facts: &[Fact],
) -> Result<Items<Fact>, ArithmeticError>
    requires side { IsTrue (is_side p side.now) }
    requires facts { IsTrue (list_all is_fact facts.now) }
    ensures { Forms result (spec.point_steps p facts.now side.now.b side.now.rest j)
        (spec.point p facts.now side.now.b side.now.rest j) }
{
    let moved = move_up(alloc, p, side, j)?;
    with_value(alloc, p, &moved, facts)
}

/// The facts of child `j` of a lower bound. None where a number leaves the range.
#[tactic(auto, using(crate::proofs::Forming::narrowing))]
pub fn point(
    alloc: Global,
    p: u32,
    side: &Side,
    j: usize,
    facts: &[Fact],
) -> Result<Option<Items<Fact>>, AllocError>
    requires side { IsTrue (is_side p side.now) }
    requires facts { IsTrue (list_all is_fact facts.now) }
    ensures value { IfOk result (λ fs. fs ≡ if_narrow (spec.point_steps p facts.now side.now.b side.now.rest j)
        (spec.point p facts.now side.now.b side.now.rest j)) }
    ensures well_formed { IfOk result (λ o. IfSome o (λ fs. IsTrue (list_all is_fact fs))) }
{
    narrow(formed_point(alloc, p, side, j, facts))
}

/// A fact with `j` in place of `p`.
#[tactic(auto, using(crate::proofs::Forming::forming))]
fn put_number(alloc: Global, p: u32, j: usize, fact: &Fact) -> Result<Fact, ArithmeticError>
    requires { IsTrue (is_fact fact.now) }
    ensures { Forms result (replace_steps p (pos 1) (sum.number (pos j)) fact.now)
        (replace p (pos 1) (sum.number (pos j)) fact.now) }
{
    replace(alloc, fact, p, 1, &number(alloc, j as i128))
}

/// A fact where `p` is far down and `j` modulo the period.
#[tactic(auto, using(crate::proofs::Forming::forming))]
fn far_down(alloc: Global, p: u32, j: usize, fact: &Fact) -> Result<Fact, ArithmeticError>
    requires { IsTrue (is_fact fact.now) }
    ensures { Forms result (spec.far_down_steps p j fact.now) (spec.far_down p j fact.now) }
{
    match fact {
        Fact::AtMostZero(t) => {
            if occurs(p, t) {
                return Ok(Fact::AtMostZero(number(alloc, 0)));
            }
            Ok(fact.copy(alloc)?)
        }
        Fact::Zero(_) => put_number(alloc, p, j, fact),
        Fact::Divides(_, _) => put_number(alloc, p, j, fact),
        Fact::NotDivides(_, _) => put_number(alloc, p, j, fact),
    }
}

/// The facts where `p` is far down and `j` modulo the period.
fn formed_far(
    alloc: Global,
    p: u32,
    j: usize,
    facts: &[Fact],
) -> Result<Items<Fact>, ArithmeticError>
    requires { IsTrue (list_all is_fact facts.now) }
    ensures { Forms result (spec.far_child_steps p facts.now j) (spec.far_child p facts.now j) }
{
    let mut made = Items::new(alloc);
    for fact in facts {
        let down = far_down(alloc, p, j, fact)?;
        made.push(down)?;
    }
    Ok(made)
}

/// The facts where `p` is far down and `j` modulo the period. None where a number leaves the range.
#[tactic(auto, using(crate::proofs::Forming::narrowing))]
pub fn far(
    alloc: Global,
    p: u32,
    j: usize,
    facts: &[Fact],
) -> Result<Option<Items<Fact>>, AllocError>
    requires { IsTrue (list_all is_fact facts.now) }
    ensures value { IfOk result (λ fs. fs ≡ if_narrow (spec.far_child_steps p facts.now j)
        (spec.far_child p facts.now j)) }
    ensures well_formed { IfOk result (λ o. IfSome o (λ fs. IsTrue (list_all is_fact fs))) }
{
    narrow(formed_far(alloc, p, j, facts))
}
