//! Complete of a clause and one of its variables.

ghost use Rattle.std.specs.Prelude.{◌≡◌, ◌≤ℤ◌, ◌++◌, map, option_map, pos, unsigned_abs, IfOk, IfErr, IfSome, IsTrue};
ghost use Rattle.std.specs.List.{list_all, flat_map};
ghost use Rattle.lin_base.specs.Fact.{is_fact, is_lin};
ghost use Rattle.lin_base.specs.Steps.{Forms};
ghost use Rattle.lin_base.specs.declared.wides.ArithmeticError.TheVariants.{Memory};
ghost use Rattle.cert_tree.specs.Bounds.{is_side};
ghost use Rattle.cert_tree.specs.Complete as spec;
ghost use Rattle.cert_tree.specs.Above as bounds;
ghost use Rattle.cert_tree.specs.Counting.{count_from};
ghost use Rattle.cert_tree.specs.Narrow.{if_narrow};
ghost use Rattle.cert_tree.specs.Rows.{low_at, low_steps};
ghost use Rattle.cert_tree.specs.Sides.{side_of};

use crate::rows::{formed_far_down, formed_instance, has_upper_bound};
use crate::sums::{Side, make_positive, narrow, parts_at};
use crate::test_points::{Bound, formed_period, move_up};
use lin_base::{ArithmeticError, Fact, above, checked_mul, coef, number};
use sqlite_items::Items;
use std::alloc::{AllocError, Global};

/// A count as a length. Memory where it exceeds every length.
fn length_of(count: &i128) -> Result<usize, ArithmeticError>
    ensures value { IfOk result (λ n. n ≡ unsigned_abs count.now) }
    ensures memory { IfErr result (λ e. e ≡ Memory) }
{
    let length = count.unsigned_abs();
    if length > usize::MAX as u128 {
        return Err(ArithmeticError::Memory);
    }
    Ok(length as usize)
}

/// `b*x + u` with `b` positive, of an AtMostZero fact, or of a Zero fact made so.
#[tactic(auto, using(crate::proofs::Forming::forming))]
pub fn formed_upper(alloc: Global, x: u32, fact: &Fact) -> Result<Option<Side>, ArithmeticError>
    requires { IsTrue (is_fact fact.now) }
    ensures { Forms result (spec.upper_steps (spec.upper x fact.now)) (option_map side_of (spec.upper x fact.now)) }
{
    match fact {
        Fact::AtMostZero(t) => {
            if coef(x, t) <= 0 {
                return Ok(None);
            }
            Ok(Some(parts_at(alloc, x, t)?))
        }
        Fact::Zero(t) => {
            if coef(x, t) == 0 {
                return Ok(None);
            }
            let side = make_positive(alloc, x, t)?;
            Ok(Some(side))
        }
        _ => Ok(None),
    }
}

/// The clause at `b*x = rest + j`.
fn formed_instance_at(
    alloc: Global,
    x: u32,
    bound: &Side,
    j: usize,
    clause: &[Fact],
) -> Result<Items<Fact>, ArithmeticError>
    requires bound { IsTrue (is_side x bound.now) }
    requires clause { IsTrue (list_all is_fact clause.now) }
    ensures { Forms result (spec.moved_steps x clause.now bound.now.b bound.now.rest j)
        (spec.moved_instance x clause.now bound.now.b bound.now.rest j) }
{
    let moved = move_up(alloc, x, bound, j)?;
    formed_instance(alloc, x, &moved.b, &moved.rest, clause)
}

/// The first of these clauses.
fn formed_instances_at(
    alloc: Global,
    x: u32,
    bound: &Side,
    count: usize,
    clause: &[Fact],
) -> Result<Items<Items<Fact>>, ArithmeticError>
    requires bound { IsTrue (is_side x bound.now) }
    requires clause { IsTrue (list_all is_fact clause.now) }
    ensures { Forms result (flat_map (spec.moved_steps x clause.now bound.now.b bound.now.rest) (count_from 0 count))
        (map (spec.moved_instance x clause.now bound.now.b bound.now.rest) (count_from 0 count)) }
{
    let mut made = Items::new(alloc);
    for j in 0..count {
        let instance = formed_instance_at(alloc, x, bound, j, clause)?;
        made.push(instance)?;
    }
    Ok(made)
}

/// The bound that is 1 - rest, and how many instances it has: `b*d`.
#[tactic(auto, using(crate::proofs::Forming::forming))]
fn formed_above_bound(alloc: Global, d: &i128, side: &Side) -> Result<Bound, ArithmeticError>
    requires { IsTrue (is_lin side.now.rest) }
    ensures { Forms result (spec.above_bound_steps d.now side.now.b side.now.rest) (bounds.above_bound d.now side.now) }
{
    let children = checked_mul(side.b, *d)?;
    let rest = above(alloc, &side.rest)?;
    let side = Side { b: side.b, rest };
    Ok(Bound { side, children })
}

/// The clauses at all instances above `b*x + u`: `b*d` of them, at 1 - u and on.
fn formed_instances(
    alloc: Global,
    x: u32,
    d: &i128,
    side: &Side,
    clause: &[Fact],
) -> Result<Items<Items<Fact>>, ArithmeticError>
    requires d { pos 1 ≤ℤ d.now }
    requires side { IsTrue (is_side x side.now) }
    requires clause { IsTrue (list_all is_fact clause.now) }
    ensures { Forms result (spec.instances_steps x clause.now d.now side.now.b side.now.rest)
        (spec.instances_at x clause.now d.now side.now.b side.now.rest) }
{
    let bound = formed_above_bound(alloc, d, side)?;
    let length = length_of(&bound.children)?;
    formed_instances_at(alloc, x, &bound.side, length, clause)
}

/// The clauses at all instances above the bound that a literal is, if it is one.
#[tactic(auto, using(crate::proofs::Forming::forming))]
fn formed_of_literal(
    alloc: Global,
    x: u32,
    d: &i128,
    fact: &Fact,
    clause: &[Fact],
) -> Result<Items<Items<Fact>>, ArithmeticError>
    requires d { pos 1 ≤ℤ d.now }
    requires fact { IsTrue (is_fact fact.now) }
    requires clause { IsTrue (list_all is_fact clause.now) }
    ensures { Forms result (spec.literal_steps x clause.now d.now (spec.upper x fact.now))
        (spec.literal_instances x clause.now d.now (spec.upper x fact.now)) }
{
    match formed_upper(alloc, x, fact)? {
        Some(side) => formed_instances(alloc, x, d, &side, clause),
        None => Ok(Items::new(alloc)),
    }
}

/// The clauses at all instances, by literal.
fn formed_uppers(
    alloc: Global,
    x: u32,
    d: &i128,
    clause: &[Fact],
) -> Result<Items<Items<Fact>>, ArithmeticError>
    requires d { pos 1 ≤ℤ d.now }
    requires clause { IsTrue (list_all is_fact clause.now) }
    ensures { Forms result (spec.uppers_steps x clause.now d.now clause.now)
        (spec.uppers_at x clause.now d.now clause.now) }
{
    let mut made = Items::new(alloc);
    for fact in clause {
        let instances = formed_of_literal(alloc, x, d, fact, clause)?;
        made.append(instances)?;
    }
    Ok(made)
}

/// The clause where `x` is far down and `j` modulo the period.
#[tactic(auto, using(crate::proofs::Forming::forming))]
fn formed_numbered_low(
    alloc: Global,
    x: u32,
    j: usize,
    clause: &[Fact],
) -> Result<Items<Fact>, ArithmeticError>
    requires { IsTrue (list_all is_fact clause.now) }
    ensures { Forms result (low_steps x (pos j) clause.now) (low_at x (pos j) clause.now) }
{
    formed_far_down(alloc, x, &number(alloc, j as i128), clause)
}

/// The first clauses where `x` is far down, by remainder modulo the period.
fn formed_numbered_lows(
    alloc: Global,
    x: u32,
    count: usize,
    clause: &[Fact],
) -> Result<Items<Items<Fact>>, ArithmeticError>
    requires { IsTrue (list_all is_fact clause.now) }
    ensures { Forms result (spec.numbered_low_steps x clause.now (count_from 0 count))
        (spec.numbered_lows x clause.now (count_from 0 count)) }
{
    let mut made = Items::new(alloc);
    for j in 0..count {
        let low = formed_numbered_low(alloc, x, j, clause)?;
        made.push(low)?;
    }
    Ok(made)
}

/// All clauses where `x` is far down, none where a literal bounds `x` above.
fn formed_lows(
    alloc: Global,
    x: u32,
    d: &i128,
    clause: &[Fact],
) -> Result<Items<Items<Fact>>, ArithmeticError>
    requires d { pos 1 ≤ℤ d.now }
    requires clause { IsTrue (list_all is_fact clause.now) }
    ensures { Forms result (spec.lows_steps x clause.now d.now) (spec.lows_at x clause.now d.now) }
{
    if has_upper_bound(x, clause) {
        return Ok(Items::new(alloc));
    }
    let length = length_of(d)?;
    formed_numbered_lows(alloc, x, length, clause)
}

/// All clauses of Complete but those of the period.
#[tactic(auto, using(crate::proofs::Forming::forming))]
fn formed_rows(
    alloc: Global,
    x: u32,
    d: &i128,
    clause: &[Fact],
) -> Result<Items<Items<Fact>>, ArithmeticError>
    requires d { pos 1 ≤ℤ d.now }
    requires clause { IsTrue (list_all is_fact clause.now) }
    ensures { Forms result (spec.uppers_steps x clause.now d.now clause.now ++ spec.lows_steps x clause.now d.now)
        (spec.uppers_at x clause.now d.now clause.now ++ spec.lows_at x clause.now d.now) }
{
    let mut made = formed_uppers(alloc, x, d, clause)?;
    let lows = formed_lows(alloc, x, d, clause)?;
    made.append(lows)?;
    Ok(made)
}

/// All clauses of Complete of a clause and `x`, in its order. Wide where a number leaves the range, with the first
/// one's operands.
#[tactic(auto, using(crate::proofs::Forming::forming))]
pub fn formed_complete(
    alloc: Global,
    x: u32,
    clause: &[Fact],
) -> Result<Items<Items<Fact>>, ArithmeticError>
    requires { IsTrue (list_all is_fact clause.now) }
    ensures { Forms result (spec.complete_steps x clause.now) (spec.complete x clause.now) }
{
    let d = formed_period(x, clause)?;
    formed_rows(alloc, x, &d, clause)
}

/// All clauses of Complete of a clause and `x`. None where a number leaves the range.
#[tactic(auto, using(crate::proofs::Forming::narrowing))]
pub fn complete(
    alloc: Global,
    x: u32,
    clause: &[Fact],
) -> Result<Option<Items<Items<Fact>>>, AllocError>
    requires { IsTrue (list_all is_fact clause.now) }
    ensures value { IfOk result (λ o. o ≡ if_narrow (spec.complete_steps x clause.now) (spec.complete x clause.now)) }
    ensures well_formed { IfOk result (λ o. IfSome o (λ cs. IsTrue (list_all (list_all is_fact) cs))) }
{
    narrow(formed_complete(alloc, x, clause))
}
