//! The facts of a node's children.

ghost use Rattle.std.specs.Prelude.{◌≡◌, ◌≤ℤ◌, false, map, option_map, pos, slice_get, IfOk, IfSome, IsTrue};
ghost use Rattle.std.specs.List.{list_all};
ghost use Rattle.std.specs.Option.{option_copied};
ghost use Rattle.lin_base.specs.Fact.{is_fact, is_lin};
ghost use Rattle.lin_base.specs.Change.{replace};
ghost use Rattle.lin_base.specs.Steps.{Forms, add_number_steps, replace_all_steps};
ghost use Rattle.lin_base.specs.Sum as sum;
ghost use Rattle.lin_base.specs.Sum.{occurs};
ghost use Rattle.lin_base.specs.Whole.{is_zero};
ghost use Rattle.cert_tree.specs.Narrow.{if_narrow, option_then};
ghost use Rattle.cert_tree.specs.Children as spec;

use crate::clauses::{fact_at, is_over_free};
use crate::sums::{Side, narrow, one_above, solve_for};
use crate::used::Used;
use lin_base::{
    ArithmeticError, Fact, Lin, add_number, add_scaled, coef, is_lin, number, replace, tight,
};
use sqlite_items::Items;
use std::alloc::{AllocError, Global};

/// The sum of a fact that may be multiplied by `k`: of an AtMostZero fact where `k` is at least 0, of a Zero fact.
fn part_of(fact: &Fact, k: i128) -> Option<&Lin>
    requires { IsTrue (is_fact fact.now) }
    ensures value { spec.part_of fact.now k ≡ option_map (λ t. (t, k)) (option_copied result) }
    ensures well_formed { IfSome result (λ t. IsTrue (is_lin t.now)) }
{
    match fact {
        Fact::AtMostZero(t) if k >= 0 => Some(t),
        Fact::Zero(t) => Some(t),
        _ => None,
    }
}

/// That of the fact of this number.
fn part_at<'a>(facts: &'a [Fact], part: &(u32, i128)) -> Option<&'a Lin>
    requires { IsTrue (list_all is_fact facts.now) }
    ensures value { spec.part_at facts.now part.now.0 part.now.1 ≡ option_map (λ t. (t, part.now.1))
        (option_copied result) }
    ensures well_formed { IfSome result (λ t. IsTrue (is_lin t.now)) }
{
    match fact_at(facts, part.0) {
        Some(fact) => part_of(fact, part.1),
        None => None,
    }
}

/// The sum so far and the multiple of `t` that the part tells, or None where a number leaves the range.
#[tactic(auto, using(crate::proofs::Forming::narrowing))]
fn next_sum(
    alloc: Global,
    so_far: &Lin,
    part: &(u32, i128),
    t: &Lin,
) -> Result<Option<Lin>, AllocError>
    requires so_far { IsTrue (is_lin so_far.now) }
    requires t { IsTrue (is_lin t.now) }
    ensures value { IfOk result (λ sum. sum ≡ spec.next_sum so_far.now part.now.1 t.now) }
    ensures well_formed { IfOk result (λ sum. IfSome sum (λ s. IsTrue (is_lin s))) }
{
    narrow(add_scaled(alloc, so_far, part.1, t))
}

/// The sum of multiples of facts. None where a fact isn't there, can't be multiplied by its number, or where a number
/// leaves the range.
pub fn combination(
    alloc: Global,
    facts: &[Fact],
    list: &[(u32, i128)],
) -> Result<Option<Lin>, AllocError>
    requires { IsTrue (list_all is_fact facts.now) }
    ensures value { IfOk result (λ sum. sum ≡ spec.combination facts.now list.now) }
    ensures well_formed { IfOk result (λ sum. IfSome sum (λ s. IsTrue (is_lin s))) }
{
    let mut sum = number(alloc, 0);
    for part in list {
        let Some(t) = part_at(facts, part) else {
            return Ok(None);
        };
        match next_sum(alloc, &sum, part, t)? {
            Some(next) => sum = next,
            None => return Ok(None),
        }
    }
    Ok(Some(sum))
}

/// The facts `t <= 0` and `-t + 1 <= 0`, for a sum over parameters that aren't used up. None where the sum is none, or
/// where a number leaves the range.
pub(crate) fn branch_facts(
    alloc: Global,
    params: u32,
    used: &Used,
    t: &Lin,
) -> Result<Option<(Fact, Fact)>, AllocError>
    ensures value { IfOk result (λ both. both ≡ spec.branch_facts params used.now t.now) }
    ensures well_formed { IfOk result (λ o. IfSome o (λ both. IsTrue (is_fact both.0) × IsTrue (is_fact both.1))) }
{
    if !is_lin(t) || !is_over_free(params, used, t) {
        return Ok(None);
    }
    match one_above(alloc, t)? {
        Some(above) => {
            let below = Fact::AtMostZero(t.copy(alloc)?);
            Ok(Some((below, Fact::AtMostZero(above))))
        }
        None => Ok(None),
    }
}

/// That `m` divides `t - i`, or None where a number leaves the range.
pub fn residue(alloc: Global, m: i128, t: &Lin, i: usize) -> Result<Option<Fact>, AllocError>
    requires m { pos 2 ≤ℤ m }
    requires t { IsTrue (is_lin t.now) }
    ensures value { IfOk result (λ f. f ≡ if_narrow (spec.residue_steps t.now i) (spec.residue m t.now i)) }
    ensures well_formed { IfOk result (λ f. IfSome f (λ fact. IsTrue (is_fact fact))) }
{
    match narrow(add_number(alloc, t, -(i as i128)))? {
        Some(difference) => Ok(Some(Fact::Divides(m, difference))),
        None => Ok(None),
    }
}

/// The fact of this number, tightened, where it is an AtMostZero fact.
pub fn cut_at(alloc: Global, facts: &[Fact], number: u32) -> Result<Option<Fact>, AllocError>
    requires { IsTrue (list_all is_fact facts.now) }
    ensures value { IfOk result (λ f. f ≡ option_then (slice_get facts.now number) spec.cut_of) }
    ensures well_formed { IfOk result (λ f. IfSome f (λ fact. IsTrue (is_fact fact))) }
{
    match fact_at(facts, number) {
        Some(fact) => cut(alloc, fact),
        None => Ok(None),
    }
}

/// The fact, tightened, where it is an AtMostZero fact.
fn cut(alloc: Global, fact: &Fact) -> Result<Option<Fact>, AllocError>
    requires { IsTrue (is_fact fact.now) }
    ensures value { IfOk result (λ f. f ≡ spec.cut_of fact.now) }
    ensures well_formed { IfOk result (λ f. IfSome f (λ tightened. IsTrue (is_fact tightened))) }
{
    match fact {
        Fact::AtMostZero(_) => Ok(Some(tight(alloc, fact)?)),
        _ => Ok(None),
    }
}

/// Each fact with `t` in place of `a*x`.
pub fn replace_all(
    alloc: Global,
    x: u32,
    a: i128,
    t: &Lin,
    facts: &[Fact],
) -> Result<Items<Fact>, ArithmeticError>
    requires positive { pos 1 ≤ℤ a }
    requires absent { occurs x t.now ≡ false }
    requires value { IsTrue (is_lin t.now) }
    requires facts { IsTrue (list_all is_fact facts.now) }
    ensures { Forms result (replace_all_steps x a t.now facts.now) (map (replace x a t.now) facts.now) }
{
    let mut made = Items::new(alloc);
    for fact in facts {
        let replaced = replace(alloc, fact, x, a, t)?;
        made.push(replaced)?;
    }
    Ok(made)
}

/// Each fact with `rest` in place of `b*p`, and that `b` divides `rest`.
pub fn with_value(
    alloc: Global,
    p: u32,
    side: &Side,
    facts: &[Fact],
) -> Result<Items<Fact>, ArithmeticError>
    requires positive { pos 1 ≤ℤ side.now.b }
    requires absent { occurs p side.now.rest ≡ false }
    requires value { IsTrue (is_lin side.now.rest) }
    requires facts { IsTrue (list_all is_fact facts.now) }
    ensures { Forms result (replace_all_steps p side.now.b side.now.rest facts.now)
        (spec.with_value p side.now.b side.now.rest facts.now) }
{
    let mut made = replace_all(alloc, p, side.b, &side.rest, facts)?;
    if side.b != 1 {
        made.push(Fact::Divides(side.b, side.rest.copy(alloc)?))?;
    }
    Ok(made)
}

/// The sum of a Zero fact with `p`.
fn zero_with(p: u32, fact: &Fact) -> Option<&Lin>
    requires { IsTrue (is_fact fact.now) }
    ensures value { option_copied result ≡ spec.zero_with p fact.now }
    ensures well_formed { IfSome result (λ t. IsTrue (is_lin t.now)) }
    ensures occurring { IfSome result (λ t. is_zero (sum.coef p t.now) ≡ false) }
{
    match fact {
        Fact::Zero(t) if coef(p, t) != 0 => Some(t),
        _ => None,
    }
}

/// That of the fact of this number.
fn zero_at(facts: &[Fact], number: u32, p: u32) -> Option<&Lin>
    requires { IsTrue (list_all is_fact facts.now) }
    ensures value { option_copied result ≡ option_then (slice_get facts.now number) (spec.zero_with p) }
    ensures well_formed { IfSome result (λ t. IsTrue (is_lin t.now)) }
    ensures occurring { IfSome result (λ t. is_zero (sum.coef p t.now) ≡ false) }
{
    match fact_at(facts, number) {
        Some(fact) => zero_with(p, fact),
        None => None,
    }
}

/// Each fact with what `p` is by the sum `t` that is 0.
#[tactic(auto, using(crate::proofs::Replacing::solving))]
pub fn solved_facts(
    alloc: Global,
    p: u32,
    t: &Lin,
    facts: &[Fact],
) -> Result<Items<Fact>, ArithmeticError>
    requires occurring { is_zero (sum.coef p t.now) ≡ false }
    requires value { IsTrue (is_lin t.now) }
    requires facts { IsTrue (list_all is_fact facts.now) }
    ensures { Forms result (spec.solve_steps p facts.now t.now) (spec.solved_facts p facts.now t.now) }
{
    let side = solve_for(alloc, p, t)?;
    with_value(alloc, p, &side, facts)
}

/// The facts of a child of Solve. None where the fact isn't a Zero fact with `p`, or where a number leaves the range.
#[tactic(auto, using(crate::proofs::Forming::narrowing))]
pub fn solve_child(
    alloc: Global,
    facts: &[Fact],
    number: u32,
    p: u32,
) -> Result<Option<Items<Fact>>, AllocError>
    requires { IsTrue (list_all is_fact facts.now) }
    ensures value { IfOk result (λ fs. fs ≡ spec.solve_child facts.now number p) }
    ensures well_formed { IfOk result (λ o. IfSome o (λ fs. IsTrue (list_all is_fact fs))) }
{
    match zero_at(facts, number, p) {
        Some(t) => narrow(solved_facts(alloc, p, t, facts)),
        None => Ok(None),
    }
}
