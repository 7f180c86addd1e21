//! What a parameter is in the children that the search visits.

ghost use Rattle.std.specs.Prelude.{◌≡◌, ◌<◌, ◌≤ℤ◌, pos, false, length, option_map, IfOk, IfSome, IsTrue};
ghost use Rattle.std.specs.List.{list_all};
ghost use Rattle.lin_base.specs.Whole.{is_zero};
ghost use Rattle.lin_base.specs.Fact.{is_fact, is_lin};
ghost use Rattle.lin_base.specs.Numbers.{results};
ghost use Rattle.lin_base.specs.Steps.{add_number_steps};
ghost use Rattle.lin_base.specs.Sum as sum;
ghost use Rattle.cert_tree.specs.Bounds.{bound_of, is_side, moved_by};
ghost use Rattle.cert_tree.specs.Children as spec;
ghost use Rattle.cert_tree.specs.Points as points;
ghost use Rattle.cert_tree.specs.Sides.{side_of};
ghost use Rattle.cooper_rows.specs.Counted.{Fits};
ghost use Rattle.cooper.specs.Sharing.{at_place};

use cert_tree::search_tools::{Bound, Side, lower_bound, move_up, period, solve_for};
use cooper_rows::counting::BudgetError;
use lin_base::{Fact, Lin};
use std::alloc::Global;

/// What `p` is by the sum `t` that is 0: `b*p = rest`.
#[tactic(auto, using(crate::proofs::Places::placing))]
pub fn solved_side(alloc: Global, p: u32, t: &Lin) -> Result<Side, BudgetError>
    requires occurring { is_zero (sum.coef p t.now) ≡ false }
    requires value { IsTrue (is_lin t.now) }
    ensures formed { Fits result (results (points.solved p t.now).steps) (λ e. e ≡ side_of (points.solved p t.now)) }
    ensures well_formed { IfOk result (λ e. IsTrue (is_side p e)) }
{
    let side = solve_for(alloc, p, t)?;
    Ok(side)
}

/// What `p` is at test point `j` of a lower bound.
#[tactic(auto, using(crate::proofs::Places::placing))]
pub fn point_side(alloc: Global, p: u32, side: &Side, j: usize) -> Result<Side, BudgetError>
    requires { IsTrue (is_side p side.now) }
    ensures formed { Fits result (results (add_number_steps side.now.rest (pos j))) (λ e. e ≡ moved_by side.now j) }
    ensures well_formed { IfOk result (λ e. IsTrue (is_side p e)) }
{
    let moved = move_up(alloc, p, side, j)?;
    Ok(moved)
}

/// An unknown by whose values a node is split, and its period.
#[derive(Debug, Drop)]
pub struct Split {
    /// The unknown.
    pub p: u32,
    /// The least common multiple of the moduli of the facts with it, or 1.
    pub d: i128,
}

/// The split by this unknown.
pub fn split_by(p: u32, d: i128) -> Split
    ensures p { result.p ≡ p }
    ensures d { result.d ≡ d }
{
    Split { p, d }
}

/// The lower bound of the unknown that a fact is, if it is one.
#[tactic(auto, using(crate::proofs::Places::placing))]
fn bound_in(alloc: Global, split: &Split, fact: &Fact) -> Result<Option<Bound>, BudgetError>
    requires { IsTrue (is_fact fact.now) }
    ensures formed { let o = spec.lower_bound split.now.p split.now.d fact.now in
        Fits result (results (spec.bound_steps_of o)) (λ b. b ≡ option_map bound_of o) }
    ensures well_formed { IfOk result (λ o. IfSome o (λ e. IsTrue (is_side split.now.p e.side))) }
{
    match lower_bound(alloc, split.p, &split.d, fact)? {
        Some(bound) => Ok(bound),
        None => Err(BudgetError::Wide),
    }
}

/// The lower bound of the unknown that the fact at a place is, if it is one.
#[tactic(auto, using(crate::proofs::Places::placing))]
pub fn bound_at(
    alloc: Global,
    split: &Split,
    at: usize,
    facts: &[Fact],
) -> Result<Option<Bound>, BudgetError>
    requires at { at < length facts.now }
    requires facts { IsTrue (list_all is_fact facts.now) }
    ensures formed { let o = spec.lower_bound split.now.p split.now.d (at_place facts.now at) in
        Fits result (results (spec.bound_steps_of o)) (λ b. b ≡ option_map bound_of o) }
    ensures well_formed { IfOk result (λ o. IfSome o (λ e. IsTrue (is_side split.now.p e.side))) }
{
    bound_in(alloc, split, &facts[at])
}

/// The least common multiple of the moduli of the facts with `p`, or 1.
#[tactic(auto, using(crate::proofs::Places::placing))]
pub fn period_of(p: u32, facts: &[Fact]) -> Result<i128, BudgetError>
    requires { IsTrue (list_all is_fact facts.now) }
    ensures formed { Fits result (results (points.period_steps p facts.now)) (λ d. d ≡ points.period p facts.now) }
    ensures positive { IfOk result (λ d. pos 1 ≤ℤ d) }
{
    match period(p, facts)? {
        Some(d) => Ok(d),
        None => Err(BudgetError::Wide),
    }
}
