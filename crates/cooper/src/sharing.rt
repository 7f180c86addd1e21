//! The facts that a child changes, each in its place, and that are put back after it.

ghost use Rattle.std.specs.Prelude.{◌≡◌, ◌++◌, length, map, IfOk, OnOk, IsTrue, slice_set, ℕ};
ghost use Rattle.std.specs.List.{flat_map, list_all};
ghost use Rattle.lin_base.specs.Change.{replace};
ghost use Rattle.lin_base.specs.Fact.{is_fact};
ghost use Rattle.lin_base.specs.Numbers.{results};
ghost use Rattle.lin_base.specs.Steps.{replace_all_steps, replace_steps};
ghost use Rattle.cert_tree.specs.Bounds.{is_side};
ghost use Rattle.cert_tree.specs.Children.{far_child, far_child_steps, with_value};
ghost use Rattle.cert_tree.specs.Points.{divides_part};
ghost use Rattle.cooper_rows.specs.Counted.{Fits};
ghost use Rattle.cooper.specs.Sharing as spec;
ghost use Rattle.cooper.specs.Sharing.{changed_steps, noted, number_side, put_back, remade_by, remade_steps, restored};

use cert_tree::search_tools::Side;
use cooper_rows::counting::BudgetError;
use lin_base::{Fact, number, occurs, replace};
use sqlite_items::Items;
use std::alloc::{AllocError, Global};
use std::mem;

/// What was there before facts were changed.
#[derive(Debug, Drop)]
pub struct Kept {
    /// How many facts there were.
    pub length: usize,
    /// Those that were changed, with their places.
    pub places: Items<(usize, Fact)>,
}

/// A fact with `rest` in place of `b*p`.
#[tactic(auto, using(crate::proofs::Places::placing))]
fn by_side(alloc: Global, p: u32, side: &Side, fact: &Fact) -> Result<Fact, BudgetError>
    requires side { IsTrue (is_side p side.now) }
    requires fact { IsTrue (is_fact fact.now) }
    ensures { Fits result (results (replace_steps p side.now.b side.now.rest fact.now))
        (λ f. f ≡ replace p side.now.b side.now.rest fact.now) }
{
    let made = replace(alloc, fact, p, side.b, &side.rest)?;
    Ok(made)
}

/// The same, but for an AtMostZero fact where `p` is far down: it holds.
#[tactic(auto, using(crate::proofs::Places::placing))]
fn replace_unless_far(
    alloc: Global,
    p: u32,
    far: bool,
    side: &Side,
    fact: &Fact,
) -> Result<Fact, BudgetError>
    requires side { IsTrue (is_side p side.now) }
    requires fact { IsTrue (is_fact fact.now) }
    ensures { Fits result (results (remade_steps p far side.now fact.now))
        (λ f. f ≡ remade_by p far side.now fact.now) }
{
    match fact {
        Fact::AtMostZero(_) => {
            if far {
                return Ok(Fact::AtMostZero(number(alloc, 0)));
            }
            by_side(alloc, p, side, fact)
        }
        Fact::Zero(_) => by_side(alloc, p, side, fact),
        Fact::Divides(_, _) => by_side(alloc, p, side, fact),
        Fact::NotDivides(_, _) => by_side(alloc, p, side, fact),
    }
}

/// Changes a fact with `p`, and notes what it was.
#[tactic(auto, using(crate::proofs::Places::placing))]
fn change(
    alloc: Global,
    p: u32,
    far: bool,
    side: &Side,
    at: usize,
    fact: &mut Fact,
    kept: &mut Items<(usize, Fact)>,
) -> Result<(), BudgetError>
    requires side { IsTrue (is_side p side.now) }
    requires fact { IsTrue (is_fact fact.old) }
    ensures formed { Fits result (results (changed_steps p far side.now fact.old))
        (λ _. fact.new ≡ spec.changed p far side.now fact.old) }
    ensures kept { OnOk result (kept.new ≡ kept.old ++ noted p at fact.old) }
{
    if !occurs(p, fact.sum()) {
        return Ok(());
    }
    let made = replace_unless_far(alloc, p, far, side, fact)?;
    let before = mem::replace(fact, made);
    kept.push((at, before))?;
    Ok(())
}

/// Changes each fact with `p`. What they were is given back, with their places.
fn change_each(
    alloc: Global,
    p: u32,
    far: bool,
    side: &Side,
    facts: &mut [Fact],
) -> Result<Items<(usize, Fact)>, BudgetError>
    requires side { IsTrue (is_side p side.now) }
    requires facts { IsTrue (list_all is_fact facts.old) }
    ensures formed { Fits result (results (flat_map (changed_steps p far side.now) facts.old))
        (λ _. facts.new ≡ map (spec.changed p far side.now) facts.old) }
    ensures kept { IfOk result (λ places. put_back places facts.new ≡ facts.old) }
{
    let mut kept = Items::new(alloc);
    for i in 0..facts.len() {
        change(alloc, p, far, side, i, &mut facts[i], &mut kept)?;
    }
    Ok(kept)
}

/// The same, with how many facts there are.
fn change_all(
    alloc: Global,
    p: u32,
    far: bool,
    side: &Side,
    facts: &mut Vec<Fact>,
) -> Result<Kept, BudgetError>
    requires side { IsTrue (is_side p side.now) }
    requires facts { IsTrue (list_all is_fact facts.old.items) }
    ensures formed { Fits result (results (flat_map (changed_steps p far side.now) facts.old.items))
        (λ _. facts.new.items ≡ map (spec.changed p far side.now) facts.old.items) }
    ensures length { IfOk result (λ kept. kept.length ≡ length facts.old.items) }
    ensures places { IfOk result (λ kept. put_back kept.places facts.new.items ≡ facts.old.items) }
{
    let length = facts.len();
    let places = change_each(alloc, p, far, side, facts.as_mut_slice())?;
    Ok(Kept { length, places })
}

/// Appends that `b` divides the rest, where `b` isn't 1.
fn push_divides(alloc: Global, side: &Side, facts: &mut Vec<Fact>) -> Result<(), AllocError>
    ensures { OnOk result (facts.new.items ≡ facts.old.items ++ divides_part side.now.b side.now.rest) }
{
    if side.b != 1 {
        facts.push(Fact::Divides(side.b, side.rest.copy(alloc)?))?;
    }
    Ok(())
}

/// Makes the facts those of the child where `p` is by a side.
pub fn put_side(
    alloc: Global,
    p: u32,
    side: &Side,
    facts: &mut Vec<Fact>,
) -> Result<Kept, BudgetError>
    requires side { IsTrue (is_side p side.now) }
    requires facts { IsTrue (list_all is_fact facts.old.items) }
    ensures formed { Fits result (results (replace_all_steps p side.now.b side.now.rest facts.old.items))
        (λ _. facts.new.items ≡ with_value p side.now.b side.now.rest facts.old.items) }
    ensures kept { IfOk result (λ kept. restored kept facts.new.items ≡ facts.old.items) }
    ensures well_formed { IfOk result (λ _. IsTrue (list_all is_fact facts.new.items)) }
{
    let kept = change_all(alloc, p, false, side, facts)?;
    push_divides(alloc, side, facts)?;
    Ok(kept)
}

/// A parameter that is `j`.
fn side_at(alloc: Global, j: usize) -> Side
    ensures value { result ≡ number_side j }
    ensures well_formed { (p : ℕ) → IsTrue (is_side p result) }
{
    Side {
        b: 1,
        rest: number(alloc, j as i128),
    }
}

/// Makes the facts those of the child where `p` is far down and `j` modulo the period.
pub fn put_far(alloc: Global, p: u32, j: usize, facts: &mut Vec<Fact>) -> Result<Kept, BudgetError>
    requires { IsTrue (list_all is_fact facts.old.items) }
    ensures formed { Fits result (results (far_child_steps p facts.old.items j))
        (λ _. facts.new.items ≡ far_child p facts.old.items j) }
    ensures kept { IfOk result (λ kept. restored kept facts.new.items ≡ facts.old.items) }
    ensures well_formed { IfOk result (λ _. IsTrue (list_all is_fact facts.new.items)) }
{
    let side = side_at(alloc, j);
    change_all(alloc, p, true, &side, facts)
}

/// Puts a fact at a place.
fn put_at(facts: &mut [Fact], at: usize, fact: Fact)
    ensures { facts.new ≡ slice_set facts.old at fact }
{
    if at < facts.len() {
        facts[at] = fact;
    }
}

/// Puts facts at these places, from the last one on.
fn put_each(facts: &mut [Fact], places: Items<(usize, Fact)>)
    ensures { facts.new ≡ put_back places facts.old }
{
    let mut places = places;
    while let Some((at, fact)) = places.pop() {
        put_at(facts, at, fact);
    }
}

/// The same, for a list.
fn put_all(facts: &mut Vec<Fact>, places: Items<(usize, Fact)>)
    ensures { facts.new.items ≡ put_back places facts.old.items }
{
    put_each(facts.as_mut_slice(), places);
}

/// Makes the facts what they were.
pub fn restore(facts: &mut Vec<Fact>, kept: Kept)
    ensures { facts.new.items ≡ restored kept facts.old.items }
{
    facts.truncate(kept.length);
    put_all(facts, kept.places);
}
