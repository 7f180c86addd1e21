//! What comes back from the children of a node: the values of a satisfied leaf, or the trees that close under the node.

ghost use Rattle.std.specs.Prelude.{◌≡◌, ◌<ℤ◌, ◌≤ℤ◌, ◌++◌, [], ◌∷◌, pos, false, None, option_map, unsigned_abs, IfOk, IfErr, OnOk, IsTrue};
ghost use Rattle.std.specs.List.{list_all};
ghost use Rattle.lin_base.specs.Whole.{is_zero};
ghost use Rattle.lin_base.specs.Fact.{is_fact};
ghost use Rattle.lin_base.specs.Sum.{assigned};
ghost use Rattle.cert_tree.specs.declared.certs.Tree.TheOpen.{Case, Solve, Least, Clash};
ghost use Rattle.cert_tree.specs.declared.certs.Tree.TheViews.{roll-Tree};
ghost use Rattle.cert_tree.specs.Search as search;
ghost use Rattle.cooper_rows.specs.declared.counting.BudgetError.TheVariants.{Memory};
ghost use Rattle.cooper_rows.specs.Counted.{Fits};
ghost use Rattle.cooper.specs.Walks as spec;
ghost use Rattle.cooper.specs.Walks.{Closes, valuation_of};

use crate::choosing::Equation;
use crate::making::Split;
use crate::valuing::{Far, far_value, value_by};
use cert_tree::Tree;
use cert_tree::search_tools::Side;
use cooper_rows::counting::BudgetError;
use lin_base::Fact;
use sqlite_items::{Boxed, Items};
use std::alloc::{AllocError, Global};

/// A list with one more value in front.
fn with_value(
    alloc: Global,
    p: u32,
    value: i128,
    values: Items<(u32, i128)>,
) -> Result<Items<(u32, i128)>, AllocError>
    ensures { IfOk result (λ vs. vs ≡ (p, value) ∷ values) }
{
    let mut more = Items::new(alloc);
    more.push((p, value))?;
    more.append(values)?;
    Ok(more)
}

/// The values with that of `p`, which is by a side.
#[tactic(auto, using(crate::proofs::Places::placing))]
fn with_side(
    alloc: Global,
    p: u32,
    side: &Side,
    values: Items<(u32, i128)>,
) -> Result<Items<(u32, i128)>, BudgetError>
    requires { is_zero side.now.b ≡ false }
    ensures { let v = valuation_of values in
        Fits result (spec.side_value_formed side.now v)
        (λ vs. valuation_of vs ≡ assigned p (spec.side_value side.now v) v) }
{
    let value = value_by(values.as_slice(), side)?;
    Ok(with_value(alloc, p, value, values)?)
}

/// What was found with the value of `p`, which is by a side.
#[tactic(auto, using(crate::proofs::Places::placing))]
pub fn back_by(
    alloc: Global,
    p: u32,
    side: &Side,
    found: Option<Items<(u32, i128)>>,
) -> Result<Option<Items<(u32, i128)>>, BudgetError>
    requires { is_zero side.now.b ≡ false }
    ensures { let o = option_map valuation_of found in
        Fits result (spec.formed_of (spec.side_value_formed side.now) o)
        (λ r. option_map valuation_of r ≡ option_map (λ v. assigned p (spec.side_value side.now v) v) o) }
{
    match found {
        Some(values) => {
            let more = with_side(alloc, p, side, values)?;
            Ok(Some(more))
        }
        None => Ok(None),
    }
}

/// The values with that of a parameter that is far down.
#[tactic(auto, using(crate::proofs::Places::placing))]
fn with_far(
    alloc: Global,
    far: &Far,
    facts: &[Fact],
    values: Items<(u32, i128)>,
) -> Result<Items<(u32, i128)>, BudgetError>
    requires remainder { pos 0 ≤ℤ far.now.j }
    requires below { far.now.j <ℤ far.now.d }
    requires facts { IsTrue (list_all is_fact facts.now) }
    ensures { let v = valuation_of values in
        Fits result (spec.far_formed far.now.p facts.now far.now.j far.now.d v)
        (λ vs. valuation_of vs ≡ assigned far.now.p (spec.far_at far.now.p facts.now far.now.j far.now.d v) v) }
{
    let value = far_value(alloc, far, values.as_slice(), facts)?;
    Ok(with_value(alloc, far.p, value, values)?)
}

/// What was found with the value of a parameter that is far down.
#[tactic(auto, using(crate::proofs::Places::placing))]
pub fn back_far(
    alloc: Global,
    far: &Far,
    facts: &[Fact],
    found: Option<Items<(u32, i128)>>,
) -> Result<Option<Items<(u32, i128)>>, BudgetError>
    requires remainder { pos 0 ≤ℤ far.now.j }
    requires below { far.now.j <ℤ far.now.d }
    requires facts { IsTrue (list_all is_fact facts.now) }
    ensures { let o = option_map valuation_of found in
        Fits result (spec.formed_of (spec.far_formed far.now.p facts.now far.now.j far.now.d) o)
        (λ r. option_map valuation_of r ≡
        option_map (λ v. assigned far.now.p (spec.far_at far.now.p facts.now far.now.j far.now.d v) v) o) }
{
    match found {
        Some(values) => {
            let more = with_far(alloc, far, facts, values)?;
            Ok(Some(more))
        }
        None => Ok(None),
    }
}

/// The only tree.
pub fn the_one(trees: Items<Tree>) -> Tree
    ensures { result ≡ search.the_one trees }
{
    let mut trees = trees;
    if trees.is_empty() {
        return Tree::Clash { fact: 0 };
    }
    trees.remove(0)
}

/// Closes a leaf by a false fact.
pub fn close_clash(
    fact: u32,
    trees: &mut Items<Tree>,
) -> Result<Option<Items<(u32, i128)>>, AllocError>
    ensures value { IfOk result (λ o. o ≡ None) }
    ensures trees { OnOk result (trees.new ≡ trees.old ++ roll-Tree (Clash fact) ∷ []) }
{
    trees.push(Tree::Clash { fact })?;
    Ok(None)
}

/// Puts the trees of a Case under its node, where no values were found.
pub fn close_case(
    clause: u32,
    below: Items<Tree>,
    found: Option<Items<(u32, i128)>>,
    trees: &mut Items<Tree>,
) -> Result<Option<Items<(u32, i128)>>, AllocError>
    ensures { Closes result (λ ts. roll-Tree (Case clause ts)) found below trees.old trees.new }
{
    match found {
        Some(values) => Ok(Some(values)),
        None => {
            trees.push(Tree::Case {
                clause,
                children: below,
            })?;
            Ok(None)
        }
    }
}

/// Puts the tree of a Solve under its node, where no values were found.
pub fn close_solve(
    alloc: Global,
    equation: &Equation,
    below: Items<Tree>,
    found: Option<Items<(u32, i128)>>,
    trees: &mut Items<Tree>,
) -> Result<Option<Items<(u32, i128)>>, AllocError>
    ensures { Closes result (λ ts. roll-Tree (Solve equation.now.fact equation.now.p (search.the_one ts)))
        found below trees.old trees.new }
{
    match found {
        Some(values) => Ok(Some(values)),
        None => {
            trees.push(Tree::Solve {
                fact: equation.fact,
                p: equation.p,
                child: Boxed::new(alloc, the_one(below))?,
            })?;
            Ok(None)
        }
    }
}

/// Puts the trees of a Least under its node, where no values were found.
pub fn close_least(
    p: u32,
    below: Items<Tree>,
    found: Option<Items<(u32, i128)>>,
    trees: &mut Items<Tree>,
) -> Result<Option<Items<(u32, i128)>>, AllocError>
    ensures { Closes result (λ ts. roll-Tree (Least p ts)) found below trees.old trees.new }
{
    match found {
        Some(values) => Ok(Some(values)),
        None => {
            trees.push(Tree::Least { p, children: below })?;
            Ok(None)
        }
    }
}

/// A count that isn't negative.
pub fn whole_count(count: &i128) -> u128
    ensures { result ≡ unsigned_abs count.now }
{
    count.unsigned_abs()
}

/// `j` as an index. Memory where it exceeds every index: so many children are never visited one after the other.
pub fn index_of(j: u128) -> Result<usize, BudgetError>
    ensures value { IfOk result (λ n. n ≡ j) }
    ensures memory { IfErr result (λ e. e ≡ Memory) }
{
    if j > usize::MAX as u128 {
        return Err(BudgetError::Memory);
    }
    Ok(j as usize)
}

/// The parameter of a split, far down with remainder `j`.
pub fn far_at(split: &Split, j: usize) -> Far
    ensures p { result.p ≡ split.now.p }
    ensures j { result.j ≡ pos j }
    ensures d { result.d ≡ split.now.d }
{
    Far {
        p: split.p,
        j: j as i128,
        d: split.d,
    }
}
