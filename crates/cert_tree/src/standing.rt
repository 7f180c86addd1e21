//! The check of certificates.

ghost use Rattle.std.specs.Prelude.{◌≡◌, ◌≤◌, ◌+◌, ◌≤ℤ◌, ◌&&◌, ◌++◌, ◌∷◌, [], pos, length, take, drop, IfOk, IfSome, OnOk, IsTrue, map, true};
ghost use Rattle.std.specs.List.{list_all};
ghost use Rattle.lin_base.specs.Fact.{is_fact, is_lin, is_pool, Impossible};
ghost use Rattle.lin_base.specs.Steps.{is_narrow};
ghost use Rattle.cert_tree.specs.Children as spec;
ghost use Rattle.cert_tree.specs.Stands.{tree_stands, each_stands, numbered_stand, stands, residues_stand, least_stands};
ghost use Rattle.cert_tree.specs.Leasts.{points_stand, bound_stands, bounds_stand};
ghost use Rattle.cert_tree.specs.Bounds.{is_side};

use crate::certs::{Cert, Tree};
use crate::children::{branch_facts, combination, cut_at, residue, solve_child};
use crate::clauses::{clause_at, fact_at, has_lower_bound, is_free, is_open_case, is_over_free};
use crate::laws::standing_is_impossible;
use crate::rows::extend;
use crate::sums::Side;
use crate::test_points::{count_within, far, is_count, lower_bound, period, point};
use crate::used::Used;
use lin_base::{Fact, Lin, Pool, is_false, is_lin};
use sqlite_items::Items;
use std::alloc::{AllocError, Global};

/// Whether a certificate stands for a pool, so that the pool is true at no values. Nothing is assumed of the
/// certificate: numbers of clauses, facts, rows or parameters that aren't there, negative multipliers of AtMostZero
/// facts, wrong counts of children and sums whose unknowns don't ascend make it one that doesn't stand. Every number
/// that the rows and the tree form stays in the range.
pub fn check_unsat(alloc: Global, pool: &Pool, cert: &Cert) -> Result<bool, AllocError>
    requires { IsTrue (is_pool pool.now) }
    ensures exact { IfOk result (λ yes. yes ≡ stands pool.now cert.now) }
    ensures impossible { IfOk result (λ yes. yes ≡ true → Impossible pool.now) }
{
    standing_is_impossible();
    cert_stands(alloc, pool, cert)
}

/// Whether the tree stands over the pool as the rows extend it.
fn cert_stands(alloc: Global, pool: &Pool, cert: &Cert) -> Result<bool, AllocError>
    requires { IsTrue (is_pool pool.now) }
    ensures { IfOk result (λ yes. yes ≡ stands pool.now cert.now) }
{
    if cert.rows.is_empty() {
        return root_stands(alloc, pool, &cert.tree);
    }
    match extend(alloc, pool, cert.rows.as_slice())? {
        Some(longer) => root_stands(alloc, &longer, &cert.tree),
        None => Ok(false),
    }
}

/// Whether a tree stands without any fact.
fn root_stands(alloc: Global, pool: &Pool, tree: &Tree) -> Result<bool, AllocError>
    requires { IsTrue (is_pool pool.now) }
    ensures { IfOk result (λ yes. yes ≡ tree_stands pool.now.params pool.now.clauses tree.now [] []) }
{
    let mut used = Used::none(alloc);
    let mut facts = Items::new(alloc);
    tree_stands(alloc, pool, &mut used, &mut facts, tree)
}

/// Whether a tree stands at these used-up parameters and facts. After an Ok both are as before.
#[cycle(tree_stands)]
fn tree_stands(
    alloc: Global,
    pool: &Pool,
    used: &mut Used,
    facts: &mut Items<Fact>,
    tree: &Tree,
) -> Result<bool, AllocError>
    requires pool_is { IsTrue (is_pool pool.now) }
    requires facts_are { IsTrue (list_all is_fact facts.old) }
    ensures answer { IfOk result (λ yes. yes ≡
        tree_stands pool.now.params pool.now.clauses tree.now used.old facts.old) }
    ensures used { OnOk result (used.new ≡ used.old) }
    ensures facts { OnOk result (facts.new ≡ facts.old) }
{
    match tree {
        Tree::Case { clause, children } => match clause_at(pool, *clause) {
            Some(literals) => {
                if !is_open_case(pool.params, used, literals.as_slice()) {
                    return Ok(false);
                }
                each_stands(
                    alloc,
                    pool,
                    used,
                    facts,
                    literals.as_slice(),
                    children.as_slice(),
                )
            }
            None => Ok(false),
        },
        Tree::Combine { list, child } => {
            match combination(alloc, facts.as_slice(), list.as_slice())? {
                Some(sum) => {
                    stands_with(alloc, pool, used, facts, Fact::AtMostZero(sum), child.get())
                }
                None => Ok(false),
            }
        }
        Tree::Branch { t, left, right } => match branch_facts(alloc, pool.params, used, t)? {
            Some((below, above)) => {
                if !stands_with(alloc, pool, used, facts, below, left.get())? {
                    return Ok(false);
                }
                stands_with(alloc, pool, used, facts, above, right.get())
            }
            None => Ok(false),
        },
        Tree::Residues { m, t, children } => {
            residues_stand(alloc, pool, used, facts, *m, t, children.as_slice())
        }
        Tree::Cut { fact, child } => match cut_at(alloc, facts.as_slice(), *fact)? {
            Some(cut) => stands_with(alloc, pool, used, facts, cut, child.get()),
            None => Ok(false),
        },
        Tree::Solve { fact, p, child } => {
            match solve_child(alloc, facts.as_slice(), *fact, *p)? {
                Some(mut made) => stands_without(alloc, pool, used, *p, &mut made, child.get()),
                None => Ok(false),
            }
        }
        Tree::Least { p, children } => least_stands(
            alloc,
            pool,
            used,
            facts.as_slice(),
            *p,
            children.as_slice(),
        ),
        Tree::Clash { fact } => match fact_at(facts.as_slice(), *fact) {
            Some(fact) => Ok(is_false(fact)),
            None => Ok(false),
        },
    }
}

/// Whether a tree stands with `p` used up besides. After an Ok the used-up parameters and the facts are as before.
#[cycle(tree_stands)]
#[tactic(auto, using(crate::proofs::UsedUp::used_up))]
fn stands_without(
    alloc: Global,
    pool: &Pool,
    used: &mut Used,
    p: u32,
    facts: &mut Items<Fact>,
    tree: &Tree,
) -> Result<bool, AllocError>
    requires pool_is { IsTrue (is_pool pool.now) }
    requires facts_are { IsTrue (list_all is_fact facts.old) }
    ensures answer { IfOk result (λ yes. yes ≡ tree_stands pool.now.params pool.now.clauses tree.now
        (p ∷ used.old) facts.old) }
    ensures used { OnOk result (used.new ≡ used.old) }
    ensures facts { OnOk result (facts.new ≡ facts.old) }
{
    let count = used.count();
    used.add(p)?;
    let yes = tree_stands(alloc, pool, used, facts, tree)?;
    used.back_to(count);
    Ok(yes)
}

/// Whether a tree stands with one fact more.
#[cycle(tree_stands)]
fn stands_with(
    alloc: Global,
    pool: &Pool,
    used: &mut Used,
    facts: &mut Items<Fact>,
    fact: Fact,
    tree: &Tree,
) -> Result<bool, AllocError>
    requires pool_is { IsTrue (is_pool pool.now) }
    requires facts_are { IsTrue (list_all is_fact facts.old) }
    requires fact_is { IsTrue (is_fact fact) }
    ensures answer { IfOk result (λ yes. yes ≡ tree_stands pool.now.params pool.now.clauses tree.now used.old
        (facts.old ++ fact ∷ [])) }
    ensures used { OnOk result (used.new ≡ used.old) }
    ensures facts { OnOk result (facts.new ≡ facts.old) }
{
    facts.push(fact)?;
    let yes = tree_stands(alloc, pool, used, facts, tree)?;
    let _ = facts.pop();
    Ok(yes)
}

/// Whether there is one child for each literal, and each stands with its literal as one fact more.
#[cycle(tree_stands)]
fn each_stands(
    alloc: Global,
    pool: &Pool,
    used: &mut Used,
    facts: &mut Items<Fact>,
    literals: &[Fact],
    children: &[Tree],
) -> Result<bool, AllocError>
    requires pool_is { IsTrue (is_pool pool.now) }
    requires facts_are { IsTrue (list_all is_fact facts.old) }
    requires literals_are { IsTrue (list_all is_fact literals.now) }
    ensures answer { IfOk result (λ yes. yes ≡ each_stands used.old
        (map (tree_stands pool.now.params pool.now.clauses) children.now) (spec.with_each facts.old literals.now)) }
    ensures used { OnOk result (used.new ≡ used.old) }
    ensures facts { OnOk result (facts.new ≡ facts.old) }
{
    let mut rest = literals;
    for child in children {
        match rest {
            [] => return Ok(false),
            [literal, others @ ..] => {
                let literal = literal.copy(alloc)?;
                if !stands_with(alloc, pool, used, facts, literal, child)? {
                    return Ok(false);
                }
                rest = others;
            }
        }
    }
    Ok(rest.is_empty())
}

/// Whether there are `m` children, `m` at least 2, and each stands with its remainder of `t` modulo `m`, over
/// parameters that aren't used up.
#[cycle(tree_stands)]
fn residues_stand(
    alloc: Global,
    pool: &Pool,
    used: &mut Used,
    facts: &mut Items<Fact>,
    m: i128,
    t: &Lin,
    children: &[Tree],
) -> Result<bool, AllocError>
    requires pool_is { IsTrue (is_pool pool.now) }
    requires facts_are { IsTrue (list_all is_fact facts.old) }
    ensures answer { IfOk result (λ yes. yes ≡ residues_stand pool.now.params m t.now
        (map (tree_stands pool.now.params pool.now.clauses) children.now) used.old facts.old) }
    ensures used { OnOk result (used.new ≡ used.old) }
    ensures facts { OnOk result (facts.new ≡ facts.old) }
{
    if m < 2 || children.len() as i128 != m {
        return Ok(false);
    }
    if !is_lin(t) || !is_over_free(pool.params, used, t) {
        return Ok(false);
    }
    each_residue_stands(alloc, pool, used, facts, m, t, children)
}

/// Whether child i stands with the fact that `m` divides `t - i`, for each child.
#[cycle(tree_stands)]
fn each_residue_stands(
    alloc: Global,
    pool: &Pool,
    used: &mut Used,
    facts: &mut Items<Fact>,
    m: i128,
    t: &Lin,
    children: &[Tree],
) -> Result<bool, AllocError>
    requires pool_is { IsTrue (is_pool pool.now) }
    requires facts_are { IsTrue (list_all is_fact facts.old) }
    requires m { pos 2 ≤ℤ m }
    requires t { IsTrue (is_lin t.now) }
    ensures answer { IfOk result (λ yes. yes ≡ numbered_stand (spec.residue_steps t.now)
        (spec.residue_child facts.old m t.now) used.old 0
        (map (tree_stands pool.now.params pool.now.clauses) children.now)) }
    ensures used { OnOk result (used.new ≡ used.old) }
    ensures facts { OnOk result (facts.new ≡ facts.old) }
{
    for (i, child) in children.iter().enumerate() {
        let Some(fact) = residue(alloc, m, t, i)? else {
            return Ok(false);
        };
        if !stands_with(alloc, pool, used, facts, fact, child)? {
            return Ok(false);
        }
    }
    Ok(true)
}

/// Whether `p` is a parameter that isn't used up, and there is one child for each of its test points, which stands
/// there. After an Ok the used-up parameters are as before.
#[cycle(tree_stands)]
fn least_stands(
    alloc: Global,
    pool: &Pool,
    used: &mut Used,
    facts: &[Fact],
    p: u32,
    children: &[Tree],
) -> Result<bool, AllocError>
    requires pool_is { IsTrue (is_pool pool.now) }
    requires facts_are { IsTrue (list_all is_fact facts.now) }
    ensures answer { IfOk result (λ yes. yes ≡ least_stands pool.now.params p
        (map (tree_stands pool.now.params pool.now.clauses) children.now) used.old facts.now) }
    ensures used { OnOk result (used.new ≡ used.old) }
{
    if !is_free(pool.params, used, p) {
        return Ok(false);
    }
    let Some(d) = period(p, facts)? else {
        return Ok(false);
    };
    if has_lower_bound(p, facts) {
        return bounds_stand(alloc, pool, used, facts, p, &d, children);
    }
    if !is_count(&d, children.len()) {
        return Ok(false);
    }
    far_stand(alloc, pool, used, facts, p, children)
}

/// Whether each child stands where `p` is far down and its number modulo the period.
#[cycle(tree_stands)]
fn far_stand(
    alloc: Global,
    pool: &Pool,
    used: &mut Used,
    facts: &[Fact],
    p: u32,
    children: &[Tree],
) -> Result<bool, AllocError>
    requires pool_is { IsTrue (is_pool pool.now) }
    requires facts_are { IsTrue (list_all is_fact facts.now) }
    ensures answer { IfOk result (λ yes. yes ≡ numbered_stand (spec.far_child_steps p facts.now)
        (spec.far_child p facts.now) (p ∷ used.old) 0
        (map (tree_stands pool.now.params pool.now.clauses) children.now)) }
    ensures used { OnOk result (used.new ≡ used.old) }
{
    for (j, child) in children.iter().enumerate() {
        let Some(mut made) = far(alloc, p, j, facts)? else {
            return Ok(false);
        };
        if !stands_without(alloc, pool, used, p, &mut made, child)? {
            return Ok(false);
        }
    }
    Ok(true)
}

/// Whether the children from `start` on, as many as `count`, stand at the first test points of a lower bound.
#[cycle(tree_stands)]
fn points_stand(
    alloc: Global,
    pool: &Pool,
    used: &mut Used,
    facts: &[Fact],
    p: u32,
    side: &Side,
    children: &[Tree],
    start: usize,
    count: usize,
) -> Result<bool, AllocError>
    requires pool_is { IsTrue (is_pool pool.now) }
    requires facts_are { IsTrue (list_all is_fact facts.now) }
    requires side_is { IsTrue (is_side p side.now) }
    requires within { start + count ≤ length children.now }
    ensures answer { IfOk result (λ yes. yes ≡ points_stand p facts.now (p ∷ used.old) side.now.b side.now.rest
        (map (tree_stands pool.now.params pool.now.clauses) (take count (drop start children.now)))) }
    ensures used { OnOk result (used.new ≡ used.old) }
{
    for j in 0..count {
        let child = &children[start + j];
        let Some(mut made) = point(alloc, p, side, j, facts)? else {
            return Ok(false);
        };
        if !stands_without(alloc, pool, used, p, &mut made, child)? {
            return Ok(false);
        }
    }
    Ok(true)
}

/// How many of the children from `start` on belong to the lower bound that a fact is, where each of them stands at its
/// test point; 0 where the fact is no lower bound of `p`.
#[cycle(tree_stands)]
fn bound_stands(
    alloc: Global,
    pool: &Pool,
    used: &mut Used,
    facts: &[Fact],
    p: u32,
    d: &i128,
    fact: &Fact,
    children: &[Tree],
    start: usize,
) -> Result<Option<usize>, AllocError>
    requires pool_is { IsTrue (is_pool pool.now) }
    requires facts_are { IsTrue (list_all is_fact facts.now) }
    requires fact { IsTrue (is_fact fact.now) }
    requires start { start ≤ length children.now }
    ensures count { IfOk result (λ n. n ≡ bound_stands p facts.now (p ∷ used.old) (spec.lower_bound p d.now fact.now)
        (map (tree_stands pool.now.params pool.now.clauses) (drop start children.now))) }
    ensures within { IfOk result (λ o. IfSome o (λ n. start + n ≤ length children.now)) }
    ensures used { OnOk result (used.new ≡ used.old) }
{
    let Some(found) = lower_bound(alloc, p, d, fact)? else {
        return Ok(None);
    };
    let Some(bound) = found else {
        return Ok(Some(0));
    };
    let Some(count) = count_within(&bound.children, children.len() - start) else {
        return Ok(None);
    };
    if points_stand(
        alloc,
        pool,
        used,
        facts,
        p,
        &bound.side,
        children,
        start,
        count,
    )? {
        Ok(Some(count))
    } else {
        Ok(None)
    }
}

/// Whether the children stand at the test points of the lower bounds, in the order of the facts.
#[cycle(tree_stands)]
fn bounds_stand(
    alloc: Global,
    pool: &Pool,
    used: &mut Used,
    facts: &[Fact],
    p: u32,
    d: &i128,
    children: &[Tree],
) -> Result<bool, AllocError>
    requires pool_is { IsTrue (is_pool pool.now) }
    requires facts_are { IsTrue (list_all is_fact facts.now) }
    ensures answer { IfOk result (λ yes. yes ≡ bounds_stand p d.now facts.now (p ∷ used.old) facts.now
        (map (tree_stands pool.now.params pool.now.clauses) children.now)) }
    ensures used { OnOk result (used.new ≡ used.old) }
{
    let mut start = 0;
    for fact in facts {
        match bound_stands(alloc, pool, used, facts, p, d, fact, children, start)? {
            Some(count) => start += count,
            None => return Ok(false),
        }
    }
    Ok(start == children.len())
}
