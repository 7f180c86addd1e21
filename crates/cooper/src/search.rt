//! The search over the ground clauses: a tree, or the values of the first satisfied leaf.

ghost use Rattle.std.specs.Prelude.{◌≡◌, ◌<◌, ◌≤ℤ◌, ◌<ℤ◌, ◌++◌, [], ◌∷◌, pos, false, length, IfOk, IsTrue};
ghost use Rattle.std.specs.List.{list_all};
ghost use Rattle.lin_base.specs.Whole.{is_zero};
ghost use Rattle.lin_base.specs.Fact.{is_fact, is_lin};
ghost use Rattle.lin_base.specs.Sum as sum;
ghost use Rattle.cert_tree.specs.Bounds.{is_side};
ghost use Rattle.cert_tree.specs.Children as children;
ghost use Rattle.cert_tree.specs.Counting.{count_from};
ghost use Rattle.cert_tree.specs.Search as search;
ghost use Rattle.cooper_rows.specs.Rows.{are_facts};
ghost use Rattle.cooper.specs.Sharing.{at_place};
ghost use Rattle.cooper.specs.Walks as spec;
ghost use Rattle.cooper.specs.Walks.{one_child};
ghost use Rattle.cooper.specs.Visits.{IsSearch, Visits};

use crate::choosing::{Equation, first_equation, first_false, first_unknown, has_bound};
use crate::closing::{
    back_by, back_far, close_case, close_clash, close_least, close_solve, far_at, index_of,
    whole_count,
};
use crate::making::{Split, bound_at, period_of, point_side, solved_side, split_by};
use crate::sharing::{put_far, put_side, restore};
use cert_tree::Tree;
use cert_tree::search_tools::{Side, unknowns};
use cooper_rows::counting::{BudgetError, take};
use lin_base::Fact;
use sqlite_items::Items;
use std::alloc::Global;

/// A search: how many rows and nodes it may still count, and the facts at the node that it visits.
#[derive(Drop)]
pub struct Search {
    /// Where memory is taken from.
    pub alloc: Global,
    /// How many rows and nodes are left.
    pub room: u64,
    /// The facts at this node.
    pub facts: Vec<Fact>,
}

impl Search {
    /// A search at the root.
    pub fn new(alloc: Global, room: u64) -> Search
        ensures room { result.room ≡ room }
        ensures facts { result.facts.items ≡ [] }
    {
        Search {
            alloc,
            room,
            facts: Vec::new(alloc),
        }
    }

    // ---- nodes with clauses left: a Case

    /// Visits a node with these clauses left. The facts are as before where it gives an answer.
    #[cycle(visit_clauses)]
    pub fn visit_clauses(
        &mut self,
        clauses: &[(u32, Items<Fact>)],
        trees: &mut Items<Tree>,
    ) -> Result<Option<Items<(u32, i128)>>, BudgetError>
        requires clauses { IsTrue (are_facts clauses.now) }
        requires facts { IsSearch self.old }
        ensures walked { Visits result self.old self.new trees.old trees.new
            (one_child (search.searched clauses.now self.old.facts.items)) }
        ensures kept { IfOk result (λ _. self.new.facts.items ≡ self.old.facts.items) }
    {
        match clauses {
            [] => {
                let all = unknowns(self.alloc, self.facts.as_slice())?;
                self.visit_node(all.len(), trees)
            }
            [clause, others @ ..] => {
                take(&mut self.room, &1)?;
                if let Some(n) = first_false(self.facts.as_slice())? {
                    return Ok(close_clash(n, trees)?);
                }
                let mut below = Items::new(self.alloc);
                let found = self.visit_literals(clause.1.as_slice(), others, &mut below)?;
                Ok(close_case(clause.0, below, found, trees)?)
            }
        }
    }

    /// Visits the children of a Case, literal by literal.
    #[cycle(visit_clauses)]
    fn visit_literals(
        &mut self,
        literals: &[Fact],
        clauses: &[(u32, Items<Fact>)],
        trees: &mut Items<Tree>,
    ) -> Result<Option<Items<(u32, i128)>>, BudgetError>
        requires literals { IsTrue (list_all is_fact literals.now) }
        requires clauses { IsTrue (are_facts clauses.now) }
        requires facts { IsSearch self.old }
        ensures walked { Visits result self.old self.new trees.old trees.new
            (spec.literals_walk (search.searched clauses.now) self.old.facts.items literals.now) }
        ensures kept { IfOk result (λ _. self.new.facts.items ≡ self.old.facts.items) }
    {
        for literal in literals {
            match self.visit_literal(literal, clauses, trees)? {
                Some(values) => return Ok(Some(values)),
                None => {}
            }
        }
        Ok(None)
    }

    /// Visits the child of a Case with this literal.
    #[cycle(visit_clauses)]
    fn visit_literal(
        &mut self,
        literal: &Fact,
        clauses: &[(u32, Items<Fact>)],
        trees: &mut Items<Tree>,
    ) -> Result<Option<Items<(u32, i128)>>, BudgetError>
        requires literal { IsTrue (is_fact literal.now) }
        requires clauses { IsTrue (are_facts clauses.now) }
        requires facts { IsSearch self.old }
        ensures walked { Visits result self.old self.new trees.old trees.new
            (one_child (search.searched clauses.now (self.old.facts.items ++ literal.now ∷ []))) }
        ensures kept { IfOk result (λ _. self.new.facts.items ≡ self.old.facts.items) }
    {
        self.facts.push(literal.copy(self.alloc)?)?;
        let found = self.visit_clauses(clauses, trees)?;
        self.facts.pop();
        Ok(found)
    }

    // ---- nodes without a clause left: a Solve or a Least

    /// Visits a node without a clause left, with at most `k` unknowns. The facts are as before where it gives an
    /// answer.
    #[cycle(visit_node)]
    fn visit_node(
        &mut self,
        k: usize,
        trees: &mut Items<Tree>,
    ) -> Result<Option<Items<(u32, i128)>>, BudgetError>
        requires { IsSearch self.old }
        ensures walked { Visits result self.old self.new trees.old trees.new
            (one_child (search.eliminate k self.old.facts.items)) }
        ensures kept { IfOk result (λ _. self.new.facts.items ≡ self.old.facts.items) }
    {
        take(&mut self.room, &1)?;
        if let Some(n) = first_false(self.facts.as_slice())? {
            return Ok(close_clash(n, trees)?);
        }
        if k == 0 {
            return Ok(Some(Items::new(self.alloc)));
        }
        self.visit_open(k - 1, trees)
    }

    /// Visits the child of the first equation, or those of the first unknown, where there is one.
    #[cycle(visit_node)]
    fn visit_open(
        &mut self,
        k: usize,
        trees: &mut Items<Tree>,
    ) -> Result<Option<Items<(u32, i128)>>, BudgetError>
        requires { IsSearch self.old }
        ensures walked { Visits result self.old self.new trees.old trees.new
            (spec.open_node (search.eliminate k) self.old.facts.items) }
        ensures kept { IfOk result (λ _. self.new.facts.items ≡ self.old.facts.items) }
    {
        if let Some(equation) = first_equation(self.alloc, self.facts.as_slice())? {
            return self.visit_solved(k, &equation, trees);
        }
        match first_unknown(self.facts.as_slice()) {
            Some(p) => self.visit_least(k, p, trees),
            None => Ok(Some(Items::new(self.alloc))),
        }
    }

    /// Visits the child of Solve.
    #[cycle(visit_node)]
    fn visit_solved(
        &mut self,
        k: usize,
        equation: &Equation,
        trees: &mut Items<Tree>,
    ) -> Result<Option<Items<(u32, i128)>>, BudgetError>
        requires value { IsTrue (is_lin equation.now.sum) }
        requires occurring { is_zero (sum.coef equation.now.p equation.now.sum) ≡ false }
        requires facts { IsSearch self.old }
        ensures walked { Visits result self.old self.new trees.old trees.new
            (spec.solve_node (search.eliminate k) (spec.choice_of equation.now) self.old.facts.items) }
        ensures kept { IfOk result (λ _. self.new.facts.items ≡ self.old.facts.items) }
    {
        let side = solved_side(self.alloc, equation.p, &equation.sum)?;
        let mut below = Items::new(self.alloc);
        let found = self.visit_place(k, equation.p, &side, &mut below)?;
        Ok(close_solve(self.alloc, equation, below, found, trees)?)
    }

    /// Visits the child where `p` is by a side.
    #[cycle(visit_node)]
    fn visit_place(
        &mut self,
        k: usize,
        p: u32,
        side: &Side,
        trees: &mut Items<Tree>,
    ) -> Result<Option<Items<(u32, i128)>>, BudgetError>
        requires side { IsTrue (is_side p side.now) }
        requires facts { IsSearch self.old }
        ensures walked { Visits result self.old self.new trees.old trees.new
            (spec.place_walk (search.eliminate k) p self.old.facts.items side.now) }
        ensures kept { IfOk result (λ _. self.new.facts.items ≡ self.old.facts.items) }
    {
        let kept = put_side(self.alloc, p, side, &mut self.facts)?;
        let found = self.visit_node(k, trees)?;
        restore(&mut self.facts, kept);
        back_by(self.alloc, p, side, found)
    }

    /// Visits the children of Least.
    #[cycle(visit_node)]
    fn visit_least(
        &mut self,
        k: usize,
        p: u32,
        trees: &mut Items<Tree>,
    ) -> Result<Option<Items<(u32, i128)>>, BudgetError>
        requires { IsSearch self.old }
        ensures walked { Visits result self.old self.new trees.old trees.new
            (spec.least_node (search.eliminate k) p self.old.facts.items) }
        ensures kept { IfOk result (λ _. self.new.facts.items ≡ self.old.facts.items) }
    {
        let d = period_of(p, self.facts.as_slice())?;
        let mut below = Items::new(self.alloc);
        let split = split_by(p, d);
        let found = self.visit_split(k, &split, &mut below)?;
        Ok(close_least(p, below, found, trees)?)
    }

    /// Visits the children by the lower bounds, or far down where there is none.
    #[cycle(visit_node)]
    fn visit_split(
        &mut self,
        k: usize,
        split: &Split,
        trees: &mut Items<Tree>,
    ) -> Result<Option<Items<(u32, i128)>>, BudgetError>
        requires d { pos 1 ≤ℤ split.now.d }
        requires facts { IsSearch self.old }
        ensures walked { Visits result self.old self.new trees.old trees.new
            (spec.least_by (search.eliminate k) split.now.p self.old.facts.items split.now.d) }
        ensures kept { IfOk result (λ _. self.new.facts.items ≡ self.old.facts.items) }
    {
        if has_bound(split.p, self.facts.as_slice()) {
            return self.visit_bounds(k, split, trees);
        }
        let count = whole_count(&split.d);
        self.visit_far(k, split, count, trees)
    }

    /// Visits the children where `p` is far down.
    #[cycle(visit_node)]
    fn visit_far(
        &mut self,
        k: usize,
        split: &Split,
        count: u128,
        trees: &mut Items<Tree>,
    ) -> Result<Option<Items<(u32, i128)>>, BudgetError>
        requires count { pos count ≤ℤ split.now.d }
        requires facts { IsSearch self.old }
        ensures walked { Visits result self.old self.new trees.old trees.new
            (spec.far_walk (search.eliminate k) split.now.p self.old.facts.items split.now.d (count_from 0 count)) }
        ensures kept { IfOk result (λ _. self.new.facts.items ≡ self.old.facts.items) }
    {
        for j in 0..count {
            match self.visit_remainder(k, split, j, trees)? {
                Some(values) => return Ok(Some(values)),
                None => {}
            }
        }
        Ok(None)
    }

    /// Visits the child where `p` is far down and `j` modulo `d`.
    #[cycle(visit_node)]
    fn visit_remainder(
        &mut self,
        k: usize,
        split: &Split,
        j: u128,
        trees: &mut Items<Tree>,
    ) -> Result<Option<Items<(u32, i128)>>, BudgetError>
        requires below { pos j <ℤ split.now.d }
        requires facts { IsSearch self.old }
        ensures walked { Visits result self.old self.new trees.old trees.new
            (spec.far_child_walk (search.eliminate k) split.now.p self.old.facts.items split.now.d j) }
        ensures kept { IfOk result (λ _. self.new.facts.items ≡ self.old.facts.items) }
    {
        let at = index_of(j)?;
        let kept = put_far(self.alloc, split.p, at, &mut self.facts)?;
        let found = self.visit_node(k, trees)?;
        restore(&mut self.facts, kept);
        let far = far_at(split, at);
        back_far(self.alloc, &far, self.facts.as_slice(), found)
    }

    /// Visits the children of the lower bounds, in the order of the facts.
    #[cycle(visit_node)]
    fn visit_bounds(
        &mut self,
        k: usize,
        split: &Split,
        trees: &mut Items<Tree>,
    ) -> Result<Option<Items<(u32, i128)>>, BudgetError>
        requires d { pos 1 ≤ℤ split.now.d }
        requires facts { IsSearch self.old }
        ensures walked { Visits result self.old self.new trees.old trees.new
            (spec.bounds_walk (search.eliminate k) split.now.p split.now.d self.old.facts.items self.old.facts.items) }
        ensures kept { IfOk result (λ _. self.new.facts.items ≡ self.old.facts.items) }
    {
        for at in 0..self.facts.len() {
            match self.visit_bound(k, split, at, trees)? {
                Some(values) => return Ok(Some(values)),
                None => {}
            }
        }
        Ok(None)
    }

    /// Visits the children of the lower bound that the fact at a place is, if it is one.
    #[cycle(visit_node)]
    fn visit_bound(
        &mut self,
        k: usize,
        split: &Split,
        at: usize,
        trees: &mut Items<Tree>,
    ) -> Result<Option<Items<(u32, i128)>>, BudgetError>
        requires d { pos 1 ≤ℤ split.now.d }
        requires at { at < length self.old.facts.items }
        requires facts { IsSearch self.old }
        ensures walked { Visits result self.old self.new trees.old trees.new
            (spec.bound_walk (search.eliminate k) split.now.p self.old.facts.items
            (children.lower_bound split.now.p split.now.d (at_place self.old.facts.items at))) }
        ensures kept { IfOk result (λ _. self.new.facts.items ≡ self.old.facts.items) }
    {
        match bound_at(self.alloc, split, at, self.facts.as_slice())? {
            Some(bound) => {
                let count = whole_count(&bound.children);
                self.visit_points(k, split.p, &bound.side, count, trees)
            }
            None => Ok(None),
        }
    }

    /// Visits the first children of a lower bound.
    #[cycle(visit_node)]
    fn visit_points(
        &mut self,
        k: usize,
        p: u32,
        side: &Side,
        count: u128,
        trees: &mut Items<Tree>,
    ) -> Result<Option<Items<(u32, i128)>>, BudgetError>
        requires side { IsTrue (is_side p side.now) }
        requires facts { IsSearch self.old }
        ensures walked { Visits result self.old self.new trees.old trees.new
            (spec.points_walk (search.eliminate k) p self.old.facts.items side.now (count_from 0 count)) }
        ensures kept { IfOk result (λ _. self.new.facts.items ≡ self.old.facts.items) }
    {
        for j in 0..count {
            match self.visit_point(k, p, side, j, trees)? {
                Some(values) => return Ok(Some(values)),
                None => {}
            }
        }
        Ok(None)
    }

    /// Visits the child of a lower bound at test point `j`.
    #[cycle(visit_node)]
    fn visit_point(
        &mut self,
        k: usize,
        p: u32,
        side: &Side,
        j: u128,
        trees: &mut Items<Tree>,
    ) -> Result<Option<Items<(u32, i128)>>, BudgetError>
        requires side { IsTrue (is_side p side.now) }
        requires facts { IsSearch self.old }
        ensures walked { Visits result self.old self.new trees.old trees.new
            (spec.point_walk (search.eliminate k) p self.old.facts.items side.now j) }
        ensures kept { IfOk result (λ _. self.new.facts.items ≡ self.old.facts.items) }
    {
        let at = index_of(j)?;
        let moved = point_side(self.alloc, p, side, at)?;
        self.visit_place(k, p, &moved, trees)
    }
}
