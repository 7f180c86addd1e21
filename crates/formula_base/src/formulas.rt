//! Formulas.

ghost use Rattle.std.specs.Prelude.{◌≡◌, IfOk};

use sqlite_items::{Boxed, Items};
use std::alloc::{AllocError, Global};
use term_base::{Term, Variable};

/// A formula over terms: the truth values, a predicate, an equation, the inequalities `s < t` and `s <= t`
/// between terms of sort Int, the connectives, and the quantifiers with their variables. In a formula that was
/// read, the id of a bound variable is the number of its binder, counted from 0 in reading order.
#[derive(Drop)]
pub enum Formula {
    True,
    False,
    Atom(Term),
    Same(Term, Term),
    Less(Term, Term),
    LessEq(Term, Term),
    Not(Boxed<Formula>),
    And(Items<Formula>),
    Or(Items<Formula>),
    Implies(Boxed<Formula>, Boxed<Formula>),
    Iff(Boxed<Formula>, Boxed<Formula>),
    All(Items<Variable>, Boxed<Formula>),
    Some(Items<Variable>, Boxed<Formula>),
}

impl Formula {
    /// The negation of a formula.
    pub fn negation(alloc: Global, formula: Formula) -> Result<Formula, AllocError>
        ensures { IfOk result (λ f. f ≡ Formula.Not formula) }
    {
        Ok(Formula::Not(Boxed::new(alloc, formula)?))
    }

    /// The implication from one formula to another.
    pub fn implication(alloc: Global, from: Formula, to: Formula) -> Result<Formula, AllocError>
        ensures { IfOk result (λ f. f ≡ Formula.Implies from to) }
    {
        let from = Boxed::new(alloc, from);
        let to = Boxed::new(alloc, to);
        Ok(Formula::Implies(from?, to?))
    }

    /// The equivalence of two formulas.
    pub fn equivalence(alloc: Global, left: Formula, right: Formula) -> Result<Formula, AllocError>
        ensures { IfOk result (λ f. f ≡ Formula.Iff left right) }
    {
        let left = Boxed::new(alloc, left);
        let right = Boxed::new(alloc, right);
        Ok(Formula::Iff(left?, right?))
    }

    /// A formula for all values of these variables.
    pub fn for_all(
        alloc: Global,
        variables: Items<Variable>,
        body: Formula,
    ) -> Result<Formula, AllocError>
        ensures { IfOk result (λ f. f ≡ Formula.All variables body) }
    {
        let body = Boxed::new(alloc, body)?;
        Ok(Formula::All(variables, body))
    }

    /// A formula for some values of these variables.
    pub fn for_some(
        alloc: Global,
        variables: Items<Variable>,
        body: Formula,
    ) -> Result<Formula, AllocError>
        ensures { IfOk result (λ f. f ≡ Formula.Some variables body) }
    {
        let body = Boxed::new(alloc, body)?;
        Ok(Formula::Some(variables, body))
    }
}
