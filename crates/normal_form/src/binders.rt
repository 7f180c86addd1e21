//! The binders in scope, with what makes their lookup fast.

ghost use Rattle.std.specs.Prelude.{◌≡◌, ◌<◌, [], take, length, IfOk, OnOk};
ghost use Rattle.normal_form.specs.Cnf.{at_variable, instance, with_universal, with_skolem, skolem};

use crate::lookup::{ascending_from, place_behind};
use crate::scopes::{Depth, Scope};
use sqlite_items::Items;
use std::alloc::{AllocError, Global};
use std::marker::Model;
use term_base::{Symbol, Term, Variable};

/// What is in scope, and how many of its binders, from the outermost on, are known to have ascending
/// numbers. In a formula that was read all of them have. Contracts see the scope.
#[derive(Drop)]
pub(crate) struct Binders {
    scope: Scope,
    ascending: usize,
}

impl Model for Binders {
    ghost use Rattle.std.specs.Coded.{codes};
    ghost use Rattle.normal_form.specs.declared.scopes.Scope as declared;
    ghost use Rattle.term_base.specs.contracts.terms.Term as term;
    ghost use Rattle.normal_form.specs.Lookup.{Ascends};

    ghost Value = { declared.Scope };

    ghost coded = { Prim.hlevel (codes, term.the_row.coded) };

    ghost view = { λ b. b.scope };

    ghost invariant = { λ b. Ascends b.ascending b.scope.terms };
}

impl Binders {
    /// The scope outside all binders.
    pub(crate) fn empty(alloc: Global) -> Binders
        ensures universal { result.universal ≡ [] }
        ensures terms { result.terms ≡ [] }
    {
        Binders {
            scope: Scope::empty(alloc),
            ascending: 0,
        }
    }

    /// Where the scope ends.
    pub(crate) fn depth(&self) -> Depth
        ensures universal { result.universal ≡ length self.now.universal }
        ensures terms { result.terms ≡ length self.now.terms }
    {
        self.scope.depth()
    }

    /// Leaves the binders that were entered since then.
    pub(crate) fn leave_to(&mut self, depth: Depth)
        ensures { self.new
            ≡ record { universal = take depth.universal self.old.universal; terms = take depth.terms self.old.terms } }
    {
        self.ascending = self.ascending.min(depth.terms);
        self.scope.leave_to(depth);
    }

    /// Enters binders whose variables are universal.
    pub(crate) fn bind_universal(&mut self, variables: &[Variable]) -> Result<(), AllocError>
        ensures { OnOk result (self.new ≡ with_universal variables.now self.old) }
    {
        let known = self.ascending;
        self.ascending = 0;
        self.scope.bind_universal(variables)?;
        self.ascending = ascending_from(self.scope.terms.as_slice(), known);
        Ok(())
    }

    /// Enters binders whose variables are replaced by the Skolem symbols with these numbers, from `next` on.
    pub(crate) fn bind_skolem(
        &mut self,
        alloc: Global,
        next: usize,
        variables: &[Variable],
    ) -> Result<(), AllocError>
        ensures { OnOk result (self.new ≡ with_skolem next variables.now self.old) }
    {
        let known = self.ascending;
        self.ascending = 0;
        self.scope.bind_skolem(alloc, next, variables)?;
        self.ascending = ascending_from(self.scope.terms.as_slice(), known);
        Ok(())
    }

    /// The Skolem symbol that stands for a variable.
    pub(crate) fn skolem_symbol(&self, alloc: Global, v: Variable) -> Result<Symbol, AllocError>
        ensures { IfOk result (λ s. s ≡ skolem self.now.universal v) }
    {
        self.scope.skolem_symbol(alloc, v)
    }

    /// What stands for a variable: the term of the innermost binder with its number, or else the variable.
    fn at_variable(&self, alloc: Global, v: Variable) -> Result<Term, AllocError>
        ensures { IfOk result (λ t. t ≡ at_variable self.now.terms v) }
    {
        let terms = self.scope.terms.as_slice();
        let behind = place_behind(terms, self.ascending, v.id);
        if behind == 0 {
            return Ok(Term::Var(v));
        }
        terms[behind - 1].1.copy(alloc)
    }

    /// The term with what stands for its variables.
    pub(crate) fn instance(&self, alloc: Global, t: &Term) -> Result<Term, AllocError>
        ensures { IfOk result (λ u. u ≡ instance self.now t.now) }
    {
        match t {
            Term::Var(v) => self.at_variable(alloc, *v),
            Term::Num(n) => Ok(Term::Num(*n)),
            Term::True => Ok(Term::True),
            Term::Sum(a, b) => {
                let a = self.instance(alloc, a.get())?;
                Term::sum(alloc, a, self.instance(alloc, b.get())?)
            }
            Term::Scale(k, a) => Term::scale(alloc, *k, self.instance(alloc, a.get())?),
            Term::App(g, args) => {
                let mut instances = Items::new(alloc);
                for arg in args.as_slice() {
                    instances.push(self.instance(alloc, arg)?)?;
                }
                Ok(Term::App(*g, instances))
            }
        }
    }
}
