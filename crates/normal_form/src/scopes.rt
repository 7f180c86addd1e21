//! What is in scope inside quantifiers.

ghost use Rattle.std.specs.Prelude.{◌≡◌, ◌<◌, ◌≤◌, [], map, take, length, IfOk, OnOk};
ghost use Rattle.normal_form.specs.Cnf.{with_universal, with_skolem, skolem};

use sqlite_items::Items;
use std::alloc::{AllocError, Global};
use term_base::{Name, Sort, Sorts, Symbol, Term, Variable};

/// What is in scope: the universal variables, outermost first, and what stands for each binder's number,
/// in the order of the binders.
#[derive(Drop)]
pub struct Scope {
    pub universal: Items<Variable>,
    pub terms: Items<(u32, Term)>,
}

/// Where a scope ends, to come back to it.
#[derive(Clone, Copy)]
pub(crate) struct Depth {
    pub(crate) universal: usize,
    pub(crate) terms: usize,
}

impl Scope {
    /// The scope outside all binders.
    pub(crate) fn empty(alloc: Global) -> Scope
        ensures universal { result.universal ≡ [] }
        ensures terms { result.terms ≡ [] }
    {
        Scope {
            universal: Items::new(alloc),
            terms: Items::new(alloc),
        }
    }

    /// Where the scope ends.
    pub(crate) fn depth(&self) -> Depth
        ensures universal { result.universal ≡ length self.now.universal }
        ensures terms { result.terms ≡ length self.now.terms }
    {
        Depth {
            universal: self.universal.len(),
            terms: self.terms.len(),
        }
    }

    /// Leaves the binders that were entered since then.
    pub(crate) fn leave_to(&mut self, depth: Depth)
        ensures { self.new
            ≡ record { universal = take depth.universal self.old.universal; terms = take depth.terms self.old.terms } }
    {
        shorten(&mut self.universal, depth.universal);
        shorten(&mut self.terms, depth.terms);
    }

    /// Enters binders whose variables are universal.
    pub(crate) fn bind_universal(&mut self, variables: &[Variable]) -> Result<(), AllocError>
        ensures { OnOk result (self.new ≡ with_universal variables.now self.old) }
    {
        for v in variables {
            self.universal.push(*v)?;
            self.terms.push((v.id, Term::Var(*v)))?;
        }
        Ok(())
    }

    /// Enters binders whose variables are replaced by the Skolem symbols with these numbers, from `next` on.
    pub(crate) fn bind_skolem(
        &mut self,
        alloc: Global,
        next: usize,
        variables: &[Variable],
    ) -> Result<(), AllocError>
        ensures { OnOk result (self.new ≡ with_skolem next variables.now self.old) }
    {
        let mut number = next;
        for v in variables {
            let term = self.skolem_term(alloc, number)?;
            self.terms.push((v.id, term))?;
            number = number.checked_add(1).ok_or(AllocError)?;
        }
        Ok(())
    }

    /// The symbol of a number, applied to the universal variables.
    fn skolem_term(&self, alloc: Global, number: usize) -> Result<Term, AllocError>
        ensures { IfOk result (λ t. t ≡ Term.App number (map Term.Var self.now.universal)) }
    {
        let Ok(number) = u32::try_from(number) else {
            return Err(AllocError);
        };
        let mut args = Items::new(alloc);
        for v in self.universal.as_slice() {
            args.push(Term::Var(*v))?;
        }
        Ok(Term::App(number, args))
    }

    /// The Skolem symbol that stands for a variable.
    pub(crate) fn skolem_symbol(&self, alloc: Global, v: Variable) -> Result<Symbol, AllocError>
        ensures { IfOk result (λ s. s ≡ skolem self.now.universal v) }
    {
        let args = self.universal_sorts(alloc)?;
        let name = Name::from_bytes(alloc, b"")?;
        Ok(Symbol::new(name, args, v.sort))
    }

    /// The sorts of the universal variables.
    fn universal_sorts(&self, alloc: Global) -> Result<Sorts, AllocError>
        ensures { IfOk result (λ sorts. sorts ≡ map (λ u. u.sort) self.now.universal) }
    {
        let mut sorts: Vec<Sort> = Vec::new(alloc);
        for u in self.universal.as_slice() {
            sorts.push(u.sort)?;
        }
        Sorts::from_slice(alloc, sorts.as_slice())
    }
}

/// Drops the items from a place on.
fn shorten<T: Drop>(items: &mut Items<T>, len: usize)
    ensures { items.new ≡ take len items.old }
{
    while items.len() > len {
        items.pop();
    }
}
