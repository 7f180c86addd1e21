//! Variables with raised numbers.

ghost use Rattle.std.specs.Prelude.{◌≡◌, IfOk};
ghost use Rattle.term_base.specs.Substitution.{put_in};
ghost use Rattle.term_base.specs.Trees.{tree, var};
ghost use Rattle.unifier.specs.Naming as spec;

use sqlite_items::{Boxed, Items};
use std::alloc::{AllocError, Global};
use term_base::{Term, Variable};

/// The variable of the same kind and sort whose number is raised. Past 2^32 - 1 memory counts as
/// spent.
#[tactic(auto, using(crate::proofs::NameLemmas::naming))]
pub fn raised(v: Variable, base: u32) -> Result<Variable, AllocError>
    ensures { IfOk result (λ w. w ≡ spec.raised base v) }
{
    match v.id.checked_add(base) {
        Some(id) => Ok(v.with_id(id)),
        None => Err(AllocError),
    }
}

/// The term with the numbers of its variables raised.
pub fn raise(alloc: Global, t: &Term, base: u32) -> Result<Term, AllocError>
    ensures { IfOk result (λ r. tree r ≡ put_in (λ v. var (spec.raised base v)) (tree t.now)) }
{
    match t {
        Term::Var(v) => Ok(Term::Var(raised(*v, base)?)),
        Term::Num(n) => Ok(Term::Num(*n)),
        Term::True => Ok(Term::True),
        Term::Sum(a, b) => {
            let a = Boxed::new(alloc, raise(alloc, a.get(), base)?)?;
            let b = Boxed::new(alloc, raise(alloc, b.get(), base)?)?;
            Ok(Term::Sum(a, b))
        }
        Term::Scale(k, a) => {
            let a = Boxed::new(alloc, raise(alloc, a.get(), base)?)?;
            Ok(Term::Scale(*k, a))
        }
        Term::App(f, args) => {
            let mut all = Items::new(alloc);
            for arg in args.as_slice() {
                all.push(raise(alloc, arg, base)?)?;
            }
            Ok(Term::App(*f, all))
        }
    }
}
