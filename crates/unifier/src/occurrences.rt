//! A variable in a term, and a term in its place.

ghost use Rattle.std.specs.Prelude.{◌≡◌, IfOk};
ghost use Rattle.term_base.specs.Trees.{tree};
ghost use Rattle.term_base.specs.Trees as spec;
ghost use Rattle.term_base.specs.Substitution.{put_in, single};

use sqlite_items::{Boxed, Items};
use std::alloc::{AllocError, Global};
use term_base::{Term, Variable};

/// Whether a variable is in a term.
pub fn occurs(v: Variable, t: &Term) -> bool
    ensures { result ≡ spec.occurs v (tree t.now) }
{
    match t {
        Term::Var(w) => *w == v,
        Term::Num(_) | Term::True => false,
        Term::Sum(a, b) => occurs(v, a.get()) || occurs(v, b.get()),
        Term::Scale(_, a) => occurs(v, a.get()),
        Term::App(_, args) => {
            for arg in args.as_slice() {
                if occurs(v, arg) {
                    return true;
                }
            }
            false
        }
    }
}

/// The term with another one for a variable.
pub fn replace(alloc: Global, t: &Term, v: Variable, new: &Term) -> Result<Term, AllocError>
    ensures { IfOk result (λ r. tree r ≡ put_in (single v (tree new.now)) (tree t.now)) }
{
    match t {
        Term::Var(w) => if v == *w {
            new.copy(alloc)
        } else {
            Ok(Term::Var(*w))
        },
        Term::Num(n) => Ok(Term::Num(*n)),
        Term::True => Ok(Term::True),
        Term::Sum(a, b) => {
            let a = Boxed::new(alloc, replace(alloc, a.get(), v, new)?)?;
            let b = Boxed::new(alloc, replace(alloc, b.get(), v, new)?)?;
            Ok(Term::Sum(a, b))
        }
        Term::Scale(k, a) => {
            let a = Boxed::new(alloc, replace(alloc, a.get(), v, new)?)?;
            Ok(Term::Scale(*k, a))
        }
        Term::App(f, args) => {
            let mut all = Items::new(alloc);
            for arg in args.as_slice() {
                all.push(replace(alloc, arg, v, new)?)?;
            }
            Ok(Term::App(*f, all))
        }
    }
}
