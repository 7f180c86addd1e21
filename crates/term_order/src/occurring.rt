//! Whether a variable is in a term.

ghost use Rattle.std.specs.Prelude.{◌≡◌};
ghost use Rattle.term_base.specs.Trees as spec;
ghost use Rattle.term_base.specs.Trees.{tree};

use term_base::{Term, Variable};

/// Whether a variable is in a term.
pub fn occurs(v: Variable, t: &Term) -> bool
    ensures { result ≡ spec.occurs v (tree t.now) }
{
    match t {
        Term::Var(w) => *w == v,
        Term::Num(_) | Term::True => false,
        Term::Sum(a, b) => occurs(v, a.get()) || occurs(v, b.get()),
        Term::Scale(_, a) => occurs(v, a.get()),
        Term::App(_, args) => {
            for arg in args.as_slice() {
                if occurs(v, arg) {
                    return true;
                }
            }
            false
        }
    }
}
