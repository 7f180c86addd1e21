//! Variables, and heads that no substitution makes equal.

ghost use Rattle.std.specs.Prelude.{◌≡◌};
ghost use Rattle.term_base.specs.Trees.{tree};
ghost use Rattle.hier_rules.specs.Heads as spec;

use term_base::Term;

/// Whether a term is a variable.
pub(crate) fn is_variable(t: &Term) -> bool
    ensures { result ≡ spec.is_variable (tree t.now) }
{
    match t {
        Term::Var(_) => true,
        _ => false,
    }
}

/// Whether one of two terms is a variable, or both have one head.
pub(crate) fn heads_meet(l: &Term, u: &Term) -> bool
    ensures { result ≡ spec.heads_meet (tree l.now) (tree u.now) }
{
    match (l, u) {
        (Term::Var(_), _) | (_, Term::Var(_)) => true,
        (Term::Num(m), Term::Num(n)) => *m == *n,
        (Term::True, Term::True) => true,
        (Term::Sum(_, _), Term::Sum(_, _)) => true,
        (Term::Scale(_, _), Term::Scale(_, _)) => true,
        (Term::App(f, _), Term::App(g, _)) => *f == *g,
        _ => false,
    }
}
