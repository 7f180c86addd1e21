//! The variables and symbols that are in terms and clauses.

ghost use Rattle.std.specs.Prelude.{◌≡◌};
ghost use Rattle.term_base.specs.Trees as spec;
ghost use Rattle.term_base.specs.Trees.{tree};
ghost use Rattle.term_base.specs.Lits.{lit, lits};
ghost use Rattle.term_base.specs.Known as known;

use crate::clauses::{Clause, Literal};
use crate::terms::Term;
use crate::variables::Variable;

/// Whether a term is a variable.
pub fn is_variable(t: &Term) -> bool
    ensures { result ≡ spec.is_variable (tree t.now) }
{
    match t {
        Term::Var(_) => true,
        _ => false,
    }
}

/// Whether a variable is in a term.
pub fn occurs(v: Variable, t: &Term) -> bool
    ensures { result ≡ spec.occurs v (tree t.now) }
{
    match t {
        Term::Var(w) => *w == v,
        Term::Num(_) | Term::True => false,
        Term::Sum(a, b) => occurs(v, a.get()) || occurs(v, b.get()),
        Term::Scale(_, a) => occurs(v, a.get()),
        Term::App(_, args) => {
            for arg in args.as_slice() {
                if occurs(v, arg) {
                    return true;
                }
            }
            false
        }
    }
}

/// Whether no variable is in a term.
pub fn is_ground(t: &Term) -> bool
    ensures { result ≡ known.is_ground (tree t.now) }
{
    match t {
        Term::Var(_) => false,
        Term::Num(_) | Term::True => true,
        Term::Sum(a, b) => is_ground(a.get()) && is_ground(b.get()),
        Term::Scale(_, a) => is_ground(a.get()),
        Term::App(_, args) => {
            for arg in args.as_slice() {
                if !is_ground(arg) {
                    return false;
                }
            }
            true
        }
    }
}

/// Whether each symbol of a term has a number below `n`.
pub fn is_known(n: usize, t: &Term) -> bool
    ensures { result ≡ known.is_known n (tree t.now) }
{
    match t {
        Term::Var(_) | Term::Num(_) | Term::True => true,
        Term::Sum(a, b) => is_known(n, a.get()) && is_known(n, b.get()),
        Term::Scale(_, a) => is_known(n, a.get()),
        Term::App(f, args) => {
            if *f as usize >= n {
                return false;
            }
            for arg in args.as_slice() {
                if !is_known(n, arg) {
                    return false;
                }
            }
            true
        }
    }
}

fn is_known_literal(n: usize, l: &Literal) -> bool
    ensures { result ≡ known.is_known_lit n (lit l.now) }
{
    match l {
        Literal::Equal(s, t) | Literal::Differ(s, t) | Literal::AtMost(s, t) => {
            is_known(n, s) && is_known(n, t)
        }
    }
}

/// Whether each symbol of a clause has a number below `n`.
pub fn is_known_clause(n: usize, c: &Clause) -> bool
    ensures { result ≡ known.is_known_clause n (lits c.now) }
{
    for literal in c.literals.as_slice() {
        if !is_known_literal(n, literal) {
            return false;
        }
    }
    true
}
