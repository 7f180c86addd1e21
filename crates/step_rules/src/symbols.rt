//! Symbols that are there, written substitutions, and terms that may be defined.

ghost use Rattle.std.specs.Prelude.{◌≡◌, map};
ghost use Rattle.std.specs.List.{list_all};
ghost use Rattle.term_base.specs.Trees.{tree, trees};
ghost use Rattle.term_base.specs.Lits.{lit, lits};
ghost use Rattle.term_base.specs.Sorting.{sort, has_sort};
ghost use Rattle.term_base.specs.SimpleTest.{are_simple_pairs};
ghost use Rattle.step_rules.specs.Symbols as spec;

use term_base::{
    Clause, Literal, Sort, Subst, Symbol, Term, Variable, is_foreground, is_simple, sort_of,
};

/// Whether each symbol of a term has a number below `n`.
pub fn is_known(n: usize, t: &Term) -> bool
    ensures { result ≡ spec.is_known n (tree t.now) }
{
    match t {
        Term::Var(_) | Term::Num(_) | Term::True => true,
        Term::Sum(a, b) => is_known(n, a.get()) && is_known(n, b.get()),
        Term::Scale(_, a) => is_known(n, a.get()),
        Term::App(f, args) => {
            if *f as usize >= n {
                return false;
            }
            for arg in args.as_slice() {
                if !is_known(n, arg) {
                    return false;
                }
            }
            true
        }
    }
}

fn is_known_literal(n: usize, l: &Literal) -> bool
    ensures { result ≡ spec.is_known_lit n (lit l.now) }
{
    match l {
        Literal::Equal(s, t) | Literal::Differ(s, t) | Literal::AtMost(s, t) => {
            is_known(n, s) && is_known(n, t)
        }
    }
}

/// Whether each symbol of a clause has a number below `n`.
pub fn is_known_clause(n: usize, c: &Clause) -> bool
    ensures { result ≡ spec.is_known_clause n (lits c.now) }
{
    for literal in c.literals.as_slice() {
        if !is_known_literal(n, literal) {
            return false;
        }
    }
    true
}

/// Whether the pairs of a substitution are simple.
fn has_simple_pairs(signature: &[Symbol], s: &Subst) -> bool
    ensures { result ≡ are_simple_pairs signature.now s.now }
{
    let _ascending = s.pairs();
    is_simple(signature, s)
}

fn are_known_pairs(n: usize, pairs: &[(Variable, Term)]) -> bool
    ensures { result ≡ list_all (spec.is_known_pair n) pairs.now }
{
    for pair in pairs {
        if !is_known(n, &pair.1) {
            return false;
        }
    }
    true
}

/// Whether each pair of a substitution has a term of the variable's sort, pure for an abstraction variable,
/// whose symbols have numbers below `n`.
pub fn is_written(signature: &[Symbol], n: usize, s: &Subst) -> bool
    ensures { result ≡ spec.is_written signature.now n s.now }
{
    has_simple_pairs(signature, s) && are_known_pairs(n, s.pairs())
}

fn is_ground(t: &Term) -> bool
    ensures { result ≡ spec.is_ground (tree t.now) }
{
    match t {
        Term::Var(_) => false,
        Term::Num(_) | Term::True => true,
        Term::Sum(a, b) => is_ground(a.get()) && is_ground(b.get()),
        Term::Scale(_, a) => is_ground(a.get()),
        Term::App(_, args) => {
            for arg in args.as_slice() {
                if !is_ground(arg) {
                    return false;
                }
            }
            true
        }
    }
}

fn is_integer(signature: &[Symbol], t: &Term) -> bool
    ensures { result ≡ has_sort (sort signature.now (tree t.now)) Sort.Int }
{
    match sort_of(signature, t) {
        Some(found) => found == Sort::Int,
        None => false,
    }
}

fn has_foreground_head(signature: &[Symbol], t: &Term) -> bool
    ensures { result ≡ spec.has_foreground_head signature.now (tree t.now) }
{
    match t {
        Term::App(f, _) => is_foreground(signature, *f),
        _ => false,
    }
}

/// Whether a term has sort Int, no variable, and a foreground symbol as its head.
pub fn is_definable(signature: &[Symbol], t: &Term) -> bool
    ensures { result ≡ spec.is_definable signature.now (tree t.now) }
{
    has_foreground_head(signature, t) && is_ground(t) && is_integer(signature, t)
}
