//! Definitions of terms by new parameters.

ghost use Rattle.std.specs.Prelude.{◌≡◌, [], ◌∷◌, map};
ghost use Rattle.term_base.specs.Trees.{tree, trees, node, symbol, none, same_tree, same_trees};
ghost use Rattle.term_base.specs.Lits.{lits, equation};
ghost use Rattle.step_rules.specs.Literals.{same_lits};
ghost use Rattle.proof_steps.specs.Standing as spec;

use step_rules::{is_definable, is_known};
use term_base::{Clause, Literal, Symbol, Term};

/// Whether there are no arguments.
fn are_none(args: &[Term]) -> bool
    ensures { result ≡ same_trees none (trees (map tree args.now)) }
{
    args.is_empty()
}

/// Whether a term is the parameter of a number.
fn is_parameter(t: &Term, f: u32) -> bool
    ensures { result ≡ same_tree (node (symbol f) none) (tree t.now) }
{
    match t {
        Term::App(g, args) => f == *g && are_none(args.as_slice()),
        _ => false,
    }
}

/// Whether a clause is one equation of a term and the parameter of a number.
fn is_definition_of(t: &Term, f: u32, c: &Clause) -> bool
    ensures { result ≡ same_lits (equation (tree t.now) (node (symbol f) none) ∷ []) (lits c.now) }
{
    match c.literals.as_slice() {
        [Literal::Equal(s, p)] => t == s && is_parameter(p, f),
        _ => false,
    }
}

/// Whether a clause is the definition of a term by the next symbol.
pub(crate) fn definition_stands(
    signature: &[Symbol],
    next: usize,
    t: &Term,
    f: u32,
    c: &Clause,
) -> bool
    ensures { result ≡ spec.definition_stands signature.now next t.now f (lits c.now) }
{
    if !is_definable(signature, t) || !is_known(next, t) {
        return false;
    }
    f as usize == next && is_definition_of(t, f, c)
}
