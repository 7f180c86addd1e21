//! Clauses that define a term already.

ghost use Rattle.std.specs.Prelude.{◌≡◌, map};
ghost use Rattle.term_base.specs.Trees.{tree, trees};
ghost use Rattle.term_base.specs.Lits.{lit};
ghost use Rattle.define_rule.specs.Pins.{are_ground};
ghost use Rattle.define_rule.specs.NextTerm as spec;

use crate::pins::is_ground;
use crate::scanning::is_integer_head;
use term_base::{Literal, Symbol, Term, has_foreground, is_foreground};

/// Whether a term is a number or a parameter.
fn is_value(signature: &[Symbol], t: &Term) -> bool
    ensures { result ≡ spec.is_value signature.now (tree t.now) }
{
    match t {
        Term::Num(_) => true,
        Term::App(f, _) => !is_foreground(signature, *f),
        _ => false,
    }
}

fn are_flat(signature: &[Symbol], args: &[Term]) -> bool
    ensures { result ≡ spec.are_flat signature.now (trees (map tree args.now)) }
{
    for arg in args {
        if !is_ground(arg) || has_foreground(signature, arg) {
            return false;
        }
    }
    true
}

/// Whether a term has a foreground symbol with a result of sort Int as its head, and arguments in which are
/// neither variables nor foreground symbols.
fn is_flat(signature: &[Symbol], t: &Term) -> bool
    ensures { result ≡ spec.is_flat signature.now (tree t.now) }
{
    match t {
        Term::App(f, args) => is_integer_head(signature, *f)
            && are_flat(signature, args.as_slice()),
        _ => false,
    }
}

fn are_value_and_flat(signature: &[Symbol], s: &Term, t: &Term) -> bool
    ensures { result ≡ spec.are_value_and_flat signature.now (tree s.now) (tree t.now) }
{
    is_value(signature, s) && is_flat(signature, t)
}

fn is_definition_literal(signature: &[Symbol], l: &Literal) -> bool
    ensures { result ≡ spec.is_definition_lit signature.now
        (lit l.now).relation (lit l.now).left (lit l.now).right }
{
    match l {
        Literal::Equal(s, t) => are_value_and_flat(signature, s, t)
            || are_value_and_flat(signature, t, s),
        Literal::Differ(_, _) => false,
        Literal::AtMost(_, _) => false,
    }
}

/// Whether the literals are one equation between a number or a parameter and a term to define in whose
/// arguments is no foreground symbol.
pub(crate) fn is_definition(signature: &[Symbol], literals: &[Literal]) -> bool
    ensures { result ≡ spec.is_definition signature.now (map lit literals.now) }
{
    match literals {
        [l] => is_definition_literal(signature, l),
        _ => false,
    }
}
