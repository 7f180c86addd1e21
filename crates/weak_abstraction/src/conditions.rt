//! Whether a term may be a target.

ghost use Rattle.std.specs.Prelude.{◌≡◌, ◌&&◌};
ghost use Rattle.term_base.specs.declared.symbols.Sort.TheVariants.{Int};
ghost use Rattle.term_base.specs.Trees.{tree};
ghost use Rattle.term_base.specs.Lits.{lit};
ghost use Rattle.term_base.specs.Sorting.{sort, has_sort};
ghost use Rattle.weak_abstraction.specs.Targets as spec;

use term_base::{
    Literal, Purity, Sort, Symbol, Term, has_foreground, is_foreground, purity, sort_of,
};

/// Whether a term is neither a variable nor a number.
fn is_compound(t: &Term) -> bool
    ensures { result ≡ spec.is_compound (tree t.now) }
{
    match t {
        Term::Var(_) | Term::Num(_) => false,
        Term::Sum(_, _) => true,
        Term::True | Term::Scale(_, _) | Term::App(_, _) => true,
    }
}

fn is_integer(signature: &[Symbol], t: &Term) -> bool
    ensures { result ≡ has_sort (sort signature.now (tree t.now)) Int }
{
    match sort_of(signature, t) {
        Some(found) => found == Sort::Int,
        None => false,
    }
}

/// Whether a term is without foreground symbol, of sort Int, and neither a number nor a variable.
fn is_plain(signature: &[Symbol], t: &Term) -> bool
    ensures { result ≡ spec.is_plain signature.now (tree t.now) }
{
    if !is_compound(t) {
        return false;
    }
    !has_foreground(signature, t) && is_integer(signature, t)
}

/// Whether a term is a target, at a place where one may stand or not.
pub(crate) fn is_target(signature: &[Symbol], t: &Term, counts: bool) -> bool
    ensures { result ≡ (spec.is_plain signature.now (tree t.now) && counts) }
{
    counts && is_plain(signature, t)
}

/// Whether a term is Foreground or Impure.
pub(crate) fn is_mixed(signature: &[Symbol], t: &Term) -> bool
    ensures { result ≡ spec.mixed signature.now (tree t.now) }
{
    match purity(signature, t) {
        Purity::Pure => false,
        Purity::Impure => true,
        Purity::Foreground => true,
    }
}

fn is_parameter(signature: &[Symbol], t: &Term) -> bool
    ensures { result ≡ spec.is_parameter signature.now (tree t.now) }
{
    match t {
        Term::App(f, _) => !is_foreground(signature, *f),
        _ => false,
    }
}

/// Whether a side of a literal may be a target: the side beside it is Foreground or Impure, and it
/// is no parameter of an equation.
pub(crate) fn side_counts(signature: &[Symbol], equation: bool, t: &Term, beside: &Term) -> bool
    ensures { result ≡ spec.side_counts signature.now equation (tree t.now) (tree beside.now) }
{
    if equation && is_parameter(signature, t) {
        return false;
    }
    is_mixed(signature, beside)
}

/// Whether a foreground symbol is in a literal.
pub(crate) fn is_foreground_literal(signature: &[Symbol], l: &Literal) -> bool
    ensures { result ≡ spec.lit_foreground signature.now (lit l.now) }
{
    match l {
        Literal::Equal(s, t) | Literal::Differ(s, t) | Literal::AtMost(s, t) => {
            has_foreground(signature, s) || has_foreground(signature, t)
        }
    }
}
