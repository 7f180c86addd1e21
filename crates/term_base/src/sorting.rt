//! Whether terms and clauses fit the sorts of the signature.

ghost use Rattle.std.specs.Prelude.{◌≡◌, ◌↔◌, IsTrue, IsSome, map};
ghost use Rattle.term_base.specs.Trees.{symbol, tree, trees};
ghost use Rattle.term_base.specs.Lits.{lit, lits};
ghost use Rattle.term_base.specs.Sorting as spec;
ghost use Rattle.term_base.specs.Clauses as clause;

use crate::clauses::{Clause, Literal};
use crate::symbols::{Sort, Symbol};
use crate::terms::Term;

fn has_sort(part: Option<Sort>, sort: Sort) -> bool
    ensures { result ≡ spec.has_sort part sort }
{
    match part {
        Some(found) => found == sort,
        None => false,
    }
}

/// The sorts of a symbol's arguments; none for a parameter past the signature.
fn arity(signature: &[Symbol], f: u32) -> &[Sort]
    ensures { result.now ≡ spec.arity signature.now (symbol f) }
{
    match signature.get(f as usize) {
        Some(symbol) => symbol.args.as_slice(),
        None => &[],
    }
}

/// The sort of a symbol's result; Int for a parameter past the signature.
fn result_sort(signature: &[Symbol], f: u32) -> Sort
    ensures { result ≡ spec.result_sort signature.now (symbol f) }
{
    match signature.get(f as usize) {
        Some(symbol) => symbol.result,
        None => Sort::Int,
    }
}

/// The sort of a term, or None where it is not well sorted over the signature.
#[cycle(sort)]
pub fn sort_of(signature: &[Symbol], t: &Term) -> Option<Sort>
    ensures { result ≡ spec.sort signature.now (tree t.now) }
{
    match t {
        Term::Var(v) => Some(v.sort),
        Term::Num(_) => Some(Sort::Int),
        Term::True => Some(Sort::Truth),
        Term::Sum(a, b) => {
            let fits = has_sort(sort_of(signature, a.get()), Sort::Int)
                && has_sort(sort_of(signature, b.get()), Sort::Int);
            if fits { Some(Sort::Int) } else { None }
        }
        Term::Scale(_, a) => {
            if has_sort(sort_of(signature, a.get()), Sort::Int) {
                Some(Sort::Int)
            } else {
                None
            }
        }
        Term::App(f, args) => {
            if have_sorts(signature, args.as_slice(), arity(signature, *f)) {
                Some(result_sort(signature, *f))
            } else {
                None
            }
        }
    }
}

#[cycle(sort)]
fn have_sorts(signature: &[Symbol], terms: &[Term], sorts: &[Sort]) -> bool
    ensures { result ≡ spec.have_sorts (spec.sorts signature.now (trees (map tree terms.now))) sorts.now }
{
    let mut rest = sorts;
    for term in terms {
        match rest {
            [] => return false,
            [sort, others @ ..] => {
                if !has_sort(sort_of(signature, term), *sort) {
                    return false;
                }
                rest = others;
            }
        }
    }
    rest.is_empty()
}

/// Whether a term is well sorted over the signature, and of sort Int.
pub fn is_integer(signature: &[Symbol], t: &Term) -> bool
    ensures { result ≡ spec.has_sort (spec.sort signature.now (tree t.now)) Sort.Int }
{
    has_sort(sort_of(signature, t), Sort::Int)
}

fn are_alike(a: Option<Sort>, b: Option<Sort>) -> bool
    ensures { result ≡ clause.are_alike a b }
{
    match a {
        Some(sort) => has_sort(b, sort),
        None => false,
    }
}

fn is_literal_sorted(signature: &[Symbol], l: &Literal) -> bool
    ensures { result ≡ clause.is_lit_sorted signature.now (lit l.now) }
{
    match l {
        Literal::Equal(a, b) | Literal::Differ(a, b) => are_alike(
            sort_of(signature, a),
            sort_of(signature, b),
        ),
        Literal::AtMost(a, b) => has_sort(sort_of(signature, a), Sort::Int)
            && has_sort(sort_of(signature, b), Sort::Int),
    }
}

/// Whether a clause is well sorted over the signature: each symbol has arguments of its sorts, the sides
/// of an equation or disequation have one sort, and those of an inequality have sort Int.
pub fn well_sorted(signature: &[Symbol], c: &Clause) -> bool
    ensures { result ≡ clause.is_well_sorted signature.now (lits c.now) }
{
    for literal in c.literals.as_slice() {
        if !is_literal_sorted(signature, literal) {
            return false;
        }
    }
    true
}
