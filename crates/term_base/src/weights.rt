//! Weights.

ghost use Rattle.std.specs.Prelude.{◌≡◌, min};
ghost use Rattle.term_base.specs.Trees.{tree};
ghost use Rattle.term_base.specs.Lits.{lit, lits};
ghost use Rattle.term_base.specs.Weight as spec;

use crate::clauses::{Clause, Literal};
use crate::symbols::Symbol;
use crate::terms::Term;

fn term_weight(t: &Term) -> u64
    ensures { result ≡ min (spec.weight (tree t.now)) u64.MAX }
{
    match t {
        Term::Var(_) | Term::Num(_) | Term::True => 1,
        Term::Sum(a, b) => term_weight(a.get())
            .saturating_add(term_weight(b.get()))
            .saturating_add(1),
        Term::Scale(_, a) => term_weight(a.get()).saturating_add(2),
        Term::App(_, args) => {
            let mut total: u64 = 1;
            for arg in args.as_slice() {
                total = total.saturating_add(term_weight(arg));
            }
            total
        }
    }
}

fn literal_weight(l: &Literal) -> u64
    ensures { result ≡ min (spec.lit_weight (lit l.now)) u64.MAX }
{
    match l {
        Literal::Equal(a, b) | Literal::Differ(a, b) | Literal::AtMost(a, b) => term_weight(
            a,
        ).saturating_add(term_weight(b)),
    }
}

/// The weight of a clause, or 2^64 - 1 where it is at least that: a variable, a number or true weighs 1, a
/// sum 1 more than both parts, a number times a term 2 more than the term, and a symbol with its arguments
/// 1 more than these.
pub fn weight(signature: &[Symbol], c: &Clause) -> u64
    ensures { result ≡ min (spec.clause_weight (lits c.now)) u64.MAX }
{
    let mut total: u64 = 0;
    for literal in c.literals.as_slice() {
        total = total.saturating_add(literal_weight(literal));
    }
    total
}
