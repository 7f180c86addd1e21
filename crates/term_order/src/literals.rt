//! Which literals of a clause are maximal.

ghost use Rattle.std.specs.Prelude.{◌≡◌, ◌<◌, ◌||◌, ◌↔◌, IsTrue, length, map, if◌then◌else◌};
ghost use Rattle.term_base.specs.Trees.{tree, same_tree};
ghost use Rattle.term_base.specs.Lits.{lit, lits};
ghost use Rattle.term_order.specs.Literals.{count, multiset, IsMaximal};
ghost use Rattle.term_order.specs.LiteralTest as test;

use crate::deciding::standing;
use term_base::{Clause, Literal, Symbol, Term};

/// 1 where the terms are equal, else 0.
fn once(s: &Term, t: &Term) -> u8
    ensures { result ≡ (if same_tree (tree s.now) (tree t.now) then 1 else 0) }
{
    if s == t { 1 } else { 0 }
}

/// How often a term is in the multiset of a literal: once for each side of an equation that equals it, twice for
/// each side of another literal.
fn times_in(literal: &Literal, t: &Term) -> u8
    ensures { result ≡ count (tree t.now) (multiset (lit literal.now)) }
{
    match literal {
        Literal::Equal(a, b) => once(a, t) + once(b, t),
        Literal::Differ(a, b) => 2 * (once(a, t) + once(b, t)),
        Literal::AtMost(a, b) => 2 * (once(a, t) + once(b, t)),
    }
}

/// Whether a literal has a term more often than another literal.
fn has_more(m: &Literal, l: &Literal, t: &Term) -> bool
    ensures { result ≡ test.has_more (lit m.now) (lit l.now) (tree t.now) }
{
    times_in(l, t) < times_in(m, t)
}

/// Whether a literal has one of its sides more often than another literal.
fn has_more_of_a_side(m: &Literal, l: &Literal) -> bool
    ensures { result ≡ (test.has_more (lit m.now) (lit l.now) (lit m.now).left || test.has_more (lit m.now) (lit l.now) (lit m.now).right) }
{
    match m {
        Literal::Equal(a, b) | Literal::Differ(a, b) | Literal::AtMost(a, b) => {
            has_more(m, l, a) || has_more(m, l, b)
        }
    }
}

/// Whether a term that a literal has more often than another one is above a term.
fn is_side_above(signature: &[Symbol], m: &Literal, l: &Literal, u: &Term, t: &Term) -> bool
    ensures { result ≡ test.side_above signature.now (lit m.now) (lit l.now) (tree u.now) (tree t.now) }
{
    has_more(m, l, u) && standing(signature, u, t).is_above()
}

/// Whether a term lies below one that m has more often, where l has it more often.
fn is_below(signature: &[Symbol], m: &Literal, l: &Literal, t: &Term) -> bool
    ensures { result ≡ test.is_below signature.now (lit m.now) (lit l.now) (tree t.now) }
{
    if !has_more(l, m, t) {
        return true;
    }
    match m {
        Literal::Equal(a, b) | Literal::Differ(a, b) | Literal::AtMost(a, b) => {
            is_side_above(signature, m, l, a, t) || is_side_above(signature, m, l, b, t)
        }
    }
}

/// Whether a literal is above another: their multisets differ, and each term that the other has more often lies
/// below some term that the literal has more often.
fn is_literal_above(signature: &[Symbol], m: &Literal, l: &Literal) -> bool
    ensures { result ≡ test.literal_above signature.now (lit m.now) (lit l.now) }
{
    if !has_more_of_a_side(m, l) {
        return false;
    }
    match l {
        Literal::Equal(a, b) | Literal::Differ(a, b) | Literal::AtMost(a, b) => {
            is_below(signature, m, l, a) && is_below(signature, m, l, b)
        }
    }
}

/// Whether a literal of another number than the given one is above the literal.
fn is_below_another(signature: &[Symbol], literals: &[Literal], l: &Literal, number: usize) -> bool
    ensures { result ≡ test.some_above signature.now (lit l.now) number 0 (map lit literals.now) }
{
    for (i, m) in literals.iter().enumerate() {
        if i != number && is_literal_above(signature, m, l) {
            return true;
        }
    }
    false
}

/// Whether the literal of a number, counted from 0, is maximal in a clause over a signature: no other literal of
/// the clause is above it.
pub fn is_maximal(signature: &[Symbol], c: &Clause, literal: u32) -> bool
    requires { literal < length c.now.literals }
    ensures { IsTrue result ↔ IsMaximal signature.now (lits c.now) literal }
{
    let literals = c.literals.as_slice();
    let number = literal as usize;
    !is_below_another(signature, literals, &literals[number], number)
}
