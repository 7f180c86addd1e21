//! Whether terms, substitutions and clauses are of integer arithmetic alone.

ghost use Rattle.std.specs.Prelude.{◌≡◌, ◌↔◌, IsTrue};
ghost use Rattle.term_base.specs.Trees.{tree};
ghost use Rattle.term_base.specs.Lits.{lit, lits};
ghost use Rattle.term_base.specs.Purity as spec;
ghost use Rattle.term_base.specs.Clauses as clause;
ghost use Rattle.term_base.specs.SimpleTest as test;
ghost use Rattle.term_base.specs.Substitution.{image, Simple};

use crate::clauses::{Clause, Literal};
use crate::sorting::sort_of;
use crate::substs::Subst;
use crate::symbols::{Class, Sort, Symbol};
use crate::terms::{Purity, Term};
use crate::variables::{Kind, Variable};

/// Whether a number is that of a foreground symbol. One past the signature is that of a parameter.
pub fn is_foreground(signature: &[Symbol], f: u32) -> bool
    ensures { result ≡ spec.is_foreground signature.now f }
{
    match signature.get(f as usize) {
        Some(symbol) => symbol.class == Class::Foreground,
        None => false,
    }
}

/// Whether a foreground symbol is in the term.
pub fn has_foreground(signature: &[Symbol], t: &Term) -> bool
    ensures { result ≡ spec.foreground signature.now (tree t.now) }
{
    match t {
        Term::Var(_) | Term::Num(_) | Term::True => false,
        Term::Sum(a, b) => has_foreground(signature, a.get()) || has_foreground(signature, b.get()),
        Term::Scale(_, a) => has_foreground(signature, a.get()),
        Term::App(f, args) => {
            if is_foreground(signature, *f) {
                return true;
            }
            for arg in args.as_slice() {
                if has_foreground(signature, arg) {
                    return true;
                }
            }
            false
        }
    }
}

/// Whether an ordinary variable is in the term.
fn has_ordinary(t: &Term) -> bool
    ensures { result ≡ spec.ordinary (tree t.now) }
{
    match t {
        Term::Var(v) => v.kind != Kind::Abstraction,
        Term::Num(_) | Term::True => false,
        Term::Sum(a, b) => has_ordinary(a.get()) || has_ordinary(b.get()),
        Term::Scale(_, a) => has_ordinary(a.get()),
        Term::App(_, args) => {
            for arg in args.as_slice() {
                if has_ordinary(arg) {
                    return true;
                }
            }
            false
        }
    }
}

/// Whether a variable of another sort than Int is in the term.
fn has_foreign(t: &Term) -> bool
    ensures { result ≡ spec.foreign (tree t.now) }
{
    match t {
        Term::Var(v) => v.sort != Sort::Int,
        Term::Num(_) | Term::True => false,
        Term::Sum(a, b) => has_foreign(a.get()) || has_foreign(b.get()),
        Term::Scale(_, a) => has_foreign(a.get()),
        Term::App(_, args) => {
            for arg in args.as_slice() {
                if has_foreign(arg) {
                    return true;
                }
            }
            false
        }
    }
}

/// What a term is: Foreground where it has a foreground symbol, else Impure where it has an ordinary
/// variable, else Pure.
pub fn purity(signature: &[Symbol], t: &Term) -> Purity
    ensures { result ≡ spec.purity signature.now (tree t.now) }
{
    if has_foreground(signature, t) {
        return Purity::Foreground;
    }
    if has_ordinary(t) {
        Purity::Impure
    } else {
        Purity::Pure
    }
}

fn is_background_term(signature: &[Symbol], t: &Term) -> bool
    ensures { result ≡ clause.is_background_tree signature.now (tree t.now) }
{
    !has_foreground(signature, t) && !has_foreign(t)
}

fn is_background_literal(signature: &[Symbol], l: &Literal) -> bool
    ensures { result ≡ clause.is_background_lit signature.now (lit l.now) }
{
    match l {
        Literal::Equal(a, b) | Literal::Differ(a, b) | Literal::AtMost(a, b) => {
            is_background_term(signature, a) && is_background_term(signature, b)
        }
    }
}

/// Whether a clause is a background clause: it has no foreground symbol and no variable of another sort
/// than Int.
pub fn is_background(signature: &[Symbol], c: &Clause) -> bool
    ensures { result ≡ clause.is_background signature.now (lits c.now) }
{
    for literal in c.literals.as_slice() {
        if !is_background_literal(signature, literal) {
            return false;
        }
    }
    true
}

fn is_simple_pair(signature: &[Symbol], pair: &(Variable, Term)) -> bool
    ensures { result ≡ test.is_simple_pair signature.now pair.now }
{
    if sort_of(signature, &pair.1) != Some(pair.0.sort) {
        return false;
    }
    pair.0.kind != Kind::Abstraction || purity(signature, &pair.1) == Purity::Pure
}

fn are_simple_pairs(signature: &[Symbol], pairs: &[(Variable, Term)]) -> bool
    ensures { result ≡ test.are_simple_pairs signature.now pairs.now }
{
    for pair in pairs {
        if !is_simple_pair(signature, pair) {
            return false;
        }
    }
    true
}

/// Whether a substitution is simple: each variable goes to a term of its sort, and each abstraction
/// variable to a Pure one.
pub fn is_simple(signature: &[Symbol], s: &Subst) -> bool
    ensures { IsTrue result ↔ Simple signature.now (image s.now) }
{
    are_simple_pairs(signature, s.pairs())
}
