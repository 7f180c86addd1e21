//! The new variables of an abstraction.

ghost use Rattle.std.specs.Prelude.{◌≡◌, map, IfOk};
ghost use Rattle.term_base.specs.Trees.{tree};
ghost use Rattle.term_base.specs.Lits.{lit, lits};
ghost use Rattle.term_base.specs.Purity as purity_of;
ghost use Rattle.weak_abstraction.specs.Abstraction.{definition};
ghost use Rattle.weak_abstraction.specs.Abstracted as spec;
ghost use Rattle.weak_abstraction.specs.Keys.{terms};

use crate::keys::Key;
use indexmap::IndexSet;
use sqlite_items::Items;
use std::alloc::{AllocError, Global};
use term_base::{Clause, Kind, Literal, Purity, Sort, Symbol, Term, Variable, purity};

/// The different targets of a clause. Their variables are numbered in their order, from `first` on.
#[derive(Drop)]
pub(crate) struct Names<'a> {
    pub(crate) first: usize,
    pub(crate) found: IndexSet<Key<'a>>,
}

/// One more than the greatest number of a variable in a term, and 0 without variables.
fn next_number(t: &Term) -> usize
    ensures { result ≡ spec.next_number (tree t.now) }
{
    match t {
        Term::Var(v) => v.id as usize + 1,
        Term::Num(_) | Term::True => 0,
        Term::Sum(a, b) => next_number(a.get()).max(next_number(b.get())),
        Term::Scale(_, a) => next_number(a.get()),
        Term::App(_, args) => {
            let mut next: usize = 0;
            for arg in args.as_slice() {
                next = next.max(next_number(arg));
            }
            next
        }
    }
}

fn literal_number(l: &Literal) -> usize
    ensures { result ≡ spec.literal_number (lit l.now) }
{
    match l {
        Literal::Equal(s, t) | Literal::Differ(s, t) | Literal::AtMost(s, t) => {
            next_number(s).max(next_number(t))
        }
    }
}

/// One more than the greatest number of a variable in a clause, and 0 without variables.
pub(crate) fn first_number(c: &Clause) -> usize
    ensures { result ≡ spec.first_number (lits c.now) }
{
    let mut next: usize = 0;
    for literal in c.literals.as_slice() {
        next = next.max(literal_number(literal));
    }
    next
}

/// An ordinary variable for an Impure term, else an abstraction variable.
fn kind_for(p: Purity) -> Kind
    ensures { result ≡ spec.kind_for p }
{
    match p {
        Purity::Pure => Kind::Abstraction,
        Purity::Impure => Kind::Ordinary,
        Purity::Foreground => Kind::Abstraction,
    }
}

/// The variable of a number for a term. A number past those of variables counts as want of memory.
fn variable_for(signature: &[Symbol], t: &Term, number: usize) -> Result<Variable, AllocError>
    ensures { IfOk result (λ v. v
        ≡ spec.variable_for (purity_of.purity signature.now (tree t.now)) number) }
{
    let Ok(id) = u32::try_from(number) else {
        return Err(AllocError);
    };
    Ok(Variable {
        kind: kind_for(purity(signature, t)),
        sort: Sort::Int,
        id,
    })
}

/// How many terms stand before a term.
fn place<'a>(found: &IndexSet<Key<'a>>, t: &'a Term) -> usize
    ensures { result ≡ spec.place (tree t.now) (terms found.now.keys) }
{
    match found.get_index_of(&Key { term: t }) {
        Some(at) => at,
        None => found.len(),
    }
}

/// The variable that stands for a target.
pub(crate) fn variable_of<'a>(
    signature: &[Symbol],
    names: &Names<'a>,
    t: &'a Term,
) -> Result<Variable, AllocError>
    ensures { IfOk result (λ v. v ≡ spec.variable_of signature.now names.now.first
        (terms names.now.found.keys) (tree t.now)) }
{
    let number = names
        .first
        .checked_add(place(&names.found, t))
        .ok_or(AllocError)?;
    variable_for(signature, t, number)
}

/// The literal `x != t`, with the variable of a number for x.
fn definition(
    alloc: Global,
    signature: &[Symbol],
    t: &Term,
    number: usize,
) -> Result<Literal, AllocError>
    ensures { IfOk result (λ l. lit l ≡ definition
        (spec.variable_for (purity_of.purity signature.now (tree t.now)) number, tree t.now)) }
{
    let v = variable_for(signature, t, number)?;
    Ok(Literal::Differ(Term::Var(v), t.copy(alloc)?))
}

/// A literal `x != t` for each target t.
pub(crate) fn definitions(
    alloc: Global,
    signature: &[Symbol],
    names: &Names<'_>,
) -> Result<Items<Literal>, AllocError>
    ensures { IfOk result (λ all. map lit all ≡ map definition
        (spec.numbered signature.now names.now.first (terms names.now.found.keys))) }
{
    let mut all = Items::new(alloc);
    let mut number = names.first;
    for key in names.found.as_slice() {
        all.push(definition(alloc, signature, key.term, number)?)?;
        number = number.checked_add(1).ok_or(AllocError)?;
    }
    Ok(all)
}
