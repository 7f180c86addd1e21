//! The variables of a clause, numbered afresh by first place.

ghost use Rattle.std.specs.Prelude.{◌≡◌, map, fold, IfOk, OnOk};
ghost use Rattle.std.specs.List.{list_any};
ghost use Rattle.normal_form.specs.Numbering as spec;

use crate::literals::Clauses;
use indexmap::IndexSet;
use sqlite_items::Items;
use std::alloc::{AllocError, Global};
use term_base::{Clause, Kind, Literal, Sort, Symbol, Term, Variable, has_foreground};

/// Clauses with their variables numbered afresh.
pub(crate) fn numbered_all(
    alloc: Global,
    symbols: &[Symbol],
    ordinary: bool,
    clauses: Clauses,
) -> Result<Items<Clause>, AllocError>
    ensures { IfOk result (λ all. all ≡ map (spec.numbered symbols.now ordinary) clauses.items) }
{
    let mut all = Items::new(alloc);
    for clause in clauses {
        let literals = clause.into_items();
        all.push(numbered(alloc, symbols, ordinary, literals.as_slice())?)?;
    }
    Ok(all)
}

/// The clause of these literals with its variables numbered afresh.
fn numbered(
    alloc: Global,
    symbols: &[Symbol],
    ordinary: bool,
    literals: &[Literal],
) -> Result<Clause, AllocError>
    ensures { IfOk result (λ c. c ≡ spec.numbered symbols.now ordinary literals.now) }
{
    let is_ordinary = ordinary && have_foreground(symbols, literals);
    let mut places = IndexSet::new(alloc);
    for literal in literals {
        let (left, right) = sides(literal);
        add_ids(left, &mut places)?;
        add_ids(right, &mut places)?;
    }
    let mut renumbered = Items::new(alloc);
    for literal in literals {
        renumbered.push(renumbered_literal(alloc, is_ordinary, &places, literal)?)?;
    }
    Ok(Clause {
        literals: renumbered,
    })
}

/// The two sides of a literal.
fn sides(literal: &Literal) -> (&Term, &Term)
    ensures left { result.0.now ≡ spec.left_side literal.now }
    ensures right { result.1.now ≡ spec.right_side literal.now }
{
    match literal {
        Literal::Equal(s, t) | Literal::Differ(s, t) | Literal::AtMost(s, t) => (s, t),
    }
}

/// Whether one of the literals has a foreground symbol.
fn have_foreground(symbols: &[Symbol], literals: &[Literal]) -> bool
    ensures { result ≡ list_any (spec.literal_has_foreground symbols.now) literals.now }
{
    for literal in literals {
        let (left, right) = sides(literal);
        if has_foreground(symbols, left) || has_foreground(symbols, right) {
            return true;
        }
    }
    false
}

/// Adds the numbers of a term's variables that are not there yet, from left to right.
fn add_ids(t: &Term, places: &mut IndexSet<u32>) -> Result<(), AllocError>
    ensures { OnOk result (places.new.keys ≡ fold spec.add_new places.old.keys (spec.ids t.now)) }
{
    match t {
        Term::Var(v) => {
            places.insert_full(v.id)?;
            Ok(())
        }
        Term::Num(_) | Term::True => Ok(()),
        Term::Sum(a, b) => {
            add_ids(a.get(), places)?;
            add_ids(b.get(), places)
        }
        Term::Scale(_, a) => add_ids(a.get(), places),
        Term::App(_, args) => {
            for arg in args.as_slice() {
                add_ids(arg, places)?;
            }
            Ok(())
        }
    }
}

/// A literal with its variables numbered by these places.
fn renumbered_literal(
    alloc: Global,
    ordinary: bool,
    places: &IndexSet<u32>,
    literal: &Literal,
) -> Result<Literal, AllocError>
    ensures { IfOk result (λ l. l ≡ spec.map_sides (spec.renumber ordinary places.now.keys) literal.now) }
{
    let (left, right) = sides(literal);
    let left = renumber(alloc, ordinary, places, left)?;
    let right = renumber(alloc, ordinary, places, right)?;
    Ok(match literal {
        Literal::Equal(_, _) => Literal::Equal(left, right),
        Literal::Differ(_, _) => Literal::Differ(left, right),
        Literal::AtMost(_, _) => Literal::AtMost(left, right),
    })
}

/// A term with its variables numbered by these places.
fn renumber(
    alloc: Global,
    ordinary: bool,
    places: &IndexSet<u32>,
    t: &Term,
) -> Result<Term, AllocError>
    ensures { IfOk result (λ u. u ≡ spec.renumber ordinary places.now.keys t.now) }
{
    match t {
        Term::Var(v) => Ok(Term::Var(renumbered(ordinary, places, *v)?)),
        Term::Num(n) => Ok(Term::Num(*n)),
        Term::True => Ok(Term::True),
        Term::Sum(a, b) => {
            let a = renumber(alloc, ordinary, places, a.get())?;
            Term::sum(alloc, a, renumber(alloc, ordinary, places, b.get())?)
        }
        Term::Scale(k, a) => Term::scale(alloc, *k, renumber(alloc, ordinary, places, a.get())?),
        Term::App(g, args) => {
            let mut all = Items::new(alloc);
            for arg in args.as_slice() {
                all.push(renumber(alloc, ordinary, places, arg)?)?;
            }
            Ok(Term::App(*g, all))
        }
    }
}

/// A variable numbered by its place. More than 2^32 variables in a clause count as want of memory.
fn renumbered(ordinary: bool, places: &IndexSet<u32>, v: Variable) -> Result<Variable, AllocError>
    ensures { IfOk result (λ u. u ≡ spec.renumbered ordinary places.now.keys v) }
{
    let Ok(id) = u32::try_from(place_of(places, v.id)) else {
        return Err(AllocError);
    };
    Ok(Variable {
        kind: kind_of(ordinary, v.sort),
        sort: v.sort,
        id,
    })
}

/// The place of a number among these.
fn place_of(places: &IndexSet<u32>, id: u32) -> usize
    ensures { result ≡ spec.place id places.now.keys }
{
    match places.get_index_of(&id) {
        Some(place) => place,
        None => 0,
    }
}

/// The kind of a variable of a sort in a clause.
fn kind_of(ordinary: bool, sort: Sort) -> Kind
    ensures { result ≡ spec.kind_of ordinary sort }
{
    match sort {
        Sort::Int if !ordinary => Kind::Abstraction,
        _ => Kind::Ordinary,
    }
}
