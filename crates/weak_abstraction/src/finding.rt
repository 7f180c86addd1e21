//! The different targets of a clause, in the order of first places.

ghost use Rattle.std.specs.Prelude.{◌≡◌, fold, IfOk, OnOk};
ghost use Rattle.term_base.specs.Trees.{tree};
ghost use Rattle.term_base.specs.Lits.{lit, lits};
ghost use Rattle.weak_abstraction.specs.Targets as spec;
ghost use Rattle.weak_abstraction.specs.Abstracted.{add_new, each_once};
ghost use Rattle.weak_abstraction.specs.Keys.{terms};

use crate::conditions::{is_foreground_literal, is_mixed, is_target, side_counts};
use crate::keys::Key;
use indexmap::IndexSet;
use std::alloc::{AllocError, Global};
use term_base::{Clause, Literal, Symbol, Term, is_foreground};

/// Adds a term that isn't there yet.
fn add<'a>(t: &'a Term, found: &mut IndexSet<Key<'a>>) -> Result<(), AllocError>
    ensures { OnOk result (terms found.new.keys ≡ add_new (terms found.old.keys) (tree t.now)) }
{
    found.insert_full(Key { term: t })?;
    Ok(())
}

/// Adds the targets in a term, at a place where one may stand or not.
#[cycle(collect)]
fn collect<'a>(
    signature: &[Symbol],
    t: &'a Term,
    counts: bool,
    found: &mut IndexSet<Key<'a>>,
) -> Result<(), AllocError>
    ensures { OnOk result (terms found.new.keys
        ≡ fold add_new (terms found.old.keys)
        (spec.targets_in signature.now (tree t.now) counts)) }
{
    if is_target(signature, t, counts) {
        return add(t, found);
    }
    collect_below(signature, t, found)
}

/// Adds the targets below a term.
#[cycle(collect)]
fn collect_below<'a>(
    signature: &[Symbol],
    t: &'a Term,
    found: &mut IndexSet<Key<'a>>,
) -> Result<(), AllocError>
    ensures { OnOk result (terms found.new.keys
        ≡ fold add_new (terms found.old.keys) (spec.targets_below signature.now (tree t.now))) }
{
    match t {
        Term::Var(_) | Term::Num(_) | Term::True => Ok(()),
        Term::Sum(a, b) => {
            let left_mixed = is_mixed(signature, a.get());
            let right_mixed = is_mixed(signature, b.get());
            collect(signature, a.get(), right_mixed, found)?;
            collect(signature, b.get(), left_mixed, found)
        }
        // the argument beside it is a number
        Term::Scale(_, a) => collect(signature, a.get(), false, found),
        Term::App(f, args) => {
            let counts = is_foreground(signature, *f);
            for arg in args.as_slice() {
                collect(signature, arg, counts, found)?;
            }
            Ok(())
        }
    }
}

/// Adds the targets in a side of a literal.
fn collect_side<'a>(
    signature: &[Symbol],
    equation: bool,
    t: &'a Term,
    beside: &Term,
    found: &mut IndexSet<Key<'a>>,
) -> Result<(), AllocError>
    ensures { OnOk result (terms found.new.keys
        ≡ fold add_new (terms found.old.keys)
        (spec.targets_in signature.now (tree t.now)
        (spec.side_counts signature.now equation (tree t.now) (tree beside.now)))) }
{
    let counts = side_counts(signature, equation, t, beside);
    collect(signature, t, counts, found)
}

/// Adds the targets in two sides.
fn collect_sides<'a>(
    signature: &[Symbol],
    equation: bool,
    s: &'a Term,
    t: &'a Term,
    found: &mut IndexSet<Key<'a>>,
) -> Result<(), AllocError>
    ensures { OnOk result (terms found.new.keys
        ≡ fold add_new (terms found.old.keys)
        (spec.side_targets signature.now equation (tree s.now) (tree t.now))) }
{
    collect_side(signature, equation, s, t, found)?;
    collect_side(signature, equation, t, s, found)
}

/// Adds the targets of a literal.
fn collect_literal<'a>(
    signature: &[Symbol],
    l: &'a Literal,
    found: &mut IndexSet<Key<'a>>,
) -> Result<(), AllocError>
    ensures { OnOk result (terms found.new.keys
        ≡ fold add_new (terms found.old.keys) (spec.literal_targets signature.now (lit l.now))) }
{
    if !is_foreground_literal(signature, l) {
        return Ok(());
    }
    match l {
        Literal::Equal(s, t) => collect_sides(signature, true, s, t, found),
        Literal::Differ(s, t) | Literal::AtMost(s, t) => {
            collect_sides(signature, false, s, t, found)
        }
    }
}

/// The different targets of a clause, in the order of first places.
pub(crate) fn different_targets<'a>(
    alloc: Global,
    signature: &[Symbol],
    c: &'a Clause,
) -> Result<IndexSet<Key<'a>>, AllocError>
    ensures { IfOk result (λ found. terms found.keys
        ≡ each_once (spec.targets signature.now (lits c.now))) }
{
    let mut found = IndexSet::new(alloc);
    for literal in c.literals.as_slice() {
        collect_literal(signature, literal, &mut found)?;
    }
    Ok(found)
}
