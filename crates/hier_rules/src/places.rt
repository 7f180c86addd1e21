//! The places of a clause that count: their terms are neither variables nor Pure.

ghost use Rattle.std.specs.Prelude.{◌≡◌, ◌||◌, ◌∷◌, ◌++◌, [], map, IfOk, OnOk};
ghost use Rattle.term_base.specs.declared.places.Side.TheVariants.{Left, Right};
ghost use Rattle.term_base.specs.Trees.{tree, trees};
ghost use Rattle.term_base.specs.Purity.{foreground, ordinary};
ghost use Rattle.term_base.specs.Lits.{lit, lits};
ghost use Rattle.hier_rules.specs.CountedPlaces as spec;

use crate::literals::number_of;
use sqlite_items::Items;
use std::alloc::{AllocError, Global};
use term_base::{Clause, Literal, Path, Place, Purity, Side, Symbol, Term, purity};

/// Whether a foreground symbol or an ordinary variable is in a term.
fn is_not_pure(signature: &[Symbol], t: &Term) -> bool
    ensures { result ≡ (foreground signature.now (tree t.now) || ordinary (tree t.now)) }
{
    match purity(signature, t) {
        Purity::Pure => false,
        Purity::Impure => true,
        Purity::Foreground => true,
    }
}

/// Whether a term is neither a variable nor Pure.
fn counts(signature: &[Symbol], t: &Term) -> bool
    ensures { result ≡ spec.counts signature.now (tree t.now) }
{
    match t {
        Term::Var(_) => false,
        Term::Num(_) | Term::True => false,
        Term::Sum(_, _) | Term::Scale(_, _) | Term::App(_, _) => is_not_pure(signature, t),
    }
}

/// Puts the path behind others, if it counts, and says whether it does.
fn push_path(
    alloc: Global,
    signature: &[Symbol],
    t: &Term,
    path: &[u32],
    all: &mut Items<Path>,
) -> Result<bool, AllocError>
    ensures counts { IfOk result (λ b. b ≡ spec.counts signature.now (tree t.now)) }
    ensures path { OnOk result (all.new ≡ all.old ++ spec.this_path (spec.counts signature.now (tree t.now)) path.now) }
{
    if counts(signature, t) {
        all.push(Path::from_slice(alloc, path)?)?;
        return Ok(true);
    }
    Ok(false)
}

/// Puts the paths of the places in a term that stands at the end of a path behind others, in preorder. Nothing below
/// a Pure term counts.
#[cycle(paths)]
fn push_paths(
    alloc: Global,
    signature: &[Symbol],
    t: &Term,
    path: &mut Vec<u32>,
    all: &mut Items<Path>,
) -> Result<(), AllocError>
    ensures paths { OnOk result (all.new ≡ all.old ++ spec.paths signature.now path.old.items (tree t.now)) }
    ensures path { OnOk result (path.new.items ≡ path.old.items) }
{
    if !push_path(alloc, signature, t, path.as_slice(), all)? {
        return Ok(());
    }
    match t {
        Term::Var(_) | Term::Num(_) | Term::True => Ok(()),
        Term::Sum(a, b) => {
            push_child_paths(alloc, signature, a.get(), 0, path, all)?;
            push_child_paths(alloc, signature, b.get(), 1, path, all)
        }
        Term::Scale(_, a) => push_child_paths(alloc, signature, a.get(), 0, path, all),
        Term::App(_, args) => push_argument_paths(alloc, signature, args.as_slice(), path, all),
    }
}

/// The same for all arguments of the term at the end of the path.
#[cycle(paths)]
fn push_argument_paths(
    alloc: Global,
    signature: &[Symbol],
    args: &[Term],
    path: &mut Vec<u32>,
    all: &mut Items<Path>,
) -> Result<(), AllocError>
    ensures paths { OnOk result (all.new ≡ all.old ++ spec.paths_each signature.now path.old.items 0 (trees (map tree args.now))) }
    ensures path { OnOk result (path.new.items ≡ path.old.items) }
{
    for (i, arg) in args.iter().enumerate() {
        push_child_paths(alloc, signature, arg, i, path, all)?;
    }
    Ok(())
}

/// The same for the child of a number of the term at the end of the path.
#[cycle(paths)]
fn push_child_paths(
    alloc: Global,
    signature: &[Symbol],
    t: &Term,
    number: usize,
    path: &mut Vec<u32>,
    all: &mut Items<Path>,
) -> Result<(), AllocError>
    ensures paths { OnOk result (all.new ≡ all.old ++ spec.paths signature.now (path.old.items ++ number ∷ []) (tree t.now)) }
    ensures path { OnOk result (path.new.items ≡ path.old.items) }
{
    path.push(number_of(number)?)?;
    push_paths(alloc, signature, t, path, all)?;
    path.pop();
    Ok(())
}

/// Puts the places of a side of a literal behind others.
fn push_side_places(
    alloc: Global,
    signature: &[Symbol],
    literal: u32,
    side: Side,
    t: &Term,
    all: &mut Items<Place>,
) -> Result<(), AllocError>
    ensures { OnOk result (all.new ≡ all.old ++ spec.side_places signature.now literal side (tree t.now)) }
{
    let mut paths = Items::new(alloc);
    let mut at = Vec::new(alloc);
    push_paths(alloc, signature, t, &mut at, &mut paths)?;
    for path in paths.as_slice() {
        all.push(Place {
            literal,
            side,
            path: path.copy(alloc)?,
        })?;
    }
    Ok(())
}

/// Puts the places of a literal behind others, those of the left side first.
fn push_literal_places(
    alloc: Global,
    signature: &[Symbol],
    literal: u32,
    l: &Literal,
    all: &mut Items<Place>,
) -> Result<(), AllocError>
    ensures { OnOk result (all.new ≡ all.old ++
        (spec.side_places signature.now literal Left (lit l.now).left
        ++ spec.side_places signature.now literal Right (lit l.now).right)) }
{
    match l {
        Literal::Equal(a, b) | Literal::Differ(a, b) | Literal::AtMost(a, b) => {
            push_side_places(alloc, signature, literal, Side::Left, a, all)?;
            push_side_places(alloc, signature, literal, Side::Right, b, all)
        }
    }
}

/// The places of a clause that count, by literal, by side, and in preorder. Past 2^32 literals, or children of a term,
/// memory counts as spent.
pub(crate) fn counted_places(
    alloc: Global,
    signature: &[Symbol],
    c: &Clause,
) -> Result<Items<Place>, AllocError>
    ensures { IfOk result (λ all. all ≡ spec.places signature.now 0 (lits c.now)) }
{
    let mut all = Items::new(alloc);
    for (i, l) in c.literals.as_slice().iter().enumerate() {
        push_literal_places(alloc, signature, number_of(i)?, l, &mut all)?;
    }
    Ok(all)
}
