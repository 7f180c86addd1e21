//! The summands of a literal.

ghost use Rattle.std.specs.Prelude.{◌≡◌, map, fold, IfOk, OnOk};
ghost use Rattle.term_base.specs.Trees.{tree};
ghost use Rattle.linear_form.specs.Summands as spec;

use sqlite_items::Items;
use std::alloc::{AllocError, Global};
use term_base::Term;

/// Whether a term is among others.
fn contains(terms: &[Term], t: &Term) -> bool
    ensures { result ≡ spec.is_among (tree t.now) (map tree terms.now) }
{
    for u in terms {
        if u == t {
            return true;
        }
    }
    false
}

/// Adds a term that isn't there yet.
fn add(alloc: Global, t: &Term, terms: &mut Items<Term>) -> Result<(), AllocError>
    ensures { OnOk result (map tree terms.new ≡ spec.add_new (map tree terms.old) (tree t.now)) }
{
    if contains(terms.as_slice(), t) {
        return Ok(());
    }
    terms.push(t.copy(alloc)?)?;
    Ok(())
}

/// Adds the summands of a term.
fn collect(alloc: Global, t: &Term, terms: &mut Items<Term>) -> Result<(), AllocError>
    ensures { OnOk result (map tree terms.new
        ≡ fold spec.add_new (map tree terms.old) (spec.summands_in (tree t.now))) }
{
    match t {
        Term::Num(_) => Ok(()),
        Term::Sum(a, b) => {
            collect(alloc, a.get(), terms)?;
            collect(alloc, b.get(), terms)
        }
        Term::Scale(_, a) => collect(alloc, a.get(), terms),
        Term::Var(_) | Term::True | Term::App(_, _) => add(alloc, t, terms),
    }
}

/// The summands of two sides, each once, in the order of first places, the left side first: the
/// maximal subterms other than numbers, sums and multiples.
pub fn summands(alloc: Global, s: &Term, t: &Term) -> Result<Items<Term>, AllocError>
    ensures { IfOk result (λ all. map tree all ≡ spec.summands (tree s.now) (tree t.now)) }
{
    let mut terms = Items::new(alloc);
    collect(alloc, s, &mut terms)?;
    collect(alloc, t, &mut terms)?;
    Ok(terms)
}

/// How many terms stand before a term.
pub(crate) fn place(terms: &[Term], t: &Term) -> usize
    ensures { result ≡ spec.place (tree t.now) (map tree terms.now) }
{
    for (i, u) in terms.iter().enumerate() {
        if u == t {
            return i;
        }
    }
    terms.len()
}
