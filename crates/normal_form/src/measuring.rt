//! The measures of formulas: how many clauses each part of a formula gives, and whether a quantifier is in it. They
//! are taken once, in one walk of the formula.

ghost use Rattle.std.specs.Prelude.{◌≡◌, IfOk, map, ◌||◌, false, true, [], ◌∷◌};
ghost use Rattle.normal_form.specs.Measures as spec;

use crate::counting::Counts;
use formula_base::Formula;
use sqlite_items::Items;
use std::alloc::{AllocError, Global};

/// The measures of a formula, and those of its parts in their order.
#[derive(Drop)]
pub(crate) struct Measured {
    pub(crate) counts: Counts,
    pub(crate) quantified: bool,
    pub(crate) parts: Items<Measured>,
}

/// The measures of a formula.
#[cycle(measure)]
pub(crate) fn measure(alloc: Global, formula: &Formula) -> Result<Measured, AllocError>
    ensures { IfOk result (λ m. m ≡ spec.measures formula.now) }
{
    match formula {
        Formula::True => Ok(leaf(alloc, Counts::always())),
        Formula::False => Ok(leaf(alloc, Counts::always().negated())),
        Formula::Atom(_) | Formula::Same(_, _) | Formula::Less(_, _) | Formula::LessEq(_, _) => Ok(
            leaf(alloc, Counts::atom()),
        ),
        Formula::Not(f) => negation(alloc, measure(alloc, f.get())?),
        Formula::And(fs) => Ok(conjunction(measure_all(alloc, fs.as_slice())?)),
        Formula::Or(fs) => Ok(disjunction(measure_all(alloc, fs.as_slice())?)),
        Formula::Implies(f, g) => {
            let f = measure(alloc, f.get())?;
            implication(alloc, f, measure(alloc, g.get())?)
        }
        Formula::Iff(f, g) => {
            let f = measure(alloc, f.get())?;
            equivalence(alloc, f, measure(alloc, g.get())?)
        }
        Formula::All(_, f) | Formula::Some(_, f) => quantification(alloc, measure(alloc, f.get())?),
    }
}

/// The measures of these formulas.
#[cycle(measure)]
fn measure_all(alloc: Global, formulas: &[Formula]) -> Result<Items<Measured>, AllocError>
    ensures { IfOk result (λ ms. ms ≡ map spec.measures formulas.now) }
{
    let mut all = Items::new(alloc);
    for formula in formulas {
        all.push(measure(alloc, formula)?)?;
    }
    Ok(all)
}

/// Those of a formula without parts.
fn leaf(alloc: Global, counts: Counts) -> Measured
    ensures { result ≡ spec.node counts false [] }
{
    Measured {
        counts,
        quantified: false,
        parts: Items::new(alloc),
    }
}

/// Those of a formula with one part.
fn over_one(
    alloc: Global,
    counts: Counts,
    quantified: bool,
    part: Measured,
) -> Result<Measured, AllocError>
    ensures { IfOk result (λ m. m ≡ spec.node counts quantified (part ∷ [])) }
{
    let mut parts = Items::new(alloc);
    parts.push(part)?;
    Ok(Measured {
        counts,
        quantified,
        parts,
    })
}

/// Those of a formula with two parts.
fn over_two(
    alloc: Global,
    counts: Counts,
    first: Measured,
    second: Measured,
) -> Result<Measured, AllocError>
    ensures { IfOk result
        (λ m. m ≡ spec.node counts (spec.quantified first || spec.quantified second) (first ∷ second ∷ [])) }
{
    let quantified = first.quantified || second.quantified;
    let mut parts = Items::new(alloc);
    let first = parts.push(first);
    let second = parts.push(second);
    first?;
    second?;
    Ok(Measured {
        counts,
        quantified,
        parts,
    })
}

/// Those of the negation of a formula.
fn negation(alloc: Global, part: Measured) -> Result<Measured, AllocError>
    ensures { IfOk result (λ m. m ≡ spec.negation part) }
{
    let counts = part.counts.negated();
    let quantified = part.quantified;
    over_one(alloc, counts, quantified, part)
}

/// Those of a formula inside binders.
fn quantification(alloc: Global, part: Measured) -> Result<Measured, AllocError>
    ensures { IfOk result (λ m. m ≡ spec.quantification part) }
{
    let counts = part.counts;
    over_one(alloc, counts, true, part)
}

/// Those of an implication.
fn implication(alloc: Global, from: Measured, to: Measured) -> Result<Measured, AllocError>
    ensures { IfOk result (λ m. m ≡ spec.implication from to) }
{
    let counts = from.counts.implies(to.counts);
    over_two(alloc, counts, from, to)
}

/// Those of an equivalence.
fn equivalence(alloc: Global, left: Measured, right: Measured) -> Result<Measured, AllocError>
    ensures { IfOk result (λ m. m ≡ spec.equivalence left right) }
{
    let there = left.counts.implies(right.counts);
    let back = right.counts.implies(left.counts);
    let counts = there.and(back);
    over_two(alloc, counts, left, right)
}

/// Those of a conjunction.
fn conjunction(parts: Items<Measured>) -> Measured
    ensures { result ≡ spec.conjunction parts }
{
    let mut counts = Counts::always();
    for part in parts.as_slice() {
        counts = counts.and(part.counts);
    }
    let quantified = are_quantified(parts.as_slice());
    Measured {
        counts,
        quantified,
        parts,
    }
}

/// Those of a disjunction.
fn disjunction(parts: Items<Measured>) -> Measured
    ensures { result ≡ spec.disjunction parts }
{
    let mut counts = Counts::always().negated();
    for part in parts.as_slice() {
        counts = counts.or(part.counts);
    }
    let quantified = are_quantified(parts.as_slice());
    Measured {
        counts,
        quantified,
        parts,
    }
}

/// Whether a quantifier is in one of the parts.
fn are_quantified(parts: &[Measured]) -> bool
    ensures { result ≡ spec.are_quantified parts.now }
{
    for part in parts {
        if part.quantified {
            return true;
        }
    }
    false
}
