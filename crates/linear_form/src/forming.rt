//! Terms as sums over given summands.

ghost use Rattle.std.specs.Prelude.{◌≡◌, map, IfOk, IsTrue};
ghost use Rattle.term_base.specs.Trees.{tree};
ghost use Rattle.lin_base.specs.Fact.{is_lin};
ghost use Rattle.lin_base.specs.Steps.{Forms};
ghost use Rattle.linear_form.specs.Summands as summand;
ghost use Rattle.linear_form.specs.Linear as spec;

use crate::collecting::place;
use lin_base::{ArithmeticError, Lin, add, negate, number, scale};
use sqlite_items::Items;
use std::alloc::{AllocError, Global};
use term_base::Term;

/// The sum of one unknown. A number past those of unknowns counts as want of memory.
fn one_unknown(alloc: Global, x: usize) -> Result<Lin, AllocError>
    ensures sum { IfOk result (λ t. t ≡ spec.one_unknown x) }
    ensures well_formed { IfOk result (λ t. IsTrue (is_lin t)) }
{
    let Ok(x) = u32::try_from(x) else {
        return Err(AllocError);
    };
    let mut coefs = Items::new(alloc);
    coefs.push((x, 1))?;
    Ok(Lin { coefs, constant: 0 })
}

/// The sum of one summand.
fn unknown(alloc: Global, terms: &[Term], t: &Term) -> Result<Lin, AllocError>
    ensures sum { IfOk result (λ r. r ≡ (spec.unknown (map tree terms.now) (tree t.now)).sum) }
    ensures well_formed { IfOk result (λ r. IsTrue (is_lin r)) }
{
    one_unknown(alloc, place(terms, t))
}

/// Linear of a term whose summands are among these.
#[tactic(auto, using(crate::proofs::Composing::composing))]
fn linear_in(alloc: Global, terms: &[Term], t: &Term) -> Result<Lin, ArithmeticError>
    ensures sum { Forms result (spec.linear_in (map tree terms.now) (tree t.now)).steps
        (spec.linear_in (map tree terms.now) (tree t.now)).sum }
    ensures well_formed { IfOk result (λ r. IsTrue (is_lin r)) }
{
    match t {
        Term::Num(n) => Ok(number(alloc, *n)),
        Term::Sum(a, b) => {
            let left = linear_in(alloc, terms, a.get())?;
            let right = linear_in(alloc, terms, b.get())?;
            add(alloc, &left, &right)
        }
        Term::Scale(k, a) => {
            let sum = linear_in(alloc, terms, a.get())?;
            scale(alloc, *k, &sum)
        }
        Term::Var(_) | Term::True | Term::App(_, _) => Ok(unknown(alloc, terms, t)?),
    }
}

/// `t - u`: `u` is multiplied by -1 and added.
#[tactic(auto, using(crate::proofs::Composing::composing))]
fn subtract(alloc: Global, t: &Lin, u: &Lin) -> Result<Lin, ArithmeticError>
    requires left { IsTrue (is_lin t.now) }
    requires right { IsTrue (is_lin u.now) }
    ensures sum { Forms result (spec.subtract_steps t.now u.now) (spec.subtracted t.now u.now) }
    ensures well_formed { IfOk result (λ r. IsTrue (is_lin r)) }
{
    add(alloc, t, &negate(alloc, u)?)
}

/// Left minus right over these summands.
#[tactic(auto, using(crate::proofs::Composing::composing))]
pub(crate) fn difference(
    alloc: Global,
    terms: &[Term],
    s: &Term,
    t: &Term,
) -> Result<Lin, ArithmeticError>
    ensures sum { Forms result (spec.difference (map tree terms.now) (tree s.now) (tree t.now)).steps
        (spec.difference (map tree terms.now) (tree s.now) (tree t.now)).sum }
    ensures well_formed { IfOk result (λ r. IsTrue (is_lin r)) }
{
    let left = linear_in(alloc, terms, s)?;
    let right = linear_in(alloc, terms, t)?;
    subtract(alloc, &left, &right)
}
