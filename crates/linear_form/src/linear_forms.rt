//! Linear of a literal.

ghost use Rattle.std.specs.Prelude.{◌≡◌, None, map, IfOk, IfErr, IsTrue};
ghost use Rattle.term_base.specs.Trees.{tree};
ghost use Rattle.lin_base.specs.Fact.{is_lin};
ghost use Rattle.lin_base.specs.Steps.{Forms, IsErrorAt, first_wide};
ghost use Rattle.linear_form.specs.Summands as summand;
ghost use Rattle.linear_form.specs.Linear as spec;

use crate::collecting::summands;
use crate::forming::difference;
use lin_base::{ArithmeticError, Lin};
use sqlite_items::Items;
use std::alloc::Global;
use term_base::Term;

/// Left minus right of a literal as a sum over its summands.
#[derive(Debug, Drop)]
pub struct LinearForm {
    /// The summands; the unknown of a number is the summand of that number.
    pub terms: Items<Term>,
    /// The sum.
    pub sum: Lin,
}

/// Linear of a literal with these sides: left minus right as a sum over the summands. Left is formed
/// first, then right, then right times -1, and then both are added; a sum is formed after its parts
/// and a multiple after its term, and coefficients are added by the order of the summands, the
/// constants last. The answer is Wide with the first sum or product that leaves the range. More
/// summands than a `u32` counts are want of memory.
pub fn linear(alloc: Global, s: &Term, t: &Term) -> Result<LinearForm, ArithmeticError>
    ensures narrow { IfOk result (λ l. first_wide (spec.linear (tree s.now) (tree t.now)).steps ≡ None) }
    ensures terms { IfOk result (λ l. map tree l.terms ≡ summand.summands (tree s.now) (tree t.now)) }
    ensures sum { IfOk result (λ l. l.sum ≡ (spec.linear (tree s.now) (tree t.now)).sum) }
    ensures wide { IfErr result (λ e. IsErrorAt e (first_wide (spec.linear (tree s.now) (tree t.now)).steps)) }
    ensures well_formed { IfOk result (λ l. IsTrue (is_lin l.sum)) }
{
    let terms = summands(alloc, s, t)?;
    let sum = difference(alloc, terms.as_slice(), s, t)?;
    Ok(LinearForm { terms, sum })
}
