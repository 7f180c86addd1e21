//! Background terms as linear sums.

ghost use Rattle.std.specs.Prelude.{◌≡◌, false, IfOk, IsTrue};
ghost use Rattle.lin_base.specs.Fact.{is_lin};
ghost use Rattle.lin_base.specs.Sum.{has_unknown};
ghost use Rattle.lin_base.specs.Steps.{Forms, WantsNoMemory};
ghost use Rattle.bg_view.specs.Numbers.{IsNumbering, numbering_of};
ghost use Rattle.bg_view.specs.Linear as spec;

use crate::unknowns::Unknowns;
use lin_base::{ArithmeticError, Lin, add, negate, number, scale};
use sqlite_items::Items;
use std::alloc::{AllocError, Global};
use term_base::Term;

/// The sum of one unknown.
fn one_unknown(alloc: Global, x: u32) -> Result<Lin, AllocError>
    ensures { IfOk result (λ t. t ≡ spec.one_unknown x) }
{
    let mut coefs = Items::new(alloc);
    coefs.push((x, 1))?;
    Ok(Lin { coefs, constant: 0 })
}

/// Linear of a background term: the parts of a sum are formed from the left and then added, and a
/// sum is formed before it is multiplied. It takes memory only where a variable or a symbol
/// occurs.
#[tactic(auto, using(crate::proofs::Forming::forming))]
pub(crate) fn linear(alloc: Global, unknowns: &Unknowns, t: &Term) -> Result<Lin, ArithmeticError>
    requires { IsNumbering unknowns.now }
    ensures sum { Forms result (spec.linear (numbering_of unknowns.now) t.now).steps
        (spec.linear (numbering_of unknowns.now) t.now).sum }
    ensures memory { spec.has_unknown t.now ≡ false → WantsNoMemory result }
    ensures well_formed { IfOk result (λ r. IsTrue (is_lin r)) }
{
    match t {
        Term::Var(v) => Ok(one_unknown(alloc, unknowns.of_variable(*v))?),
        Term::Num(n) => Ok(number(alloc, *n)),
        Term::True => Ok(number(alloc, 0)),
        Term::Sum(a, b) => {
            let left = linear(alloc, unknowns, a.get())?;
            let right = linear(alloc, unknowns, b.get())?;
            add(alloc, &left, &right)
        }
        Term::Scale(k, a) => {
            let sum = linear(alloc, unknowns, a.get())?;
            scale(alloc, *k, &sum)
        }
        Term::App(f, _) => Ok(one_unknown(alloc, unknowns.of_symbol(*f))?),
    }
}

/// `t - u`: `u` is multiplied by -1 and added.
#[tactic(auto, using(crate::proofs::Forming::forming))]
fn subtract(alloc: Global, t: &Lin, u: &Lin) -> Result<Lin, ArithmeticError>
    requires left { IsTrue (is_lin t.now) }
    requires right { IsTrue (is_lin u.now) }
    ensures sum { Forms result (spec.subtract_steps t.now u.now) (spec.subtracted t.now u.now) }
    ensures memory { has_unknown t.now ≡ false → has_unknown u.now ≡ false → WantsNoMemory result }
    ensures well_formed { IfOk result (λ r. IsTrue (is_lin r)) }
{
    add(alloc, t, &negate(alloc, u)?)
}

/// Linear of a literal with these sides: left, then right, then their difference. It takes memory
/// only where a variable or a symbol occurs.
#[tactic(auto, using(crate::proofs::Forming::forming))]
pub(crate) fn difference(
    alloc: Global,
    unknowns: &Unknowns,
    s: &Term,
    t: &Term,
) -> Result<Lin, ArithmeticError>
    requires { IsNumbering unknowns.now }
    ensures sum { Forms result (spec.difference (numbering_of unknowns.now) s.now t.now).steps
        (spec.difference (numbering_of unknowns.now) s.now t.now).sum }
    ensures memory { spec.has_unknown s.now ≡ false → spec.has_unknown t.now ≡ false →
        WantsNoMemory result }
    ensures well_formed { IfOk result (λ r. IsTrue (is_lin r)) }
{
    let left = linear(alloc, unknowns, s)?;
    let right = linear(alloc, unknowns, t)?;
    subtract(alloc, &left, &right)
}
