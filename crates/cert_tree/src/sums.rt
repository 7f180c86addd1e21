//! Sums that are formed within the range, as a node's children need them.

ghost use Rattle.std.specs.Prelude.{◌≡◌, IfErr, IfOk, IfSome, IsTrue};
ghost use Rattle.lin_base.specs.declared.wides.ArithmeticError.TheVariants.{Memory};
ghost use Rattle.lin_base.specs.Fact.{is_lin};
ghost use Rattle.lin_base.specs.Sum as sum;
ghost use Rattle.lin_base.specs.Sum.{coef, above};
ghost use Rattle.lin_base.specs.Steps.{Forms, above_steps};
ghost use Rattle.cert_tree.specs.Narrow.{IsValueOf, if_narrow};
ghost use Rattle.cert_tree.specs.Points as points;
ghost use Rattle.cert_tree.specs.Sides.{side_of};

use lin_base::{ArithmeticError, Lin, above, checked_mul, coef, negate, without};
use std::alloc::{AllocError, Global};

/// The value, or None where a number left the range. Want of memory is told where it was told.
pub fn narrow<T: Drop>(formed: Result<T, ArithmeticError>) -> Result<Option<T>, AllocError>
    ensures value { IfOk result (IsValueOf formed) }
    ensures memory { IfErr result (λ _. formed ≡ Err Memory) }
{
    match formed {
        Ok(value) => Ok(Some(value)),
        Err(ArithmeticError::Wide(_)) => Ok(None),
        Err(ArithmeticError::Memory) => Err(AllocError),
    }
}

/// `-t + 1`, or None where a number leaves the range.
#[tactic(auto, using(crate::proofs::Forming::narrowing))]
pub fn one_above(alloc: Global, t: &Lin) -> Result<Option<Lin>, AllocError>
    requires { IsTrue (is_lin t.now) }
    ensures value { IfOk result (λ u. u ≡ if_narrow (above_steps t.now) (above t.now)) }
    ensures well_formed { IfOk result (λ u. IfSome u (λ sum. IsTrue (is_lin sum))) }
{
    narrow(above(alloc, t))
}

/// A sum seen from an unknown `x`: `b*x + rest`, or `b*x = rest`.
#[derive(Debug, Drop)]
pub struct Side {
    /// The coefficient of `x`.
    pub b: i128,
    /// The sum without `x`.
    pub rest: Lin,
}

/// The coefficient of `x` and the rest.
pub fn parts_at(alloc: Global, x: u32, t: &Lin) -> Result<Side, AllocError>
    requires { IsTrue (is_lin t.now) }
    ensures { IfOk result (λ e. e ≡ record { b = coef x t.now; rest = sum.without x t.now }) }
{
    Ok(Side {
        b: coef(x, t),
        rest: without(alloc, x, t)?,
    })
}

/// `b*x + u` with `b` positive, of a sum with `x` that is 0.
#[tactic(auto, using(crate::proofs::Siding::siding))]
pub fn make_positive(alloc: Global, x: u32, t: &Lin) -> Result<Side, ArithmeticError>
    requires { IsTrue (is_lin t.now) }
    ensures { Forms result (points.made_positive x t.now).steps (side_of (points.made_positive x t.now)) }
{
    if coef(x, t) >= 0 {
        return Ok(parts_at(alloc, x, t)?);
    }
    let negative = negate(alloc, t)?;
    Ok(parts_at(alloc, x, &negative)?)
}

/// `b*x = s` with `b` positive, of a sum with `x` that is 0.
#[tactic(auto, using(crate::proofs::Siding::siding))]
pub fn solve_for(alloc: Global, x: u32, t: &Lin) -> Result<Side, ArithmeticError>
    requires { IsTrue (is_lin t.now) }
    ensures { Forms result (points.solved x t.now).steps (side_of (points.solved x t.now)) }
{
    let positive = make_positive(alloc, x, t)?;
    let rest = negate(alloc, &positive.rest)?;
    Ok(Side {
        b: positive.b,
        rest,
    })
}

/// `s <= a*x` with `a` positive, of `-a*x + s`.
#[tactic(auto, using(crate::proofs::Siding::siding))]
pub fn below(alloc: Global, x: u32, t: &Lin) -> Result<Side, ArithmeticError>
    requires { IsTrue (is_lin t.now) }
    ensures { Forms result (points.below x t.now).steps (side_of (points.below x t.now)) }
{
    let b = checked_mul(-1, coef(x, t))?;
    let rest = without(alloc, x, t)?;
    Ok(Side { b, rest })
}
