//! What is made of facts: another sum in place of an unknown, and tightening.

ghost use Rattle.std.specs.Prelude.{◌≡◌, ◌<◌, ◌++◌, ◌≤ℤ◌, pos, false, IfOk, IsOk, IsTrue, map, int_div};
ghost use Rattle.lin_base.specs.Fact.{sum_of, holds, is_fact, is_lin};
ghost use Rattle.lin_base.specs.Steps.{Forms, WantsNoMemory, formed_by, add_steps, scale_steps, replace_in_steps, modulus_steps, replace_steps};
ghost use Rattle.lin_base.specs.Sum.{Valuation, occurs, has_unknown, without, add as spec_add, scale as spec_scale};
ghost use Rattle.lin_base.specs.Change as spec;

use crate::changes::{add, scale};
use crate::checked::checked_mul;
use crate::facts::Fact;
use crate::numbers::{common_divisor, quotient, quotient_up};
use crate::sums::{Lin, coef, occurs, without};
use crate::wides::{ArithmeticError, Wide};
use sqlite_items::Items;
use std::alloc::{AllocError, Global};

/// `b * t + a * u`, the products first.
fn add_products(alloc: Global, b: i128, t: &Lin, a: i128, u: &Lin) -> Result<Lin, ArithmeticError>
    requires left { IsTrue (is_lin t.now) }
    requires right { IsTrue (is_lin u.now) }
    ensures sum { Forms result (scale_steps b t.now ++ scale_steps a u.now
        ++ add_steps (spec_scale b t.now) (spec_scale a u.now))
        (spec_add (spec_scale b t.now) (spec_scale a u.now)) }
    ensures memory { has_unknown t.now ≡ false → has_unknown u.now ≡ false → WantsNoMemory result }
{
    let left = scale(alloc, b, t)?;
    let right = scale(alloc, a, u)?;
    add(alloc, &left, &right)
}

/// `b * t + a * u` for the sum `b * x + u`.
fn replace_in(alloc: Global, x: u32, a: i128, t: &Lin, sum: &Lin) -> Result<Lin, ArithmeticError>
    requires value { IsTrue (is_lin t.now) }
    requires sum { IsTrue (is_lin sum.now) }
    ensures sum { Forms result (replace_in_steps x a t.now sum.now)
        (spec.replace_in x a t.now sum.now) }
    ensures memory { has_unknown t.now ≡ false → has_unknown (without x sum.now) ≡ false →
        WantsNoMemory result }
{
    let rest = without(alloc, x, sum)?;
    add_products(alloc, coef(x, sum), t, a, &rest)
}

/// The fact of the same kind about `sum`, a modulus multiplied by `a`.
fn with_sum(a: i128, sum: Lin, fact: &Fact) -> Result<Fact, Wide>
    ensures { result ≡ formed_by (modulus_steps a fact.now) (spec.remade a sum fact.now) }
{
    match fact {
        Fact::AtMostZero(_) => Ok(Fact::AtMostZero(sum)),
        Fact::Zero(_) => Ok(Fact::Zero(sum)),
        Fact::Divides(m, _) => Ok(Fact::Divides(checked_mul(a, *m)?, sum)),
        Fact::NotDivides(m, _) => Ok(Fact::NotDivides(checked_mul(a, *m)?, sum)),
    }
}

/// `replace` of a fact with `x`.
fn replace_occurring(
    alloc: Global,
    fact: &Fact,
    x: u32,
    a: i128,
    t: &Lin,
) -> Result<Fact, ArithmeticError>
    requires value { IsTrue (is_lin t.now) }
    requires sum { IsTrue (is_lin (sum_of fact.now)) }
    ensures fact { Forms result
        (replace_in_steps x a t.now (sum_of fact.now) ++ modulus_steps a fact.now)
        (spec.replaced x a t.now fact.now) }
    ensures memory { has_unknown t.now ≡ false → has_unknown (without x (sum_of fact.now)) ≡ false →
        WantsNoMemory result }
{
    let sum = replace_in(alloc, x, a, t, fact.sum())?;
    Ok(with_sum(a, sum, fact)?)
}

/// The fact with `t` in place of `a * x`: a fact without `x` stays, the sum `b * x + u` becomes
/// `b * t + a * u`, and a modulus is multiplied by `a`. Wide with the first number that leaves
/// the range: `b` times `t` is formed first, then `a` times `u`, their sum, and `a` times the
/// modulus. It takes memory only where an unknown occurs in `t`, or another one than `x` in the
/// fact.
pub fn replace(
    alloc: Global,
    fact: &Fact,
    x: u32,
    a: i128,
    t: &Lin,
) -> Result<Fact, ArithmeticError>
    requires positive { pos 1 ≤ℤ a }
    requires absent { occurs x t.now ≡ false }
    requires value { IsTrue (is_lin t.now) }
    requires fact { IsTrue (is_fact fact.now) }
    ensures replaced { Forms result (replace_steps x a t.now fact.now)
        (spec.replace x a t.now fact.now) }
    ensures memory { has_unknown t.now ≡ false → has_unknown (without x (sum_of fact.now)) ≡ false →
        WantsNoMemory result }
    ensures well_formed { IfOk result (λ r. IsTrue (is_fact r)) }
{
    if occurs(x, fact.sum()) {
        replace_occurring(alloc, fact, x, a, t)
    } else {
        Ok(fact.copy(alloc)?)
    }
}

/// The common divisor of the coefficients, 0 where there is none.
fn divisor_of(terms: &[(u32, i128)]) -> u128
    ensures { result ≡ spec.common_divisor terms.now }
{
    let mut divisor = 0;
    for term in terms {
        divisor = common_divisor(divisor, term.1.unsigned_abs());
    }
    divisor
}

fn tight_by(alloc: Global, divisor: u128, t: &Lin) -> Result<Lin, AllocError>
    requires { 0 < divisor }
    ensures { IfOk result (λ r. r ≡ spec.tight_by (pos divisor) t.now) }
{
    let mut coefs = Vec::with_capacity(alloc, t.coefs.len())?;
    for term in t.coefs.as_slice() {
        coefs.push((term.0, quotient(term.1, divisor)))?;
    }
    Ok(Lin {
        coefs: Items::from_vec(coefs),
        constant: quotient_up(t.constant, divisor),
    })
}

fn tighten(alloc: Global, fact: &Fact) -> Result<Fact, AllocError>
    ensures value { IfOk result (λ r. r ≡ spec.tight fact.now) }
    ensures memory { has_unknown (sum_of fact.now) ≡ false → IsOk result }
{
    let Fact::AtMostZero(t) = fact else {
        return fact.copy(alloc);
    };
    match divisor_of(t.coefs.as_slice()) {
        0 => fact.copy(alloc),
        divisor => Ok(Fact::AtMostZero(tight_by(alloc, divisor, t)?)),
    }
}

/// The fact `t + c <= 0` with `t` divided by the common divisor of its coefficients, and `c`
/// divided and rounded up. Any other fact, and one without unknown, stays. The same whole numbers
/// make it true. It takes memory only where an unknown occurs.
pub fn tight(alloc: Global, fact: &Fact) -> Result<Fact, AllocError>
    ensures value { IfOk result (λ r. r ≡ spec.tight fact.now) }
    ensures memory { has_unknown (sum_of fact.now) ≡ false → IsOk result }
    ensures solutions { IfOk result (λ r. (v : Valuation) → holds v r ≡ holds v fact.now) }
    ensures well_formed { IsTrue (is_fact fact.now) → IfOk result (λ r. IsTrue (is_fact r)) }
{
    tighten(alloc, fact)
}
