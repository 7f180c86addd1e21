//! Sums divided by the common divisor of their numbers.

ghost use Rattle.std.specs.Prelude.{◌≡◌, IfOk};
ghost use Rattle.linear_form.specs.Dividing as spec;
ghost use Rattle.linear_form.specs.Forms.{divided};

use lin_base::{Fact, Lin, tight};
use sqlite_items::Items;
use std::alloc::{AllocError, Global};

/// The sum with its constant as the coefficient of one unknown more, in front.
fn with_constant_in_front(alloc: Global, t: &Lin) -> Result<Lin, AllocError>
    ensures { IfOk result (λ r. r ≡ spec.in_front t.now) }
{
    let mut coefs = Vec::with_capacity(alloc, 1)?;
    coefs.push((0, t.constant))?;
    coefs.extend_from_slice(t.coefs.as_slice())?;
    Ok(Lin {
        coefs: Items::from_vec(coefs),
        constant: 0,
    })
}

/// The sum whose constant stood as the coefficient in front.
fn without_front(alloc: Global, t: &Lin) -> Result<Lin, AllocError>
    ensures { IfOk result (λ r. r ≡ spec.from_front t.now) }
{
    match t.coefs.as_slice() {
        [] => t.copy(alloc),
        [front, rest @ ..] => Ok(Lin {
            coefs: Items::from_slice(alloc, rest)?,
            constant: front.1,
        }),
    }
}

#[tactic(auto, using(crate::proofs::Divided::divided_steps))]
/// The sum divided by the common divisor of all its numbers; a sum without a number other than 0
/// stays. The constant is divided as one coefficient more, by what tightens inequalities.
pub(crate) fn divide(alloc: Global, t: &Lin) -> Result<Lin, AllocError>
    ensures { IfOk result (λ r. r ≡ divided t.now) }
{
    let fact = Fact::AtMostZero(with_constant_in_front(alloc, t)?);
    without_front(alloc, tight(alloc, &fact)?.sum())
}
