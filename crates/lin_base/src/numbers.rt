//! Divisors, multiples and rounded quotients.

ghost use Rattle.std.specs.Prelude.{◌≡◌, ◌^◌, ◌<◌, ◌≤◌, ◌≤ℤ◌, neg_ℤ, pos, unsigned_abs, int_div};
ghost use Rattle.std.specs.Int.{IsGcd};
ghost use Rattle.lin_base.specs.Whole as spec;
ghost use Rattle.lin_base.specs.Steps.{formed_by, lcm_steps};

use crate::checked::checked_mul;
use crate::wides::Wide;

fn negative(magnitude: u128) -> i128
    requires { magnitude ≤ 2 ^ 127 }
    ensures { result ≡ neg_ℤ (pos magnitude) }
{
    if magnitude == 0 {
        return 0;
    }
    -((magnitude - 1) as i128) - 1
}

/// `a` divided by `divisor`, rounded towards 0.
pub(crate) fn quotient(a: i128, divisor: u128) -> i128
    requires { 0 < divisor }
    ensures { result ≡ int_div a (pos divisor) }
{
    let magnitude = a.unsigned_abs() / divisor;
    if a < 0 {
        negative(magnitude)
    } else {
        magnitude as i128
    }
}

/// `a` divided by `divisor`, rounded up. The divisor may be 2^127.
pub(crate) fn quotient_up(a: i128, divisor: u128) -> i128
    requires { 0 < divisor }
    ensures { result ≡ spec.div_ceil a (pos divisor) }
{
    if a <= 0 {
        return negative(a.unsigned_abs() / divisor);
    }
    ((a.unsigned_abs() - 1) / divisor) as i128 + 1
}

/// `a` divided by `b`, rounded up.
pub fn div_ceil(a: i128, b: i128) -> i128
    requires { pos 1 ≤ℤ b }
    ensures { result ≡ spec.div_ceil a b }
{
    quotient_up(a, b.unsigned_abs())
}

pub(crate) fn common_divisor(a: u128, b: u128) -> u128
    ensures { result ≡ spec.gcd_of a b }
{
    let mut a = a;
    let mut b = b;
    while b != 0 {
        let remainder = a % b;
        a = b;
        b = remainder;
    }
    a
}

/// The greatest common divisor of the absolute values, 0 for 0 and 0.
pub fn gcd(a: i128, b: i128) -> u128
    ensures value { result ≡ spec.gcd a b }
    ensures greatest { IsGcd (unsigned_abs a) (unsigned_abs b) result }
{
    common_divisor(a.unsigned_abs(), b.unsigned_abs())
}

/// The least common multiple. Wide, with `a` divided by the common divisor and `b`, exactly where
/// it leaves the range.
pub fn lcm(a: i128, b: i128) -> Result<i128, Wide>
    requires left { pos 1 ≤ℤ a }
    requires right { pos 1 ≤ℤ b }
    ensures { result ≡ formed_by (lcm_steps a b) (spec.lcm a b) }
{
    let quotient = a.unsigned_abs() / gcd(a, b);
    checked_mul(quotient as i128, b)
}
