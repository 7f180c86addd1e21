//! Sums and products of two numbers within the range of `i128`.

ghost use Rattle.std.specs.Prelude.{◌≡◌, ◌+ℤ◌, ◌*ℤ◌, [], ◌∷◌};
ghost use Rattle.lin_base.specs.Steps.{adds, multiplies, formed_by};

use crate::wides::{Op, Wide};

/// `left + right`, or Wide where it leaves the range.
pub fn checked_add(left: i128, right: i128) -> Result<i128, Wide>
    ensures { result ≡ formed_by (adds left right ∷ []) (left +ℤ right) }
{
    match left.checked_add(right) {
        Some(sum) => Ok(sum),
        None => Err(Wide {
            op: Op::Add,
            left,
            right,
        }),
    }
}

/// `left * right`, or Wide where it leaves the range.
pub fn checked_mul(left: i128, right: i128) -> Result<i128, Wide>
    ensures { result ≡ formed_by (multiplies left right ∷ []) (left *ℤ right) }
{
    match left.checked_mul(right) {
        Some(product) => Ok(product),
        None => Err(Wide {
            op: Op::Mul,
            left,
            right,
        }),
    }
}
