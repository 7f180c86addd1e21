//! The numbers that numerals stand for.
ghost use Rattle.std.specs.Prelude.{◌<◌, IsTrue, FitsSigned, SomeIff, ◌^◌};
ghost use Rattle.std.specs.Int.{w128};
ghost use Rattle.tff_lexer.specs.Forms.{is_numeral};
ghost use Rattle.tff_lexer.specs.Values.{digits_value, value};

use crate::numbers::unsigned;

/// The number that decimal digits stand for, or None where it is 2^128 or more.
fn magnitude(digits: &[u8]) -> Option<u128>
    ensures { SomeIff result (digits_value digits.now < 2 ^ 128) (digits_value digits.now) }
{
    let mut sum: u128 = 0;
    for digit in digits {
        sum = sum
            .checked_mul(10)?
            .checked_add(u128::from(digit.saturating_sub(b'0')))?;
    }
    Some(sum)
}

/// The number that a numeral (an integer of TPTP) stands for, or None where it isn't one from -2^127 to 2^127 - 1.
/// Leading zeros don't count, however many there are. The text is that of a Numeral token.
pub fn numeral_value(text: &[u8]) -> Option<i128>
    requires { IsTrue (is_numeral text.now) }
    ensures { SomeIff result (FitsSigned w128 (value text.now)) (value text.now) }
{
    let magnitude = magnitude(unsigned(text))?;
    if text.starts_with(b"-") {
        0i128.checked_sub_unsigned(magnitude)
    } else {
        0i128.checked_add_unsigned(magnitude)
    }
}
