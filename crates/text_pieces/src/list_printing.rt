//! Printing of lists.

ghost use Rattle.std.specs.List.{list_all};
ghost use Rattle.std.specs.Prelude.{◌∷◌, IsTrue, length};
ghost use Rattle.text_pieces.specs.Languages.{Behind, Times};
ghost use Rattle.text_pieces.specs.Numbers.{Counted};
ghost use Rattle.text_pieces.specs.Printing.{Puts};
ghost use Rattle.text_pieces.specs.Separated.{Separated};

use crate::printing::{push, push_blank_decimal};
use crate::readers::Printer;
use std::alloc::{AllocError, Global};

/// Puts values behind the text, one behind the other.
pub fn push_times<P: Printer>(
    alloc: Global,
    text: &mut Vec<u8>,
    values: &[P::Value],
) -> Result<(), AllocError>
    requires { IsTrue (list_all P.is_spelled values.now) }
    ensures { Puts (Times P.spells (length values.now)) values.now text.old.items text.new.items result }
{
    for value in values {
        P::push(alloc, text, value)?;
    }
    Ok(())
}

/// Puts a blank, the count of the values, and the values behind the text.
pub fn push_counted<P: Printer>(
    alloc: Global,
    text: &mut Vec<u8>,
    values: &[P::Value],
) -> Result<(), AllocError>
    requires { IsTrue (list_all P.is_spelled values.now) }
    ensures { Puts (Counted P.spells) values.now text.old.items text.new.items result }
{
    push_blank_decimal(alloc, text, values.len() as u128)?;
    push_times::<P>(alloc, text, values)
}

// Puts each value behind the text, each behind this byte.
fn push_behind<P: Printer>(
    alloc: Global,
    text: &mut Vec<u8>,
    values: &[P::Value],
    byte: u8,
) -> Result<(), AllocError>
    requires { IsTrue (list_all P.is_spelled values.now) }
    ensures { Puts (Times (Behind byte P.spells) (length values.now)) values.now text.old.items text.new.items result }
{
    for value in values {
        push(text, &[byte])?;
        P::push(alloc, text, value)?;
    }
    Ok(())
}

/// Puts a value and more values behind the text, this byte between each two, and the byte of the end behind the last.
pub fn push_separated<P: Printer>(
    alloc: Global,
    text: &mut Vec<u8>,
    first: &P::Value,
    more: &[P::Value],
    between: u8,
    end: u8,
) -> Result<(), AllocError>
    requires first { IsTrue (P.is_spelled first.now) }
    requires more { IsTrue (list_all P.is_spelled more.now) }
    ensures { Puts (Separated P.spells between end) (first.now ∷ more.now) text.old.items text.new.items result }
{
    P::push(alloc, text, first)?;
    push_behind::<P>(alloc, text, more, between)?;
    push(text, &[end])
}
