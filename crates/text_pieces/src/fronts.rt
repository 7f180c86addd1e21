//! Words in front of texts.

ghost use Rattle.std.specs.Prelude.{◌≡◌, ◌++◌, ◌==◌, false, IfOk, IfErr};
ghost use Rattle.text_pieces.specs.Fronts.{NoFront};
ghost use Rattle.text_pieces.specs.Kinds.{kind_at};

use crate::bad_texts::Bad;
use crate::words::after_byte;

/// What follows these bytes, whatever it is. Bad at the first byte that is another one.
pub fn front<'a>(text: &'a [u8], word: &[u8]) -> Result<&'a [u8], Bad>
    ensures ok { IfOk result (λ rest. text.now ≡ word.now ++ rest.now) }
    ensures err { IfErr result (λ e. NoFront word.now text.now e.left) }
{
    let mut rest = text;
    for byte in word {
        let Some(more) = after_byte(rest, *byte) else {
            return Err(Bad { left: rest.len() });
        };
        rest = more;
    }
    Ok(rest)
}

/// Whether this byte stands in front.
pub fn begins_with(text: &[u8], byte: u8) -> bool
    ensures { result ≡ kind_at (λ b. b == byte) false text.now }
{
    match text {
        [first, ..] => *first == byte,
        [] => false,
    }
}
