//! Sides of literals, and places.

ghost use Rattle.std.specs.Prelude.{◌≡◌, codes, MatchResult};
ghost use Rattle.text_pieces.specs.Numbers.{Number, Word32};
ghost use Rattle.text_pieces.specs.Printing.{Puts};
ghost use Rattle.text_pieces.specs.Fronts.{Front};
ghost use Rattle.text_pieces.specs.Languages.{ReadsTo, Fails, Reads};
ghost use Rattle.text_pieces.specs.Failing.{UnreadTo};
ghost use Rattle.text_pieces.specs.Ending.{no_byte};
ghost use Rattle.term_text.specs.Places.{SpellsSide, SpellsPath, SpellsPlace, side_at, side_word};

use sqlite_items::Items;
use std::alloc::{AllocError, Global};
use term_base::{Path, Place, Side};
use text_pieces::{Bad, Unread, after_byte, front, one_of, push, push_decimal, word32};

const SIDES: [&[u8]; 2] = [b"L", b"R"];

// The side whose letter stands at this place of the list.
fn side_at(place: usize) -> Side
    ensures { result ≡ side_at place }
{
    match place {
        0 => Side::Left,
        _ => Side::Right,
    }
}

/// The letter of a side, and what follows. Bad at the first byte with which none goes on.
pub fn side(text: &[u8]) -> Result<(Side, &[u8]), Bad>
    ensures { MatchResult result (λ f. Reads SpellsSide text.now f.0 f.1.now)
        (λ e. Fails SpellsSide text.now e.left) }
{
    let (place, rest) = one_of(text, &SIDES)?;
    Ok((side_at(place), rest))
}

// The numbers of a path, each behind a dot, and the blank behind the last.
fn path(alloc: Global, text: &[u8]) -> Result<(Items<u32>, &[u8]), Unread>
    ensures { MatchResult result (λ f. ReadsTo no_byte SpellsPath text.now f.0 f.1.now)
        (UnreadTo no_byte SpellsPath text.now) }
{
    let mut steps = Items::new(alloc);
    let mut rest = text;
    while let Some(behind) = after_byte(rest, b'.') {
        let (next, more) = word32(behind)?;
        steps.push(next)?;
        rest = more;
    }
    let last = front(rest, b" ")?;
    Ok((steps, last))
}

/// The place and the blank behind it, and what follows. Bad at the first byte with which none goes on.
pub fn place(alloc: Global, text: &[u8]) -> Result<(Place, &[u8]), Unread>
    ensures { MatchResult result (λ f. ReadsTo no_byte SpellsPlace text.now f.0 f.1.now)
        (UnreadTo no_byte SpellsPlace text.now) }
{
    let (literal, behind) = word32(text)?;
    let (side, rest) = side(behind)?;
    let (steps, last) = path(alloc, rest)?;
    let path = Path::from_slice(alloc, steps.as_slice())?;
    let place = Place {
        literal,
        side,
        path,
    };
    Ok((place, last))
}

fn side_word(side: Side) -> &'static [u8]
    ensures { result.now ≡ side_word side }
{
    match side {
        Side::Left => b"L",
        Side::Right => b"R",
    }
}

/// Puts the letter of a side behind the text.
pub fn push_side(text: &mut Vec<u8>, side: Side) -> Result<(), AllocError>
    ensures { Puts SpellsSide side text.old.items text.new.items result }
{
    push(text, side_word(side))
}

// Puts a dot and a number behind the text.
fn push_dotted(alloc: Global, text: &mut Vec<u8>, n: u32) -> Result<(), AllocError>
    ensures { Puts (Front (codes ".") (Number Word32)) n text.old.items text.new.items result }
{
    push(text, b".")?;
    push_decimal(alloc, text, u128::from(n))
}

// Puts the numbers of a path and a blank behind the text.
fn push_path(alloc: Global, text: &mut Vec<u8>, steps: &[u32]) -> Result<(), AllocError>
    ensures { Puts SpellsPath steps.now text.old.items text.new.items result }
{
    for step in steps {
        push_dotted(alloc, text, *step)?;
    }
    push(text, b" ")
}

/// Puts a place and a blank behind the text.
pub fn push_place(alloc: Global, text: &mut Vec<u8>, place: &Place) -> Result<(), AllocError>
    ensures { Puts SpellsPlace place.now text.old.items text.new.items result }
{
    push_decimal(alloc, text, u128::from(place.literal))?;
    push_side(text, place.side)?;
    push_path(alloc, text, place.path.as_slice())
}
