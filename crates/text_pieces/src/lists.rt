//! Lists of values.

ghost use Rattle.std.specs.Prelude.{◌≡◌, ◌≢◌, ℕ, false, MatchResult};
ghost use Rattle.text_pieces.specs.Decimals.{is_digit};
ghost use Rattle.text_pieces.specs.Failing.{Unreadable};
ghost use Rattle.text_pieces.specs.Languages.{NoDigit, Reads, Times};
ghost use Rattle.text_pieces.specs.Numbers.{IsCount, Counted};
ghost use Rattle.text_pieces.specs.Separated.{Separated};
ghost use Rattle.text_pieces.specs.Unambiguous.{OneFront, Unambiguous};

use crate::bad_texts::Unread;
use crate::blanks::blank_count;
use crate::readers::Reader;
use crate::words::{after_byte, exactly};
use sqlite_items::Items;
use std::alloc::Global;

/// So many values, one behind the other, and what follows. The largest `u128` stands for each number from it on.
/// Nothing is reserved for the count in advance. Bad at the first byte with which no such list goes on.
pub fn times<R: Reader>(
    alloc: Global,
    text: &[u8],
    count: u128,
) -> Result<(Items<R::Value>, &[u8]), Unread>
    requires told_apart { Unambiguous R.spells }
    requires clear { NoDigit text.now }
    ensures { (n : ℕ) → IsCount count n → MatchResult result
        (λ f. Reads (Times R.spells n) text.now f.0 f.1.now) (Unreadable (Times R.spells n) text.now) }
{
    let mut values = Items::new(alloc);
    let mut rest = text;
    while (values.len() as u128) < count {
        let (next, more) = R::read(alloc, rest)?;
        values.push(next)?;
        rest = more;
    }
    Ok((values, rest))
}

/// A blank, a count and behind it so many values, and what follows. Nothing is reserved for the count in advance.
/// Bad at the first byte with which no such list goes on.
pub fn counted<R: Reader>(alloc: Global, text: &[u8]) -> Result<(Items<R::Value>, &[u8]), Unread>
    requires { Unambiguous R.spells }
    ensures { MatchResult result (λ f. Reads (Counted R.spells) text.now f.0 f.1.now)
        (Unreadable (Counted R.spells) text.now) }
{
    let (count, rest) = blank_count(text)?;
    times::<R>(alloc, rest, count)
}

/// One value or more with this byte between each two and the byte of the end behind the last, and what follows.
/// Bad at the first byte with which no such list goes on.
pub fn separated<R: Reader>(
    alloc: Global,
    text: &[u8],
    between: u8,
    end: u8,
) -> Result<(Items<R::Value>, &[u8]), Unread>
    requires told_apart { OneFront R.spells }
    requires between { is_digit between ≡ false }
    requires end { is_digit end ≡ false }
    requires apart { between ≢ end }
    ensures { MatchResult result
        (λ f. Reads (Separated R.spells between end) text.now f.0 f.1.now)
        (Unreadable (Separated R.spells between end) text.now) }
{
    let (first, mut rest) = R::read(alloc, text)?;
    let mut values = Items::new(alloc);
    values.push(first)?;
    while let Some(behind) = after_byte(rest, between) {
        let (next, more) = R::read(alloc, behind)?;
        values.push(next)?;
        rest = more;
    }
    let last = exactly(rest, &[end])?;
    Ok((values, last))
}
