//! Linear sums.

ghost use Rattle.std.specs.Prelude.{◌≡◌, ◌<◌, ◌≤◌, ◌-◌, ◌^◌, MatchResult, IfOk};
ghost use Rattle.text_pieces.specs.Languages.{NoDigit, Reads, Fails, Blank};
ghost use Rattle.text_pieces.specs.Numbers.{Number, Within, Word32, Signed, Signed128};
ghost use Rattle.text_pieces.specs.Failing.{Unreadable};
ghost use Rattle.cert_text.specs.Sums.{Term, RoomTerms, SpellsLin};

use lin_base::Lin;
use sqlite_items::Items;
use std::alloc::Global;
use text_pieces::{Bad, Unread, blank_number, blank_signed, number};

// The term whose unknown is from low to high.
fn term(text: &[u8], low: u128, high: u128) -> Result<((u32, i128), &[u8]), Bad>
    requires ordered { low ≤ high }
    requires small { high < 2 ^ 32 }
    ensures { MatchResult result (λ f. Reads (Term low high) text.now f.0 f.1.now)
        (λ e. Fails (Term low high) text.now e.left) }
{
    let (x, rest) = blank_number(text, low, high)?;
    let (k, rest) = blank_signed(rest, 1)?;
    Ok(((x as u32, k), rest))
}

// So many terms by ascending unknown, each of which leaves room for those behind it.
fn terms(alloc: Global, text: &[u8], count: u128) -> Result<(Items<(u32, i128)>, &[u8]), Unread>
    requires few { count ≤ 2 ^ 32 }
    requires clear { NoDigit text.now }
    ensures { MatchResult result (λ f. Reads (RoomTerms count 0) text.now f.0 f.1.now)
        (Unreadable (RoomTerms count 0) text.now) }
{
    let mut terms = Items::new(alloc);
    let mut rest = text;
    let mut low = 0;
    let mut left = count;
    while 0 < left {
        let (next, more) = term(rest, low, (1 << 32) - left)?;
        terms.push(next)?;
        low = u128::from(next.0) + 1;
        left -= 1;
        rest = more;
    }
    Ok((terms, rest))
}

/// The sum in front of the bytes, and what follows. Bad at the first byte with which no sum goes on: also where an unknown
/// doesn't ascend, leaves no room for those behind it, or has the coefficient 0.
pub fn lin(alloc: Global, text: &[u8]) -> Result<(Lin, &[u8]), Unread>
    ensures { MatchResult result (λ f. Reads SpellsLin text.now f.0 f.1.now) (Unreadable SpellsLin text.now) }
{
    let (count, rest) = number(text, 0, 1 << 32)?;
    let (coefs, rest) = terms(alloc, rest, count)?;
    let (constant, rest) = blank_signed(rest, 0)?;
    Ok((Lin { coefs, constant }, rest))
}
