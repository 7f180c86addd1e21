//! Parts of rows and nodes, each behind a blank.

ghost use Rattle.std.specs.Prelude.{◌≡◌, ℕ, ◌<◌, ◌≤◌, MatchResult};
ghost use Rattle.text_pieces.specs.Languages.{Reads, Fails, Blank};
ghost use Rattle.text_pieces.specs.Numbers.{Number, Word32, Any, IsCount, Counted};
ghost use Rattle.text_pieces.specs.Failing.{Unreadable};
ghost use Rattle.cert_text.specs.Grammar.{Index, Whole, Sum, Multiple, SpellsRow, RowParts};
ghost use Rattle.cert_text.specs.declared.kinds.RowKind.TheVariants as kind;

use crate::kinds::{RowKind, row_kind};
use crate::lins::lin;
use cert_tree::Row;
use lin_base::Lin;
use sqlite_items::Items;
use std::alloc::Global;
use text_pieces::{Bad, Reader, Unread, blank, blank_signed, counted, word32};

/// A blank and behind it a `u32`, and what follows. Bad at the first byte with which none goes on.
pub fn index(text: &[u8]) -> Result<(u32, &[u8]), Bad>
    ensures { MatchResult result (λ f. Reads Index text.now f.0 f.1.now) (λ e. Fails Index text.now e.left) }
{
    word32(blank(text)?)
}

/// A blank and behind it a sum, and what follows. Bad at the first byte with which none goes on.
pub fn blank_lin(alloc: Global, text: &[u8]) -> Result<(Lin, &[u8]), Unread>
    ensures { MatchResult result (λ f. Reads Sum text.now f.0 f.1.now) (Unreadable Sum text.now) }
{
    lin(alloc, blank(text)?)
}

// A fact's number and its multiplier.
fn multiple(text: &[u8]) -> Result<((u32, i128), &[u8]), Bad>
    ensures { MatchResult result (λ f. Reads Multiple text.now f.0 f.1.now) (λ e. Fails Multiple text.now e.left) }
{
    let (fact, rest) = index(text)?;
    let (k, rest) = blank_signed(rest, 0)?;
    Ok(((fact, k), rest))
}

// Reads facts' numbers with their multipliers.
struct ReadMultiple;

impl Reader for ReadMultiple {
    type Value = (u32, i128);

    ghost spells = { Multiple };

    fn read(_alloc: Global, text: &[u8]) -> Result<((u32, i128), &[u8]), Unread> {
        Ok(multiple(text)?)
    }
}

/// The facts' numbers with their multipliers, behind a blank and their count. Bad at the first byte with which none go on.
pub fn multiples(alloc: Global, text: &[u8]) -> Result<(Items<(u32, i128)>, &[u8]), Unread>
    ensures { MatchResult result (λ f. Reads (Counted Multiple) text.now f.0 f.1.now)
        (Unreadable (Counted Multiple) text.now) }
{
    counted::<ReadMultiple>(alloc, text)
}

// What stands behind `inst`.
fn inst(alloc: Global, text: &[u8]) -> Result<(Row, &[u8]), Unread>
    ensures { MatchResult result (λ f. Reads (RowParts kind.Inst) text.now f.0 f.1.now)
        (Unreadable (RowParts kind.Inst) text.now) }
{
    let (clause, rest) = index(text)?;
    let (x, rest) = index(rest)?;
    let (a, rest) = blank_signed(rest, 0)?;
    let (t, rest) = blank_lin(alloc, rest)?;
    Ok((Row::Inst { clause, x, a, t }, rest))
}

// What stands behind `low`.
fn low(text: &[u8]) -> Result<(Row, &[u8]), Bad>
    ensures { MatchResult result (λ f. Reads (RowParts kind.Low) text.now f.0 f.1.now)
        (λ e. Fails (RowParts kind.Low) text.now e.left) }
{
    let (clause, rest) = index(text)?;
    let (x, rest) = index(rest)?;
    let (j, rest) = blank_signed(rest, 0)?;
    Ok((Row::Low { clause, x, j }, rest))
}

/// The row in front of the bytes, and what follows. Bad at the first byte with which none goes on.
pub fn row(alloc: Global, text: &[u8]) -> Result<(Row, &[u8]), Unread>
    ensures { MatchResult result (λ f. Reads SpellsRow text.now f.0 f.1.now) (Unreadable SpellsRow text.now) }
{
    let (kind, rest) = row_kind(text)?;
    match kind {
        RowKind::Inst => inst(alloc, rest),
        RowKind::Low => Ok(low(rest)?),
    }
}

// Reads rows, each behind a blank.
struct ReadRow;

impl Reader for ReadRow {
    type Value = Row;

    ghost spells = { Blank SpellsRow };

    fn read(alloc: Global, text: &[u8]) -> Result<(Row, &[u8]), Unread> {
        row(alloc, blank(text)?)
    }
}

/// The rows, behind a blank and their count. Bad at the first byte with which none go on.
pub fn rows(alloc: Global, text: &[u8]) -> Result<(Items<Row>, &[u8]), Unread>
    ensures { MatchResult result (λ f. Reads (Counted (Blank SpellsRow)) text.now f.0 f.1.now)
        (Unreadable (Counted (Blank SpellsRow)) text.now) }
{
    counted::<ReadRow>(alloc, text)
}
