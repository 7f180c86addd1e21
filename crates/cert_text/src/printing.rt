//! Printing of the parts of texts.

ghost use Rattle.std.specs.List.{list_all};
ghost use Rattle.std.specs.Prelude.{◌≡◌, ◌∷◌, ◌++◌, ◌&&◌, IsTrue, length, true};
ghost use Rattle.text_pieces.specs.Decimals.{decimal, signed_decimal};
ghost use Rattle.text_pieces.specs.Languages.{Blank};
ghost use Rattle.text_pieces.specs.Numbers.{Number, Any, Counted};
ghost use Rattle.cert_text.specs.Grammar.{Index, Whole, Sum, Multiple, SpellsRow};
ghost use Rattle.text_pieces.specs.Printing.{Puts};
ghost use Rattle.cert_text.specs.Spelled.{row_is_spelled};
ghost use Rattle.cert_text.specs.Sums.{Terms};
ghost use Rattle.cert_tree.specs.declared.certs.Row.TheVariants as row;
ghost use Rattle.lin_base.specs.Fact.{is_ascending, is_lin};
ghost use Rattle.lin_base.specs.Sum.{is_reduced};

use cert_tree::Row;
use lin_base::Lin;
use std::alloc::{AllocError, Global};
use text_pieces::{Printer, push, push_blank_decimal, push_blank_signed, push_counted};

/// Puts a blank and the number of a clause, a fact, a parameter or a variable behind the text.
pub fn push_index(alloc: Global, text: &mut Vec<u8>, n: u32) -> Result<(), AllocError>
    ensures { Puts Index n text.old.items text.new.items result }
{
    push_blank_decimal(alloc, text, u128::from(n))
}

/// Puts a blank and a count behind the text.
pub fn push_count(alloc: Global, text: &mut Vec<u8>, n: usize) -> Result<(), AllocError>
    ensures { Puts (Blank (Number Any)) n text.old.items text.new.items result }
{
    push_blank_decimal(alloc, text, n as u128)
}

/// Puts a blank and a whole number behind the text.
pub fn push_whole(alloc: Global, text: &mut Vec<u8>, z: i128) -> Result<(), AllocError>
    ensures { Puts Whole z text.old.items text.new.items result }
{
    push_blank_signed(alloc, text, z)
}

// Puts a fact's number and its multiplier behind the text, each behind a blank.
fn push_multiple(alloc: Global, text: &mut Vec<u8>, fact: u32, k: i128) -> Result<(), AllocError>
    ensures { Puts Multiple (fact, k) text.old.items text.new.items result }
{
    push_index(alloc, text, fact)?;
    push_whole(alloc, text, k)
}

// Prints facts' numbers with their multipliers.
struct PrintMultiple;

impl Printer for PrintMultiple {
    type Value = (u32, i128);

    ghost spells = { Multiple };

    ghost is_spelled = { λ _. true };

    fn push(alloc: Global, text: &mut Vec<u8>, value: &(u32, i128)) -> Result<(), AllocError> {
        push_multiple(alloc, text, value.0, value.1)
    }
}

/// Puts a blank, a count and behind it facts' numbers with their multipliers behind the text, each number behind a blank.
pub fn push_multiples(
    alloc: Global,
    text: &mut Vec<u8>,
    list: &[(u32, i128)],
) -> Result<(), AllocError>
    ensures { Puts (Counted Multiple) list.now text.old.items text.new.items result }
{
    push_counted::<PrintMultiple>(alloc, text, list)
}

// Puts the terms of a sum behind the text, each number behind a blank.
fn push_terms(alloc: Global, text: &mut Vec<u8>, terms: &[(u32, i128)]) -> Result<(), AllocError>
    requires { IsTrue (is_ascending terms.now && is_reduced terms.now) }
    ensures { Puts (Terms (length terms.now) 0) terms.now text.old.items text.new.items result }
{
    for term in terms {
        push_multiple(alloc, text, term.0, term.1)?;
    }
    Ok(())
}

/// Puts a blank and a sum behind the text.
pub fn push_lin(alloc: Global, text: &mut Vec<u8>, t: &Lin) -> Result<(), AllocError>
    requires { IsTrue (is_lin t.now) }
    ensures { Puts Sum t.now text.old.items text.new.items result }
{
    push_count(alloc, text, t.coefs.len())?;
    push_terms(alloc, text, t.coefs.as_slice())?;
    push_whole(alloc, text, t.constant)
}

/// Puts a row behind the text.
pub fn push_row(alloc: Global, text: &mut Vec<u8>, row: &Row) -> Result<(), AllocError>
    requires { IsTrue (row_is_spelled row.now) }
    ensures { Puts SpellsRow row.now text.old.items text.new.items result }
{
    match row {
        Row::Inst { clause, x, a, t } => push_inst(alloc, text, *clause, *x, *a, t),
        Row::Low { clause, x, j } => push_low(alloc, text, *clause, *x, *j),
    }
}

// Puts a row `inst` behind the text.
fn push_inst(
    alloc: Global,
    text: &mut Vec<u8>,
    clause: u32,
    x: u32,
    a: i128,
    t: &Lin,
) -> Result<(), AllocError>
    requires { IsTrue (is_lin t.now) }
    ensures { Puts SpellsRow (row.Inst clause x a t.now) text.old.items text.new.items result }
{
    push(text, b"inst")?;
    push_index(alloc, text, clause)?;
    push_index(alloc, text, x)?;
    push_whole(alloc, text, a)?;
    push_lin(alloc, text, t)
}

// Puts a row `low` behind the text.
fn push_low(
    alloc: Global,
    text: &mut Vec<u8>,
    clause: u32,
    x: u32,
    j: i128,
) -> Result<(), AllocError>
    ensures { Puts SpellsRow (row.Low clause x j) text.old.items text.new.items result }
{
    push(text, b"low")?;
    push_index(alloc, text, clause)?;
    push_index(alloc, text, x)?;
    push_whole(alloc, text, j)
}

// Prints rows, each behind a blank.
struct PrintRow;

impl Printer for PrintRow {
    type Value = Row;

    ghost spells = { Blank SpellsRow };

    ghost is_spelled = { row_is_spelled };

    fn push(alloc: Global, text: &mut Vec<u8>, row: &Row) -> Result<(), AllocError> {
        push(text, b" ")?;
        push_row(alloc, text, row)
    }
}

/// Puts a blank, the count of rows and the rows behind the text, each row behind a blank.
pub fn push_rows(alloc: Global, text: &mut Vec<u8>, rows: &[Row]) -> Result<(), AllocError>
    requires { IsTrue (list_all row_is_spelled rows.now) }
    ensures { Puts (Counted (Blank SpellsRow)) rows.now text.old.items text.new.items result }
{
    push_counted::<PrintRow>(alloc, text, rows)
}
