//! Saturated lists.

ghost use Rattle.std.specs.List.{flat_map};
ghost use Rattle.std.specs.Prelude.{◌≡◌, ◌++◌, OnOk, IfOk};
ghost use Rattle.proof_text.specs.Derivations.{variables_word};
ghost use Rattle.arithmetic_answers.specs.Texts as spec;

use std::alloc::{AllocError, Global};
use term_base::Clause;
use term_text::push_clause_line;
use text_pieces::{push, push_blank_signed, push_decimal};

// The word for the variables of clauses with a foreground symbol.
fn variables_word(ordinary: bool) -> &'static [u8]
    ensures { result.now ≡ variables_word ordinary }
{
    if ordinary {
        b"ordinary"
    } else {
        b"abstraction"
    }
}

// Puts a clause with its number behind the text.
#[tactic(auto, using(crate::proofs::Joining::joined))]
fn push_item(
    alloc: Global,
    text: &mut Vec<u8>,
    number: u64,
    clause: &Clause,
) -> Result<(), AllocError>
    ensures { OnOk result (text.new.items ≡ text.old.items ++ spec.item number clause.now) }
{
    push_decimal(alloc, text, u128::from(number))?;
    push(text, b" : ")?;
    push_clause_line(alloc, text, clause)
}

// Puts the clauses with their numbers behind the text.
fn push_items(alloc: Global, text: &mut Vec<u8>, clauses: &[Clause]) -> Result<(), AllocError>
    ensures { OnOk result (text.new.items ≡ text.old.items ++ spec.items 0 clauses.now) }
{
    let mut number = 0u64;
    for clause in clauses {
        push_item(alloc, text, number, clause)?;
        number += 1;
    }
    Ok(())
}

// Puts numbers behind the text, each behind a blank.
fn push_numbers(alloc: Global, text: &mut Vec<u8>, values: &[i128]) -> Result<(), AllocError>
    ensures { OnOk result
        (text.new.items ≡ text.old.items ++ flat_map spec.value_text values.now) }
{
    for value in values {
        push_blank_signed(alloc, text, *value)?;
    }
    Ok(())
}

// Puts the line of the values behind the text.
#[tactic(auto, using(crate::proofs::Joining::joined))]
fn push_values(alloc: Global, text: &mut Vec<u8>, values: &[i128]) -> Result<(), AllocError>
    ensures { OnOk result (text.new.items ≡ text.old.items ++ spec.values_text values.now) }
{
    push(text, b"values ")?;
    push_decimal(alloc, text, values.len() as u128)?;
    push_numbers(alloc, text, values)?;
    push(text, b"\n")
}

/// The list of the clauses, all of them kept, with the values of the parameters.
#[tactic(auto, using(crate::proofs::Joining::joined))]
pub fn saturated_list(
    alloc: Global,
    ordinary: bool,
    clauses: &[Clause],
    values: &[i128],
) -> Result<Vec<u8>, AllocError>
    ensures { IfOk result
        (λ text. text.items ≡ spec.saturated_list ordinary clauses.now values.now) }
{
    let mut text = Vec::new(alloc);
    push(&mut text, b"% Saturated for stdin\nlist 1 ")?;
    push(&mut text, variables_word(ordinary))?;
    push(&mut text, b"\nkept ")?;
    push_decimal(alloc, &mut text, clauses.len() as u128)?;
    push(&mut text, b"\n")?;
    push_items(alloc, &mut text, clauses)?;
    push(&mut text, b"dropped 0\n")?;
    push_values(alloc, &mut text, values)?;
    push(&mut text, b"end\n")?;
    Ok(text)
}
