//! The lines of problems that were given up.

ghost use Rattle.std.specs.Prelude.{◌≡◌, ◌++◌, IfOk, OnOk};
ghost use Rattle.arithmetic_answers.specs.Texts as spec;

use judge_base::Why;
use lin_base::{Op, Wide};
use std::alloc::{AllocError, Global};
use text_pieces::{push, push_blank_signed};

fn operation_word(operation: Op) -> &'static [u8]
    ensures { result.now ≡ spec.operation_word operation }
{
    match operation {
        Op::Add => b"add",
        Op::Mul => b"mul",
    }
}

fn reason_word(why: Why) -> &'static [u8]
    ensures { result.now ≡ spec.reason_word why }
{
    match why {
        Why::Spent => b"spent",
        Why::Wide => b"wide",
        Why::Deep => b"deep",
    }
}

// Puts two operands behind the text, each behind a blank, and the end of the line.
#[tactic(auto, using(crate::proofs::Joining::joined))]
fn push_operands(
    alloc: Global,
    text: &mut Vec<u8>,
    left: i128,
    right: i128,
) -> Result<(), AllocError>
    ensures { OnOk result (text.new.items ≡ text.old.items ++ spec.operands_text left right) }
{
    push_blank_signed(alloc, text, left)?;
    push_blank_signed(alloc, text, right)?;
    push(text, b"\n")
}

/// The line of an operation that leaves the range.
#[tactic(auto, using(crate::proofs::Joining::joined))]
pub fn wide_line(alloc: Global, wide: Wide) -> Result<Vec<u8>, AllocError>
    ensures { IfOk result (λ text. text.items ≡ spec.wide_line wide) }
{
    let mut text = Vec::new(alloc);
    push(&mut text, b"% gave up: wide ")?;
    push(&mut text, operation_word(wide.op))?;
    push_operands(alloc, &mut text, wide.left, wide.right)?;
    Ok(text)
}

/// The line of a judge's reason.
#[tactic(auto, using(crate::proofs::Joining::joined))]
pub fn unknown_line(alloc: Global, why: Why) -> Result<Vec<u8>, AllocError>
    ensures { IfOk result (λ text. text.items ≡ spec.unknown_line why) }
{
    let mut text = Vec::new(alloc);
    push(&mut text, b"% gave up: unknown ")?;
    push(&mut text, reason_word(why))?;
    push(&mut text, b"\n")?;
    Ok(text)
}
