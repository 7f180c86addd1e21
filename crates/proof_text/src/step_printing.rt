//! Printing of steps and derivations.

ghost use Rattle.std.specs.List.{list_all};
ghost use Rattle.std.specs.Prelude.{IsTrue, OnOk};
ghost use Rattle.text_pieces.specs.Printing.{Adds};
ghost use Rattle.proof_text.specs.Derivations.{StepLine, StepLines, SpellsDerivation, step_is_spelled, is_spelled};

use crate::kinds::variables_word;
use crate::rule_printing::push_rule;
use proof_steps::{Derivation, Step};
use std::alloc::{AllocError, Global};
use term_text::push_clause_line;
use text_pieces::{push, push_decimal};

// Puts the line of the step of this number behind the text.
fn push_step(alloc: Global, text: &mut Vec<u8>, n: usize, step: &Step) -> Result<(), AllocError>
    requires { IsTrue (step_is_spelled step.now) }
    ensures { OnOk result (Adds (StepLine n) step.now text.old.items text.new.items) }
{
    push_decimal(alloc, text, n as u128)?;
    push(text, b" ")?;
    push_rule(alloc, text, &step.rule)?;
    push(text, b" : ")?;
    push_clause_line(alloc, text, &step.clause)
}

// Puts the lines of the steps and the last line behind the text.
fn push_steps(alloc: Global, text: &mut Vec<u8>, steps: &[Step]) -> Result<(), AllocError>
    requires { IsTrue (list_all step_is_spelled steps.now) }
    ensures { OnOk result (Adds (StepLines 0) steps.now text.old.items text.new.items) }
{
    for (n, step) in steps.iter().enumerate() {
        push_step(alloc, text, n, step)?;
    }
    push(text, b"end\n")
}

/// Puts a derivation behind the text.
pub fn push_derivation(alloc: Global, text: &mut Vec<u8>, d: &Derivation) -> Result<(), AllocError>
    requires { IsTrue (is_spelled d.now) }
    ensures { OnOk result (Adds SpellsDerivation d.now text.old.items text.new.items) }
{
    push(text, b"derivation 1 ")?;
    push(text, variables_word(d.ordinary))?;
    push(text, b"\n")?;
    push_steps(alloc, text, d.steps.as_slice())
}
