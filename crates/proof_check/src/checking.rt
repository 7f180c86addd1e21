//! Checking.

ghost use Rattle.std.specs.Prelude.{◌≡◌, ◌+◌, ◌<◌, ◌≤◌, ◌^◌, length, IfOk};
ghost use Rattle.normal_form.specs.Clauses.{count_of, max_clauses, prepared};
ghost use Rattle.proof_steps.specs.Derivations.{IsReplay};
ghost use Rattle.proof_check.specs.Checks as spec;
ghost use Rattle.proof_check.specs.Checks.{Finds, FindsAnswer, FindsBehind, FindsProof};

use crate::checked::Checked;
use crate::sections::{before_answer, begins_list};
use formula_base::Problem;
use normal_form::{clauses, count};
use proof_steps::{Derivation, Replay, replay};
use proof_text::{Status, TextError, parse_text};
use std::alloc::{AllocError, Global};
use tff_reader::{ReadError, read};

/// The most clauses that a problem may have.
const MAX_CLAUSES: u64 = 100_000;

// Whether the word of the status is Theorem.
fn is_theorem(status: Status) -> bool
    ensures { result ≡ spec.is_theorem status }
{
    match status {
        Status::Theorem => true,
        Status::Unsatisfiable => false,
    }
}

// What is found of the steps.
fn replayed(alloc: Global, problem: &Problem, d: &Derivation) -> Result<Replay, AllocError>
    requires { count_of problem.now ≤ max_clauses }
    ensures { IfOk result (IsReplay (prepared problem.now d.now.ordinary) d.now.steps) }
{
    // There are no more clauses than are taken, so only memory may run out.
    let Ok(prepared) = clauses(alloc, problem, d.ordinary) else {
        return Err(AllocError);
    };
    replay(alloc, &prepared, d)
}

// What is found of a derivation with its status.
fn found_proof(
    alloc: Global,
    problem: &Problem,
    status: Status,
    d: &Derivation,
) -> Result<Checked, AllocError>
    requires { count_of problem.now ≤ max_clauses }
    ensures { IfOk result (FindsProof problem.now status d.now) }
{
    if is_theorem(status) != problem.conjecture.is_some() {
        return Ok(Checked::RefusedStep(0));
    }
    match replayed(alloc, problem, d)? {
        Replay::Verified => Ok(Checked::Verified),
        Replay::Refused { step } => Ok(Checked::RefusedStep(step)),
    }
}

// What is found of the bytes behind a problem, whose first one has this place.
fn found_answer(
    alloc: Global,
    problem: &Problem,
    at: usize,
    answer: &[u8],
) -> Result<Checked, AllocError>
    requires few { count_of problem.now ≤ max_clauses }
    requires room { at + length answer.now < 2 ^ 64 }
    ensures { IfOk result (FindsAnswer problem.now at answer.now) }
{
    if begins_list(answer) {
        return Ok(Checked::SaturatedList);
    }
    match parse_text(alloc, answer) {
        Ok((status, d)) => found_proof(alloc, problem, status, &d),
        Err(TextError::BadText(bad)) => Ok(Checked::BadText(at as u64 + bad.at)),
        Err(TextError::Memory) => Err(AllocError),
    }
}

// What is found where the problem has no fault.
fn found(alloc: Global, problem: &Problem, at: usize, answer: &[u8]) -> Result<Checked, AllocError>
    requires room { at + length answer.now < 2 ^ 64 }
    ensures { IfOk result (FindsBehind problem.now at answer.now) }
{
    let count = count(problem);
    if count > MAX_CLAUSES {
        return Ok(Checked::TooMany(count));
    }
    found_answer(alloc, problem, at, answer)
}

/// What a check of the bytes finds, without search. The bytes are a problem, and behind it what the program has written for it: from the
/// first line on that begins with `% SZS status ` or `% Saturated `. The first fault of the problem comes before its number of clauses, this
/// before a list, which isn't checked; the text of a derivation is read to its end before the word of its status is compared with the problem, and this
/// before the steps are replayed over the clauses with the derivation's own kind of variables. Where no such line is there, the text
/// is bad at the input's length. A number of a step past 2^32 - 1 counts as want of memory.
pub fn check(alloc: Global, bytes: &[u8]) -> Result<Checked, AllocError>
    ensures { IfOk result (Finds bytes.now) }
{
    let problem_part = before_answer(bytes);
    let at = problem_part.len();
    match read(alloc, problem_part) {
        Ok(problem) => found(alloc, &problem, at, &bytes[at..]),
        Err(ReadError::Refused(fault)) => Ok(Checked::Faulty(fault)),
        Err(ReadError::Memory) => Err(AllocError),
    }
}
