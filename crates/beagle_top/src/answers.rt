//! The answer to the bytes of a problem.

ghost use Rattle.std.specs.Prelude.{◌≡◌, [], IfOk, IsTrue};
ghost use Rattle.formula_base.specs.Typing.{IsWellTyped};
ghost use Rattle.normal_form.specs.Clauses.{AreWellSorted};
ghost use Rattle.bg_view.specs.Background.{are_background};
ghost use Rattle.arithmetic_answers.specs.Decisions.{Decides, queries_of};
ghost use Rattle.arithmetic_answers.specs.Texts.{Tells};
ghost use Rattle.beagle_top.specs.Texts as text;
ghost use Rattle.beagle_top.specs.Answer as spec;
ghost use Rattle.beagle_top.specs.Answer.{IsCheck, IsDue, IsProof, IsReading};
ghost use Rattle.beagle_top.specs.Answered.{IsAnswered, IsDecidedBy};
ghost use Rattle.beagle_top.specs.Asking.{MayAsk};

use crate::statuses::{GAVE_UP, PROOF_REFUSED, PROVED, REFUSED, SATURATED};
use crate::texts::{found as found_text, not_built, refused, too_many};
use arithmetic_answers::{Decision, answer_text, decide};
use formula_base::Problem;
use judge_base::Judge;
use normal_form::{ClausesError, clauses};
use options::Options;
use proof_check::Checked;
use std::alloc::{AllocError, Global};
use term_base::{Prepared, is_background};
use tff_reader::{ReadError, Refused, read};

/// A status and the text that goes with it.
#[derive(Drop)]
pub struct Answer {
    pub status: u8,
    pub text: Vec<u8>,
}

fn status_of(decision: &Decision) -> u8
    ensures status { result ≡ spec.status_of decision.now }
    ensures due { IsDue result }
{
    match decision {
        Decision::EmptyClause(_) | Decision::Refuted(_) => PROVED,
        Decision::Satisfied(_) => SATURATED,
        Decision::TooWide(_) | Decision::Unknown(_) => GAVE_UP,
    }
}

// Whether each of the clauses is a background clause.
fn are_all_background(prepared: &Prepared) -> bool
    requires { AreWellSorted prepared.now }
    ensures exactly { result ≡ spec.are_all_background prepared.now }
    ensures background { IsTrue result → IsTrue (are_background prepared.now.symbols prepared.now.clauses) }
{
    for clause in prepared.clauses.as_slice() {
        if !is_background(prepared.symbols.as_slice(), clause) {
            return false;
        }
    }
    true
}

// The answer for clauses that are background clauses.
fn decided(
    alloc: Global,
    options: &Options,
    has_conjecture: bool,
    prepared: Prepared,
    judge: &mut dyn Judge,
) -> Result<Answer, AllocError>
    requires { IsTrue (are_background prepared.symbols prepared.clauses) }
    ensures status { IfOk result (λ a. IsDue a.status) }
    ensures due { IfOk result (λ a. IsDecidedBy options.now has_conjecture prepared.clauses
        (numbers judge.old) (numbers judge.new) a.status a.text.items) }
    ensures asked { MayAsk (numbers judge.old) (numbers judge.new) }
{
    let clauses = prepared.clauses.as_slice();
    let symbols = prepared.symbols.as_slice();
    let decision = decide(alloc, symbols, clauses, judge, options.judge_steps)?;
    let status = status_of(&decision);
    let text = answer_text(
        alloc,
        options.ordinary,
        has_conjecture,
        prepared.clauses,
        decision,
    )?;
    Ok(Answer { status, text })
}

fn unbuilt(alloc: Global) -> Result<Answer, AllocError>
    ensures { IfOk result (λ a. (a.status ≡ 3) × (a.text.items ≡ text.not_built)) }
{
    Ok(Answer {
        status: REFUSED,
        text: not_built(alloc)?,
    })
}

fn many(alloc: Global, count: u64) -> Result<Answer, AllocError>
    ensures { IfOk result (λ a. (a.status ≡ 3) × (a.text.items ≡ text.too_many count)) }
{
    Ok(Answer {
        status: REFUSED,
        text: too_many(alloc, count)?,
    })
}

fn faulty(alloc: Global, fault: &Refused) -> Result<Answer, AllocError>
    ensures { IfOk result (λ a. (a.status ≡ 3) × (a.text.items ≡ text.refused fault.now)) }
{
    Ok(Answer {
        status: REFUSED,
        text: refused(alloc, fault)?,
    })
}

// The answer where a problem is to be proved.
fn proof_of(
    alloc: Global,
    options: &Options,
    problem: &Problem,
    judge: &mut dyn Judge,
) -> Result<Answer, AllocError>
    requires { IsWellTyped problem.now }
    ensures status { IfOk result (λ a. IsDue a.status) }
    ensures due { IfOk result (λ a. IsAnswered (IsProof options.now problem.now)
        (numbers judge.old) (numbers judge.new) a.status a.text.items) }
    ensures asked { MayAsk (numbers judge.old) (numbers judge.new) }
{
    let prepared = match clauses(alloc, problem, options.ordinary) {
        Ok(prepared) => prepared,
        Err(ClausesError::TooMany(too)) => return many(alloc, too.count),
        Err(ClausesError::Memory) => return Err(AllocError),
    };
    if are_all_background(&prepared) {
        decided(
            alloc,
            options,
            problem.conjecture.is_some(),
            prepared,
            judge,
        )
    } else {
        unbuilt(alloc)
    }
}

/// The answer to bytes whose problem is to be proved.
pub fn proof(
    alloc: Global,
    options: &Options,
    bytes: &[u8],
    judge: &mut dyn Judge,
) -> Result<Answer, AllocError>
    ensures status { IfOk result (λ a. IsDue a.status) }
    ensures due { IfOk result (λ a. IsAnswered (IsReading (IsProof options.now) bytes.now)
        (numbers judge.old) (numbers judge.new) a.status a.text.items) }
    ensures asked { MayAsk (numbers judge.old) (numbers judge.new) }
{
    match read(alloc, bytes) {
        Ok(problem) => proof_of(alloc, options, &problem, judge),
        Err(ReadError::Refused(fault)) => faulty(alloc, &fault),
        Err(ReadError::Memory) => Err(AllocError),
    }
}

fn status_found(checked: &Checked) -> u8
    ensures { result ≡ spec.found_status checked.now }
{
    match checked {
        Checked::Faulty(_) | Checked::TooMany(_) | Checked::SaturatedList => REFUSED,
        Checked::BadText(_) | Checked::RefusedStep(_) => PROOF_REFUSED,
        Checked::Verified => PROVED,
    }
}

/// The answer to bytes of which the answer behind a problem is to be checked.
pub fn check(alloc: Global, bytes: &[u8]) -> Result<Answer, AllocError>
    ensures { IfOk result (λ a. IsCheck bytes.now [] a.status a.text.items) }
{
    let found = proof_check::check(alloc, bytes)?;
    Ok(Answer {
        status: status_found(&found),
        text: found_text(alloc, &found)?,
    })
}
