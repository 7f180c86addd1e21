//! Derivations of falsehood, and their texts.

ghost use Rattle.std.specs.Prelude.{◌≡◌, [], ◌∷◌, ◌++◌, reverse, IfOk, IsTrue};
ghost use Rattle.arithmetic_answers.specs.Derivations as spec;
ghost use Rattle.cert_text.specs.Spelled.{is_spelled};
ghost use Rattle.proof_text.specs.Derivations.{Spells};

use cert_tree::Cert;
use proof_steps::{Derivation, Rule, Step};
use proof_text::{Status, print_text};
use sqlite_items::Items;
use std::alloc::{AllocError, Global};
use term_base::Clause;

// The status of a problem whose clauses contradict each other.
fn szs_status(has_conjecture: bool) -> Status
    ensures { result ≡ spec.szs_status has_conjecture }
{
    if has_conjecture {
        Status::Theorem
    } else {
        Status::Unsatisfiable
    }
}

// The number of a clause or a step; one that doesn't fit counts as want of memory.
fn narrow(number: u64) -> Result<u32, AllocError>
    ensures { IfOk result (λ n. n ≡ number) }
{
    match u32::try_from(number) {
        Ok(narrow) => Ok(narrow),
        Err(_) => Err(AllocError),
    }
}

// The step that takes the clause of this number.
fn input_step(number: u64, clause: Clause) -> Result<Step, AllocError>
    ensures { IfOk result (λ s. s ≡ spec.input_step number clause) }
{
    let rule = Rule::Input {
        clause: narrow(number)?,
    };
    Ok(Step { rule, clause })
}

// The empty clause.
fn empty_clause(alloc: Global) -> Clause
    ensures { result ≡ spec.empty_clause }
{
    Clause {
        literals: Items::new(alloc),
    }
}

// So many numbers from 0 on.
fn numbers(alloc: Global, count: u32) -> Result<Items<u32>, AllocError>
    ensures { IfOk result (λ ns. ns ≡ spec.numbers 0 count) }
{
    let mut all = Items::new(alloc);
    for number in 0..count {
        all.push(number)?;
    }
    Ok(all)
}

// The step that closes so many first steps.
fn close_step(alloc: Global, count: u64, cert: Cert) -> Result<Step, AllocError>
    ensures { IfOk result (λ s. s ≡ spec.close_step count cert) }
{
    let of = numbers(alloc, narrow(count)?)?;
    Ok(Step {
        rule: Rule::Close { of, cert },
        clause: empty_clause(alloc),
    })
}

// The steps that take the clauses, and behind them the last one, all the last one first.
fn backwards(alloc: Global, clauses: Items<Clause>, last: Step) -> Result<Vec<Step>, AllocError>
    ensures { IfOk result (λ steps.
        reverse steps.items ≡ spec.input_steps 0 clauses ++ last ∷ []) }
{
    let mut clauses = clauses;
    let mut steps = Vec::new(alloc);
    steps.push(last)?;
    while let Some(clause) = clauses.pop() {
        steps.push(input_step(clauses.len() as u64, clause)?)?;
    }
    Ok(steps)
}

// The steps that take the clauses and close them by the certificate.
fn refutation_steps(
    alloc: Global,
    clauses: Items<Clause>,
    cert: Cert,
) -> Result<Items<Step>, AllocError>
    ensures { IfOk result (λ steps. steps ≡ spec.refutation_steps clauses cert) }
{
    let last = close_step(alloc, clauses.len() as u64, cert)?;
    let mut steps = backwards(alloc, clauses, last)?;
    steps.reverse();
    Ok(Items::from_vec(steps))
}

/// The text of the derivation whose one step takes the clause of this number, which is empty. A number past 2^32 - 1 counts as want of memory.
pub fn empty_clause_text(
    alloc: Global,
    ordinary: bool,
    has_conjecture: bool,
    number: u64,
) -> Result<Vec<u8>, AllocError>
    ensures { IfOk result
        (λ text. Spells (spec.szs_status has_conjecture, spec.empty_clause_derivation ordinary number) text.items) }
{
    let mut steps = Items::new(alloc);
    steps.push(input_step(number, empty_clause(alloc))?)?;
    let derivation = Derivation { ordinary, steps };
    print_text(alloc, szs_status(has_conjecture), &derivation)
}

/// The text of the derivation that takes all clauses and closes them by the certificate. 2^32 clauses or more count as want of memory.
pub fn refutation_text(
    alloc: Global,
    ordinary: bool,
    has_conjecture: bool,
    clauses: Items<Clause>,
    cert: Cert,
) -> Result<Vec<u8>, AllocError>
    requires { IsTrue (is_spelled cert) }
    ensures { IfOk result
        (λ text. Spells (spec.szs_status has_conjecture, spec.refutation ordinary clauses cert) text.items) }
{
    let steps = refutation_steps(alloc, clauses, cert)?;
    let derivation = Derivation { ordinary, steps };
    print_text(alloc, szs_status(has_conjecture), &derivation)
}
