//! What each rule asks of a step's clause.

ghost use Rattle.std.specs.Prelude.{◌≡◌, IfOk, option_map};
ghost use Rattle.term_base.specs.Lits.{lits};
ghost use Rattle.term_base.specs.Substitution.{image};
ghost use Rattle.linear_form.specs.Normal as normal;
ghost use Rattle.step_rules.specs.Abstraction as abstraction;
ghost use Rattle.step_rules.specs.Inference as inference;
ghost use Rattle.step_rules.specs.Simplified as simplified;
ghost use Rattle.proof_steps.specs.Standing as spec;

use crate::premises::premise;
use crate::steps::Step;
use linear_form::is_normal;
use std::alloc::{AllocError, Global};
use step_rules::{
    demodulated, factored, is_abstraction, pinned, resolved, same_literals, superposed,
};
use term_base::{Clause, Place, Prepared, Side, Subst, Symbol};

/// Whether a conclusion is the clause.
fn gives(o: &Option<Clause>, c: &Clause) -> bool
    ensures { result ≡ spec.gives (option_map lits o.now) (lits c.now) }
{
    match o {
        Some(d) => same_literals(d.literals.as_slice(), c.literals.as_slice()),
        None => false,
    }
}

pub(crate) fn input_stands(prepared: &Prepared, clause: u32, c: &Clause) -> bool
    ensures { result ≡ spec.input_stands prepared.now clause (lits c.now) }
{
    match prepared.clauses.get(clause as usize) {
        Some(d) => same_literals(d.literals.as_slice(), c.literals.as_slice()),
        None => false,
    }
}

pub(crate) fn superpose_stands(
    alloc: Global,
    signature: &[Symbol],
    before: &[Step],
    from: u32,
    literal: u32,
    side: Side,
    into: u32,
    place: &Place,
    s1: &Subst,
    s2: &Subst,
    k: &Clause,
) -> Result<bool, AllocError>
    ensures { IfOk result (λ yes. yes ≡ spec.of_two before.now from into
        (λ a b. spec.gives (inference.superposed (lits a) literal side (lits b) place.now
        (image s1.now) (image s2.now)) (lits k.now))) }
{
    match premise(before, from) {
        None => Ok(false),
        Some(c) => match premise(before, into) {
            None => Ok(false),
            Some(d) => {
                let found = superposed(alloc, signature, c, literal, side, d, place, s1, s2)?;
                Ok(gives(&found, k))
            }
        },
    }
}

pub(crate) fn resolve_stands(
    alloc: Global,
    signature: &[Symbol],
    before: &[Step],
    of: u32,
    literal: u32,
    s1: &Subst,
    k: &Clause,
) -> Result<bool, AllocError>
    ensures { IfOk result (λ yes. yes ≡ spec.of_one before.now of
        (λ a. spec.gives (inference.resolved (lits a) literal (image s1.now)) (lits k.now))) }
{
    match premise(before, of) {
        None => Ok(false),
        Some(c) => {
            let found = resolved(alloc, signature, c, literal, s1)?;
            Ok(gives(&found, k))
        }
    }
}

pub(crate) fn factor_stands(
    alloc: Global,
    signature: &[Symbol],
    before: &[Step],
    of: u32,
    first: u32,
    first_side: Side,
    second: u32,
    second_side: Side,
    s1: &Subst,
    k: &Clause,
) -> Result<bool, AllocError>
    ensures { IfOk result (λ yes. yes ≡ spec.of_one before.now of
        (λ a. spec.gives (inference.factored (lits a) first first_side second second_side
        (image s1.now)) (lits k.now))) }
{
    match premise(before, of) {
        None => Ok(false),
        Some(c) => {
            let found = factored(
                alloc,
                signature,
                c,
                first,
                first_side,
                second,
                second_side,
                s1,
            )?;
            Ok(gives(&found, k))
        }
    }
}

pub(crate) fn abstract_stands(signature: &[Symbol], before: &[Step], of: u32, k: &Clause) -> bool
    ensures { result ≡ spec.of_one before.now of
        (λ a. abstraction.is_abstraction signature.now (lits a) (lits k.now)) }
{
    match premise(before, of) {
        None => false,
        Some(c) => is_abstraction(signature, c, k),
    }
}

pub(crate) fn normal_stands(
    alloc: Global,
    signature: &[Symbol],
    before: &[Step],
    of: u32,
    k: &Clause,
) -> Result<bool, AllocError>
    ensures { IfOk result (λ yes. yes ≡ spec.of_one before.now of
        (λ a. normal.is_normal signature.now (lits a) (lits k.now))) }
{
    match premise(before, of) {
        None => Ok(false),
        Some(c) => is_normal(alloc, signature, c, k),
    }
}

pub(crate) fn pin_stands(
    alloc: Global,
    signature: &[Symbol],
    before: &[Step],
    of: u32,
    literal: u32,
    k: &Clause,
) -> Result<bool, AllocError>
    ensures { IfOk result (λ yes. yes ≡ spec.of_one before.now of
        (λ a. spec.gives (simplified.pinned (lits a) literal) (lits k.now))) }
{
    match premise(before, of) {
        None => Ok(false),
        Some(c) => {
            let found = pinned(alloc, signature, c, literal)?;
            Ok(gives(&found, k))
        }
    }
}

pub(crate) fn demodulate_stands(
    alloc: Global,
    signature: &[Symbol],
    before: &[Step],
    of: u32,
    place: &Place,
    by: u32,
    side: Side,
    s1: &Subst,
    k: &Clause,
) -> Result<bool, AllocError>
    ensures { IfOk result (λ yes. yes ≡ spec.of_two before.now of by
        (λ a b. spec.gives (simplified.demodulated (lits a) place.now (lits b) side
        (image s1.now)) (lits k.now))) }
{
    match premise(before, of) {
        None => Ok(false),
        Some(c) => match premise(before, by) {
            None => Ok(false),
            Some(unit) => {
                let found = demodulated(alloc, signature, c, place, unit, side, s1)?;
                Ok(gives(&found, k))
            }
        },
    }
}
