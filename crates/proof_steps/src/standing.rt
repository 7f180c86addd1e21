//! Whether a step stands on the steps before it.

ghost use Rattle.std.specs.Prelude.{◌≡◌, ◌+◌, ◌<◌, ◌≤◌, ◌^◌, length, IfOk};
ghost use Rattle.term_base.specs.Lits.{lits};
ghost use Rattle.proof_steps.specs.Standing as spec;

use crate::closing::close_stands;
use crate::defining::definition_stands;
use crate::rules::{
    abstract_stands, demodulate_stands, factor_stands, input_stands, normal_stands, pin_stands,
    resolve_stands, superpose_stands,
};
use crate::steps::{Rule, Step};
use std::alloc::{AllocError, Global};
use step_rules::{is_known_clause, is_written};
use term_base::{Clause, Prepared, Symbol, well_sorted};

/// How many symbols a rule makes.
pub(crate) fn defined_by(rule: &Rule) -> usize
    ensures value { result ≡ spec.defined_by rule.now }
    ensures bound { result ≤ 1 }
{
    match rule {
        Rule::Define { .. } => 1,
        Rule::Input { .. } | Rule::Superpose { .. } | Rule::Resolve { .. } => 0,
        Rule::Factor { .. } | Rule::Abstract { .. } | Rule::Normal { .. } => 0,
        Rule::Pin { .. } | Rule::Demodulate { .. } | Rule::Close { .. } => 0,
    }
}

/// Whether the substitutions of a rule may be written, where symbols with numbers below `n` are there.
fn rule_is_written(signature: &[Symbol], n: usize, rule: &Rule) -> bool
    ensures { result ≡ spec.rule_is_written signature.now n rule.now }
{
    match rule {
        Rule::Superpose { s1, s2, .. } => is_written(signature, n, s1)
            && is_written(signature, n, s2),
        Rule::Resolve { s1, .. } => is_written(signature, n, s1),
        Rule::Factor { s1, .. } => is_written(signature, n, s1),
        Rule::Demodulate { s1, .. } => is_written(signature, n, s1),
        Rule::Input { .. } | Rule::Abstract { .. } | Rule::Normal { .. } => true,
        Rule::Pin { .. } | Rule::Define { .. } | Rule::Close { .. } => true,
    }
}

/// Whether a clause is what a rule gives, where symbols with numbers below `n` are there.
fn rule_gives(
    alloc: Global,
    prepared: &Prepared,
    before: &[Step],
    n: usize,
    rule: &Rule,
    c: &Clause,
) -> Result<bool, AllocError>
    ensures { IfOk result (λ yes. yes
        ≡ spec.rule_gives prepared.now before.now n rule.now (lits c.now)) }
{
    let signature = prepared.symbols.as_slice();
    match rule {
        Rule::Input { clause } => Ok(input_stands(prepared, *clause, c)),
        Rule::Superpose {
            from,
            literal,
            side,
            into,
            place,
            s1,
            s2,
        } => superpose_stands(
            alloc, signature, before, *from, *literal, *side, *into, place, s1, s2, c,
        ),
        Rule::Resolve { of, literal, s1 } => {
            resolve_stands(alloc, signature, before, *of, *literal, s1, c)
        }
        Rule::Factor {
            of,
            first,
            first_side,
            second,
            second_side,
            s1,
        } => factor_stands(
            alloc,
            signature,
            before,
            *of,
            *first,
            *first_side,
            *second,
            *second_side,
            s1,
            c,
        ),
        Rule::Abstract { of } => Ok(abstract_stands(signature, before, *of, c)),
        Rule::Normal { of } => normal_stands(alloc, signature, before, *of, c),
        Rule::Pin { of, literal } => pin_stands(alloc, signature, before, *of, *literal, c),
        Rule::Demodulate {
            of,
            place,
            by,
            side,
            s1,
        } => { demodulate_stands(alloc, signature, before, *of, place, *by, *side, s1, c) }
        Rule::Define { term, symbol } => Ok(definition_stands(signature, n, term, *symbol, c)),
        Rule::Close { of, cert } => close_stands(alloc, signature, before, of.as_slice(), cert, c),
    }
}

/// Whether a clause is what a rule gives, by substitutions that may be written.
fn rule_stands(
    alloc: Global,
    prepared: &Prepared,
    before: &[Step],
    n: usize,
    rule: &Rule,
    c: &Clause,
) -> Result<bool, AllocError>
    ensures { IfOk result (λ yes. yes
        ≡ spec.rule_stands prepared.now before.now n rule.now (lits c.now)) }
{
    if !rule_is_written(prepared.symbols.as_slice(), n, rule) {
        return Ok(false);
    }
    rule_gives(alloc, prepared, before, n, rule, c)
}

/// Whether a step stands on the steps before it, where symbols with numbers below `n` are there.
pub(crate) fn stands_at(
    alloc: Global,
    prepared: &Prepared,
    before: &[Step],
    n: usize,
    step: &Step,
) -> Result<bool, AllocError>
    requires { n + 1 < 2 ^ 64 }
    ensures { IfOk result (λ yes. yes ≡ spec.stands_at prepared.now before.now n step.now) }
{
    if !well_sorted(prepared.symbols.as_slice(), &step.clause) {
        return Ok(false);
    }
    if !is_known_clause(n + defined_by(&step.rule), &step.clause) {
        return Ok(false);
    }
    rule_stands(alloc, prepared, before, n, &step.rule, &step.clause)
}

/// The number of Define steps.
pub(crate) fn defines(steps: &[Step]) -> usize
    ensures value { result ≡ spec.defines steps.now }
    ensures bound { result ≤ length steps.now }
{
    let mut count: usize = 0;
    for step in steps {
        count += defined_by(&step.rule);
    }
    count
}

/// Whether a step stands on the steps before it: its clause is well sorted over the symbols of the file and
/// the Skolem symbols, each symbol past those is that of an earlier Define, or of this one, the written
/// substitutions are simple and have such symbols alone, and the clause is what the rule gives. Nothing is
/// assumed of the steps. All earlier steps are gone over, for their Defines.
pub fn is_standing(
    alloc: Global,
    prepared: &Prepared,
    before: &[Step],
    step: &Step,
) -> Result<bool, AllocError>
    ensures { IfOk result (λ yes. yes ≡ spec.step_stands prepared.now before.now step.now) }
{
    let symbols = prepared.symbols.as_slice();
    let next = symbols.len() + defines(before);
    stands_at(alloc, prepared, before, next, step)
}
