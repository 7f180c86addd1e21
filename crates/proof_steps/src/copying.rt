//! Copies of rules, steps and derivations.

ghost use Rattle.std.specs.Prelude.{◌≡◌, IfOk};

use crate::steps::{Derivation, Rule, Step};
use sqlite_items::Items;
use std::alloc::{AllocError, Global};

impl Rule {
    /// The same rule.
    pub fn copy(&self, alloc: Global) -> Result<Rule, AllocError>
        ensures { IfOk result (λ r. r ≡ self.now) }
    {
        match self {
            Rule::Input { clause } => Ok(Rule::Input { clause: *clause }),
            Rule::Superpose {
                from,
                literal,
                side,
                into,
                place,
                s1,
                s2,
            } => Ok(Rule::Superpose {
                from: *from,
                literal: *literal,
                side: *side,
                into: *into,
                place: place.copy(alloc)?,
                s1: s1.copy(alloc)?,
                s2: s2.copy(alloc)?,
            }),
            Rule::Resolve { of, literal, s1 } => Ok(Rule::Resolve {
                of: *of,
                literal: *literal,
                s1: s1.copy(alloc)?,
            }),
            Rule::Factor {
                of,
                first,
                first_side,
                second,
                second_side,
                s1,
            } => Ok(Rule::Factor {
                of: *of,
                first: *first,
                first_side: *first_side,
                second: *second,
                second_side: *second_side,
                s1: s1.copy(alloc)?,
            }),
            Rule::Abstract { of } => Ok(Rule::Abstract { of: *of }),
            Rule::Normal { of } => Ok(Rule::Normal { of: *of }),
            Rule::Pin { of, literal } => Ok(Rule::Pin {
                of: *of,
                literal: *literal,
            }),
            Rule::Demodulate {
                of,
                place,
                by,
                side,
                s1,
            } => Ok(Rule::Demodulate {
                of: *of,
                place: place.copy(alloc)?,
                by: *by,
                side: *side,
                s1: s1.copy(alloc)?,
            }),
            Rule::Define { term, symbol } => Ok(Rule::Define {
                term: term.copy(alloc)?,
                symbol: *symbol,
            }),
            Rule::Close { of, cert } => Ok(Rule::Close {
                of: Items::from_slice(alloc, of.as_slice())?,
                cert: cert.copy(alloc)?,
            }),
        }
    }
}

impl Step {
    /// The same step.
    pub fn copy(&self, alloc: Global) -> Result<Step, AllocError>
        ensures { IfOk result (λ s. s ≡ self.now) }
    {
        Ok(Step {
            rule: self.rule.copy(alloc)?,
            clause: self.clause.copy(alloc)?,
        })
    }
}

impl Derivation {
    /// The same derivation.
    pub fn copy(&self, alloc: Global) -> Result<Derivation, AllocError>
        ensures { IfOk result (λ d. d ≡ self.now) }
    {
        let mut steps = Items::new(alloc);
        for step in self.steps.as_slice() {
            steps.push(step.copy(alloc)?)?;
        }
        Ok(Derivation {
            ordinary: self.ordinary,
            steps,
        })
    }
}
