//! The conclusion of a candidate.

ghost use Rattle.std.specs.Prelude.{IfOk, IfSome, IfNone};
ghost use Rattle.term_base.specs.Lits.{lits};
ghost use Rattle.term_base.specs.Substitution.{image};
ghost use Rattle.hier_rules.specs.Fires as spec;
ghost use Rattle.hier_rules.specs.Conclusions.{IsNumbered, KeepsOthers, KeepsSymbols};

use crate::factoring::factoring;
use crate::inferences::{Candidate, Fired};
use crate::resolving::resolution;
use crate::superposing::superposition;
use std::alloc::{AllocError, Global};
use term_base::{Clause, Symbol};

/// What fires for a candidate of these premises, of which a resolution or a factoring has the first alone:
/// substitutions that make the two terms equal and meet the conditions of the rule, and the conclusion, of which
/// every clause that fires for the candidate is an instance by a simple substitution. None exactly where no clause
/// fires: a literal, a side or a place doesn't exist, or is not what the rule asks for; a premise is a background
/// clause; or no simple substitutions make the terms equal and meet the conditions. Nothing fires for a definition.
/// The variables in the images of the premises' variables have the numbers from 0 on, each its own. Other variables
/// stay as they are, and where there is one premise, the second substitution changes nothing. Where the
/// symbols of the premises have numbers below a bound, so have those of the images. Terms with different heads are told
/// apart without a copy.
pub fn conclude(
    alloc: Global,
    signature: &[Symbol],
    candidate: &Candidate,
    c: &Clause,
    d: &Clause,
) -> Result<Option<Fired>, AllocError>
    ensures fires { IfOk result (λ o. IfSome o (λ f. spec.Fires signature.now
        (lits c.now) (lits d.now) candidate.now (image f.s1) (image f.s2) (lits f.clause))) }
    ensures covers { IfOk result (λ o. IfSome o (λ f. spec.CoversAll signature.now
        (lits c.now) (lits d.now) candidate.now (lits f.clause))) }
    ensures numbered { IfOk result (λ o. IfSome o (λ f. IsNumbered
        (lits c.now) (lits d.now) candidate.now (image f.s1) (image f.s2))) }
    ensures others { IfOk result (λ o. IfSome o (λ f. KeepsOthers
        (lits c.now) (lits d.now) candidate.now (image f.s1) (image f.s2))) }
    ensures known { IfOk result (λ o. IfSome o (λ f. KeepsSymbols
        (lits c.now) (lits d.now) candidate.now (image f.s1) (image f.s2))) }
    ensures none { IfOk result (λ o. IfNone o (spec.NothingFires signature.now
        (lits c.now) (lits d.now) candidate.now)) }
{
    match candidate {
        Candidate::Superpose {
            from: _,
            literal,
            side,
            into: _,
            place,
        } => superposition(alloc, signature, *literal, *side, place, c, d),
        Candidate::Resolve { of: _, literal } => resolution(alloc, signature, *literal, c),
        Candidate::Factor {
            of: _,
            first,
            first_side,
            second,
            second_side,
        } => factoring(
            alloc,
            signature,
            *first,
            *first_side,
            *second,
            *second_side,
            c,
        ),
        Candidate::Define { of: _, term: _ } => Ok(None),
    }
}
