//! Candidates, and what fires for them.

ghost use Rattle.std.specs.Prelude.{◌≡◌, ◌↔◌, IsTrue, IfOk, slice_get};
ghost use Rattle.hier_rules.specs.SameCandidates as spec;

use query_board::Stamp;
use std::alloc::{AllocError, Global};
use term_base::{Clause, Path, Place, Side, Subst, Term};

/// Where a rule may apply. Literals are named by their numbers in their clause, from 0.
#[derive(Debug, Drop)]
pub enum Candidate {
    /// Superposition from the named side of an equation of the first clause into a place of the second.
    Superpose {
        /// The clause of the equation.
        from: Stamp,
        /// The equation.
        literal: u32,
        /// The side that becomes equal to the term at the place; the other one goes there.
        side: Side,
        /// The clause of the place.
        into: Stamp,
        /// The place of the term that is replaced.
        place: Place,
    },
    /// Resolution of a disequation of the clause.
    Resolve {
        /// The clause.
        of: Stamp,
        /// The disequation, whose sides become equal.
        literal: u32,
    },
    /// Factoring of the named sides of two equations of the clause.
    Factor {
        /// The clause.
        of: Stamp,
        /// The equation that stays.
        first: u32,
        /// Its side that becomes equal to one of the other equation.
        first_side: Side,
        /// The equation that gives way to a disequation of the other sides.
        second: u32,
        /// Its side that becomes equal to that of the first equation.
        second_side: Side,
    },
    /// The definition of a term of the clause by a new parameter.
    Define {
        /// The clause.
        of: Stamp,
        /// The term.
        term: Term,
    },
}

/// What fires for a candidate: a substitution for each premise, and the conclusion. Where there is one premise,
/// the second substitution changes nothing.
#[derive(Debug, Drop)]
pub struct Fired {
    /// The substitution of the first premise, or of the only one.
    pub s1: Subst,
    /// The substitution of the second premise.
    pub s2: Subst,
    /// The conclusion.
    pub clause: Clause,
}

impl Candidate {
    /// A candidate that equals this one.
    pub fn copy(&self, alloc: Global) -> Result<Candidate, AllocError>
        ensures { IfOk result (λ r. r ≡ self.now) }
    {
        match self {
            Candidate::Superpose {
                from,
                literal,
                side,
                into,
                place,
            } => Ok(Candidate::Superpose {
                from: *from,
                literal: *literal,
                side: *side,
                into: *into,
                place: place.copy(alloc)?,
            }),
            Candidate::Resolve { of, literal } => Ok(Candidate::Resolve {
                of: *of,
                literal: *literal,
            }),
            Candidate::Factor {
                of,
                first,
                first_side,
                second,
                second_side,
            } => Ok(Candidate::Factor {
                of: *of,
                first: *first,
                first_side: *first_side,
                second: *second,
                second_side: *second_side,
            }),
            Candidate::Define { of, term } => Ok(Candidate::Define {
                of: *of,
                term: term.copy(alloc)?,
            }),
        }
    }

    /// The stamp of the premise with this number, counted from 0 in the rule's order. None past the last.
    pub fn premise(&self, number: usize) -> Option<Stamp>
        ensures { result ≡ slice_get (spec.premises self.now) number }
    {
        match (self, number) {
            (Candidate::Superpose { from, .. }, 0) => Some(*from),
            (Candidate::Superpose { into, .. }, 1) => Some(*into),
            (Candidate::Resolve { of, .. }, 0) => Some(*of),
            (Candidate::Factor { of, .. }, 0) => Some(*of),
            (Candidate::Define { of, .. }, 0) => Some(*of),
            _ => None,
        }
    }

    /// Whether two candidates are equal.
    pub fn same(&self, other: &Candidate) -> bool
        ensures test { result ≡ spec.same_candidate self.now other.now }
        ensures exactly { IsTrue result ↔ (self.now ≡ other.now) }
    {
        same_candidate(self, other)
    }
}

/// Whether two candidates are equal, by the test.
fn same_candidate(candidate: &Candidate, other: &Candidate) -> bool
    ensures { result ≡ spec.same_candidate candidate.now other.now }
{
    match (candidate, other) {
        (
            Candidate::Superpose {
                from,
                literal,
                side,
                into,
                place,
            },
            Candidate::Superpose {
                from: f,
                literal: l,
                side: s,
                into: i,
                place: p,
            },
        ) => from.same(*f)
            && *literal == *l
            && *side == *s
            && into.same(*i)
            && same_place(place, p),
        (Candidate::Resolve { of, literal }, Candidate::Resolve { of: f, literal: l }) => {
            of.same(*f) && *literal == *l
        }
        (
            Candidate::Factor {
                of,
                first,
                first_side,
                second,
                second_side,
            },
            Candidate::Factor {
                of: f,
                first: l,
                first_side: s,
                second: m,
                second_side: t,
            },
        ) => of.same(*f)
            && *first == *l
            && *first_side == *s
            && *second == *m
            && *second_side == *t,
        (Candidate::Define { of, term }, Candidate::Define { of: f, term: t }) => of.same(*f)
            && term == t,
        _ => false,
    }
}

/// Whether two paths are equal, by the test.
fn same_path(path: &Path, other: &Path) -> bool
    ensures { result ≡ spec.same_path path.now other.now }
{
    path.same(other)
}

/// Whether two places are equal, by the test.
fn same_place(place: &Place, other: &Place) -> bool
    ensures { result ≡ spec.same_place place.now other.now }
{
    place.literal == other.literal
        && place.side == other.side
        && same_path(&place.path, &other.path)
}
