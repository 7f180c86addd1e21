//! Rules, steps and derivations. Any value is one; `replay` tells which derivations stand.

use cert_tree::Cert;
use sqlite_items::Items;
use term_base::{Clause, Place, Side, Subst, Term};

/// How a step comes from clauses of the file and from earlier steps. Steps are named by their numbers
/// from 0, literals by their numbers from 0 in their clause.
#[derive(Debug, Drop)]
pub enum Rule {
    /// A clause of the file.
    Input {
        /// The clause's number.
        clause: u32,
    },
    /// An equation of one step put into a term of another one.
    Superpose {
        /// The step with the equation.
        from: u32,
        /// The equation's literal.
        literal: u32,
        /// The side that is replaced.
        side: Side,
        /// The step with the term.
        into: u32,
        /// The place of the term.
        place: Place,
        /// The substitution of the first premise.
        s1: Subst,
        /// The substitution of the second premise.
        s2: Subst,
    },
    /// A disequation whose sides become equal is left out.
    Resolve {
        /// The premise.
        of: u32,
        /// The disequation.
        literal: u32,
        /// The substitution.
        s1: Subst,
    },
    /// Of two equations with an equal side the second becomes a disequation of the other sides.
    Factor {
        /// The premise.
        of: u32,
        /// The first equation.
        first: u32,
        /// Its side.
        first_side: Side,
        /// The second equation.
        second: u32,
        /// Its side.
        second_side: Side,
        /// The substitution.
        s1: Subst,
    },
    /// An abstraction.
    Abstract {
        /// The premise.
        of: u32,
    },
    /// Literals that say the same; false ones may be left out.
    Normal {
        /// The premise.
        of: u32,
    },
    /// A number for a variable.
    Pin {
        /// The premise.
        of: u32,
        /// The disequation of the variable and the number.
        literal: u32,
    },
    /// A term rewritten by a clause of one equation.
    Demodulate {
        /// The premise.
        of: u32,
        /// The place of the term.
        place: Place,
        /// The step with the equation.
        by: u32,
        /// The equation's side that the term is an instance of.
        side: Side,
        /// The substitution of the equation.
        s1: Subst,
    },
    /// A new parameter for a term.
    Define {
        /// The term.
        term: Term,
        /// The parameter.
        symbol: u32,
    },
    /// Background clauses that a certificate refutes.
    Close {
        /// The premises, in the order of the pool.
        of: Items<u32>,
        /// The certificate.
        cert: Cert,
    },
}

/// A clause and the rule by which it comes.
#[derive(Debug, Drop)]
pub struct Step {
    /// The rule.
    pub rule: Rule,
    /// The clause.
    pub clause: Clause,
}

/// Steps, each on clauses of the file and on earlier steps.
#[derive(Debug, Drop)]
pub struct Derivation {
    /// Whether integer variables of clauses with a foreground symbol are ordinary ones in the clauses of
    /// the file.
    pub ordinary: bool,
    /// The steps, the first one first.
    pub steps: Items<Step>,
}

/// What replay finds.
#[derive(Clone, Copy, Debug, PartialEq, Eq)]
pub enum Replay {
    /// Each step stands and the last clause is empty.
    Verified,
    /// The first step that doesn't stand, or the number of steps where all stand and the last clause isn't
    /// empty.
    Refused {
        /// The number.
        step: u32,
    },
}
