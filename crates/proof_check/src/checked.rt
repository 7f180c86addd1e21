//! What a check finds.

use tff_reader::Refused;

/// What a check finds of a problem and the answer behind it.
#[derive(Debug, Drop)]
pub enum Checked {
    /// The first fault of the problem.
    Faulty(Refused),
    /// The problem has this many clauses, more than are taken.
    TooMany(u64),
    /// The answer is a saturated list, which isn't checked.
    SaturatedList,
    /// The first byte with which no derivation goes on, counted from the start of the whole input.
    BadText(u64),
    /// The first step at fault; 0 also where the word of the status is the wrong one; the number of steps where all stand and the last
    /// clause isn't empty.
    RefusedStep(u32),
    /// The answer is a derivation of falsehood from the problem's clauses.
    Verified,
}
