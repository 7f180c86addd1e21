//! What certificates and the check of values promise, over all integers without limit.

ghost use Rattle.cert_tree.specs.Laws.{StandsImpossible, HoldsTrue, TrueHolds, CompleteShift, LeastShift};

/// A pool with a certificate that stands is true at no values.
pub fn standing_is_impossible()
    ensures { StandsImpossible }
{}

/// Where the check of values says yes the pool is true there.
pub fn checked_values_are_true()
    ensures { HoldsTrue }
{}

/// Where a pool is true at values and no number of the check leaves the range, the check says yes.
pub fn true_values_are_checked()
    ensures { TrueHolds }
{}

/// For all integers `x` a clause is true exactly where all clauses of Complete are (Cooper 1972).
pub fn complete_has_every_case()
    ensures { CompleteShift }
{}

/// Facts that hold at some integer for `p` have a child of Least whose facts hold, at the same values of the other
/// unknowns (Cooper 1972).
pub fn least_has_every_case()
    ensures { LeastShift }
{}
