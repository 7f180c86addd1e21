//! What decides pools.

ghost use Rattle.std.specs.Prelude.{◌≡◌, ◌⊎◌, ◌++◌, ◌∷◌, [], ℕ, List, IfOk, OnErr, IsTrue, slice_get};
ghost use Rattle.lin_base.specs.Fact.{is_pool};
ghost use Rattle.judge_base.specs.Verdicts.{Promises};

use crate::verdicts::{Query, Verdict};
use std::alloc::AllocError;

/// The greatest Depth of a pool that a judge has to decide.
pub const MAX_DEPTH: u64 = 2_000;

/// What decides pools, on request.
///
/// A judge keeps the allocator that it takes memory from. `judge` waits for nobody. Its answer keeps the promise of its
/// verdict: a certificate that stands, values at which the pool is true, or a measure of the pool that is past its
/// limit.
pub trait Judge: Drop {
    /// The numbers of all queries that it was asked, the first one first.
    ghost numbers: { Self → List ℕ };

    /// Decides the query's pool, with Bulk up to the limit. Where memory runs out, the query may or may not count as
    /// asked.
    fn judge(&mut self, query: &Query, limit: u64) -> Result<Verdict, AllocError>
        requires { IsTrue (is_pool query.now.pool) }
        ensures verdict { IfOk result (Promises query.now.pool limit) }
        ensures asked { IfOk result (λ _. numbers self.new ≡ numbers self.old ++ query.now.number ∷ []) }
        ensures memory { OnErr result ((numbers self.new ≡ numbers self.old)
            ⊎ (numbers self.new ≡ numbers self.old ++ query.now.number ∷ [])) };

    /// The number of the query that it was asked at this place, counted from 0. None exactly where there is none.
    fn asked(&self, at: u64) -> Option<u64>
        ensures { result ≡ slice_get (numbers self.now) at };
}
