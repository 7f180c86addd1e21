//! A judge by Cooper's elimination.

ghost use Rattle.std.specs.Prelude.{◌≡◌, []};

use cooper::decide;
use judge_base::{Judge, Query, Verdict};
use sqlite_items::Items;
use std::alloc::{AllocError, Global};
use std::marker::Model;

/// A judge by Cooper's elimination (Cooper 1972). Contracts see it as the list of the numbers of the queries that it
/// was asked.
#[derive(Drop)]
pub struct CooperJudge {
    alloc: Global,
    asked: Items<u64>,
}

impl Model for CooperJudge {
    ghost use Rattle.std.specs.Prelude.{ℕ, List};

    ghost Value = { List ℕ };

    ghost view = { λ j. j.asked };
}

impl CooperJudge {
    /// A judge that was asked nothing. It keeps the allocator, and takes no memory yet.
    pub fn new(alloc: Global) -> CooperJudge
        ensures { result ≡ [] }
    {
        CooperJudge {
            alloc,
            asked: Items::new(alloc),
        }
    }
}

impl Judge for CooperJudge {
    ghost numbers = { λ j. j };

    fn judge(&mut self, query: &Query, limit: u64) -> Result<Verdict, AllocError> {
        self.asked.push(query.number)?;
        decide(self.alloc, &query.pool, limit)
    }

    fn asked(&self, at: u64) -> Option<u64> {
        let at = usize::try_from(at).ok()?;
        self.asked.get(at).copied()
    }
}
