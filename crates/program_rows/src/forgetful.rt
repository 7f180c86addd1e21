//! A judge without memory.

use judge_base::{Judge, Query, Verdict};
use sqlite_items::Items;
use std::alloc::{AllocError, Global};

/// A judge that keeps the numbers of its queries, and has no memory to decide them.
#[derive(Drop)]
pub struct Forgetful {
    asked: Items<u64>,
}

impl Forgetful {
    /// A judge that was asked this before.
    pub fn new(alloc: Global, before: u64) -> Result<Forgetful, AllocError> {
        let mut asked = Items::new(alloc);
        asked.push(before)?;
        Ok(Forgetful { asked })
    }
}

impl Judge for Forgetful {
    ghost numbers = { λ j. j.asked };

    fn judge(&mut self, query: &Query, _limit: u64) -> Result<Verdict, AllocError> {
        self.asked.push(query.number)?;
        Err(AllocError)
    }

    fn asked(&self, at: u64) -> Option<u64> {
        let at = usize::try_from(at).ok()?;
        self.asked.get(at).copied()
    }
}
