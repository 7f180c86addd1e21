//! The queries in the order in which they were posted.

ghost use Rattle.std.specs.Prelude.{◌≡◌, ◌≢◌, ◌∷◌, ◌++◌, [], ℕ, length, slice_get, option_map, MatchResult, if◌then◌else◌};
ghost use Rattle.std.specs.Option.{option_copied};
ghost use Rattle.query_board.specs.Queries.{mark_at, may_set, new_query, with_mark};

use crate::queries::{Asked, Mark, Posted};
use std::alloc::{AllocError, Global};
use std::marker::Model;

/// The queries, numbered from 0 in the order in which they were posted. Contracts see the list of them.
#[derive(Debug, Drop)]
pub struct Board {
    queries: Vec<Posted>,
}

impl Model for Board {
    ghost use Rattle.std.specs.Prelude.{List};
    ghost use Rattle.query_board.specs.declared.queries.Posted.{Posted};

    ghost Value = { List Posted };

    ghost view = { λ b. b.queries.items };
}

impl Board {
    /// A board without queries. It keeps the allocator, and takes no memory yet.
    pub fn new(alloc: Global) -> Board
        ensures { result ≡ [] }
    {
        Board {
            queries: Vec::new(alloc),
        }
    }

    /// Posts a query, which is open, and gives its number. For want of memory the board stays as it was.
    pub fn post(&mut self, asked: Asked) -> Result<u64, AllocError>
        ensures { MatchResult result
            (λ query. (query ≡ length self.old) × (self.new ≡ self.old ++ new_query asked ∷ []))
            (λ _. self.new ≡ self.old) }
    {
        let query = self.queries.len() as u64;
        self.queries.push(Posted {
            asked,
            mark: Mark::Open,
        })?;
        Ok(query)
    }

    /// The mark of a query; None where there is no query of this number.
    pub fn mark(&self, query: u64) -> Option<Mark>
        ensures { result ≡ mark_at self.now query }
    {
        match self.queries.get(query as usize) {
            Some(posted) => Some(posted.mark),
            None => None,
        }
    }

    /// The query of this number as it was posted, with its mark; None where there is none.
    pub fn get(&self, query: u64) -> Option<&Posted>
        ensures { option_copied result ≡ slice_get self.now query }
    {
        self.queries.get(query as usize)
    }

    /// How many queries were posted.
    pub fn len(&self) -> u64
        ensures { result ≡ length self.now }
    {
        self.queries.len() as u64
    }

    /// Changes the mark of a query. True exactly where the query exists and its mark may become the new one; else
    /// nothing changes. No other query changes.
    pub fn set(&mut self, query: u64, mark: Mark) -> bool
        ensures answer { result ≡ may_set self.old query mark }
        ensures board { self.new ≡ (if result then with_mark self.old query mark else self.old) }
        ensures others { (other : ℕ) → other ≢ query → slice_get self.new other ≡ slice_get self.old other }
        ensures same { length self.new ≡ length self.old }
    {
        let at = query as usize;
        if at < self.queries.len() {
            let posted = &mut self.queries[at];
            if posted.mark.may_become(mark) {
                posted.mark = mark;
                return true;
            }
        }
        false
    }
}
