//! Queries and their marks.

ghost use Rattle.std.specs.Prelude.{◌≡◌, ◌↔◌, slice_get, IsTrue, IfOk};
ghost use Rattle.query_board.specs.Queries.{may_change};
ghost use Rattle.query_board.specs.Stamps as spec;

use sqlite_items::Items;
use std::alloc::{AllocError, Global};

/// A clause by its number, in one of its versions. Stamps are ordered by the number, then by the version.
#[derive(Clone, Copy, Debug, PartialEq, Eq, PartialOrd, Ord, Hash)]
pub struct Stamp {
    /// The number of the clause.
    pub clause: u32,
    /// The version, counted from 0.
    pub version: u32,
}

/// What a query asks of a judge.
#[derive(Debug, Drop)]
pub enum Asked {
    /// Whether these clauses contradict each other.
    Close(Items<Stamp>),
    /// Whether these clauses entail the one behind them.
    Entail(Items<Stamp>, Stamp),
}

impl Stamp {
    /// Whether two stamps are equal.
    pub fn same(self, other: Stamp) -> bool
        ensures test { result ≡ spec.same_stamp self other }
        ensures exactly { IsTrue result ↔ (self ≡ other) }
    {
        self.clause == other.clause && self.version == other.version
    }
}

impl Asked {
    /// A query that equals this one.
    pub fn copy(&self, alloc: Global) -> Result<Asked, AllocError>
        ensures { IfOk result (λ r. r ≡ self.now) }
    {
        match self {
            Asked::Close(stamps) => {
                let stamps = Items::from_slice(alloc, stamps.as_slice())?;
                Ok(Asked::Close(stamps))
            }
            Asked::Entail(stamps, target) => {
                let stamps = Items::from_slice(alloc, stamps.as_slice())?;
                Ok(Asked::Entail(stamps, *target))
            }
        }
    }

    /// The stamp of this number among those that the query names: the clauses first, then the entailed one. None past
    /// the last.
    pub fn named_at(&self, number: usize) -> Option<Stamp>
        ensures { result ≡ slice_get (spec.named self.now) number }
    {
        match self {
            Asked::Close(stamps) => stamps.get(number).copied(),
            Asked::Entail(stamps, target) => {
                if number == stamps.len() {
                    return Some(*target);
                }
                stamps.get(number).copied()
            }
        }
    }

    /// Whether it is asked for a contradiction.
    pub fn is_close(&self) -> bool
        ensures { result ≡ spec.is_close self.now }
    {
        match self {
            Asked::Close(_) => true,
            Asked::Entail(_, _) => false,
        }
    }
}

/// How far a query has come.
#[derive(Clone, Copy, Debug, PartialEq, Eq)]
pub enum Mark {
    /// Nobody has taken it up.
    Open,
    /// A worker decides it.
    Claimed,
    /// Its verdict acted.
    Taken,
    /// Its verdict came too late to act.
    Stale,
    /// It was given up before anyone took it up.
    Retired,
}

impl Mark {
    /// Whether a query may go from this mark to the other: from Open to Claimed or Retired, and from Claimed to
    /// Taken or Stale.
    pub fn may_become(self, other: Mark) -> bool
        ensures { result ≡ may_change self other }
    {
        match (self, other) {
            (Mark::Open, Mark::Claimed)
            | (Mark::Open, Mark::Retired)
            | (Mark::Claimed, Mark::Taken)
            | (Mark::Claimed, Mark::Stale) => true,
            _ => false,
        }
    }
}

/// A query that was posted.
#[derive(Debug, Drop)]
pub struct Posted {
    /// What it asks.
    pub asked: Asked,
    /// How far it has come.
    pub mark: Mark,
}
