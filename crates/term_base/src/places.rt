//! Sides of literals, paths into terms, and places of clauses.

ghost use Rattle.std.specs.Prelude.{◌≡◌, ◌↔◌, IsTrue, IfOk};

use smallvec::SmallVec;
use std::alloc::{AllocError, Global};
use std::marker::Model;

/// A side of a literal.
#[derive(Clone, Copy, Debug, PartialEq, Eq, PartialOrd, Ord)]
pub enum Side {
    Left,
    Right,
}

/// A path into a term: the number of a child, then that of a child of this child, and so on.
/// Children are numbered from 0; the only child of `Scale` is 0. Contracts see the list of the numbers.
#[derive(Debug, Drop)]
pub struct Path {
    steps: SmallVec<u32, 8>,
}

impl Model for Path {
    ghost use Rattle.std.specs.Prelude.{List, ℕ};

    ghost Value = { List ℕ };

    ghost view = { λ p. p.steps.items };
}

impl Path {
    /// The path of these numbers.
    pub fn from_slice(alloc: Global, steps: &[u32]) -> Result<Path, AllocError>
        ensures { IfOk result (λ p. p ≡ steps.now) }
    {
        Ok(Path {
            steps: SmallVec::from_slice(alloc, steps)?,
        })
    }

    /// The numbers, the outermost first.
    pub fn as_slice(&self) -> &[u32]
        ensures { result.now ≡ self.now }
    {
        self.steps.as_slice()
    }

    /// A path that equals this one.
    pub fn copy(&self, alloc: Global) -> Result<Path, AllocError>
        ensures { IfOk result (λ p. p ≡ self.now) }
    {
        Path::from_slice(alloc, self.as_slice())
    }

    /// Whether two paths are equal.
    pub fn same(&self, other: &Path) -> bool
        ensures { IsTrue result ↔ (self.now ≡ other.now) }
    {
        self.as_slice() == other.as_slice()
    }
}

/// A place of a clause: a literal by its number from 0, one of its sides, and a path into the term there.
#[derive(Debug, Drop)]
pub struct Place {
    pub literal: u32,
    pub side: Side,
    pub path: Path,
}

impl Place {
    /// A place that equals this one.
    pub fn copy(&self, alloc: Global) -> Result<Place, AllocError>
        ensures { IfOk result (λ p. p ≡ self.now) }
    {
        Ok(Place {
            literal: self.literal,
            side: self.side,
            path: self.path.copy(alloc)?,
        })
    }

    /// Whether two places are equal.
    pub fn same(&self, other: &Place) -> bool
        ensures { IsTrue result ↔ (self.now ≡ other.now) }
    {
        self.literal == other.literal && self.side == other.side && self.path.same(&other.path)
    }
}
