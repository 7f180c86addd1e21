//! The parameters that are used up.

ghost use Rattle.std.specs.Prelude.{◌≡◌, [], length, take, OnOk};
ghost use Rattle.cert_tree.specs.Counting.{is_one_of, with_number};

use indexmap::IndexSet;
use std::alloc::{AllocError, Global};
use std::marker::Model;

/// The parameters that are used up, each once, found by hashing. Contracts see them in the order in which they came.
#[derive(Drop)]
pub(crate) struct Used {
    numbers: IndexSet<u32>,
}

impl Model for Used {
    ghost use Rattle.std.specs.Prelude.{ℕ, List};

    ghost Value = { List ℕ };

    ghost view = { λ u. u.numbers.keys };
}

impl Used {
    /// No parameter is used up.
    pub(crate) fn none(alloc: Global) -> Used
        ensures { result ≡ [] }
    {
        Used {
            numbers: IndexSet::new(alloc),
        }
    }

    /// Whether a parameter is used up.
    #[tactic(auto, using(crate::proofs::UsedUp::same_number))]
    pub(crate) fn has(&self, p: u32) -> bool
        ensures { result ≡ is_one_of self.now p }
    {
        self.numbers.contains(&p)
    }

    /// How many parameters are used up.
    pub(crate) fn count(&self) -> usize
        ensures { result ≡ length self.now }
    {
        self.numbers.len()
    }

    /// Uses a parameter up.
    #[tactic(auto, using(crate::proofs::UsedUp::same_number))]
    pub(crate) fn add(&mut self, p: u32) -> Result<(), AllocError>
        ensures { OnOk result (self.new ≡ with_number self.old p) }
    {
        self.numbers.insert_full(p)?;
        Ok(())
    }

    /// Leaves the first `count` ones.
    pub(crate) fn back_to(&mut self, count: usize)
        ensures { self.new ≡ take count self.old }
    {
        self.numbers.truncate(count);
    }
}
