//! Where no spelling goes on.

ghost use Rattle.std.specs.Prelude.{◌≡◌};
ghost use Rattle.text_pieces.specs.declared.bad_texts.Unread.TheVariants as unread;

use std::alloc::{AllocError, AllocFailed};

/// No spelling begins the bytes.
#[derive(Clone, Copy, Debug, PartialEq, Eq)]
pub struct Bad {
    /// How many bytes are left from the first with which no spelling goes on: 0 where the bytes end too early.
    pub left: usize,
}

/// Why a value is not read.
#[derive(Clone, Copy, Debug, PartialEq, Eq)]
pub enum Unread {
    /// Memory ran out.
    Memory,
    /// No spelling begins the bytes.
    Bad(Bad),
}

impl From<AllocError> for Unread {
    ghost from_gives = { λ _ e. e ≡ unread.Memory };

    fn from(_error: AllocError) -> Unread {
        Unread::Memory
    }
}

impl<T: Drop> From<AllocFailed<T>> for Unread {
    ghost from_gives = { λ _ e. e ≡ unread.Memory };

    fn from(_error: AllocFailed<T>) -> Unread {
        Unread::Memory
    }
}

impl From<Bad> for Unread {
    ghost from_gives = { λ bad e. e ≡ unread.Bad bad };

    fn from(bad: Bad) -> Unread {
        Unread::Bad(bad)
    }
}
