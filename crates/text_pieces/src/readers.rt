//! Readers and printers of the texts of one kind of value.

ghost use Rattle.std.specs.Prelude.{ℕ, List, Bool, IsTrue, MatchResult};
ghost use Rattle.text_pieces.specs.Failing.{Unreadable};
ghost use Rattle.text_pieces.specs.Languages.{Reads};
ghost use Rattle.text_pieces.specs.Printing.{Puts};

use crate::bad_texts::Unread;
use std::alloc::{AllocError, Global};

/// Reads one kind of value.
pub trait Reader {
    /// What is read.
    type Value: Drop;

    /// Which bytes spell which value.
    ghost spells: { Self.Value → List ℕ → Type 0 };

    /// The value in front of the bytes, and what follows. Bad at the first byte with which none goes on.
    fn read(alloc: Global, text: &[u8]) -> Result<(Self::Value, &[u8]), Unread>
        ensures { MatchResult result (λ f. Reads spells text.now f.0 f.1.now) (Unreadable spells text.now) };
}

/// Prints one kind of value.
pub trait Printer {
    /// What is printed.
    type Value;

    /// Which bytes spell which value.
    ghost spells: { Self.Value → List ℕ → Type 0 };

    /// Which values may be printed.
    ghost is_spelled: { Self.Value → Bool };

    /// Puts a value behind the text.
    fn push(alloc: Global, text: &mut Vec<u8>, value: &Self::Value) -> Result<(), AllocError>
        requires { IsTrue (is_spelled value.now) }
        ensures { Puts spells value.now text.old.items text.new.items result };
}
