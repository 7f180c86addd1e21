//! Faults that the tokens of a text show.

use std::alloc::AllocError;
use tff_lexer::Token;

/// The name of a fault, in the order in which they count where several stand at one token.
#[derive(Clone, Copy, Debug, PartialEq, Eq)]
pub enum FaultName {
    /// No token begins.
    Lex,
    /// A token or a word that is supported nowhere, or not there.
    Unsupported,
    /// A statement of another language of the TPTP.
    Language,
    /// The role of a second conjecture.
    TwoConjectures,
    /// A token that opens level 501.
    TooDeep,
    /// A numeral below -2^127 or above 2^127 - 1.
    NumberTooWide,
    /// A token with which no text of the grammar goes on, or the end of a text that ends too early.
    Syntax,
}

/// The first fault of a text.
#[derive(Clone, Copy, Debug, PartialEq, Eq)]
pub struct Fault {
    /// Its name.
    pub name: FaultName,
    /// The byte of the fault, counted from 0: the first one of its token, the one at which no token begins, or the length of the text.
    pub at: u64,
    /// The token that stands there: None where none begins, and at the end.
    pub token: Option<Token>,
}

/// Why a text isn't read.
#[derive(Clone, Copy, Debug, PartialEq, Eq)]
pub enum ParseError {
    /// Memory is wanting.
    Memory,
    /// The text has a fault.
    Fault(Fault),
}

impl From<AllocError> for ParseError {
    ghost use Rattle.std.specs.Prelude.{◌≡◌};
    ghost use Rattle.tff_grammar.specs.declared.faults.ParseError.TheVariants.{Memory};

    ghost from_gives = { λ _ e. e ≡ Memory };

    fn from(_error: AllocError) -> ParseError {
        ParseError::Memory
    }
}

/// A fault, and how many tokens are left where it stands.
#[derive(Clone, Copy)]
pub(crate) struct Found {
    pub(crate) name: FaultName,
    pub(crate) left: usize,
}

/// Why reading stops.
#[derive(Clone, Copy)]
pub(crate) enum Stop {
    Memory,
    Fault(Found),
}

impl From<AllocError> for Stop {
    ghost use Rattle.std.specs.Prelude.{◌≡◌};
    ghost use Rattle.tff_grammar.specs.declared.faults.Stop.TheVariants.{Memory};

    ghost from_gives = { λ _ e. e ≡ Memory };

    fn from(_error: AllocError) -> Stop {
        Stop::Memory
    }
}
