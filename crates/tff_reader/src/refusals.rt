//! Refusals.
ghost use Rattle.std.specs.Prelude.{◌≡◌};

use std::alloc::AllocError;
use std::fmt;
use term_base::Name;

/// The name of a refusal.
#[derive(Clone, Copy, Debug, PartialEq, Eq)]
pub enum RefusedName {
    /// No token begins at this byte.
    Lex,
    /// A token or a word that is supported nowhere, or not there. The refusal tells its text.
    Unsupported,
    /// A statement of another language of the TPTP.
    Language,
    /// The role of a second conjecture.
    TwoConjectures,
    /// A token that opens level 501.
    TooDeep,
    /// A numeral, or a number-term of a product, below -2^127 or above 2^127 - 1.
    NumberTooWide,
    /// A token with which no text of the grammar goes on, or the end of a text that ends too early.
    Syntax,
    /// A name whose declared type differs from its first one.
    Redeclared,
    /// A sort word that no declaration of the file makes a sort.
    UnknownSort,
    /// A term that the typing rules refuse.
    IllTyped,
    /// A product neither of whose arguments is a number-term.
    NonLinear,
}

impl fmt::Display for RefusedName {
    ghost use Rattle.std.specs.Prelude.{Some};
    ghost use Rattle.tff_reader.specs.Answer.{shown_name};

    ghost output = { λ name. Some (shown_name name) };

    fn fmt<W: fmt::Write>(&self, f: &mut fmt::Formatter<W>) -> fmt::Result {
        f.write_str(match self {
            RefusedName::Lex => "Lex",
            RefusedName::Unsupported => "Unsupported",
            RefusedName::Language => "Language",
            RefusedName::TwoConjectures => "TwoConjectures",
            RefusedName::TooDeep => "TooDeep",
            RefusedName::NumberTooWide => "NumberTooWide",
            RefusedName::Syntax => "Syntax",
            RefusedName::Redeclared => "Redeclared",
            RefusedName::UnknownSort => "UnknownSort",
            RefusedName::IllTyped => "IllTyped",
            RefusedName::NonLinear => "NonLinear",
        })
    }
}

/// The first fault of a text: its name, its byte counted from 0, and, where the name is Unsupported, the text of the token at
/// fault (`distinct`, `rational` or `real` for a token of that kind). The word is empty for each other name.
#[derive(Debug, Drop)]
pub struct Refused {
    /// Its name.
    pub name: RefusedName,
    /// The byte at which it stands: the length of the text, where that ends too early.
    pub at: u64,
    /// What is unsupported.
    pub word: Name,
}

/// Why a text gives no problem.
#[derive(Debug, Drop)]
pub enum ReadError {
    /// Memory is wanting.
    Memory,
    /// The text is refused.
    Refused(Refused),
}

impl From<AllocError> for ReadError {
    ghost use Rattle.std.specs.Prelude.{◌≡◌};
    ghost use Rattle.tff_reader.specs.declared.refusals.ReadError.TheVariants.{Memory};

    ghost from_gives = { λ _ e. e ≡ Memory };

    fn from(_error: AllocError) -> ReadError {
        ReadError::Memory
    }
}

/// Bytes, each as a character.
#[derive(Drop)]
struct Characters<'a>(&'a [u8]);

impl fmt::Display for Characters<'_> {
    ghost use Rattle.std.specs.Prelude.{Some, flat_map};
    ghost use Rattle.std.specs.Char.{encode_utf8};

    ghost output = { λ c. Some (flat_map encode_utf8 c.0.now) };

    fn fmt<W: fmt::Write>(&self, f: &mut fmt::Formatter<W>) -> fmt::Result {
        let bytes = self.0;
        for byte in bytes {
            f.write_char(char::from(*byte))?;
        }
        Ok(())
    }
}

/// A blank and a word, where there is one.
#[derive(Drop)]
struct Word<'a>(&'a [u8]);

impl fmt::Display for Word<'_> {
    ghost use Rattle.std.specs.Prelude.{Some};
    ghost use Rattle.tff_reader.specs.Answer.{shown_word};

    ghost output = { λ w. Some (shown_word w.0.now) };

    fn fmt<W: fmt::Write>(&self, f: &mut fmt::Formatter<W>) -> fmt::Result {
        match self.0 {
            [] => Ok(()),
            bytes => write!(f, " {}", Characters(bytes)),
        }
    }
}

impl fmt::Display for Refused {
    ghost use Rattle.std.specs.Prelude.{Some};
    ghost use Rattle.tff_reader.specs.Answer.{line};

    ghost output = { λ refused. Some (line refused) };

    fn fmt<W: fmt::Write>(&self, f: &mut fmt::Formatter<W>) -> fmt::Result {
        let word = Word(self.word.as_bytes());
        write!(f, "% refused: {} at {}{}", self.name, self.at, word)
    }
}
