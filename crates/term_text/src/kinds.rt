//! What the first byte of a text tells, and the words between its parts.

ghost use Rattle.std.specs.Prelude.{◌≡◌};
ghost use Rattle.text_pieces.specs.Kinds.{kind_at};
ghost use Rattle.term_text.specs.Terms.{is_letter, is_digit_or_minus, term_kind_of};
ghost use Rattle.term_text.specs.Variables.{variable_kind_of};

/// What a variable is, by its letter.
#[derive(Clone, Copy, Debug, PartialEq, Eq)]
pub enum VariableKind {
    /// `A`: an abstraction variable.
    Abstraction,
    /// `I`: an ordinary variable of sort `$i`.
    Individual,
    /// `N`: an ordinary variable of sort Int.
    Int,
    /// `D`: an ordinary variable of a declared sort.
    Declared,
}

/// What a term is, by its first byte.
#[derive(Clone, Copy, Debug, PartialEq, Eq)]
pub enum TermKind {
    /// A variable.
    Variable,
    /// A number.
    Number,
    /// `true`
    Truth,
    /// A sum or a multiple, in brackets.
    Bracket,
    /// A symbol with its arguments.
    Symbol,
}

/// What is made of the terms in brackets.
#[derive(Clone, Copy, Debug, PartialEq, Eq)]
pub enum Operation {
    /// A sum.
    Plus,
    /// A multiple by this number, which is the first term.
    Times(i128),
}

/// What a literal says of its sides.
#[derive(Clone, Copy, Debug, PartialEq, Eq)]
pub enum Relation {
    /// They are equal.
    Equal,
    /// They differ.
    Differ,
    /// The left one is at most the right one.
    AtMost,
}

fn variable_kind_of(first: u8) -> VariableKind
    ensures { result ≡ variable_kind_of first }
{
    match first {
        b'A' => VariableKind::Abstraction,
        b'I' => VariableKind::Individual,
        b'N' => VariableKind::Int,
        _ => VariableKind::Declared,
    }
}

/// The kind of a variable in front of the bytes.
pub fn variable_kind(text: &[u8]) -> VariableKind
    ensures { result ≡ kind_at variable_kind_of VariableKind.Declared text.now }
{
    match text {
        [first, ..] => variable_kind_of(*first),
        [] => VariableKind::Declared,
    }
}

fn is_letter(first: u8) -> bool
    ensures { result ≡ is_letter first }
{
    first == b'A' || first == b'D' || first == b'I' || first == b'N'
}

fn is_digit_or_minus(first: u8) -> bool
    ensures { result ≡ is_digit_or_minus first }
{
    (b'0' <= first && first <= b'9') || first == b'-'
}

fn term_kind_of(first: u8) -> TermKind
    ensures { result ≡ term_kind_of first }
{
    if first == b't' {
        return TermKind::Truth;
    }
    if first == b'(' {
        return TermKind::Bracket;
    }
    if is_digit_or_minus(first) {
        return TermKind::Number;
    }
    if is_letter(first) {
        return TermKind::Variable;
    }
    TermKind::Symbol
}

/// The kind of a term in front of the bytes.
pub fn term_kind(text: &[u8]) -> TermKind
    ensures { result ≡ kind_at term_kind_of TermKind.Symbol text.now }
{
    match text {
        [first, ..] => term_kind_of(*first),
        [] => TermKind::Symbol,
    }
}
