//! Faults behind the grammar.

/// The name of a fault behind the grammar.
#[derive(Clone, Copy, Debug, PartialEq, Eq)]
pub enum LaterName {
    /// A name whose declared type differs from its first one.
    Redeclared,
    /// A sort word that no declaration makes a sort.
    UnknownSort,
    /// A term that the typing rules refuse.
    IllTyped,
    /// A product neither of whose arguments is a number-term.
    NonLinear,
    /// A product whose number-term leaves the range.
    NumberTooWide,
}

/// A fault behind the grammar, and its byte.
#[derive(Clone, Copy, Debug, PartialEq, Eq)]
pub struct Later {
    /// Its name.
    pub name: LaterName,
    /// The first byte of the word or term at fault, counted from 0.
    pub at: u64,
}
