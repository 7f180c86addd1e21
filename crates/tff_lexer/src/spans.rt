//! Tokens and where they stand.

/// The kind of a token, by its form (TPTP).
#[derive(Clone, Copy, Debug, PartialEq, Eq)]
pub enum TokenKind {
    /// A letter a to z, then letters, digits and `_`.
    Lower,
    /// A letter A to Z, then letters, digits and `_`.
    Upper,
    /// `$` or `$$`, then a lower word.
    Dollar,
    /// `'`, then one or more of: a byte 32 to 126 other than `'` and `\`, or `\'`, or `\\`; then `'`.
    Quoted,
    /// The same with `"`, with zero or more in between.
    Distinct,
    /// Digits, perhaps directly behind a `+` or `-`.
    Numeral,
    /// A numeral, `/`, digits.
    Rational,
    /// A numeral, then `.` and digits, or an exponent, or both.
    Real,
    /// One of `( ) [ ] , . : ~ & | => <= <=> <~> ~& ~| ! ? = != * > !>`.
    Sign,
}

/// A token: its kind, and the place of its first byte and of the byte behind its last, counted from 0.
#[derive(Clone, Copy, Debug, PartialEq, Eq)]
pub struct Token {
    /// Its kind.
    pub kind: TokenKind,
    /// The place of its first byte.
    pub start: u64,
    /// The place behind its last byte.
    pub end: u64,
}

/// The tokens of a text in order, and the first byte at which no token begins: None where the text was read to its end.
#[derive(Debug, Drop)]
pub struct Scan {
    /// The tokens, by place.
    pub tokens: Vec<Token>,
    /// The place at which no token begins.
    pub stop: Option<u64>,
}
