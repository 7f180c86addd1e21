//! Tokens as the grammar sees them.
ghost use Rattle.std.specs.Prelude.{◌≡◌};
ghost use Rattle.tff_grammar.specs.Pieces.{bytes_at};

/// A part of the text: the place of its first byte, and that of the byte behind its last, counted from 0.
#[derive(Clone, Copy)]
pub struct Span {
    /// The place of its first byte.
    pub start: u64,
    /// The place behind its last byte.
    pub end: u64,
}

impl Span {
    /// The bytes of a text that stand there: those that it has, where it is too short.
    pub fn bytes(self, text: &[u8]) -> &[u8]
        ensures { result.now ≡ bytes_at text.now self }
    {
        let start = self.start as usize;
        let length = (self.end as usize).saturating_sub(start);
        let rest = &text[start.min(text.len())..];
        &rest[..length.min(rest.len())]
    }
}

/// A numeral: the number that it stands for, and where it stands.
#[derive(Clone, Copy)]
pub struct Number {
    /// The number.
    pub value: i128,
    /// The place of its token.
    pub span: Span,
}

/// A sign that the grammar names on its own.
#[derive(Clone, Copy, PartialEq, Eq)]
pub enum Sign {
    /// `(`
    OpenRound,
    /// `)`
    CloseRound,
    /// `[`
    OpenSquare,
    /// `]`
    CloseSquare,
    /// `,`
    Comma,
    /// `.`
    Dot,
    /// `:`
    Colon,
    /// `~`
    Not,
    /// `*`
    Star,
    /// `>`
    Arrow,
}

/// A sign that joins two or more formulas (TPTP's associative connectives).
#[derive(Clone, Copy, PartialEq, Eq)]
pub enum Junction {
    /// `&`
    And,
    /// `|`
    Or,
}

/// A sign that joins two formulas (TPTP's nonassociative connectives).
#[derive(Clone, Copy)]
pub enum Link {
    /// `=>`
    Implies,
    /// `<=`
    Implied,
    /// `<=>`
    Iff,
    /// `<~>`
    Xor,
    /// `~&`
    Nand,
    /// `~|`
    Nor,
}

/// A quantifier.
#[derive(Clone, Copy)]
pub enum Quantifier {
    /// `!`
    ForAll,
    /// `?`
    Exists,
}

/// A sign between two terms.
#[derive(Clone, Copy)]
pub enum Relation {
    /// `=`
    Equal,
    /// `!=`
    Differ,
}

/// A sort that isn't declared.
#[derive(Clone, Copy)]
pub enum BasicSort {
    /// `$i`
    Individual,
    /// `$int`
    Int,
}

/// An arithmetic word of the TPTP.
#[derive(Clone, Copy)]
pub enum Operation {
    /// `$sum`
    Sum,
    /// `$difference`
    Difference,
    /// `$uminus`
    Uminus,
    /// `$product`
    Product,
    /// `$less`
    Less,
    /// `$lesseq`
    LessEq,
    /// `$greater`
    Greater,
    /// `$greatereq`
    GreaterEq,
}

/// What a lower word may be beside a name.
#[derive(Clone, Copy)]
pub enum Keyword {
    /// `tff`
    Tff,
    /// `include`
    Include,
    /// `thf`, `tcf`, `fof`, `cnf` or `tpi`
    Language,
    /// `type`
    Declaration,
    /// `conjecture`
    Conjecture,
    /// A role of premises, as `axiom`.
    Premise,
    /// A name alone.
    Other,
}

/// A token as the grammar sees it.
#[derive(Clone, Copy)]
pub enum Piece {
    /// A sign that the grammar names on its own.
    Sign(Sign),
    /// `&` or `|`
    Junction(Junction),
    /// A sign between two formulas.
    Link(Link),
    /// `!` or `?`
    Quantifier(Quantifier),
    /// `=` or `!=`
    Relation(Relation),
    /// A lower word, and where it stands.
    Lower(Keyword, Span),
    /// A quoted word.
    Quoted(Span),
    /// An upper word.
    Upper(Span),
    /// A numeral from -2^127 to 2^127 - 1.
    Numeral(Number),
    /// A numeral below -2^127 or above 2^127 - 1.
    WideNumeral,
    /// `$tType`
    OfTypes,
    /// `$i` or `$int`
    Basic(BasicSort),
    /// `$o`
    Truth,
    /// `$true` or `$false`
    Constant(bool),
    /// An arithmetic word.
    Operation(Operation, Span),
    /// A token that is read nowhere but in annotations: a rational, a real, a distinct object, `!>`, or another dollar word.
    Unsupported,
}
