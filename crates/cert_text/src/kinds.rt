//! The words of rows and nodes.

ghost use Rattle.std.specs.Prelude.{◌≡◌, MatchResult};
ghost use Rattle.text_pieces.specs.Languages.{Reads, Fails};
ghost use Rattle.cert_text.specs.Grammar.{NodeWord, RowWord};
ghost use Rattle.cert_text.specs.Places.{node_kind_at, row_kind_at};

use text_pieces::{Bad, one_of};

/// What kind of row a word tells.
#[derive(Clone, Copy, Debug, PartialEq, Eq)]
pub enum RowKind {
    /// `inst`
    Inst,
    /// `low`
    Low,
}

/// What kind of node a word tells.
#[derive(Clone, Copy, Debug, PartialEq, Eq)]
pub enum NodeKind {
    /// `case`
    Case,
    /// `combine`
    Combine,
    /// `cut`
    Cut,
    /// `branch`
    Branch,
    /// `residues`
    Residues,
    /// `solve`
    Solve,
    /// `least`
    Least,
    /// `clash`
    Clash,
}

const ROW_WORDS: [&[u8]; 2] = [b"inst", b"low"];

const NODE_WORDS: [&[u8]; 8] = [
    b"case",
    b"combine",
    b"cut",
    b"branch",
    b"residues",
    b"solve",
    b"least",
    b"clash",
];

// The kind of row whose word stands at this place of the list.
fn row_kind_at(place: usize) -> RowKind
    ensures { result ≡ row_kind_at place }
{
    match place {
        0 => RowKind::Inst,
        _ => RowKind::Low,
    }
}

/// The word of a row, and what follows. Bad at the first byte with which none goes on.
pub fn row_kind(text: &[u8]) -> Result<(RowKind, &[u8]), Bad>
    ensures { MatchResult result (λ f. Reads RowWord text.now f.0 f.1.now) (λ e. Fails RowWord text.now e.left) }
{
    let (place, rest) = one_of(text, &ROW_WORDS)?;
    Ok((row_kind_at(place), rest))
}

// The kind of node whose word stands at this place of the list.
fn node_kind_at(place: usize) -> NodeKind
    ensures { result ≡ node_kind_at place }
{
    match place {
        0 => NodeKind::Case,
        1 => NodeKind::Combine,
        2 => NodeKind::Cut,
        3 => NodeKind::Branch,
        4 => NodeKind::Residues,
        5 => NodeKind::Solve,
        6 => NodeKind::Least,
        _ => NodeKind::Clash,
    }
}

/// The word of a node, and what follows. Bad at the first byte with which none goes on.
pub fn node_kind(text: &[u8]) -> Result<(NodeKind, &[u8]), Bad>
    ensures { MatchResult result (λ f. Reads NodeWord text.now f.0 f.1.now) (λ e. Fails NodeWord text.now e.left) }
{
    let (place, rest) = one_of(text, &NODE_WORDS)?;
    Ok((node_kind_at(place), rest))
}
