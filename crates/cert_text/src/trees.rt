//! Trees.

ghost use Rattle.std.specs.Prelude.{◌≡◌, ℕ, ◌<◌, ◌≤◌, MatchResult};
ghost use Rattle.text_pieces.specs.Languages.{NoDigit, Reads, Fails, Blank, Times};
ghost use Rattle.text_pieces.specs.Numbers.{IsCount, Counted};
ghost use Rattle.text_pieces.specs.Failing.{Unreadable};
ghost use Rattle.cert_text.specs.Grammar.{SpellsTree, NodeParts};
ghost use Rattle.cert_text.specs.declared.kinds.NodeKind.TheVariants as kind;

use crate::kinds::{NodeKind, node_kind};
use crate::parts::{blank_lin, index, multiples};
use cert_tree::Tree;
use sqlite_items::{Boxed, Items};
use std::alloc::Global;
use text_pieces::{Bad, Unread, blank, blank_count, blank_number};

/// A blank and behind it a tree, and what follows. Bad at the first byte with which none goes on.
#[cycle(blank_tree)]
pub fn blank_tree(alloc: Global, text: &[u8]) -> Result<(Tree, &[u8]), Unread>
    ensures { MatchResult result (λ f. Reads (Blank SpellsTree) text.now f.0 f.1.now)
        (Unreadable (Blank SpellsTree) text.now) }
{
    let behind = blank(text)?;
    let (kind, rest) = node_kind(behind)?;
    match kind {
        NodeKind::Case => case(alloc, rest),
        NodeKind::Combine => combine(alloc, rest),
        NodeKind::Cut => cut(alloc, rest),
        NodeKind::Branch => branch(alloc, rest),
        NodeKind::Residues => residues(alloc, rest),
        NodeKind::Solve => solve(alloc, rest),
        NodeKind::Least => least(alloc, rest),
        NodeKind::Clash => Ok(clash(rest)?),
    }
}

// So many trees, each behind a blank.
#[cycle(blank_tree)]
fn trees(alloc: Global, text: &[u8], count: u128) -> Result<(Items<Tree>, &[u8]), Unread>
    requires { NoDigit text.now }
    ensures { (n : ℕ) → IsCount count n → MatchResult result
        (λ f. Reads (Times (Blank SpellsTree) n) text.now f.0 f.1.now)
        (Unreadable (Times (Blank SpellsTree) n) text.now) }
{
    let mut trees = Items::new(alloc);
    let mut rest = text;
    while (trees.len() as u128) < count {
        let (next, more) = blank_tree(alloc, rest)?;
        trees.push(next)?;
        rest = more;
    }
    Ok((trees, rest))
}

// What stands behind `case`.
#[cycle(blank_tree)]
fn case(alloc: Global, text: &[u8]) -> Result<(Tree, &[u8]), Unread>
    ensures { MatchResult result (λ f. Reads (NodeParts SpellsTree kind.Case) text.now f.0 f.1.now)
        (Unreadable (NodeParts SpellsTree kind.Case) text.now) }
{
    let (clause, rest) = index(text)?;
    let (literals, rest) = blank_count(rest)?;
    let (children, rest) = trees(alloc, rest, literals)?;
    Ok((Tree::Case { clause, children }, rest))
}

// What stands behind `combine`.
#[cycle(blank_tree)]
fn combine(alloc: Global, text: &[u8]) -> Result<(Tree, &[u8]), Unread>
    ensures { MatchResult result (λ f. Reads (NodeParts SpellsTree kind.Combine) text.now f.0 f.1.now)
        (Unreadable (NodeParts SpellsTree kind.Combine) text.now) }
{
    let (list, rest) = multiples(alloc, text)?;
    let (child, rest) = blank_tree(alloc, rest)?;
    let child = Boxed::new(alloc, child)?;
    Ok((Tree::Combine { list, child }, rest))
}

// What stands behind `cut`.
#[cycle(blank_tree)]
fn cut(alloc: Global, text: &[u8]) -> Result<(Tree, &[u8]), Unread>
    ensures { MatchResult result (λ f. Reads (NodeParts SpellsTree kind.Cut) text.now f.0 f.1.now)
        (Unreadable (NodeParts SpellsTree kind.Cut) text.now) }
{
    let (fact, rest) = index(text)?;
    let (child, rest) = blank_tree(alloc, rest)?;
    let child = Boxed::new(alloc, child)?;
    Ok((Tree::Cut { fact, child }, rest))
}

// What stands behind `branch`.
#[cycle(blank_tree)]
fn branch(alloc: Global, text: &[u8]) -> Result<(Tree, &[u8]), Unread>
    ensures { MatchResult result (λ f. Reads (NodeParts SpellsTree kind.Branch) text.now f.0 f.1.now)
        (Unreadable (NodeParts SpellsTree kind.Branch) text.now) }
{
    let (t, rest) = blank_lin(alloc, text)?;
    let (left, rest) = blank_tree(alloc, rest)?;
    let (right, rest) = blank_tree(alloc, rest)?;
    let left = Boxed::new(alloc, left)?;
    let right = Boxed::new(alloc, right)?;
    Ok((Tree::Branch { t, left, right }, rest))
}

// What stands behind `residues`.
#[cycle(blank_tree)]
fn residues(alloc: Global, text: &[u8]) -> Result<(Tree, &[u8]), Unread>
    ensures { MatchResult result (λ f. Reads (NodeParts SpellsTree kind.Residues) text.now f.0 f.1.now)
        (Unreadable (NodeParts SpellsTree kind.Residues) text.now) }
{
    let (m, rest) = blank_number(text, 0, i128::MAX as u128)?;
    let (t, rest) = blank_lin(alloc, rest)?;
    let (children, rest) = trees(alloc, rest, m)?;
    let m = m as i128;
    Ok((Tree::Residues { m, t, children }, rest))
}

// What stands behind `solve`.
#[cycle(blank_tree)]
fn solve(alloc: Global, text: &[u8]) -> Result<(Tree, &[u8]), Unread>
    ensures { MatchResult result (λ f. Reads (NodeParts SpellsTree kind.Solve) text.now f.0 f.1.now)
        (Unreadable (NodeParts SpellsTree kind.Solve) text.now) }
{
    let (fact, rest) = index(text)?;
    let (p, rest) = index(rest)?;
    let (child, rest) = blank_tree(alloc, rest)?;
    let child = Boxed::new(alloc, child)?;
    Ok((Tree::Solve { fact, p, child }, rest))
}

// What stands behind `least`.
#[cycle(blank_tree)]
fn least(alloc: Global, text: &[u8]) -> Result<(Tree, &[u8]), Unread>
    ensures { MatchResult result (λ f. Reads (NodeParts SpellsTree kind.Least) text.now f.0 f.1.now)
        (Unreadable (NodeParts SpellsTree kind.Least) text.now) }
{
    let (p, rest) = index(text)?;
    let (count, rest) = blank_count(rest)?;
    let (children, rest) = trees(alloc, rest, count)?;
    Ok((Tree::Least { p, children }, rest))
}

// What stands behind `clash`.
fn clash(text: &[u8]) -> Result<(Tree, &[u8]), Bad>
    ensures { MatchResult result (λ f. Reads (NodeParts SpellsTree kind.Clash) text.now f.0 f.1.now)
        (λ e. Fails (NodeParts SpellsTree kind.Clash) text.now e.left) }
{
    let (fact, rest) = index(text)?;
    Ok((Tree::Clash { fact }, rest))
}
