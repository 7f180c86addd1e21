//! Printing of trees.

ghost use Rattle.std.specs.Prelude.{◌≡◌, ◌&&◌, length, map, pos, IsTrue};
ghost use Rattle.std.specs.List.{list_all};
ghost use Rattle.lin_base.specs.Fact.{is_lin};
ghost use Rattle.cert_tree.specs.declared.certs.Tree.TheVariants as node;
ghost use Rattle.text_pieces.specs.Languages.{Blank, Times};
ghost use Rattle.text_pieces.specs.Numbers.{Counted};
ghost use Rattle.cert_text.specs.Grammar.{SpellsTree};
ghost use Rattle.text_pieces.specs.Printing.{Puts};
ghost use Rattle.cert_text.specs.Spelled.{all_yes, tree_is_spelled};

use crate::printing::{push_count, push_index, push_lin, push_multiples, push_whole};
use cert_tree::Tree;
use lin_base::Lin;
use std::alloc::{AllocError, Global};
use text_pieces::push;

/// Puts a blank and a tree behind the text.
#[cycle(push_blank_tree)]
pub fn push_blank_tree(alloc: Global, text: &mut Vec<u8>, tree: &Tree) -> Result<(), AllocError>
    requires { IsTrue (tree_is_spelled tree.now) }
    ensures { Puts (Blank SpellsTree) tree.now text.old.items text.new.items result }
{
    match tree {
        Tree::Case { clause, children } => push_case(alloc, text, *clause, children.as_slice()),
        Tree::Combine { list, child } => { push_combine(alloc, text, list.as_slice(), child.get()) }
        Tree::Cut { fact, child } => push_cut(alloc, text, *fact, child.get()),
        Tree::Branch { t, left, right } => {
            push(text, b" branch")?;
            push_lin(alloc, text, t)?;
            push_blank_tree(alloc, text, left.get())?;
            push_blank_tree(alloc, text, right.get())
        }
        Tree::Residues { m, t, children } => {
            push_residues(alloc, text, *m, t, children.as_slice())
        }
        Tree::Solve { fact, p, child } => push_solve(alloc, text, *fact, *p, child.get()),
        Tree::Least { p, children } => push_least(alloc, text, *p, children.as_slice()),
        Tree::Clash { fact } => push_clash(alloc, text, *fact),
    }
}

// Puts trees behind the text, each behind a blank.
#[cycle(push_blank_tree)]
fn push_trees(alloc: Global, text: &mut Vec<u8>, trees: &[Tree]) -> Result<(), AllocError>
    requires { IsTrue (list_all tree_is_spelled trees.now) }
    ensures { Puts (Times (Blank SpellsTree) (length trees.now)) trees.now text.old.items text.new.items result }
{
    for tree in trees {
        push_blank_tree(alloc, text, tree)?;
    }
    Ok(())
}

// Puts a blank and a node `case` behind the text.
#[tactic(auto, using(crate::proofs::Printed::each_tree))]
#[cycle(push_blank_tree)]
fn push_case(
    alloc: Global,
    text: &mut Vec<u8>,
    clause: u32,
    children: &[Tree],
) -> Result<(), AllocError>
    requires { IsTrue (all_yes (map tree_is_spelled children.now)) }
    ensures { Puts (Blank SpellsTree) (node.Case clause children.now) text.old.items text.new.items result }
{
    push(text, b" case")?;
    push_index(alloc, text, clause)?;
    push_count(alloc, text, children.len())?;
    push_trees(alloc, text, children)
}

// Puts a blank and a node `combine` behind the text.
#[cycle(push_blank_tree)]
fn push_combine(
    alloc: Global,
    text: &mut Vec<u8>,
    list: &[(u32, i128)],
    child: &Tree,
) -> Result<(), AllocError>
    requires { IsTrue (tree_is_spelled child.now) }
    ensures { Puts (Blank SpellsTree) (node.Combine list.now child.now) text.old.items text.new.items result }
{
    push(text, b" combine")?;
    push_multiples(alloc, text, list)?;
    push_blank_tree(alloc, text, child)
}

// Puts a blank and a node `cut` behind the text.
#[cycle(push_blank_tree)]
fn push_cut(alloc: Global, text: &mut Vec<u8>, fact: u32, child: &Tree) -> Result<(), AllocError>
    requires { IsTrue (tree_is_spelled child.now) }
    ensures { Puts (Blank SpellsTree) (node.Cut fact child.now) text.old.items text.new.items result }
{
    push(text, b" cut")?;
    push_index(alloc, text, fact)?;
    push_blank_tree(alloc, text, child)
}

// Puts a blank and a node `residues` behind the text.
#[tactic(auto, using(crate::proofs::Printed::each_tree))]
#[cycle(push_blank_tree)]
fn push_residues(
    alloc: Global,
    text: &mut Vec<u8>,
    m: i128,
    t: &Lin,
    children: &[Tree],
) -> Result<(), AllocError>
    requires count { m ≡ pos (length children.now) }
    requires sum { IsTrue (is_lin t.now) }
    requires children { IsTrue (all_yes (map tree_is_spelled children.now)) }
    ensures { Puts (Blank SpellsTree) (node.Residues m t.now children.now) text.old.items text.new.items result }
{
    push(text, b" residues")?;
    push_whole(alloc, text, m)?;
    push_lin(alloc, text, t)?;
    push_trees(alloc, text, children)
}

// Puts a blank and a node `solve` behind the text.
#[cycle(push_blank_tree)]
fn push_solve(
    alloc: Global,
    text: &mut Vec<u8>,
    fact: u32,
    p: u32,
    child: &Tree,
) -> Result<(), AllocError>
    requires { IsTrue (tree_is_spelled child.now) }
    ensures { Puts (Blank SpellsTree) (node.Solve fact p child.now) text.old.items text.new.items result }
{
    push(text, b" solve")?;
    push_index(alloc, text, fact)?;
    push_index(alloc, text, p)?;
    push_blank_tree(alloc, text, child)
}

// Puts a blank and a node `least` behind the text.
#[tactic(auto, using(crate::proofs::Printed::each_tree))]
#[cycle(push_blank_tree)]
fn push_least(
    alloc: Global,
    text: &mut Vec<u8>,
    p: u32,
    children: &[Tree],
) -> Result<(), AllocError>
    requires { IsTrue (all_yes (map tree_is_spelled children.now)) }
    ensures { Puts (Blank SpellsTree) (node.Least p children.now) text.old.items text.new.items result }
{
    push(text, b" least")?;
    push_index(alloc, text, p)?;
    let count = children.len();
    push_count(alloc, text, count)?;
    push_trees(alloc, text, children)
}

// Puts a blank and a node `clash` behind the text.
fn push_clash(alloc: Global, text: &mut Vec<u8>, fact: u32) -> Result<(), AllocError>
    ensures { Puts (Blank SpellsTree) (node.Clash fact) text.old.items text.new.items result }
{
    push(text, b" clash")?;
    push_index(alloc, text, fact)
}
