//! Printing of literals and clauses.

ghost use Rattle.std.specs.Prelude.{◌≡◌, ◌++◌, codes, OnOk};
ghost use Rattle.text_pieces.specs.Printing.{Puts};
ghost use Rattle.term_text.specs.Clauses.{SpellsLiteral, MoreLiterals, SpellsClauseLine, related, relation_word};
ghost use Rattle.term_text.specs.Texts.{clause_text};
ghost use Rattle.term_text.specs.declared.kinds.Relation.TheVariants as relation;

use crate::kinds::Relation;
use crate::term_printing::push_term;
use std::alloc::{AllocError, Global};
use term_base::{Clause, Literal, Term};
use text_pieces::push;

fn relation_word(relation: Relation) -> &'static [u8]
    ensures { result.now ≡ relation_word relation }
{
    match relation {
        Relation::Equal => b"=",
        Relation::Differ => b"!=",
        Relation::AtMost => b"<=",
    }
}

// Puts two sides with a relation between them behind the text.
fn push_sides(
    alloc: Global,
    text: &mut Vec<u8>,
    s: &Term,
    relation: Relation,
    t: &Term,
) -> Result<(), AllocError>
    ensures { Puts SpellsLiteral (related relation s.now t.now) text.old.items text.new.items result }
{
    push_term(alloc, text, s)?;
    push(text, b" ")?;
    push(text, relation_word(relation))?;
    push(text, b" ")?;
    push_term(alloc, text, t)
}

// Puts a literal behind the text.
fn push_literal(alloc: Global, text: &mut Vec<u8>, l: &Literal) -> Result<(), AllocError>
    ensures { Puts SpellsLiteral l.now text.old.items text.new.items result }
{
    match l {
        Literal::Equal(s, t) => push_sides(alloc, text, s, Relation::Equal, t),
        Literal::Differ(s, t) => push_sides(alloc, text, s, Relation::Differ, t),
        Literal::AtMost(s, t) => push_sides(alloc, text, s, Relation::AtMost, t),
    }
}

// Puts literals behind the text, each behind a stroke, and the end of the line.
fn push_more(alloc: Global, text: &mut Vec<u8>, more: &[Literal]) -> Result<(), AllocError>
    ensures { Puts MoreLiterals more.now text.old.items text.new.items result }
{
    for literal in more {
        push(text, b" | ")?;
        push_literal(alloc, text, literal)?;
    }
    push(text, b"\n")
}

/// Puts a clause and the end of its line behind the text: its literals with ` | ` between each two, or `$false` where it has none.
pub fn push_clause_line(alloc: Global, text: &mut Vec<u8>, c: &Clause) -> Result<(), AllocError>
    ensures spelled { Puts SpellsClauseLine c.now text.old.items text.new.items result }
    ensures exact { OnOk result (text.new.items ≡ text.old.items ++ (clause_text c.now ++ codes "\n")) }
{
    match c.literals.as_slice() {
        [] => push(text, b"$false\n"),
        [first, more @ ..] => {
            push_literal(alloc, text, first)?;
            push_more(alloc, text, more)
        }
    }
}
