//! Printing of terms.

ghost use Rattle.std.specs.Prelude.{◌≡◌, ◌++◌, OnOk};
ghost use Rattle.text_pieces.specs.Printing.{Keeps, Puts};
ghost use Rattle.term_base.specs.declared.terms.Term.TheVariants as term;
ghost use Rattle.term_text.specs.Terms.{SpellsTerm, Opened};
ghost use Rattle.term_text.specs.Texts.{term_text};

use crate::variables::push_variable;
use std::alloc::{AllocError, Global};
use term_base::Term;
use text_pieces::{push, push_decimal, push_signed_decimal};

/// Puts a term behind the text.
#[cycle(push_term)]
pub fn push_term(alloc: Global, text: &mut Vec<u8>, t: &Term) -> Result<(), AllocError>
    ensures spelled { Puts SpellsTerm t.now text.old.items text.new.items result }
    ensures exact { OnOk result (text.new.items ≡ text.old.items ++ term_text t.now) }
{
    match t {
        Term::Var(v) => push_variable(alloc, text, *v),
        Term::Num(n) => push_signed_decimal(alloc, text, *n),
        Term::True => push(text, b"true"),
        Term::Sum(a, b) => {
            push(text, b"(")?;
            push_term(alloc, text, a.get())?;
            push(text, b" + ")?;
            push_term(alloc, text, b.get())?;
            push(text, b")")
        }
        Term::Scale(k, a) => push_multiple(alloc, text, *k, a.get()),
        Term::App(f, arguments) => push_application(alloc, text, *f, arguments.as_slice()),
    }
}

// Puts a number times a term behind the text.
#[cycle(push_term)]
fn push_multiple(alloc: Global, text: &mut Vec<u8>, k: i128, a: &Term) -> Result<(), AllocError>
    ensures { Puts SpellsTerm (term.Scale k a.now) text.old.items text.new.items result }
{
    push(text, b"(")?;
    push_signed_decimal(alloc, text, k)?;
    push(text, b" * ")?;
    push_term(alloc, text, a)?;
    push(text, b")")
}

// Puts a symbol with its arguments behind the text.
#[cycle(push_term)]
fn push_application(
    alloc: Global,
    text: &mut Vec<u8>,
    f: u32,
    arguments: &[Term],
) -> Result<(), AllocError>
    ensures { Puts SpellsTerm (term.App f arguments.now) text.old.items text.new.items result }
{
    push(text, b"s")?;
    push_decimal(alloc, text, u128::from(f))?;
    push_arguments(alloc, text, arguments)?;
    if arguments.is_empty() {
        Ok(())
    } else {
        push(text, b")")
    }
}

// Puts arguments behind the text, the first behind a bracket and each other one behind a comma.
#[cycle(push_term)]
fn push_arguments(alloc: Global, text: &mut Vec<u8>, arguments: &[Term]) -> Result<(), AllocError>
    ensures opened { OnOk result (Opened arguments.now text.old.items text.new.items) }
    ensures kept { Keeps text.old.items text.new.items }
{
    let mut front = b"(".as_slice();
    for argument in arguments {
        push(text, front)?;
        push_term(alloc, text, argument)?;
        front = b",".as_slice();
    }
    Ok(())
}
