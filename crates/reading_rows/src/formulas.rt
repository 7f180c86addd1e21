//! Formulas with symbols and variables by their numbers.

use formula_base::Formula;
use std::alloc::{AllocError, Global};
use term_base::{Term, Variable};
use term_text::{push_term, push_variable};
use text_pieces::push;

fn put_terms(
    alloc: Global,
    out: &mut Vec<u8>,
    s: &Term,
    sign: &[u8],
    t: &Term,
) -> Result<(), AllocError> {
    push_term(alloc, out, s)?;
    push(out, sign)?;
    push_term(alloc, out, t)
}

fn put_binder(
    alloc: Global,
    out: &mut Vec<u8>,
    sign: &[u8],
    variables: &[Variable],
) -> Result<(), AllocError> {
    push(out, sign)?;
    for v in variables {
        push_variable(alloc, out, *v)?;
        push(out, b" ")?;
    }
    Ok(())
}

// the members, each behind a sign
#[cycle(formula)]
fn put_members(
    alloc: Global,
    out: &mut Vec<u8>,
    members: &[Formula],
    sign: &[u8],
) -> Result<(), AllocError> {
    let mut between: &[u8] = b"(";
    for member in members {
        push(out, between)?;
        put_formula(alloc, out, member)?;
        between = sign;
    }
    push(out, b")")
}

/// Puts a formula behind the text.
#[cycle(formula)]
pub fn put_formula(alloc: Global, out: &mut Vec<u8>, formula: &Formula) -> Result<(), AllocError> {
    match formula {
        Formula::True => push(out, b"$true"),
        Formula::False => push(out, b"$false"),
        Formula::Atom(t) => push_term(alloc, out, t),
        Formula::Same(s, t) => put_terms(alloc, out, s, b"=", t),
        Formula::Less(s, t) => put_terms(alloc, out, s, b"<", t),
        Formula::LessEq(s, t) => put_terms(alloc, out, s, b"<=", t),
        Formula::Not(f) => {
            push(out, b"~")?;
            put_formula(alloc, out, f.get())
        }
        Formula::And(fs) => put_members(alloc, out, fs.as_slice(), b"&"),
        Formula::Or(fs) => put_members(alloc, out, fs.as_slice(), b"|"),
        Formula::Implies(f, g) => {
            push(out, b"(")?;
            put_formula(alloc, out, f.get())?;
            push(out, b"->")?;
            put_formula(alloc, out, g.get())?;
            push(out, b")")
        }
        Formula::Iff(f, g) => {
            push(out, b"(")?;
            put_formula(alloc, out, f.get())?;
            push(out, b"<->")?;
            put_formula(alloc, out, g.get())?;
            push(out, b")")
        }
        Formula::All(vs, f) => {
            put_binder(alloc, out, b"!", vs.as_slice())?;
            put_formula(alloc, out, f.get())
        }
        Formula::Some(vs, f) => {
            put_binder(alloc, out, b"?", vs.as_slice())?;
            put_formula(alloc, out, f.get())
        }
    }
}
