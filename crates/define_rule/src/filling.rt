//! The pinned terms put in for their variables.

ghost use Rattle.std.specs.Prelude.{◌≡◌, map, IfOk, OnOk};
ghost use Rattle.term_base.specs.Trees.{tree};
ghost use Rattle.term_base.specs.Substitution.{put_in};
ghost use Rattle.term_base.specs.Lits.{lit, put_lit};
ghost use Rattle.define_rule.specs.Pins.{pin};
ghost use Rattle.define_rule.specs.NextTerm as spec;
ghost use Rattle.define_rule.specs.Found as code;
ghost use Rattle.define_rule.specs.Found.{add_remaining};

use crate::pins::pinned;
use sqlite_items::{Boxed, Items};
use std::alloc::{AllocError, Global};
use term_base::{Literal, Symbol, Term, Variable};

fn pin_of(
    alloc: Global,
    signature: &[Symbol],
    literals: &[Literal],
    v: Variable,
) -> Result<Term, AllocError>
    ensures { IfOk result (λ r. tree r ≡ pin signature.now (map lit literals.now) v) }
{
    match pinned(signature, literals, v) {
        Some(g) => g.copy(alloc),
        None => Ok(Term::Var(v)),
    }
}

/// The term with the pinned terms of the literals in place of their variables.
pub(crate) fn put_pins(
    alloc: Global,
    signature: &[Symbol],
    literals: &[Literal],
    t: &Term,
) -> Result<Term, AllocError>
    ensures { IfOk result
        (λ r. tree r ≡ put_in (pin signature.now (map lit literals.now)) (tree t.now)) }
{
    match t {
        Term::Var(v) => pin_of(alloc, signature, literals, *v),
        Term::Num(n) => Ok(Term::Num(*n)),
        Term::True => Ok(Term::True),
        Term::Sum(a, b) => {
            let a = Boxed::new(alloc, put_pins(alloc, signature, literals, a.get())?)?;
            let b = Boxed::new(alloc, put_pins(alloc, signature, literals, b.get())?)?;
            Ok(Term::Sum(a, b))
        }
        Term::Scale(k, a) => {
            let a = Boxed::new(alloc, put_pins(alloc, signature, literals, a.get())?)?;
            Ok(Term::Scale(*k, a))
        }
        Term::App(f, args) => {
            let mut all = Items::new(alloc);
            for arg in args.as_slice() {
                all.push(put_pins(alloc, signature, literals, arg)?)?;
            }
            Ok(Term::App(*f, all))
        }
    }
}

fn put_in_literal(
    alloc: Global,
    signature: &[Symbol],
    literals: &[Literal],
    l: &Literal,
) -> Result<Literal, AllocError>
    ensures { IfOk result
        (λ r. lit r ≡ put_lit (pin signature.now (map lit literals.now)) (lit l.now)) }
{
    match l {
        Literal::Equal(s, t) => Ok(Literal::Equal(
            put_pins(alloc, signature, literals, s)?,
            put_pins(alloc, signature, literals, t)?,
        )),
        Literal::Differ(s, t) => Ok(Literal::Differ(
            put_pins(alloc, signature, literals, s)?,
            put_pins(alloc, signature, literals, t)?,
        )),
        Literal::AtMost(s, t) => Ok(Literal::AtMost(
            put_pins(alloc, signature, literals, s)?,
            put_pins(alloc, signature, literals, t)?,
        )),
    }
}

/// Whether a literal is `t != t`.
fn differs_from_itself(l: &Literal) -> bool
    ensures { result
        ≡ spec.differs_from_itself (lit l.now).relation (lit l.now).left (lit l.now).right }
{
    match l {
        Literal::Equal(_, _) => false,
        Literal::Differ(s, t) => *s == *t,
        Literal::AtMost(_, _) => false,
    }
}

/// Puts a literal behind others, if it isn't `t != t`.
fn push_remaining(all: &mut Items<Literal>, l: Literal) -> Result<(), AllocError>
    ensures { OnOk result (map lit all.new ≡ add_remaining (map lit all.old) (lit l)) }
{
    if differs_from_itself(&l) {
        return Ok(());
    }
    all.push(l)?;
    Ok(())
}

/// The literals with the pinned terms in place of their variables, without those that are then `t != t`.
pub(crate) fn remaining(
    alloc: Global,
    signature: &[Symbol],
    literals: &[Literal],
) -> Result<Items<Literal>, AllocError>
    ensures { IfOk result
        (λ all. map lit all ≡ code.remaining signature.now (map lit literals.now)) }
{
    let mut all = Items::new(alloc);
    for l in literals {
        push_remaining(&mut all, put_in_literal(alloc, signature, literals, l)?)?;
    }
    Ok(all)
}
