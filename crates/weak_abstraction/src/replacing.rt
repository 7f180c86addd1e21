//! Terms, literals and clauses with their targets replaced.

ghost use Rattle.std.specs.Prelude.{◌≡◌, map, IfOk};
ghost use Rattle.term_base.specs.Trees.{tree};
ghost use Rattle.term_base.specs.Lits.{lit};
ghost use Rattle.weak_abstraction.specs.Abstracted as spec;
ghost use Rattle.weak_abstraction.specs.Names.{name_in};

use crate::conditions::{is_foreground_literal, is_mixed, is_target, side_counts};
use crate::naming::{Names, variable_of};
use sqlite_items::Items;
use std::alloc::{AllocError, Global};
use term_base::{Literal, Symbol, Term, is_foreground};

/// A term with its targets replaced, at a place where one may stand or not.
#[cycle(replaced)]
fn replaced<'a>(
    alloc: Global,
    signature: &[Symbol],
    names: &Names<'a>,
    t: &'a Term,
    counts: bool,
) -> Result<Term, AllocError>
    ensures { IfOk result (λ r. tree r
        ≡ spec.replaced_in signature.now (name_in signature.now names.now) (tree t.now) counts) }
{
    if is_target(signature, t, counts) {
        return Ok(Term::Var(variable_of(signature, names, t)?));
    }
    replaced_below(alloc, signature, names, t)
}

/// A term with the targets below it replaced.
#[cycle(replaced)]
fn replaced_below<'a>(
    alloc: Global,
    signature: &[Symbol],
    names: &Names<'a>,
    t: &'a Term,
) -> Result<Term, AllocError>
    ensures { IfOk result (λ r. tree r
        ≡ spec.replaced_below signature.now (name_in signature.now names.now) (tree t.now)) }
{
    match t {
        Term::Var(v) => Ok(Term::Var(*v)),
        Term::Num(n) => Ok(Term::Num(*n)),
        Term::True => Ok(Term::True),
        Term::Sum(a, b) => {
            let left_mixed = is_mixed(signature, a.get());
            let right_mixed = is_mixed(signature, b.get());
            let left = replaced(alloc, signature, names, a.get(), right_mixed)?;
            let right = replaced(alloc, signature, names, b.get(), left_mixed)?;
            Term::sum(alloc, left, right)
        }
        // the argument beside it is a number
        Term::Scale(k, a) => Term::scale(
            alloc,
            *k,
            replaced(alloc, signature, names, a.get(), false)?,
        ),
        Term::App(f, args) => {
            let counts = is_foreground(signature, *f);
            let mut all = Items::new(alloc);
            for arg in args.as_slice() {
                all.push(replaced(alloc, signature, names, arg, counts)?)?;
            }
            Ok(Term::App(*f, all))
        }
    }
}

/// A side of a literal with its targets replaced.
fn replaced_side<'a>(
    alloc: Global,
    signature: &[Symbol],
    names: &Names<'a>,
    equation: bool,
    t: &'a Term,
    beside: &Term,
) -> Result<Term, AllocError>
    ensures { IfOk result (λ r. tree r
        ≡ spec.replaced_side signature.now (name_in signature.now names.now)
        equation (tree t.now) (tree beside.now)) }
{
    let counts = side_counts(signature, equation, t, beside);
    replaced(alloc, signature, names, t, counts)
}

/// A literal with the targets of its sides replaced.
fn replaced_sides<'a>(
    alloc: Global,
    signature: &[Symbol],
    names: &Names<'a>,
    l: &'a Literal,
) -> Result<Literal, AllocError>
    ensures { IfOk result (λ r. lit r
        ≡ spec.replaced_sides signature.now (name_in signature.now names.now) (lit l.now)) }
{
    match l {
        Literal::Equal(s, t) => {
            let left = replaced_side(alloc, signature, names, true, s, t)?;
            let right = replaced_side(alloc, signature, names, true, t, s)?;
            Ok(Literal::Equal(left, right))
        }
        Literal::Differ(s, t) => {
            let left = replaced_side(alloc, signature, names, false, s, t)?;
            let right = replaced_side(alloc, signature, names, false, t, s)?;
            Ok(Literal::Differ(left, right))
        }
        Literal::AtMost(s, t) => {
            let left = replaced_side(alloc, signature, names, false, s, t)?;
            let right = replaced_side(alloc, signature, names, false, t, s)?;
            Ok(Literal::AtMost(left, right))
        }
    }
}

/// A literal with its targets replaced.
fn replaced_literal<'a>(
    alloc: Global,
    signature: &[Symbol],
    names: &Names<'a>,
    l: &'a Literal,
) -> Result<Literal, AllocError>
    ensures { IfOk result (λ r. lit r
        ≡ spec.replaced_lit signature.now (name_in signature.now names.now) (lit l.now)) }
{
    if is_foreground_literal(signature, l) {
        replaced_sides(alloc, signature, names, l)
    } else {
        l.copy(alloc)
    }
}

/// Literals with their targets replaced.
pub(crate) fn replaced_literals<'a>(
    alloc: Global,
    signature: &[Symbol],
    names: &Names<'a>,
    literals: &'a [Literal],
) -> Result<Items<Literal>, AllocError>
    ensures { IfOk result (λ all. map lit all
        ≡ map (spec.replaced_lit signature.now (name_in signature.now names.now))
        (map lit literals.now)) }
{
    let mut all = Items::new(alloc);
    for literal in literals {
        all.push(replaced_literal(alloc, signature, names, literal)?)?;
    }
    Ok(all)
}
