//! Substitutions put into terms and clauses.

ghost use Rattle.std.specs.Prelude.{◌≡◌, IfOk};
ghost use Rattle.term_base.specs.Trees.{tree};
ghost use Rattle.term_base.specs.Lits.{lit, lits, put_lit, put_clause};
ghost use Rattle.term_base.specs.Substitution.{image, put_in};

use crate::clauses::{Clause, Literal};
use crate::substs::Subst;
use crate::symbols::Symbol;
use crate::terms::Term;
use crate::variables::Variable;
use sqlite_items::{Boxed, Items};
use std::alloc::{AllocError, Global};

fn image_of(alloc: Global, s: &Subst, v: Variable) -> Result<Term, AllocError>
    ensures { IfOk result (λ t. tree t ≡ image s.now v) }
{
    match s.get(v) {
        Some(t) => t.copy(alloc),
        None => Ok(Term::Var(v)),
    }
}

/// The term with each variable replaced by what stands for it, all at once: nothing is replaced again in
/// what was put in.
pub fn apply(alloc: Global, signature: &[Symbol], t: &Term, s: &Subst) -> Result<Term, AllocError>
    ensures { IfOk result (λ r. tree r ≡ put_in (image s.now) (tree t.now)) }
{
    match t {
        Term::Var(v) => image_of(alloc, s, *v),
        Term::Num(n) => Ok(Term::Num(*n)),
        Term::True => Ok(Term::True),
        Term::Sum(a, b) => {
            let a = Boxed::new(alloc, apply(alloc, signature, a.get(), s)?)?;
            let b = Boxed::new(alloc, apply(alloc, signature, b.get(), s)?)?;
            Ok(Term::Sum(a, b))
        }
        Term::Scale(k, a) => {
            let a = Boxed::new(alloc, apply(alloc, signature, a.get(), s)?)?;
            Ok(Term::Scale(*k, a))
        }
        Term::App(f, args) => {
            let mut all = Items::new(alloc);
            for arg in args.as_slice() {
                all.push(apply(alloc, signature, arg, s)?)?;
            }
            Ok(Term::App(*f, all))
        }
    }
}

/// The literal with each variable replaced by what stands for it.
pub fn apply_literal(
    alloc: Global,
    signature: &[Symbol],
    l: &Literal,
    s: &Subst,
) -> Result<Literal, AllocError>
    ensures { IfOk result (λ r. lit r ≡ put_lit (image s.now) (lit l.now)) }
{
    match l {
        Literal::Equal(a, b) => Ok(Literal::Equal(
            apply(alloc, signature, a, s)?,
            apply(alloc, signature, b, s)?,
        )),
        Literal::Differ(a, b) => Ok(Literal::Differ(
            apply(alloc, signature, a, s)?,
            apply(alloc, signature, b, s)?,
        )),
        Literal::AtMost(a, b) => Ok(Literal::AtMost(
            apply(alloc, signature, a, s)?,
            apply(alloc, signature, b, s)?,
        )),
    }
}

/// The clause with each variable replaced by what stands for it.
pub fn apply_clause(
    alloc: Global,
    signature: &[Symbol],
    c: &Clause,
    s: &Subst,
) -> Result<Clause, AllocError>
    ensures { IfOk result (λ r. lits r ≡ put_clause (image s.now) (lits c.now)) }
{
    let mut literals = Items::new(alloc);
    for literal in c.literals.as_slice() {
        literals.push(apply_literal(alloc, signature, literal, s)?)?;
    }
    Ok(Clause { literals })
}
