//! The literals of atoms.

ghost use Rattle.std.specs.Prelude.{◌≡◌, [], ◌∷◌, IfOk};
ghost use Rattle.normal_form.specs.Cnf as spec;

use crate::binders::Binders;
use crate::disjunctions::Disjunction;
use std::alloc::{AllocError, Global};
use term_base::{Literal, Term};

/// A list of clauses as lists of their literals.
pub(crate) type Clauses = Vec<Disjunction>;

/// A predicate, or its negation.
pub(crate) fn atom(
    alloc: Global,
    scope: &Binders,
    sign: bool,
    s: &Term,
) -> Result<Literal, AllocError>
    ensures { IfOk result (λ l. l ≡ spec.atom sign (spec.instance scope.now s.now)) }
{
    let s = scope.instance(alloc, s)?;
    if sign {
        Ok(Literal::Equal(s, Term::True))
    } else {
        Ok(Literal::Differ(s, Term::True))
    }
}

/// An equation, or its negation.
pub(crate) fn same(
    alloc: Global,
    scope: &Binders,
    sign: bool,
    s: &Term,
    t: &Term,
) -> Result<Literal, AllocError>
    ensures { IfOk result (λ l. l ≡ spec.same sign (spec.instance scope.now s.now) (spec.instance scope.now t.now)) }
{
    let s = scope.instance(alloc, s)?;
    let t = scope.instance(alloc, t)?;
    if sign {
        Ok(Literal::Equal(s, t))
    } else {
        Ok(Literal::Differ(s, t))
    }
}

/// `s + 1 <= t`.
fn below(alloc: Global, s: Term, t: Term) -> Result<Literal, AllocError>
    ensures { IfOk result (λ l. l ≡ Literal.AtMost (spec.plus_one s) t) }
{
    let next = Term::sum(alloc, s, Term::Num(1))?;
    Ok(Literal::AtMost(next, t))
}

/// `s < t` as `s + 1 <= t`, or its negation `t <= s`.
pub(crate) fn less(
    alloc: Global,
    scope: &Binders,
    sign: bool,
    s: &Term,
    t: &Term,
) -> Result<Literal, AllocError>
    ensures { IfOk result (λ l. l ≡ spec.less sign (spec.instance scope.now s.now) (spec.instance scope.now t.now)) }
{
    let s = scope.instance(alloc, s)?;
    let t = scope.instance(alloc, t)?;
    if sign {
        below(alloc, s, t)
    } else {
        Ok(Literal::AtMost(t, s))
    }
}

/// `s <= t`, or its negation `t + 1 <= s`.
pub(crate) fn less_eq(
    alloc: Global,
    scope: &Binders,
    sign: bool,
    s: &Term,
    t: &Term,
) -> Result<Literal, AllocError>
    ensures { IfOk result (λ l. l ≡ spec.less_eq sign (spec.instance scope.now s.now) (spec.instance scope.now t.now)) }
{
    let s = scope.instance(alloc, s)?;
    let t = scope.instance(alloc, t)?;
    if sign {
        Ok(Literal::AtMost(s, t))
    } else {
        below(alloc, t, s)
    }
}

/// One clause of one literal.
pub(crate) fn unit(alloc: Global, literal: Literal) -> Result<Clauses, AllocError>
    ensures { IfOk result (λ cs. cs.items ≡ (literal ∷ []) ∷ []) }
{
    let mut clause = Disjunction::empty(alloc);
    clause.push(literal)?;
    let mut clauses = Vec::new(alloc);
    clauses.push(clause)?;
    Ok(clauses)
}

/// The clauses of the formula that always holds, for a sign.
pub(crate) fn always(alloc: Global, sign: bool) -> Result<Clauses, AllocError>
    ensures { IfOk result (λ cs. cs.items ≡ (spec.always sign).clauses) }
{
    let mut clauses = Vec::new(alloc);
    if !sign {
        clauses.push(Disjunction::empty(alloc))?;
    }
    Ok(clauses)
}
