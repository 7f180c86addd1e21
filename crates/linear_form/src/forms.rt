//! The forms in which literals over the integers are compared.

ghost use Rattle.std.specs.Prelude.{◌≡◌, ◌&&◌, map, option_map, IfOk, IfErr};
ghost use Rattle.std.specs.Ordering.{int_eq};
ghost use Rattle.std.specs.List.{list_all};
ghost use Rattle.term_base.specs.Trees.{tree};
ghost use Rattle.term_base.specs.Lits.{lit};
ghost use Rattle.linear_form.specs.Forms as spec;
ghost use Rattle.linear_form.specs.FormOf.{form_at};
ghost use Rattle.linear_form.specs.Normal.{narrow_form, form_of};

use crate::collecting::place;
use crate::dividing::divide;
use crate::linear_forms::{LinearForm, linear};
use lin_base::{ArithmeticError, Fact, Lin, tight};
use sqlite_items::Items;
use std::alloc::{AllocError, Global};
use term_base::{Literal, Sort, Symbol, Term, sort_of};

/// What two literals of one relation are compared by.
#[derive(Debug, Drop)]
pub(crate) struct Form {
    /// The summands.
    pub(crate) terms: Items<Term>,
    /// Left minus right.
    pub(crate) sum: Lin,
    /// The sum, tightened or divided.
    pub(crate) reduced: Lin,
    /// Whether all its signs change.
    pub(crate) turned: bool,
}

/// Whether a literal is an inequality.
fn is_inequality(l: &Literal) -> bool
    ensures { result ≡ spec.is_inequality (lit l.now).relation }
{
    match l {
        Literal::Equal(_, _) => false,
        Literal::Differ(_, _) => false,
        Literal::AtMost(_, _) => true,
    }
}

/// The sum of a literal, tightened or divided.
fn reduce(alloc: Global, l: &Literal, t: &Lin) -> Result<Lin, AllocError>
    ensures { IfOk result (λ r. r ≡ spec.reduced_by (lit l.now).relation t.now) }
{
    if is_inequality(l) {
        let fact = tight(alloc, &Fact::AtMostZero(t.copy(alloc)?))?;
        fact.sum().copy(alloc)
    } else {
        divide(alloc, t)
    }
}

fn starts_negative(t: &Lin) -> bool
    ensures { result ≡ spec.starts_negative t.now.coefs }
{
    match t.coefs.as_slice() {
        [] => false,
        [first, ..] => first.1 < 0,
    }
}

/// Whether the signs of a literal's reduced sum change.
fn is_turned(l: &Literal, t: &Lin) -> bool
    ensures { result ≡ spec.turned_by (lit l.now).relation t.now }
{
    !is_inequality(l) && starts_negative(t)
}

/// The form of a literal with this Linear.
fn form_from(alloc: Global, l: &Literal, linear: LinearForm) -> Result<Form, AllocError>
    ensures { IfOk result (λ f. form_at f
        ≡ spec.form (lit l.now).relation (map tree linear.terms) linear.sum) }
{
    let reduced = reduce(alloc, l, &linear.sum)?;
    let turned = is_turned(l, &reduced);
    Ok(Form {
        terms: linear.terms,
        sum: linear.sum,
        reduced,
        turned,
    })
}

/// The form of a literal with these sides; None where a number of its Linear leaves the range.
fn narrow_form(alloc: Global, l: &Literal, s: &Term, t: &Term) -> Result<Option<Form>, AllocError>
    ensures { IfOk result (λ o. option_map form_at o
        ≡ narrow_form (lit l.now).relation (tree s.now) (tree t.now)) }
{
    match linear(alloc, s, t) {
        Ok(found) => Ok(Some(form_from(alloc, l, found)?)),
        Err(ArithmeticError::Wide(_)) => Ok(None),
        Err(ArithmeticError::Memory) => Err(AllocError),
    }
}

/// The form of a literal; None where it isn't over the integers, or a number of its Linear leaves the
/// range.
pub(crate) fn form_of(
    alloc: Global,
    signature: &[Symbol],
    l: &Literal,
) -> Result<Option<Form>, AllocError>
    ensures { IfOk result (λ o. option_map form_at o ≡ form_of signature.now (lit l.now)) }
{
    match l {
        Literal::Equal(s, t) | Literal::Differ(s, t) | Literal::AtMost(s, t) => {
            if sort_of(signature, s) == Some(Sort::Int) {
                narrow_form(alloc, l, s, t)
            } else {
                Ok(None)
            }
        }
    }
}

fn coefficient_at(x: usize, terms: &[(u32, i128)]) -> i128
    ensures { result ≡ spec.coefficient_at x terms.now }
{
    for term in terms {
        if term.0 as usize == x {
            return term.1;
        }
    }
    0
}

fn coefficient(f: &Form, t: &Term) -> i128
    ensures { result ≡ spec.coefficient (form_at f.now) (tree t.now) }
{
    coefficient_at(place(f.terms.as_slice(), t), f.reduced.coefs.as_slice())
}

/// Whether `a` and `-b` are equal.
fn are_opposite(a: i128, b: i128) -> bool
    ensures { result ≡ spec.are_opposite a b }
{
    match a.checked_add(b) {
        Some(sum) => sum == 0,
        None => false,
    }
}

#[tactic(auto, using(crate::proofs::Signs::signs))]
/// Whether two numbers are equal after their signs change or not. That of -2^127 may change too.
fn same_signed(a_turned: bool, a: i128, b_turned: bool, b: i128) -> bool
    ensures { result ≡ int_eq (spec.signed a_turned a) (spec.signed b_turned b) }
{
    match (a_turned, b_turned) {
        (false, false) => a == b,
        (true, true) => a == b,
        (true, false) => are_opposite(a, b),
        (false, true) => are_opposite(a, b),
    }
}

fn agree_at(f: &Form, g: &Form, t: &Term) -> bool
    ensures { result ≡ spec.agree_at (form_at f.now) (form_at g.now) (tree t.now) }
{
    same_signed(f.turned, coefficient(f, t), g.turned, coefficient(g, t))
}

fn agree_on(f: &Form, g: &Form, terms: &[Term]) -> bool
    ensures { result ≡ list_all (spec.agree_at (form_at f.now) (form_at g.now)) (map tree terms.now) }
{
    for t in terms {
        if !agree_at(f, g, t) {
            return false;
        }
    }
    true
}

fn same_form(f: &Form, g: &Form) -> bool
    ensures { result ≡ spec.same_form (form_at f.now) (form_at g.now) }
{
    same_signed(f.turned, f.reduced.constant, g.turned, g.reduced.constant)
        && agree_on(f, g, f.terms.as_slice())
        && agree_on(f, g, g.terms.as_slice())
}

/// Whether both have a form, and it is the same.
pub(crate) fn same_forms(f: &Option<Form>, g: &Option<Form>) -> bool
    ensures { result ≡ spec.same_forms (option_map form_at f.now) (option_map form_at g.now) }
{
    match f {
        None => false,
        Some(f) => match g {
            None => false,
            Some(g) => same_form(f, g),
        },
    }
}
