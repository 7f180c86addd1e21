//! Literals that say the same, literals that are false, and normal clauses.

ghost use Rattle.std.specs.Prelude.{◌≡◌, map, IfOk};
ghost use Rattle.std.specs.List.{list_all};
ghost use Rattle.term_base.specs.Lits.{lit, lits};
ghost use Rattle.linear_form.specs.FormOf.{known};
ghost use Rattle.linear_form.specs.Literals.{same_relation as same_relation_of};
ghost use Rattle.linear_form.specs.Normal as spec;

use crate::forms::{Form, form_of, same_forms};
use crate::literals::same_literal;
use lin_base::{Lin, has_unknown};
use sqlite_items::Items;
use std::alloc::{AllocError, Global};
use term_base::{Clause, Literal, Symbol};

/// A literal with its form.
#[derive(Debug, Drop)]
pub(crate) struct Known {
    pub(crate) literal: Literal,
    pub(crate) form: Option<Form>,
}

fn with_form(alloc: Global, signature: &[Symbol], l: &Literal) -> Result<Known, AllocError>
    ensures { IfOk result (λ k. known k ≡ spec.with_form signature.now (lit l.now)) }
{
    Ok(Known {
        literal: l.copy(alloc)?,
        form: form_of(alloc, signature, l)?,
    })
}

fn all_known(
    alloc: Global,
    signature: &[Symbol],
    literals: &[Literal],
) -> Result<Items<Known>, AllocError>
    ensures { IfOk result (λ ks. map known ks
        ≡ map (spec.with_form signature.now) (map lit literals.now)) }
{
    let mut all = Items::new(alloc);
    for literal in literals {
        all.push(with_form(alloc, signature, literal)?)?;
    }
    Ok(all)
}

fn same_relation(l: &Literal, m: &Literal) -> bool
    ensures { result ≡ same_relation_of (lit l.now).relation (lit m.now).relation }
{
    match (l, m) {
        (Literal::Equal(_, _), Literal::Equal(_, _)) => true,
        (Literal::Differ(_, _), Literal::Differ(_, _)) => true,
        (Literal::AtMost(_, _), Literal::AtMost(_, _)) => true,
        _ => false,
    }
}

fn say_the_same(k: &Known, m: &Known) -> bool
    ensures { result ≡ spec.say_the_same (known k.now) (known m.now) }
{
    if same_literal(&k.literal, &m.literal) {
        return true;
    }
    same_relation(&k.literal, &m.literal) && same_forms(&k.form, &m.form)
}

fn is_false_sum(l: &Literal, t: &Lin) -> bool
    ensures { result ≡ spec.is_false_sum (lit l.now).relation t.now }
{
    if has_unknown(t) {
        return false;
    }
    match l {
        Literal::Equal(_, _) => t.constant != 0,
        Literal::Differ(_, _) => t.constant == 0,
        Literal::AtMost(_, _) => t.constant > 0,
    }
}

fn differs_from_itself(l: &Literal) -> bool
    ensures { result ≡ spec.differs_from_itself (lit l.now) }
{
    match l {
        Literal::Differ(s, t) => s == t,
        Literal::Equal(_, _) => false,
        Literal::AtMost(_, _) => false,
    }
}

fn is_false(k: &Known) -> bool
    ensures { result ≡ spec.is_false_with (known k.now) }
{
    if differs_from_itself(&k.literal) {
        return true;
    }
    match &k.form {
        Some(form) => is_false_sum(&k.literal, &form.sum),
        None => false,
    }
}

fn has_same(others: &[Known], k: &Known) -> bool
    ensures { result ≡ spec.has_same (map known others.now) (known k.now) }
{
    for other in others {
        if say_the_same(k, other) {
            return true;
        }
    }
    false
}

fn all_have_same(ks: &[Known], others: &[Known]) -> bool
    ensures { result ≡ list_all (spec.has_same (map known others.now)) (map known ks.now) }
{
    for k in ks {
        if !has_same(others, k) {
            return false;
        }
    }
    true
}

fn is_kept(others: &[Known], k: &Known) -> bool
    ensures { result ≡ spec.is_kept (map known others.now) (known k.now) }
{
    is_false(k) || has_same(others, k)
}

fn all_kept(ks: &[Known], others: &[Known]) -> bool
    ensures { result ≡ list_all (spec.is_kept (map known others.now)) (map known ks.now) }
{
    for k in ks {
        if !is_kept(others, k) {
            return false;
        }
    }
    true
}

/// Whether two literals say the same: they are equal, or of one relation over the integers and
/// their Linear forms are equal after tightening, or after dividing by the common divisor of all
/// numbers and making the first coefficient positive. A Linear that leaves the range equals none.
pub fn is_same_literal(
    alloc: Global,
    signature: &[Symbol],
    l: &Literal,
    m: &Literal,
) -> Result<bool, AllocError>
    ensures { IfOk result (λ yes. yes ≡ spec.is_same_lit signature.now (lit l.now) (lit m.now)) }
{
    let k = with_form(alloc, signature, l)?;
    Ok(say_the_same(&k, &with_form(alloc, signature, m)?))
}

/// Whether a literal is false by its form: `t != t`, or over the integers a disequation whose
/// Linear is 0, an equation whose Linear is another number, or an inequality whose Linear is a
/// positive number. A Linear that leaves the range is none of these.
pub fn is_false_literal(
    alloc: Global,
    signature: &[Symbol],
    l: &Literal,
) -> Result<bool, AllocError>
    ensures { IfOk result (λ yes. yes ≡ spec.is_false_lit signature.now (lit l.now)) }
{
    Ok(is_false(&with_form(alloc, signature, l)?))
}

/// Whether each literal of `c` is false or says the same as one of `d`, and each of `d` says the
/// same as one of `c`.
pub fn is_normal(
    alloc: Global,
    signature: &[Symbol],
    c: &Clause,
    d: &Clause,
) -> Result<bool, AllocError>
    ensures { IfOk result (λ yes. yes ≡ spec.is_normal signature.now (lits c.now) (lits d.now)) }
{
    let ks = all_known(alloc, signature, c.literals.as_slice())?;
    let ms = all_known(alloc, signature, d.literals.as_slice())?;
    Ok(all_kept(ks.as_slice(), ms.as_slice()) && all_have_same(ms.as_slice(), ks.as_slice()))
}
