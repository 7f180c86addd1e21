//! What is formed of sums.

ghost use Rattle.std.specs.Prelude.{◌≡◌, ◌+◌, ◌<◌, ◌≤◌, false, [], ◌∷◌, ◌++◌, length, vec_len, vec_capacity, IfOk, IsTrue};
ghost use Rattle.lin_base.specs.Fact.{is_ascending, is_lin};
ghost use Rattle.lin_base.specs.Steps.{Forms, WantsNoMemory, formed_by, add_terms_steps, add_steps, scale_terms_steps, scale_steps, negated_steps, add_number_steps, above_steps};
ghost use Rattle.lin_base.specs.Combine.{add_scaled, add_scaled_steps};
ghost use Rattle.lin_base.specs.Sum as spec;

use crate::checked::{checked_add, checked_mul};
use crate::sums::{Lin, number};
use crate::wides::{ArithmeticError, Wide};
use sqlite_items::Items;
use std::alloc::Global;

/// Appends a term for which there is room.
fn push(terms: &mut Vec<(u32, i128)>, term: (u32, i128))
    requires { vec_len terms.old < vec_capacity terms.old }
    ensures items { terms.new.items ≡ terms.old.items ++ term ∷ [] }
    ensures len { vec_len terms.new ≡ vec_len terms.old + 1 }
    ensures capacity { vec_capacity terms.old ≤ vec_capacity terms.new }
{
    let Ok(()) = terms.push(term) else {
        unreachable!()
    };
}

/// Appends `coef` times `x`, or nothing where `coef` is 0.
fn push_term(terms: &mut Vec<(u32, i128)>, x: u32, coef: i128)
    requires { vec_len terms.old < vec_capacity terms.old }
    ensures items { terms.new.items ≡ terms.old.items ++ spec.with_term x coef [] }
    ensures len { vec_len terms.new ≤ vec_len terms.old + 1 }
    ensures capacity { vec_capacity terms.old ≤ vec_capacity terms.new }
{
    if coef != 0 {
        push(terms, (x, coef));
    }
}

/// Appends terms for which there is room.
fn append(terms: &mut Vec<(u32, i128)>, more: &[(u32, i128)])
    requires { vec_len terms.old + length more.now ≤ vec_capacity terms.old }
    ensures items { terms.new.items ≡ terms.old.items ++ more.now }
    ensures len { vec_len terms.new ≡ vec_len terms.old + length more.now }
    ensures capacity { vec_capacity terms.old ≤ vec_capacity terms.new }
{
    let Ok(()) = terms.extend_from_slice(more) else {
        unreachable!()
    };
}

#[tactic(auto, using(crate::proofs::Forming::forming))]
fn add_terms(
    room: Vec<(u32, i128)>,
    left: &[(u32, i128)],
    right: &[(u32, i128)],
) -> Result<Items<(u32, i128)>, Wide>
    requires empty { room.items ≡ [] }
    requires room { vec_len room + (length left.now + length right.now) ≤ vec_capacity room }
    requires left { IsTrue (is_ascending left.now) }
    requires right { IsTrue (is_ascending right.now) }
    ensures { result ≡ formed_by (add_terms_steps left.now right.now)
        (spec.add_terms left.now right.now) }
{
    let mut sum = room;
    let mut left = left;
    let mut right = right;
    while let ([a, left_rest @ ..], [b, right_rest @ ..]) = (left, right) {
        if a.0 < b.0 {
            push(&mut sum, *a);
            left = left_rest;
        } else if b.0 < a.0 {
            push(&mut sum, *b);
            right = right_rest;
        } else {
            push_term(&mut sum, a.0, checked_add(a.1, b.1)?);
            left = left_rest;
            right = right_rest;
        }
    }
    append(&mut sum, left);
    append(&mut sum, right);
    Ok(Items::from_vec(sum))
}

/// `a + b`, formed where there is room for the terms of both.
fn sum_in(room: Vec<(u32, i128)>, a: &Lin, b: &Lin) -> Result<Lin, Wide>
    requires empty { room.items ≡ [] }
    requires room { vec_len room + (length a.now.coefs + length b.now.coefs) ≤ vec_capacity room }
    requires left { IsTrue (is_lin a.now) }
    requires right { IsTrue (is_lin b.now) }
    ensures { result ≡ formed_by (add_steps a.now b.now) (spec.add a.now b.now) }
{
    Ok(Lin {
        coefs: add_terms(room, a.coefs.as_slice(), b.coefs.as_slice())?,
        constant: checked_add(a.constant, b.constant)?,
    })
}

/// `a + b`. Wide with the first sum, by ascending unknown and the constants last, that leaves the
/// range. It takes memory only where an unknown occurs.
pub fn add(alloc: Global, a: &Lin, b: &Lin) -> Result<Lin, ArithmeticError>
    requires left { IsTrue (is_lin a.now) }
    requires right { IsTrue (is_lin b.now) }
    ensures sum { Forms result (add_steps a.now b.now) (spec.add a.now b.now) }
    ensures memory { spec.has_unknown a.now ≡ false → spec.has_unknown b.now ≡ false →
        WantsNoMemory result }
    ensures well_formed { IfOk result (λ r. IsTrue (is_lin r)) }
{
    let terms = a.coefs.as_slice().len() + b.coefs.as_slice().len();
    let room = Vec::with_capacity(alloc, terms)?;
    Ok(sum_in(room, a, b)?)
}

#[tactic(auto, using(crate::proofs::Forming::forming))]
fn scale_terms(
    room: Vec<(u32, i128)>,
    k: i128,
    terms: &[(u32, i128)],
) -> Result<Items<(u32, i128)>, Wide>
    requires empty { room.items ≡ [] }
    requires room { vec_len room + length terms.now ≤ vec_capacity room }
    ensures { result ≡ formed_by (scale_terms_steps k terms.now) (spec.scale_terms k terms.now) }
{
    let mut scaled = room;
    for term in terms {
        let product = checked_mul(k, term.1)?;
        push_term(&mut scaled, term.0, product);
    }
    Ok(Items::from_vec(scaled))
}

/// `k * a`, formed where there is room for the terms.
fn multiple_in(room: Vec<(u32, i128)>, k: i128, a: &Lin) -> Result<Lin, Wide>
    requires empty { room.items ≡ [] }
    requires room { vec_len room + length a.now.coefs ≤ vec_capacity room }
    ensures { result ≡ formed_by (scale_steps k a.now) (spec.scale k a.now) }
{
    Ok(Lin {
        coefs: scale_terms(room, k, a.coefs.as_slice())?,
        constant: checked_mul(k, a.constant)?,
    })
}

/// `k * a`. Wide with the first product, by ascending unknown and the constant last, that leaves
/// the range. It takes memory only where an unknown occurs.
pub fn scale(alloc: Global, k: i128, a: &Lin) -> Result<Lin, ArithmeticError>
    ensures product { Forms result (scale_steps k a.now) (spec.scale k a.now) }
    ensures memory { spec.has_unknown a.now ≡ false → WantsNoMemory result }
    ensures well_formed { IsTrue (is_lin a.now) → IfOk result (λ r. IsTrue (is_lin r)) }
{
    let room = Vec::with_capacity(alloc, a.coefs.len())?;
    Ok(multiple_in(room, k, a)?)
}

/// `-a`, the product with -1.
#[tactic(auto, using(crate::proofs::Forming::forming))]
pub fn negate(alloc: Global, a: &Lin) -> Result<Lin, ArithmeticError>
    ensures product { Forms result (negated_steps a.now) (spec.negated a.now) }
    ensures memory { spec.has_unknown a.now ≡ false → WantsNoMemory result }
    ensures well_formed { IsTrue (is_lin a.now) → IfOk result (λ r. IsTrue (is_lin r)) }
{
    scale(alloc, -1, a)
}

/// `a + c`. Wide where the constants' sum leaves the range.
#[tactic(auto, using(crate::proofs::Forming::forming))]
pub fn add_number(alloc: Global, a: &Lin, c: i128) -> Result<Lin, ArithmeticError>
    requires { IsTrue (is_lin a.now) }
    ensures sum { Forms result (add_number_steps a.now c) (spec.add_number a.now c) }
    ensures memory { spec.has_unknown a.now ≡ false → WantsNoMemory result }
    ensures well_formed { IfOk result (λ r. IsTrue (is_lin r)) }
{
    add(alloc, a, &number(alloc, c))
}

/// `-a + 1`, which is at most 0 where `a` is at least 1: the product with -1, then the sum with 1.
#[tactic(auto, using(crate::proofs::Forming::forming))]
pub fn above(alloc: Global, a: &Lin) -> Result<Lin, ArithmeticError>
    requires { IsTrue (is_lin a.now) }
    ensures sum { Forms result (above_steps a.now) (spec.above a.now) }
    ensures memory { spec.has_unknown a.now ≡ false → WantsNoMemory result }
    ensures well_formed { IfOk result (λ r. IsTrue (is_lin r)) }
{
    let negative = negate(alloc, a)?;
    add_number(alloc, &negative, 1)
}

/// `so_far + k * t`, the step by which a combination of sums is formed: first the products, then
/// the sums.
#[tactic(auto, using(crate::proofs::Forming::forming))]
pub fn add_scaled(alloc: Global, so_far: &Lin, k: i128, t: &Lin) -> Result<Lin, ArithmeticError>
    requires so_far { IsTrue (is_lin so_far.now) }
    requires term { IsTrue (is_lin t.now) }
    ensures sum { Forms result (add_scaled_steps so_far.now k t.now)
        (add_scaled so_far.now k t.now) }
    ensures memory { spec.has_unknown so_far.now ≡ false → spec.has_unknown t.now ≡ false →
        WantsNoMemory result }
    ensures well_formed { IfOk result (λ r. IsTrue (is_lin r)) }
{
    add(alloc, so_far, &scale(alloc, k, t)?)
}
