//! Most general simple substitutions that make two terms equal.

ghost use Rattle.std.specs.Prelude.{◌≡◌, ◌⊎◌, ℕ, true, false, [], IfOk, IfSome, IfNone};
ghost use Rattle.term_base.specs.Known.{is_known, KnownImages};
ghost use Rattle.term_base.specs.Substitution.{image};
ghost use Rattle.term_base.specs.Trees.{tree, occurs, var};
ghost use Rattle.unifier.specs.Naming as spec;
ghost use Rattle.unifier.specs.Unifiers.{occurs_or, occurs_either_or, IsMostGeneral, NoUnifier};
ghost use Rattle.unifier.specs.Unifiers.{IsMostGeneralPair, NoPair, IsInImage, AreNumbered};
ghost use Rattle.unifier.specs.Variables.{Ascends};

use crate::images::{are_plain, images, renamed_substitution};
use crate::naming::names_of;
use crate::raising::raise;
use crate::solving::most_general;
use crate::variables::{past, variables_of, variables_of_both};
use std::alloc::{AllocError, Global};
use term_base::laws::integers_without_foreground_are_background;
use term_base::{Subst, Symbol, Term, Variable};

/// What was found for two premises, the second with raised numbers, as one substitution for each:
/// every variable in the images gets its place among these as its number, and is an abstraction
/// variable where it stands below one. None exactly where an abstraction variable has a foreground
/// symbol in its image.
fn answer(
    alloc: Global,
    signature: &[Symbol],
    found: &[(Variable, Term)],
    base: u32,
    firsts: &[Variable],
    seconds: &[Variable],
) -> Result<Option<(Subst, Subst)>, AllocError>
    requires first { Ascends firsts.now }
    requires second { Ascends seconds.now }
    ensures plain { let left = spec.images_of found.now 0 firsts.now in
        let right = spec.images_of found.now base seconds.now in
        IfOk result (λ o. IfSome o (λ p. spec.are_plain signature.now left right ≡ true)) }
    ensures foreground { let left = spec.images_of found.now 0 firsts.now in
        let right = spec.images_of found.now base seconds.now in
        IfOk result (λ o. IfNone o (spec.are_plain signature.now left right ≡ false)) }
    ensures named_first { let left = spec.images_of found.now 0 firsts.now in
        let right = spec.images_of found.now base seconds.now in
        IfOk result (λ o. IfSome o (λ p. (v : _) →
        image p.0 v ≡ spec.named (spec.forced_of left right) (spec.known_of left right)
        found.now 0 firsts.now v)) }
    ensures named_second { let left = spec.images_of found.now 0 firsts.now in
        let right = spec.images_of found.now base seconds.now in
        IfOk result (λ o. IfSome o (λ p. (v : _) →
        image p.1 v ≡ spec.named (spec.forced_of left right) (spec.known_of left right)
        found.now base seconds.now v)) }
{
    let first_images = images(alloc, found, 0, firsts)?;
    let second_images = images(alloc, found, base, seconds)?;
    let left = first_images.as_slice();
    let right = second_images.as_slice();
    if !are_plain(signature, left, right) {
        return Ok(None);
    }
    let names = names_of(alloc, left, right)?;
    let s = renamed_substitution(alloc, left, &names)?;
    let t = renamed_substitution(alloc, right, &names)?;
    Ok(Some((s, t)))
}

/// Most general simple substitutions of two premises, whose variables are kept apart, that make a
/// term of the first and one of the second equal: they are most general on the variables of the
/// terms and on those that are given besides for each premise. None exactly where no pair of
/// simple substitutions makes the terms equal. The variables in the images of all these have the
/// numbers from 0 on, each its own. Other variables stay as they are. Where the symbols of the terms
/// have numbers below a bound, so have those of the images. Memory counts as spent where the number
/// after those of the first premise, or a raised one of the second, passes 2^32 - 1.
pub fn unify_over(
    alloc: Global,
    signature: &[Symbol],
    l: &Term,
    u: &Term,
    first: &[Variable],
    second: &[Variable],
) -> Result<Option<(Subst, Subst)>, AllocError>
    ensures some { IfOk result (λ o. IfSome o (λ p.
        IsMostGeneralPair signature.now
        (occurs_or (tree l.now) first.now) (occurs_or (tree u.now) second.now)
        (tree l.now) (tree u.now) (image p.0) (image p.1))) }
    ensures numbered { IfOk result (λ o. IfSome o (λ p. AreNumbered (λ z.
        IsInImage (occurs_or (tree l.now) first.now) (image p.0) z
        ⊎ IsInImage (occurs_or (tree u.now) second.now) (image p.1) z))) }
    ensures others { IfOk result (λ o. IfSome o (λ p.
        ((v : _) → occurs_or (tree l.now) first.now v ≡ false → image p.0 v ≡ var v)
        × ((v : _) → occurs_or (tree u.now) second.now v ≡ false → image p.1 v ≡ var v))) }
    ensures known { IfOk result (λ o. IfSome o (λ p.
        (n : ℕ) → is_known n (tree l.now) ≡ true → is_known n (tree u.now) ≡ true
        → KnownImages n (image p.0) × KnownImages n (image p.1))) }
    ensures none { IfOk result (λ o. IfNone o (NoPair signature.now (tree l.now) (tree u.now))) }
{
    integers_without_foreground_are_background();
    let first_list = variables_of(alloc, l, first)?;
    let second_list = variables_of(alloc, u, second)?;
    let firsts = first_list.as_slice();
    let seconds = second_list.as_slice();
    let base = past(firsts)?;
    let raised = raise(alloc, u, base)?;
    match most_general(alloc, signature, l, &raised)? {
        Some(found) => answer(alloc, signature, found.as_slice(), base, firsts, seconds),
        None => Ok(None),
    }
}

/// Most general simple substitutions, one for each of two premises whose variables are kept apart,
/// that make a term of the first and one of the second equal, most general on the variables of
/// both terms. None exactly where no pair of simple substitutions makes the terms equal. The
/// variables in the images of the terms' variables have the numbers from 0 on, each its own. Other
/// variables stay as they are, and the symbols of the images are bounded as `unify_over` says. Memory
/// counts as spent where it says so.
pub fn unify(
    alloc: Global,
    signature: &[Symbol],
    l: &Term,
    u: &Term,
) -> Result<Option<(Subst, Subst)>, AllocError>
    ensures some { IfOk result (λ o. IfSome o (λ p.
        IsMostGeneralPair signature.now (λ v. occurs v (tree l.now)) (λ v. occurs v (tree u.now))
        (tree l.now) (tree u.now) (image p.0) (image p.1))) }
    ensures numbered { IfOk result (λ o. IfSome o (λ p. AreNumbered (λ z.
        IsInImage (λ v. occurs v (tree l.now)) (image p.0) z
        ⊎ IsInImage (λ v. occurs v (tree u.now)) (image p.1) z))) }
    ensures others { IfOk result (λ o. IfSome o (λ p.
        ((v : _) → occurs v (tree l.now) ≡ false → image p.0 v ≡ var v)
        × ((v : _) → occurs v (tree u.now) ≡ false → image p.1 v ≡ var v))) }
    ensures known { IfOk result (λ o. IfSome o (λ p.
        (n : ℕ) → is_known n (tree l.now) ≡ true → is_known n (tree u.now) ≡ true
        → KnownImages n (image p.0) × KnownImages n (image p.1))) }
    ensures none { IfOk result (λ o. IfNone o (NoPair signature.now (tree l.now) (tree u.now))) }
{
    unify_over(alloc, signature, l, u, &[], &[])
}

fn within(
    alloc: Global,
    signature: &[Symbol],
    found: &[(Variable, Term)],
    list: &[Variable],
) -> Result<Option<Subst>, AllocError>
    requires { Ascends list.now }
    ensures plain { let left = spec.images_of found.now 0 list.now in
        IfOk result (λ o. IfSome o (λ s. spec.are_plain signature.now left [] ≡ true)) }
    ensures foreground { let left = spec.images_of found.now 0 list.now in
        IfOk result (λ o. IfNone o (spec.are_plain signature.now left [] ≡ false)) }
    ensures named { let left = spec.images_of found.now 0 list.now in
        IfOk result (λ o. IfSome o (λ s. (v : _) →
        image s v ≡ spec.named (spec.forced_of left []) (spec.known_of left [])
        found.now 0 list.now v)) }
{
    match answer(alloc, signature, found, 0, list, &[])? {
        Some((s, _)) => Ok(Some(s)),
        None => Ok(None),
    }
}

/// A most general simple substitution of one premise that makes two of its terms equal: most
/// general on the variables of the terms and on those that are given besides. None exactly where
/// no simple substitution makes the terms equal. The variables in the images of all these have the
/// numbers from 0 on, each its own. Other variables stay as they are. Where the symbols of the terms
/// have numbers below a bound, so have those of the images.
pub fn unify_within(
    alloc: Global,
    signature: &[Symbol],
    l: &Term,
    u: &Term,
    others: &[Variable],
) -> Result<Option<Subst>, AllocError>
    ensures some { IfOk result (λ o. IfSome o (λ s.
        IsMostGeneral signature.now (occurs_either_or (tree l.now) (tree u.now) others.now)
        (tree l.now) (tree u.now) (image s))) }
    ensures numbered { IfOk result (λ o. IfSome o (λ s. AreNumbered
        (IsInImage (occurs_either_or (tree l.now) (tree u.now) others.now) (image s)))) }
    ensures others { IfOk result (λ o. IfSome o (λ s. (v : _) →
        occurs_either_or (tree l.now) (tree u.now) others.now v ≡ false → image s v ≡ var v)) }
    ensures known { IfOk result (λ o. IfSome o (λ s.
        (n : ℕ) → is_known n (tree l.now) ≡ true → is_known n (tree u.now) ≡ true → KnownImages n (image s))) }
    ensures none { IfOk result (λ o. IfNone o (NoUnifier signature.now (tree l.now) (tree u.now))) }
{
    integers_without_foreground_are_background();
    let list = variables_of_both(alloc, l, u, others)?;
    match most_general(alloc, signature, l, u)? {
        Some(found) => within(alloc, signature, found.as_slice(), list.as_slice()),
        None => Ok(None),
    }
}
