//! What stands for the variables of a premise, as pairs and as a substitution.

ghost use Rattle.std.specs.Prelude.{◌≡◌, ◌&&◌, ◌++◌, ◌∷◌, [], map, if◌then◌else◌, IfOk, OnOk};
ghost use Rattle.term_base.specs.Purity.{foreground, is_abstraction};
ghost use Rattle.term_base.specs.SameTerm.{same_term};
ghost use Rattle.term_base.specs.Substitution.{image};
ghost use Rattle.term_base.specs.Trees.{tree};
ghost use Rattle.unifier.specs.Naming as spec;
ghost use Rattle.unifier.specs.Variables.{Ascends};

use crate::naming::{Names, rename};
use crate::raising::raised;
use crate::variables::is_same;
use sqlite_items::Items;
use std::alloc::{AllocError, Global};
use term_base::{Kind, Subst, Symbol, Term, Variable, has_foreground};

/// The term that stands for a variable, itself where it has no pair.
fn image_of(alloc: Global, found: &[(Variable, Term)], v: Variable) -> Result<Term, AllocError>
    ensures { IfOk result (λ t. tree t ≡ image found.now v) }
{
    for pair in found {
        if is_same(pair.0, v) {
            return pair.1.copy(alloc);
        }
    }
    Ok(Term::Var(v))
}

/// The term that stands for a variable once its number is raised.
fn raised_image(
    alloc: Global,
    found: &[(Variable, Term)],
    base: u32,
    v: Variable,
) -> Result<Term, AllocError>
    ensures { IfOk result (λ t. tree t ≡ image found.now (spec.raised base v)) }
{
    let v = raised(v, base)?;
    image_of(alloc, found, v)
}

/// Each variable of a list, beside the term that stands for it once its number is raised.
pub fn images(
    alloc: Global,
    found: &[(Variable, Term)],
    base: u32,
    list: &[Variable],
) -> Result<Items<(Variable, Term)>, AllocError>
    ensures { IfOk result (λ r. map spec.seen r ≡ spec.images_of found.now base list.now) }
{
    let mut all = Items::new(alloc);
    for v in list {
        all.push((*v, raised_image(alloc, found, base, *v)?))?;
    }
    Ok(all)
}

fn has_foreground_image(signature: &[Symbol], pair: &(Variable, Term)) -> bool
    ensures { result ≡ (is_abstraction pair.now.0 && foreground signature.now (tree pair.now.1)) }
{
    pair.0.kind == Kind::Abstraction && has_foreground(signature, &pair.1)
}

fn is_plain(signature: &[Symbol], pairs: &[(Variable, Term)]) -> bool
    ensures { result ≡ spec.is_plain signature.now (map spec.seen pairs.now) }
{
    for pair in pairs {
        if has_foreground_image(signature, pair) {
            return false;
        }
    }
    true
}

/// Whether no abstraction variable of two premises stands beside a term with a foreground symbol.
pub fn are_plain(
    signature: &[Symbol],
    left: &[(Variable, Term)],
    right: &[(Variable, Term)],
) -> bool
    ensures { result
        ≡ spec.are_plain signature.now (map spec.seen left.now) (map spec.seen right.now) }
{
    is_plain(signature, left) && is_plain(signature, right)
}

fn rename_images(
    alloc: Global,
    pairs: &[(Variable, Term)],
    forced: &[Variable],
    known: &[Variable],
) -> Result<Items<(Variable, Term)>, AllocError>
    ensures { IfOk result (λ r.
        map spec.seen r ≡ map (spec.seen_renamed forced.now known.now) pairs.now) }
{
    let mut all = Items::new(alloc);
    for pair in pairs {
        all.push((pair.0, rename(alloc, &pair.1, forced, known)?))?;
    }
    Ok(all)
}

fn is_itself(t: &Term, v: Variable) -> bool
    ensures { result ≡ same_term t.now (Term.Var v) }
{
    *t == Term::Var(v)
}

/// Puts a pair behind others, if its term is not its variable.
fn push_moving(
    alloc: Global,
    all: &mut Items<(Variable, Term)>,
    pair: &(Variable, Term),
) -> Result<(), AllocError>
    ensures { OnOk result (all.new ≡ (if same_term pair.now.1 (Term.Var pair.now.0)
        then all.old else all.old ++ pair.now ∷ [])) }
{
    if is_itself(&pair.1, pair.0) {
        return Ok(());
    }
    all.push((pair.0, pair.1.copy(alloc)?))
}

fn moving(alloc: Global, pairs: &[(Variable, Term)]) -> Result<Items<(Variable, Term)>, AllocError>
    ensures { IfOk result (λ r. r ≡ spec.moving pairs.now) }
{
    let mut all = Items::new(alloc);
    for pair in pairs {
        push_moving(alloc, &mut all, pair)?;
    }
    Ok(all)
}

/// The substitution of pairs whose variables ascend.
pub fn substitution_of(alloc: Global, pairs: &[(Variable, Term)]) -> Result<Subst, AllocError>
    requires { Ascends (spec.variables pairs.now) }
    ensures { IfOk result (λ s. (v : _) → image s v ≡ image pairs.now v) }
{
    let all = moving(alloc, pairs)?;
    Ok(Subst::from_pairs(all))
}

/// The substitution of pairs whose variables ascend, with new names in the terms.
pub fn renamed_substitution(
    alloc: Global,
    pairs: &[(Variable, Term)],
    names: &Names,
) -> Result<Subst, AllocError>
    requires { Ascends (spec.variables pairs.now) }
    ensures { IfOk result (λ s. (v : _) →
        image s v ≡ spec.pick
        (map (spec.seen_renamed names.now.forced.items names.now.known.items) pairs.now) v) }
{
    let renamed = rename_images(
        alloc,
        pairs,
        names.forced.as_slice(),
        names.known.as_slice(),
    )?;
    substitution_of(alloc, renamed.as_slice())
}
