//! Matching: to put terms for the variables of one term so that it becomes another.

ghost use Rattle.std.specs.Prelude.{◌≡◌, ◌++◌, ℕ, true, false, map, IfOk, IfSome, IfNone, OnOk};
ghost use Rattle.term_base.specs.Known.{is_known, KnownImages};
ghost use Rattle.term_base.specs.Substitution.{image, put_in, put_all, Simple};
ghost use Rattle.term_base.specs.Trees.{tree, trees, same_tree, same_trees, occurs, var};
ghost use Rattle.unifier.specs.Naming.{seen};
ghost use Rattle.unifier.specs.Pairing.{beside, all_beside};
ghost use Rattle.unifier.specs.Unifiers.{IsOnlyCandidate, NoMatch};

use crate::images::{images, substitution_of};
use crate::variables::variables_of;
use sqlite_items::Items;
use std::alloc::{AllocError, Global};
use term_base::{Subst, Symbol, Term, Variable, is_simple};

/// Puts the variables of a term behind others, each beside what stands at its place in another
/// term, as far as the two are alike.
#[cycle(pairing)]
fn pair_up(
    alloc: Global,
    p: &Term,
    t: &Term,
    found: &mut Items<(Variable, Term)>,
) -> Result<(), AllocError>
    ensures { OnOk result (map seen found.new
        ≡ map seen found.old ++ beside (tree p.now) (tree t.now)) }
{
    match (p, t) {
        (Term::Var(v), _) => found.push((*v, t.copy(alloc)?)),
        (Term::Sum(a, b), Term::Sum(c, d)) => {
            pair_up(alloc, a.get(), c.get(), found)?;
            pair_up(alloc, b.get(), d.get(), found)
        }
        (Term::Scale(_, a), Term::Scale(_, b)) => pair_up(alloc, a.get(), b.get(), found),
        (Term::App(f, xs), Term::App(g, ys)) => if *f == *g {
            pair_up_all(alloc, xs.as_slice(), ys.as_slice(), found)
        } else {
            Ok(())
        },
        _ => Ok(()),
    }
}

#[cycle(pairing)]
fn pair_up_all(
    alloc: Global,
    xs: &[Term],
    ys: &[Term],
    found: &mut Items<(Variable, Term)>,
) -> Result<(), AllocError>
    ensures { OnOk result (map seen found.new
        ≡ map seen found.old ++ all_beside (trees (map tree xs.now)) (trees (map tree ys.now))) }
{
    let mut rest = ys;
    for x in xs {
        match rest {
            [] => return Ok(()),
            [y, others @ ..] => {
                pair_up(alloc, x, y, found)?;
                rest = others;
            }
        }
    }
    Ok(())
}

/// What stands in the second term at the places of the first one's variables, as a substitution.
fn candidate(alloc: Global, p: &Term, t: &Term) -> Result<Subst, AllocError>
    ensures { IfOk result (λ s. IsOnlyCandidate (tree p.now) (tree t.now) (image s)) }
{
    let mut found = Items::new(alloc);
    pair_up(alloc, p, t, &mut found)?;
    let list = variables_of(alloc, p, &[])?;
    let beside = images(alloc, found.as_slice(), 0, list.as_slice())?;
    let pairs = beside.as_slice();
    substitution_of(alloc, pairs)
}

/// Whether a term is what stands for a variable.
fn is_image(s: &Subst, v: Variable, t: &Term) -> bool
    ensures { result ≡ same_tree (image s.now v) (tree t.now) }
{
    match s.get(v) {
        Some(found) => *found == *t,
        None => Term::Var(v) == *t,
    }
}

/// Whether a substitution makes the first term into the second. Nothing is written out.
#[cycle(becomes)]
fn becomes(s: &Subst, p: &Term, t: &Term) -> bool
    ensures { result ≡ same_tree (put_in (image s.now) (tree p.now)) (tree t.now) }
{
    match p {
        Term::Var(v) => is_image(s, *v, t),
        Term::Num(m) => match t {
            Term::Num(n) => *m == *n,
            _ => false,
        },
        Term::True => match t {
            Term::True => true,
            _ => false,
        },
        Term::Sum(a, b) => match t {
            Term::Sum(c, d) => becomes(s, a.get(), c.get()) && becomes(s, b.get(), d.get()),
            _ => false,
        },
        Term::Scale(j, a) => match t {
            Term::Scale(k, b) => *j == *k && becomes(s, a.get(), b.get()),
            _ => false,
        },
        Term::App(f, xs) => match t {
            Term::App(g, ys) => *f == *g && each_becomes(s, xs.as_slice(), ys.as_slice()),
            _ => false,
        },
    }
}

#[cycle(becomes)]
fn each_becomes(s: &Subst, xs: &[Term], ys: &[Term]) -> bool
    ensures { result ≡ same_trees (put_all (image s.now) (trees (map tree xs.now)))
        (trees (map tree ys.now)) }
{
    let mut rest = ys;
    for x in xs {
        match rest {
            [] => return false,
            [y, others @ ..] => {
                if !becomes(s, x, y) {
                    return false;
                }
                rest = others;
            }
        }
    }
    rest.is_empty()
}

/// A simple substitution that makes the first term into the second, and leaves other variables as
/// they are. Where the symbols of the second term have numbers below a bound, so have those of the
/// images. None exactly where no simple substitution makes the first term into the second.
pub fn matches(
    alloc: Global,
    signature: &[Symbol],
    p: &Term,
    t: &Term,
) -> Result<Option<Subst>, AllocError>
    ensures simple { IfOk result (λ o. IfSome o (λ s. Simple signature.now (image s))) }
    ensures equal { IfOk result (λ o. IfSome o (λ s. put_in (image s) (tree p.now) ≡ tree t.now)) }
    ensures others { IfOk result (λ o. IfSome o (λ s.
        (v : _) → occurs v (tree p.now) ≡ false → image s v ≡ var v)) }
    ensures known { IfOk result (λ o. IfSome o (λ s.
        (n : ℕ) → is_known n (tree t.now) ≡ true → KnownImages n (image s))) }
    ensures none { IfOk result (λ o. IfNone o (NoMatch signature.now (tree p.now) (tree t.now))) }
{
    let s = candidate(alloc, p, t)?;
    if !becomes(&s, p, t) {
        return Ok(None);
    }
    if !is_simple(signature, &s) {
        return Ok(None);
    }
    Ok(Some(s))
}
