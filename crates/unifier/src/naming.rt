//! The new names of an answer's variables.

ghost use Rattle.std.specs.Prelude.{◌≡◌, map, if◌then◌else◌, IfOk, OnOk};
ghost use Rattle.term_base.specs.Trees.{tree};
ghost use Rattle.unifier.specs.Naming as spec;

use crate::variables::{gather, has, is_same};
use sqlite_items::{Boxed, Items};
use std::alloc::{AllocError, Global};
use term_base::{Kind, Term, Variable};

/// The variables of an answer: all of them, whose places are their new numbers, and those that
/// have to become abstraction variables.
#[derive(Debug, Drop)]
pub struct Names {
    pub forced: Vec<Variable>,
    pub known: Vec<Variable>,
}

/// The place of a variable in a list, or the list's length. Past 2^32 - 1 memory counts as spent.
fn place_in(list: &[Variable], v: Variable) -> Result<u32, AllocError>
    ensures { IfOk result (λ n. n ≡ spec.place_in list.now v) }
{
    let mut place: u32 = 0;
    for w in list {
        if is_same(*w, v) {
            return Ok(place);
        }
        place = match place.checked_add(1) {
            Some(next) => next,
            None => return Err(AllocError),
        };
    }
    Ok(place)
}

#[tactic(auto, using(crate::proofs::NameLemmas::naming))]
fn named(is_forced: bool, z: Variable, id: u32) -> Variable
    ensures { result ≡ (if is_forced then spec.abstraction id else spec.with_id id z) }
{
    if is_forced {
        return Variable::abstraction(id);
    }
    z.with_id(id)
}

fn new_name(forced: &[Variable], known: &[Variable], z: Variable) -> Result<Variable, AllocError>
    ensures { IfOk result (λ n. n ≡ spec.new_name forced.now known.now z) }
{
    let id = place_in(known, z)?;
    Ok(named(has(forced, z), z, id))
}

/// The term with new names for its variables.
pub fn rename(
    alloc: Global,
    t: &Term,
    forced: &[Variable],
    known: &[Variable],
) -> Result<Term, AllocError>
    ensures { IfOk result (λ r. tree r ≡ spec.renamed forced.now known.now (tree t.now)) }
{
    match t {
        Term::Var(z) => Ok(Term::Var(new_name(forced, known, *z)?)),
        Term::Num(n) => Ok(Term::Num(*n)),
        Term::True => Ok(Term::True),
        Term::Sum(a, b) => {
            let a = Boxed::new(alloc, rename(alloc, a.get(), forced, known)?)?;
            let b = Boxed::new(alloc, rename(alloc, b.get(), forced, known)?)?;
            Ok(Term::Sum(a, b))
        }
        Term::Scale(k, a) => {
            let a = Boxed::new(alloc, rename(alloc, a.get(), forced, known)?)?;
            Ok(Term::Scale(*k, a))
        }
        Term::App(f, args) => {
            let mut all = Items::new(alloc);
            for arg in args.as_slice() {
                all.push(rename(alloc, arg, forced, known)?)?;
            }
            Ok(Term::App(*f, all))
        }
    }
}

/// Puts the variables of a term beside an abstraction variable into a list.
fn gather_forced(pair: &(Variable, Term), list: &mut Vec<Variable>) -> Result<(), AllocError>
    ensures { OnOk result (list.new.items ≡ spec.forced_with (spec.seen pair.now) list.old.items) }
{
    if pair.0.kind != Kind::Abstraction {
        return Ok(());
    }
    gather(&pair.1, list)
}

/// Puts the variables of all terms beside abstraction variables into a list.
fn gather_all_forced(pairs: &[(Variable, Term)], list: &mut Vec<Variable>) -> Result<(), AllocError>
    ensures { OnOk result (list.new.items
        ≡ spec.forced_in (map spec.seen pairs.now) list.old.items) }
{
    for pair in pairs {
        gather_forced(pair, list)?;
    }
    Ok(())
}

/// Puts the variables of all terms into a list.
fn gather_all_known(pairs: &[(Variable, Term)], list: &mut Vec<Variable>) -> Result<(), AllocError>
    ensures { OnOk result (list.new.items
        ≡ spec.known_in (map spec.seen pairs.now) list.old.items) }
{
    for pair in pairs {
        gather(&pair.1, list)?;
    }
    Ok(())
}

/// The variables in the images of two premises.
pub fn names_of(
    alloc: Global,
    left: &[(Variable, Term)],
    right: &[(Variable, Term)],
) -> Result<Names, AllocError>
    ensures forced { IfOk result (λ n. n.forced.items
        ≡ spec.forced_of (map spec.seen left.now) (map spec.seen right.now)) }
    ensures known { IfOk result (λ n. n.known.items
        ≡ spec.known_of (map spec.seen left.now) (map spec.seen right.now)) }
{
    let mut forced = Vec::new(alloc);
    gather_all_forced(left, &mut forced)?;
    gather_all_forced(right, &mut forced)?;
    let mut known = Vec::new(alloc);
    gather_all_known(left, &mut known)?;
    gather_all_known(right, &mut known)?;
    Ok(Names { forced, known })
}
