//! Lists of variables, in ascending order.

ghost use Rattle.std.specs.Prelude.{◌≡◌, ◌≤◌, ◌+◌, [], max, length, IfOk, OnOk};
ghost use Rattle.std.specs.Ordering.{is_lt};
ghost use Rattle.term_base.specs.Same.{same_variable};
ghost use Rattle.term_base.specs.Trees.{tree};
ghost use Rattle.term_base.specs.VariableOrder.{variable_cmp};
ghost use Rattle.unifier.specs.Variables as spec;

use std::alloc::{AllocError, Global};
use term_base::{Term, Variable};

/// Whether two variables are one.
pub fn is_same(v: Variable, w: Variable) -> bool
    ensures { result ≡ same_variable v w }
{
    v == w
}

/// Whether a list has a variable.
pub fn has(list: &[Variable], v: Variable) -> bool
    ensures { result ≡ spec.has list.now v }
{
    for w in list {
        if *w == v {
            return true;
        }
    }
    false
}

fn is_below(w: Variable, v: Variable) -> bool
    ensures { result ≡ is_lt (variable_cmp w v) }
{
    w.order(v).is_lt()
}

/// How many variables at the front of a list are below a variable.
fn rank(list: &[Variable], v: Variable) -> usize
    ensures count { result ≡ spec.rank list.now v }
    ensures within { result ≤ length list.now }
{
    for (i, w) in list.iter().enumerate() {
        if !is_below(*w, v) {
            return i;
        }
    }
    list.len()
}

/// Puts a variable behind those below it, where the list has it not.
fn insert(list: &mut Vec<Variable>, v: Variable) -> Result<(), AllocError>
    ensures { OnOk result (list.new.items ≡ spec.inserted v list.old.items) }
{
    if has(list.as_slice(), v) {
        return Ok(());
    }
    let at = rank(list.as_slice(), v);
    list.insert(at, v)?;
    Ok(())
}

/// Puts the variables of a term into a list.
pub fn gather(t: &Term, list: &mut Vec<Variable>) -> Result<(), AllocError>
    ensures { OnOk result (list.new.items ≡ spec.gathered (tree t.now) list.old.items) }
{
    match t {
        Term::Var(v) => insert(list, *v),
        Term::Num(_) | Term::True => Ok(()),
        Term::Sum(a, b) => {
            gather(a.get(), list)?;
            gather(b.get(), list)
        }
        Term::Scale(_, a) => gather(a.get(), list),
        Term::App(_, args) => {
            for arg in args.as_slice() {
                gather(arg, list)?;
            }
            Ok(())
        }
    }
}

fn insert_all(list: &mut Vec<Variable>, others: &[Variable]) -> Result<(), AllocError>
    ensures { OnOk result (list.new.items ≡ spec.all_inserted others.now list.old.items) }
{
    for v in others {
        insert(list, *v)?;
    }
    Ok(())
}

/// The variables of a term and those of a list, in ascending order.
pub fn variables_of(
    alloc: Global,
    t: &Term,
    others: &[Variable],
) -> Result<Vec<Variable>, AllocError>
    ensures { IfOk result (λ r.
        r.items ≡ spec.gathered (tree t.now) (spec.all_inserted others.now [])) }
{
    let mut list = Vec::new(alloc);
    insert_all(&mut list, others)?;
    gather(t, &mut list)?;
    Ok(list)
}

/// The variables of two terms and those of a list, in ascending order.
pub fn variables_of_both(
    alloc: Global,
    l: &Term,
    u: &Term,
    others: &[Variable],
) -> Result<Vec<Variable>, AllocError>
    ensures { IfOk result (λ r. r.items ≡ spec.gathered (tree l.now)
        (spec.gathered (tree u.now) (spec.all_inserted others.now []))) }
{
    let mut list = variables_of(alloc, u, others)?;
    gather(l, &mut list)?;
    Ok(list)
}

/// The list without a variable.
pub fn without(alloc: Global, list: &[Variable], v: Variable) -> Result<Vec<Variable>, AllocError>
    ensures { IfOk result (λ r. r.items ≡ spec.without v list.now) }
{
    let mut rest = Vec::new(alloc);
    for w in list {
        if !is_same(v, *w) {
            rest.push(*w)?;
        }
    }
    Ok(rest)
}

/// The greater of a bound and the number after another one. Past 2^32 - 1 memory counts as spent.
fn above(base: u32, id: u32) -> Result<u32, AllocError>
    ensures { IfOk result (λ n. n ≡ max base (id + 1)) }
{
    match id.checked_add(1) {
        Some(next) => Ok(base.max(next)),
        None => Err(AllocError),
    }
}

/// The least number above those of all variables of a list. Past 2^32 - 1 memory counts as spent.
pub fn past(list: &[Variable]) -> Result<u32, AllocError>
    ensures { IfOk result (λ n. n ≡ spec.past list.now) }
{
    let mut base: u32 = 0;
    for v in list {
        base = above(base, v.id)?;
    }
    Ok(base)
}
