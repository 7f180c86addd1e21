//! The variables of a clause.

ghost use Rattle.std.specs.Prelude.{◌≡◌, ◌≤◌, length, insert, IfOk, IfSome, MatchOption, OnOk};
ghost use Rattle.lin_base.specs.Unknowns.{put_in, put_terms_in, unknowns_of};
ghost use Rattle.lin_base.specs.Fact.{sum_of};
ghost use Rattle.cert_tree.specs.Ground as spec;

use lin_base::Fact;
use sqlite_items::Items;
use std::alloc::{AllocError, Global};

/// Where `x` belongs among ascending numbers, None where it is among them.
fn place(xs: &[u32], x: u32) -> Option<usize>
    ensures within { IfSome result (λ at. at ≤ length xs.now) }
    ensures value { MatchOption result (put_in x xs.now ≡ xs.now) (λ at. put_in x xs.now ≡ insert xs.now at x) }
{
    for (i, y) in xs.iter().enumerate() {
        if x < *y {
            return Some(i);
        }
        if x == *y {
            return None;
        }
    }
    Some(xs.len())
}

/// Puts `x` among ascending numbers, once.
fn put(xs: &mut Vec<u32>, x: u32) -> Result<(), AllocError>
    ensures { OnOk result (xs.new.items ≡ put_in x xs.old.items) }
{
    match place(xs.as_slice(), x) {
        Some(at) => {
            xs.insert(at, x)?;
            Ok(())
        }
        None => Ok(()),
    }
}

/// Puts the unknowns of terms among ascending numbers, each once.
fn put_terms(xs: &mut Vec<u32>, terms: &[(u32, i128)]) -> Result<(), AllocError>
    ensures { OnOk result (xs.new.items ≡ put_terms_in terms.now xs.old.items) }
{
    for done in 0..terms.len() {
        let term = terms[terms.len() - 1 - done];
        put(xs, term.0)?;
    }
    Ok(())
}

/// The unknowns of a clause, ascending.
pub fn unknowns(alloc: Global, clause: &[Fact]) -> Result<Items<u32>, AllocError>
    ensures { IfOk result (λ xs. xs ≡ spec.unknowns clause.now) }
{
    let mut made = Vec::new(alloc);
    for done in 0..clause.len() {
        let fact = &clause[clause.len() - 1 - done];
        put_terms(&mut made, fact.sum().coefs.as_slice())?;
    }
    Ok(Items::from_vec(made))
}

/// The variables of a clause, ascending.
pub fn variables(alloc: Global, params: u32, clause: &[Fact]) -> Result<Items<u32>, AllocError>
    ensures { IfOk result (λ xs. xs ≡ spec.variables params clause.now) }
{
    let all = unknowns(alloc, clause)?;
    let mut kept = Items::new(alloc);
    for x in all.as_slice() {
        if params <= *x {
            kept.push(*x)?;
        }
    }
    Ok(kept)
}
