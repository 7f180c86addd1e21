//! Literals and terms under substitutions.

ghost use Rattle.std.specs.Prelude.{◌≡◌, ◌++◌, map, IfOk, OnOk};
ghost use Rattle.term_base.specs.Trees.{tree, same_tree};
ghost use Rattle.term_base.specs.Lits.{lit, lits, put_lit, put_clause};
ghost use Rattle.term_base.specs.Places.{left_out};
ghost use Rattle.term_base.specs.Substitution.{image, put_in};

use sqlite_items::Items;
use std::alloc::{AllocError, Global};
use term_base::{Clause, Literal, Subst, Symbol, Term, apply, apply_literal};

/// Adds literals under a substitution.
pub(crate) fn add_under(
    alloc: Global,
    signature: &[Symbol],
    literals: &[Literal],
    s: &Subst,
    all: &mut Items<Literal>,
) -> Result<(), AllocError>
    ensures { OnOk result (map lit all.new
        ≡ map lit all.old ++ map (put_lit (image s.now)) (map lit literals.now)) }
{
    for literal in literals {
        all.push(apply_literal(alloc, signature, literal, s)?)?;
    }
    Ok(())
}

#[tactic(auto, using(crate::proofs::Clauses::clauses))]
/// The literals of a clause but one, under a substitution.
pub(crate) fn rest_under(
    alloc: Global,
    signature: &[Symbol],
    c: &Clause,
    literal: u32,
    s: &Subst,
) -> Result<Items<Literal>, AllocError>
    ensures { IfOk result (λ all. map lit all
        ≡ put_clause (image s.now) (left_out literal (lits c.now))) }
{
    let literals = c.literals.as_slice();
    let number = literal as usize;
    let mut all = Items::new(alloc);
    if number < literals.len() {
        add_under(alloc, signature, &literals[..number], s, &mut all)?;
        add_under(alloc, signature, &literals[number + 1..], s, &mut all)?;
    } else {
        add_under(alloc, signature, literals, s, &mut all)?;
    }
    Ok(all)
}

/// Whether two terms are one, each under a substitution.
pub(crate) fn same_under(
    alloc: Global,
    signature: &[Symbol],
    t: &Term,
    s1: &Subst,
    u: &Term,
    s2: &Subst,
) -> Result<bool, AllocError>
    ensures { IfOk result (λ yes. yes
        ≡ same_tree (put_in (image s1.now) (tree t.now)) (put_in (image s2.now) (tree u.now))) }
{
    let left = apply(alloc, signature, t, s1)?;
    Ok(left == apply(alloc, signature, u, s2)?)
}
