//! The candidates of two clauses and of one.

ghost use Rattle.std.specs.Prelude.{◌≡◌, ◌++◌, map, IfOk, OnOk};
ghost use Rattle.std.specs.List.{flat_map};
ghost use Rattle.term_base.specs.Lits.{lit, lits};
ghost use Rattle.hier_rules.specs.Candidates as spec;

use crate::inferences::Candidate;
use crate::literals::number_of;
use crate::places::counted_places;
use query_board::Stamp;
use sqlite_items::Items;
use std::alloc::{AllocError, Global};
use term_base::{Clause, Literal, Place, Side, Symbol, is_background};

/// Puts both sides of an equation behind others.
fn push_sides(l: &Literal, place: usize, all: &mut Vec<(u32, Side)>) -> Result<(), AllocError>
    ensures { OnOk result (all.new.items ≡ all.old.items ++ spec.both_sides (lit l.now).relation place) }
{
    match l {
        Literal::Equal(_, _) => {
            let number = number_of(place)?;
            all.push((number, Side::Left))?;
            all.push((number, Side::Right))?;
        }
        Literal::Differ(_, _) => {}
        Literal::AtMost(_, _) => {}
    }
    Ok(())
}

/// The sides of the equations of a clause: by literal, the left side first.
fn equation_sides(alloc: Global, c: &Clause) -> Result<Vec<(u32, Side)>, AllocError>
    ensures { IfOk result (λ all. all.items ≡ spec.equation_sides 0 (lits c.now)) }
{
    let mut all = Vec::new(alloc);
    for (i, l) in c.literals.as_slice().iter().enumerate() {
        push_sides(l, i, &mut all)?;
    }
    Ok(all)
}

/// Puts the superpositions from the named side of an equation behind others.
fn push_superpositions(
    alloc: Global,
    from: (u32, Side),
    cs: Stamp,
    places: &[Place],
    ds: Stamp,
    all: &mut Items<Candidate>,
) -> Result<(), AllocError>
    ensures { OnOk result (all.new ≡ all.old ++ spec.superpositions_from cs ds places.now from) }
{
    for place in places {
        all.push(Candidate::Superpose {
            from: cs,
            literal: from.0,
            side: from.1,
            into: ds,
            place: place.copy(alloc)?,
        })?;
    }
    Ok(())
}

/// Puts the superpositions from these sides of equations behind others.
fn push_all_superpositions(
    alloc: Global,
    sides: &[(u32, Side)],
    cs: Stamp,
    places: &[Place],
    ds: Stamp,
    all: &mut Items<Candidate>,
) -> Result<(), AllocError>
    ensures { OnOk result (all.new ≡ all.old ++ flat_map (spec.superpositions_from cs ds places.now) sides.now) }
{
    for from in sides {
        push_superpositions(alloc, *from, cs, places, ds, all)?;
    }
    Ok(())
}

/// All superpositions from the clause `c` into the clause `d`: from each side of each equation of `c` into each
/// place of `d` whose term is neither a variable nor Pure, in the order of the equation, its side (the left one
/// first), the literal of the place, its side, and the place in preorder. None where one of the clauses is a
/// background clause. The stamps stand for the clauses in the candidates. Where a literal, or a child of a term, has
/// a number past 2^32 - 1, memory counts as spent.
pub fn candidates(
    alloc: Global,
    signature: &[Symbol],
    c: &Clause,
    cs: Stamp,
    d: &Clause,
    ds: Stamp,
) -> Result<Items<Candidate>, AllocError>
    ensures { IfOk result (λ all. all ≡ spec.superpositions signature.now (lits c.now) cs (lits d.now) ds) }
{
    let mut all = Items::new(alloc);
    if is_background(signature, c) || is_background(signature, d) {
        return Ok(all);
    }
    let into = counted_places(alloc, signature, d)?;
    let sides = equation_sides(alloc, c)?;
    push_all_superpositions(alloc, sides.as_slice(), cs, into.as_slice(), ds, &mut all)?;
    Ok(all)
}

/// Puts the resolution of a literal behind others, where it is a disequation.
fn push_resolution(
    l: &Literal,
    place: usize,
    cs: Stamp,
    all: &mut Items<Candidate>,
) -> Result<(), AllocError>
    ensures { OnOk result (all.new ≡ all.old ++ spec.resolution_of cs (lit l.now).relation place) }
{
    match l {
        Literal::Equal(_, _) => Ok(()),
        Literal::Differ(_, _) => all.push(Candidate::Resolve {
            of: cs,
            literal: number_of(place)?,
        }),
        Literal::AtMost(_, _) => Ok(()),
    }
}

/// Puts the factorings whose first equation and side is given behind others.
fn push_factorings(
    first: (u32, Side),
    sides: &[(u32, Side)],
    cs: Stamp,
    all: &mut Items<Candidate>,
) -> Result<(), AllocError>
    ensures { OnOk result (all.new ≡ all.old ++ spec.factorings_from cs sides.now first) }
{
    for second in sides {
        if second.0 != first.0 {
            all.push(Candidate::Factor {
                of: cs,
                first: first.0,
                first_side: first.1,
                second: second.0,
                second_side: second.1,
            })?;
        }
    }
    Ok(())
}

/// All resolutions of a clause, one for each disequation, in the order of the literals.
fn resolutions(alloc: Global, c: &Clause, cs: Stamp) -> Result<Items<Candidate>, AllocError>
    ensures { IfOk result (λ all. all ≡ spec.resolutions 0 (lits c.now) cs) }
{
    let mut all = Items::new(alloc);
    for (i, l) in c.literals.as_slice().iter().enumerate() {
        push_resolution(l, i, cs, &mut all)?;
    }
    Ok(all)
}

/// All inferences of a clause with itself alone: the resolutions of its disequations, in their order, and then the
/// factorings of two different equations, each with a side, in the order of the first equation, its side, the second
/// equation, and its side. None where the clause is a background clause. The stamp stands for the clause in the
/// candidates. Where a literal has a number past 2^32 - 1, memory counts as spent.
pub fn own_candidates(
    alloc: Global,
    signature: &[Symbol],
    c: &Clause,
    cs: Stamp,
) -> Result<Items<Candidate>, AllocError>
    ensures { IfOk result (λ all. all ≡ spec.own_candidates signature.now (lits c.now) cs) }
{
    if is_background(signature, c) {
        return Ok(Items::new(alloc));
    }
    let mut all = resolutions(alloc, c, cs)?;
    let sides = equation_sides(alloc, c)?;
    for first in sides.as_slice() {
        push_factorings(*first, sides.as_slice(), cs, &mut all)?;
    }
    Ok(all)
}
