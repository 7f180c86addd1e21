//! Background literals as facts.

ghost use Rattle.std.specs.Prelude.{◌≡◌, false, pos, [], ◌∷◌, IfOk, IsTrue};
ghost use Rattle.lin_base.specs.Fact.{is_lin};
ghost use Rattle.lin_base.specs.Sum.{has_unknown, add_number as spec_add_number, above as spec_above};
ghost use Rattle.lin_base.specs.Steps.{Forms, WantsNoMemory};
ghost use Rattle.bg_view.specs.Numbers.{IsNumbering, numbering_of};
ghost use Rattle.bg_view.specs.Linear.{difference};
ghost use Rattle.bg_view.specs.View as spec;

use crate::linear::difference;
use crate::unknowns::Unknowns;
use lin_base::{ArithmeticError, Fact, Lin, above, add_number, number};
use sqlite_items::Items;
use std::alloc::{AllocError, Global};
use term_base::{Literal, Term};

fn one_fact(alloc: Global, fact: Fact) -> Result<Items<Fact>, AllocError>
    ensures { IfOk result (λ fs. fs ≡ fact ∷ []) }
{
    let mut facts = Items::new(alloc);
    facts.push(fact)?;
    Ok(facts)
}

fn two_facts(alloc: Global, fact: Fact, other: Fact) -> Result<Items<Fact>, AllocError>
    ensures { IfOk result (λ fs. fs ≡ fact ∷ other ∷ []) }
{
    let mut facts = one_fact(alloc, fact)?;
    facts.push(other)?;
    Ok(facts)
}

/// `t + 1` and `-t + 1`. It takes memory only where an unknown occurs.
#[tactic(auto, using(crate::proofs::Forming::forming))]
fn apart(alloc: Global, t: &Lin) -> Result<(Lin, Lin), ArithmeticError>
    requires { IsTrue (is_lin t.now) }
    ensures sums { Forms result (spec.differ_steps t.now)
        (spec_add_number t.now (pos 1), spec_above t.now) }
    ensures memory { has_unknown t.now ≡ false → WantsNoMemory result }
{
    let below = add_number(alloc, t, 1)?;
    let above = above(alloc, t)?;
    Ok((below, above))
}

/// `t + 1 <= 0` and `-t + 1 <= 0`
#[tactic(auto, using(crate::proofs::Forming::forming))]
fn differ_facts(alloc: Global, t: &Lin) -> Result<Items<Fact>, ArithmeticError>
    requires { IsTrue (is_lin t.now) }
    ensures { Forms result (spec.differ_steps t.now) (spec.differ_facts t.now) }
{
    let (below, above) = apart(alloc, t)?;
    Ok(two_facts(alloc, Fact::AtMostZero(below), Fact::AtMostZero(above))?)
}

fn is_truth(t: &Term) -> bool
    ensures { result ≡ spec.is_truth t.now }
{
    match t {
        Term::True => true,
        Term::Var(_) | Term::Num(_) | Term::Sum(_, _) | Term::Scale(_, _) | Term::App(_, _) =>
            false,
    }
}

/// `s <= t`
#[tactic(auto, using(crate::proofs::Forming::forming))]
fn inequality(
    alloc: Global,
    unknowns: &Unknowns,
    s: &Term,
    t: &Term,
) -> Result<Items<Fact>, ArithmeticError>
    requires { IsNumbering unknowns.now }
    ensures { spec.Gives result (spec.inequality (numbering_of unknowns.now) s.now t.now) }
{
    let sum = difference(alloc, unknowns, s, t)?;
    Ok(one_fact(alloc, Fact::AtMostZero(sum))?)
}

/// `s > t`
#[tactic(auto, using(crate::proofs::Forming::forming))]
fn strict_inequality(
    alloc: Global,
    unknowns: &Unknowns,
    s: &Term,
    t: &Term,
) -> Result<Items<Fact>, ArithmeticError>
    requires { IsNumbering unknowns.now }
    ensures { spec.Gives result (spec.strict_inequality (numbering_of unknowns.now) s.now t.now) }
{
    let sum = above(alloc, &difference(alloc, unknowns, s, t)?)?;
    Ok(one_fact(alloc, Fact::AtMostZero(sum))?)
}

#[tactic(auto, using(crate::proofs::Forming::forming))]
fn integer_equation(
    alloc: Global,
    unknowns: &Unknowns,
    s: &Term,
    t: &Term,
) -> Result<Items<Fact>, ArithmeticError>
    requires { IsNumbering unknowns.now }
    ensures { spec.Gives result (spec.equal (difference (numbering_of unknowns.now) s.now t.now)) }
{
    let sum = difference(alloc, unknowns, s, t)?;
    Ok(one_fact(alloc, Fact::Zero(sum))?)
}

#[tactic(auto, using(crate::proofs::Forming::forming))]
fn integer_disequation(
    alloc: Global,
    unknowns: &Unknowns,
    s: &Term,
    t: &Term,
) -> Result<Items<Fact>, ArithmeticError>
    requires { IsNumbering unknowns.now }
    ensures { spec.Gives result (spec.differ (difference (numbering_of unknowns.now) s.now t.now)) }
{
    let sum = difference(alloc, unknowns, s, t)?;
    differ_facts(alloc, &sum)
}

/// `s = t`
fn equation(
    alloc: Global,
    unknowns: &Unknowns,
    s: &Term,
    t: &Term,
) -> Result<Items<Fact>, ArithmeticError>
    requires { IsNumbering unknowns.now }
    ensures { spec.Gives result (spec.equation (numbering_of unknowns.now) s.now t.now) }
{
    if is_truth(s) && is_truth(t) {
        Ok(one_fact(alloc, Fact::Zero(number(alloc, 0)))?)
    } else {
        integer_equation(alloc, unknowns, s, t)
    }
}

/// `s != t`
fn disequation(
    alloc: Global,
    unknowns: &Unknowns,
    s: &Term,
    t: &Term,
) -> Result<Items<Fact>, ArithmeticError>
    requires { IsNumbering unknowns.now }
    ensures { spec.Gives result (spec.disequation (numbering_of unknowns.now) s.now t.now) }
{
    if is_truth(s) && is_truth(t) {
        Ok(one_fact(alloc, Fact::AtMostZero(number(alloc, 1)))?)
    } else {
        integer_disequation(alloc, unknowns, s, t)
    }
}

/// The facts of which one is true where the literal is.
pub(crate) fn literal_view(
    alloc: Global,
    unknowns: &Unknowns,
    l: &Literal,
) -> Result<Items<Fact>, ArithmeticError>
    requires { IsNumbering unknowns.now }
    ensures { spec.Gives result (spec.literal_view (numbering_of unknowns.now) l.now) }
{
    match l {
        Literal::AtMost(s, t) => inequality(alloc, unknowns, s, t),
        Literal::Equal(s, t) => equation(alloc, unknowns, s, t),
        Literal::Differ(s, t) => disequation(alloc, unknowns, s, t),
    }
}

/// The facts of which one is true where the literal is false.
pub(crate) fn negated_view(
    alloc: Global,
    unknowns: &Unknowns,
    l: &Literal,
) -> Result<Items<Fact>, ArithmeticError>
    requires { IsNumbering unknowns.now }
    ensures { spec.Gives result (spec.negated_view (numbering_of unknowns.now) l.now) }
{
    match l {
        Literal::AtMost(s, t) => strict_inequality(alloc, unknowns, s, t),
        Literal::Equal(s, t) => disequation(alloc, unknowns, s, t),
        Literal::Differ(s, t) => equation(alloc, unknowns, s, t),
    }
}
