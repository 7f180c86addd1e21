//! What the rules ask of the instances of their premises.

ghost use Rattle.std.specs.Prelude.{◌≡◌, ◌≢◌, ◌↔◌, IsTrue, Some};
ghost use Rattle.term_base.specs.Trees.{tree};
ghost use Rattle.term_base.specs.Purity.{IsPure};
ghost use Rattle.term_base.specs.Lits.{at_most, lit, lits};
ghost use Rattle.term_base.specs.Places.{item, other};
ghost use Rattle.hier_rules.specs.Rules as spec;

use term_base::laws::{purity_says_what_is_in, term_is_its_tree};
use term_base::{Clause, Literal, Place, Purity, Side, Symbol, Term, purity, side_of};
use term_order::{Order, compare, is_maximal};

/// The term on the side of a literal that isn't the named one.
pub(crate) fn other_side(l: &Literal, side: Side) -> &Term
    ensures { tree result.now ≡ other side (lit l.now) }
{
    match side {
        Side::Left => side_of(l, Side::Right),
        Side::Right => side_of(l, Side::Left),
    }
}

fn is_pure(signature: &[Symbol], t: &Term) -> bool
    ensures { IsTrue result ↔ IsPure signature.now (tree t.now) }
{
    purity_says_what_is_in();
    match purity(signature, t) {
        Purity::Pure => true,
        Purity::Impure => false,
        Purity::Foreground => false,
    }
}

/// Whether a term is above another one, or equal to it.
fn is_at_least(signature: &[Symbol], t: &Term, s: &Term) -> bool
    ensures { IsTrue result ↔ spec.AtLeast signature.now (tree t.now) (tree s.now) }
{
    term_is_its_tree();
    match compare(signature, t, s) {
        Order::Above => true,
        Order::Equal => true,
        Order::Below => false,
        Order::Open => false,
    }
}

/// Whether the named side of a literal is neither below the other side nor equal to it.
fn is_not_below(signature: &[Symbol], side: Side, l: &Literal) -> bool
    ensures { IsTrue result ↔ spec.IsNotBelow signature.now side (lit l.now) }
{
    !is_at_least(signature, other_side(l, side), side_of(l, side))
}

/// Whether an equation of a clause may replace a term by its other side.
pub(crate) fn replaces_by(
    signature: &[Symbol],
    c: &Clause,
    literal: u32,
    side: Side,
    l: &Literal,
) -> bool
    requires { item literal (lits c.now) ≡ Some (lit l.now) }
    ensures { IsTrue result ↔ spec.ReplacesBy signature.now (lits c.now) literal side (lit l.now) }
{
    if is_pure(signature, side_of(l, side)) {
        return false;
    }
    if !is_not_below(signature, side, l) {
        return false;
    }
    is_maximal(signature, c, literal)
}

fn is_inequality(l: &Literal) -> bool
    ensures { IsTrue result ↔ ((lit l.now).relation ≡ at_most) }
{
    match l {
        Literal::Equal(_, _) => false,
        Literal::Differ(_, _) => false,
        Literal::AtMost(_, _) => true,
    }
}

/// Whether the named side of a literal is neither below the other side nor equal to it, or the literal is an inequality.
fn is_open_on(signature: &[Symbol], side: Side, m: &Literal) -> bool
    ensures { IsTrue result ↔ ((lit m.now).relation ≢ at_most → spec.IsNotBelow signature.now side (lit m.now)) }
{
    if is_inequality(m) {
        return true;
    }
    is_not_below(signature, side, m)
}

/// Whether a term may be replaced at a place of a literal of a clause.
pub(crate) fn is_replaced_in(signature: &[Symbol], d: &Clause, place: &Place, m: &Literal) -> bool
    requires { item place.now.literal (lits d.now) ≡ Some (lit m.now) }
    ensures { IsTrue result ↔ spec.ReplacedIn signature.now (lits d.now) place.now (lit m.now) }
{
    if !is_open_on(signature, place.side, m) {
        return false;
    }
    is_maximal(signature, d, place.literal)
}

/// Whether a disequation of a clause may be resolved.
pub(crate) fn resolves_by(signature: &[Symbol], c: &Clause, literal: u32, l: &Literal) -> bool
    requires { item literal (lits c.now) ≡ Some (lit l.now) }
    ensures { IsTrue result ↔ spec.ResolvesBy signature.now (lits c.now) literal (lit l.now) }
{
    if is_pure(signature, side_of(l, Side::Left)) {
        return false;
    }
    is_maximal(signature, c, literal)
}
