//! Whether literals are one.

ghost use Rattle.std.specs.Prelude.{◌≡◌, map};
ghost use Rattle.term_base.specs.Lits.{lit, lits};
ghost use Rattle.step_rules.specs.Literals as spec;

use term_base::{Clause, Literal};

/// Whether two literals are one, side by side.
pub(crate) fn same_literal(l: &Literal, m: &Literal) -> bool
    ensures { result ≡ spec.same_lit (lit l.now) (lit m.now) }
{
    match (l, m) {
        (Literal::Equal(a, b), Literal::Equal(c, d)) => a == c && b == d,
        (Literal::Differ(a, b), Literal::Differ(c, d)) => a == c && b == d,
        (Literal::AtMost(a, b), Literal::AtMost(c, d)) => a == c && b == d,
        _ => false,
    }
}

/// Whether two lists of literals are one.
pub fn same_literals(ls: &[Literal], ms: &[Literal]) -> bool
    ensures { result ≡ spec.same_lits (map lit ls.now) (map lit ms.now) }
{
    let mut rest = ms;
    for l in ls {
        match rest {
            [] => return false,
            [m, others @ ..] => {
                if !same_literal(l, m) {
                    return false;
                }
                rest = others;
            }
        }
    }
    rest.is_empty()
}
