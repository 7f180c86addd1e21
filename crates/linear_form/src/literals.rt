//! Whether literals are one.

ghost use Rattle.std.specs.Prelude.{◌≡◌};
ghost use Rattle.term_base.specs.Lits.{lit};
ghost use Rattle.linear_form.specs.Literals as spec;

use term_base::Literal;

/// Whether two literals are one, side by side.
pub(crate) fn same_literal(l: &Literal, m: &Literal) -> bool
    ensures { result ≡ spec.same_lit (lit l.now) (lit m.now) }
{
    match (l, m) {
        (Literal::Equal(a, b), Literal::Equal(c, d)) => a == c && b == d,
        (Literal::Differ(a, b), Literal::Differ(c, d)) => a == c && b == d,
        (Literal::AtMost(a, b), Literal::AtMost(c, d)) => a == c && b == d,
        _ => false,
    }
}
