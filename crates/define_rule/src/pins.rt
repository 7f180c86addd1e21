//! The terms to which a clause pins its variables.

ghost use Rattle.std.specs.Prelude.{◌≡◌, map, option_map};
ghost use Rattle.std.specs.Option.{option_copied};
ghost use Rattle.term_base.specs.Trees.{tree};
ghost use Rattle.term_base.specs.Lits.{lit};
ghost use Rattle.define_rule.specs.Pins as spec;

use term_base::{Literal, Purity, Symbol, Term, Variable, purity};

/// Whether a term has no variable.
pub(crate) fn is_ground(t: &Term) -> bool
    ensures { result ≡ spec.is_ground (tree t.now) }
{
    match t {
        Term::Var(_) => false,
        Term::Num(_) | Term::True => true,
        Term::Sum(a, b) => is_ground(a.get()) && is_ground(b.get()),
        Term::Scale(_, a) => is_ground(a.get()),
        Term::App(_, args) => {
            for arg in args.as_slice() {
                if !is_ground(arg) {
                    return false;
                }
            }
            true
        }
    }
}

fn is_pin(signature: &[Symbol], g: &Term) -> bool
    ensures { result ≡ spec.is_pin signature.now (tree g.now) }
{
    is_ground(g) && purity(signature, g) == Purity::Pure
}

/// `g`, where `s` is the variable, and `g` is Pure and without variables.
fn pinned_by<'a>(signature: &[Symbol], v: Variable, s: &Term, g: &'a Term) -> Option<&'a Term>
    ensures { option_map tree (option_copied result)
        ≡ spec.pinned_by signature.now v (tree s.now) (tree g.now) }
{
    match s {
        Term::Var(x) => if *x == v && is_pin(signature, g) {
            Some(g)
        } else {
            None
        },
        _ => None,
    }
}

/// The term to which a literal pins a variable.
fn pin_in<'a>(signature: &[Symbol], v: Variable, l: &'a Literal) -> Option<&'a Term>
    ensures { option_map tree (option_copied result)
        ≡ spec.pin_in signature.now v (lit l.now).relation (lit l.now).left (lit l.now).right }
{
    match l {
        Literal::Equal(_, _) => None,
        Literal::Differ(s, t) => pinned_by(signature, v, s, t),
        Literal::AtMost(_, _) => None,
    }
}

/// The term to which the literals pin a variable: the first literal that does counts.
pub(crate) fn pinned<'a>(
    signature: &[Symbol],
    literals: &'a [Literal],
    v: Variable,
) -> Option<&'a Term>
    ensures { option_map tree (option_copied result)
        ≡ spec.pinned signature.now (map lit literals.now) v }
{
    for l in literals {
        if let Some(g) = pin_in(signature, v, l) {
            return Some(g);
        }
    }
    None
}
