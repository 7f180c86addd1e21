//! The precedence of heads.

ghost use Rattle.std.specs.Prelude.{◌≡◌};
ghost use Rattle.term_base.specs.Trees.{tree, symbol};
ghost use Rattle.term_order.specs.Above as spec;
ghost use Rattle.term_order.specs.Parts as part;

use term_base::{Symbol, Term, is_foreground};

/// The rank of a term's head: True, numbers, parameters, sums, products, foreground symbols. (A variable has no
/// head.)
fn rank(signature: &[Symbol], t: &Term) -> u8
    ensures { result ≡ part.tree_rank signature.now (tree t.now) }
{
    match t {
        Term::Var(_) | Term::True => 0,
        Term::Num(_) => 1,
        Term::App(f, _) => if is_foreground(signature, *f) { 5 } else { 2 },
        Term::Sum(_, _) => 3,
        Term::Scale(_, _) => 4,
    }
}

/// Whether a number is below another: by absolute value, the negative one above its positive.
pub fn is_number_below(m: &i128, n: &i128) -> bool
    ensures { result ≡ spec.number_below m.now n.now }
{
    m.unsigned_abs() < n.unsigned_abs()
        || (m.unsigned_abs() == n.unsigned_abs() && *m >= 0 && *n < 0)
}

/// Whether a symbol is below another: foreground symbols above parameters, else by number.
fn is_symbol_below(signature: &[Symbol], f: u32, g: u32) -> bool
    ensures { result ≡ spec.head_below signature.now (symbol f) (symbol g) }
{
    let low = is_foreground(signature, f);
    let high = is_foreground(signature, g);
    if low == high { f < g } else { high }
}

/// Whether neither term is a variable and the head of the first is smaller.
pub fn has_smaller_head(signature: &[Symbol], s: &Term, t: &Term) -> bool
    ensures { result ≡ part.has_smaller_head signature.now (tree s.now) (tree t.now) }
{
    match (s, t) {
        (Term::Var(_), _) | (_, Term::Var(_)) => false,
        (Term::Num(m), Term::Num(n)) => is_number_below(m, n),
        (Term::App(f, _), Term::App(g, _)) => is_symbol_below(signature, *f, *g),
        _ => rank(signature, s) < rank(signature, t),
    }
}
