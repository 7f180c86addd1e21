//! How one term stands to another, decided by their heads.
//!
//! The four cases of the order, tried one after the other, take time that is exponential in the depth of the
//! terms. Here a smaller head leaves case 2 alone, a larger one case 3 alone, and equal heads the first place
//! where the arguments differ: so each pair of places of the two terms is looked at once at most. Against a variable
//! a term is gone over twice at most, for a foreground symbol and for the variable. So the time is at most
//! proportional to the product of the sizes of the two terms.

ghost use Rattle.std.specs.Prelude.{◌≡◌, ◌&&◌, true};
ghost use Rattle.term_base.specs.Trees.{tree, node, none, number};
ghost use Rattle.term_base.specs.Purity.{foreground};
ghost use Rattle.term_order.specs.Standing as spec;
ghost use Rattle.term_order.specs.Parts as part;

use crate::heads::{has_smaller_head, is_number_below};
use crate::occurring::occurs;
use crate::standing::Standing;
use term_base::{Kind, Symbol, Term, has_foreground};

fn is_variable(t: &Term) -> bool
    ensures { result ≡ part.is_variable (tree t.now) }
{
    match t {
        Term::Var(_) => true,
        _ => false,
    }
}

/// Whether a term is an abstraction variable.
fn is_abstraction(t: &Term) -> bool
    ensures { result ≡ part.is_abstraction (tree t.now) }
{
    match t {
        Term::Var(v) => v.kind == Kind::Abstraction,
        _ => false,
    }
}

/// Whether the second term is an abstraction variable and the first has a foreground symbol.
fn covers(signature: &[Symbol], s: &Term, t: &Term) -> bool
    ensures { result ≡ (part.is_abstraction (tree t.now) && foreground signature.now (tree s.now)) }
{
    is_abstraction(t) && has_foreground(signature, s)
}

/// Whether the second term is a variable that is in the first.
fn has_variable(s: &Term, t: &Term) -> bool
    ensures { result ≡ part.has_variable (tree s.now) (tree t.now) }
{
    match t {
        Term::Var(v) => occurs(*v, s),
        _ => false,
    }
}

/// Whether the second term is a variable, and the first, which is none, is above it.
fn is_above_variable(signature: &[Symbol], s: &Term, t: &Term) -> bool
    ensures { result ≡ part.above_variable signature.now (tree s.now) (tree t.now) }
{
    covers(signature, s, t) || has_variable(s, t)
}

/// Whether a number equals a term or is above it.
fn number_reaches(k: &i128, t: &Term) -> bool
    ensures { (signature : _) → result ≡ spec.reaches (spec.standing signature (node (number k.now) none) (tree t.now)) }
{
    match t {
        Term::True => true,
        Term::Num(j) => !is_number_below(k, j),
        _ => false,
    }
}

/// How a term stands to another.
#[cycle(standing)]
pub fn standing(signature: &[Symbol], s: &Term, t: &Term) -> Standing
    ensures { result ≡ spec.standing signature.now (tree s.now) (tree t.now) }
{
    if is_variable(s) {
        return Standing::equal_if(s == t);
    }
    if is_variable(t) {
        return Standing::above_if(is_above_variable(signature, s, t));
    }
    if has_smaller_head(signature, s, t) {
        return Standing::above_if(some_argument(signature, s, t));
    }
    if has_smaller_head(signature, t, s) {
        return Standing::above_if(each_argument(signature, s, t));
    }
    by_arguments(signature, s, t)
}

/// Whether some argument of a term equals another term or is above it.
#[cycle(standing)]
fn some_argument(signature: &[Symbol], s: &Term, t: &Term) -> bool
    ensures { result ≡ part.some_of signature.now (part.arguments (tree s.now)) (tree t.now) }
{
    match s {
        Term::Var(_) | Term::Num(_) | Term::True => false,
        Term::Sum(a, b) => {
            standing(signature, a.get(), t).reaches() || standing(signature, b.get(), t).reaches()
        }
        Term::Scale(k, a) => number_reaches(k, t) || standing(signature, a.get(), t).reaches(),
        Term::App(_, _) => some_from(signature, s, 0, t),
    }
}

/// Whether some argument of an application, the first few left out, equals another term or is above it.
#[cycle(standing)]
fn some_from(signature: &[Symbol], s: &Term, left_out: usize, t: &Term) -> bool
    requires { part.is_application (tree s.now) ≡ true }
    ensures { result ≡ part.some_of signature.now (part.behind left_out (part.arguments (tree s.now))) (tree t.now) }
{
    let Term::App(_, xs) = s else {
        return false;
    };
    let mut skip = left_out;
    for x in xs.as_slice() {
        if skip > 0 {
            skip -= 1;
        } else if standing(signature, x, t).reaches() {
            return true;
        }
    }
    false
}

/// Whether a term is above each argument of another one, whose head is smaller.
#[cycle(standing)]
fn each_argument(signature: &[Symbol], s: &Term, t: &Term) -> bool
    requires { part.has_smaller_head signature.now (tree t.now) (tree s.now) ≡ true }
    ensures { result ≡ part.above_each signature.now (tree s.now) (part.arguments (tree t.now)) }
{
    match t {
        Term::Var(_) | Term::Num(_) | Term::True => true,
        Term::Sum(a, b) => {
            standing(signature, s, a.get()).is_above() && standing(signature, s, b.get()).is_above()
        }
        // a head above that of a product is above every number
        Term::Scale(_, a) => standing(signature, s, a.get()).is_above(),
        Term::App(_, _) => each_from(signature, s, t, 0),
    }
}

/// Whether a term is above each argument of an application, the first few left out.
#[cycle(standing)]
fn each_from(signature: &[Symbol], s: &Term, t: &Term, left_out: usize) -> bool
    requires { part.is_application (tree t.now) ≡ true }
    ensures { result ≡ part.above_each signature.now (tree s.now) (part.behind left_out (part.arguments (tree t.now))) }
{
    let Term::App(_, ys) = t else {
        return true;
    };
    let mut skip = left_out;
    for y in ys.as_slice() {
        if skip > 0 {
            skip -= 1;
        } else if !standing(signature, s, y).is_above() {
            return false;
        }
    }
    true
}

/// How a term stands to another with the same head, by the first place where their arguments differ.
#[cycle(standing)]
fn by_arguments(signature: &[Symbol], s: &Term, t: &Term) -> Standing
    requires { part.has_same_head (tree s.now) (tree t.now) ≡ true }
    ensures { result ≡ part.by_lists signature.now (tree s.now) (tree t.now) (part.arguments (tree s.now)) (part.arguments (tree t.now)) }
{
    match (s, t) {
        (Term::Sum(a, b), Term::Sum(c, d)) => match standing(signature, a.get(), c.get()) {
            Standing::Above => Standing::above_if(standing(signature, s, d.get()).is_above()),
            Standing::Equal => standing(signature, b.get(), d.get()),
            Standing::Neither => Standing::above_if(standing(signature, b.get(), t).reaches()),
        },
        (Term::Scale(j, a), Term::Scale(k, b)) => if is_number_below(k, j) {
            Standing::above_if(standing(signature, s, b.get()).is_above())
        } else if is_number_below(j, k) {
            Standing::above_if(standing(signature, a.get(), t).reaches())
        } else {
            standing(signature, a.get(), b.get())
        },
        (Term::App(_, _), Term::App(_, _)) => by_lists(signature, s, t),
        _ => Standing::Equal,
    }
}

/// How an application stands to another of the same symbol.
#[cycle(standing)]
fn by_lists(signature: &[Symbol], s: &Term, t: &Term) -> Standing
    requires left { part.is_application (tree s.now) ≡ true }
    requires right { part.is_application (tree t.now) ≡ true }
    ensures { result ≡ part.by_lists signature.now (tree s.now) (tree t.now) (part.arguments (tree s.now)) (part.arguments (tree t.now)) }
{
    let Term::App(_, xs) = s else {
        return Standing::Equal;
    };
    let Term::App(_, ys) = t else {
        return Standing::Equal;
    };
    let mut rest = ys.as_slice();
    let mut passed = 0;
    for x in xs.as_slice() {
        let [y, others @ ..] = rest else {
            return Standing::above_if(some_from(signature, s, passed, t));
        };
        passed += 1;
        rest = others;
        match standing(signature, x, y) {
            Standing::Above => return Standing::above_if(each_from(signature, s, t, passed)),
            Standing::Equal => {}
            Standing::Neither => return Standing::above_if(some_from(signature, s, passed, t)),
        }
    }
    if rest.is_empty() {
        Standing::Equal
    } else {
        Standing::Neither
    }
}
