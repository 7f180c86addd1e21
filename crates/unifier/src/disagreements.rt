//! The first place where two terms disagree.

ghost use Rattle.std.specs.Prelude.{◌≡◌, ◌↔◌, IfOk, IsTrue, map};
ghost use Rattle.term_base.specs.Trees.{tree, trees};
ghost use Rattle.unifier.specs.Disagreements.{disagreement, disagreement_among};
ghost use Rattle.unifier.specs.Found.{found_disagreement};

use std::alloc::{AllocError, Global};
use term_base::{Term, Variable};

/// What a comparison of two terms found first, from left to right: nothing; two heads or numbers
/// of arguments that no substitution makes one; or a variable against another term.
#[derive(Debug, Drop)]
pub enum Found {
    Agree,
    Clash,
    Bind(Variable, Term),
}

fn same_number(j: &i128, k: &i128) -> bool
    ensures { IsTrue result ↔ (j.now ≡ k.now) }
{
    *j == *k
}

/// The first disagreement of two terms.
#[cycle(first_disagreement)]
pub fn first_disagreement(alloc: Global, s: &Term, t: &Term) -> Result<Found, AllocError>
    ensures { IfOk result (λ g. found_disagreement g ≡ disagreement (tree s.now) (tree t.now)) }
{
    match (s, t) {
        (Term::Var(v), Term::Var(w)) => if *v == *w {
            Ok(Found::Agree)
        } else {
            Ok(Found::Bind(*v, Term::Var(*w)))
        },
        (Term::Var(v), _) => Ok(Found::Bind(*v, t.copy(alloc)?)),
        (_, Term::Var(w)) => Ok(Found::Bind(*w, s.copy(alloc)?)),
        (Term::Num(m), Term::Num(n)) => if *m == *n {
            Ok(Found::Agree)
        } else {
            Ok(Found::Clash)
        },
        (Term::True, Term::True) => Ok(Found::Agree),
        (Term::Sum(a, b), Term::Sum(c, d)) => {
            let first = first_disagreement(alloc, a.get(), c.get())?;
            match first {
                Found::Agree => first_disagreement(alloc, b.get(), d.get()),
                _ => Ok(first),
            }
        }
        (Term::Scale(j, a), Term::Scale(k, b)) => if same_number(j, k) {
            first_disagreement(alloc, a.get(), b.get())
        } else {
            Ok(Found::Clash)
        },
        (Term::App(f, xs), Term::App(g, ys)) => if *f == *g {
            first_among(alloc, xs.as_slice(), ys.as_slice())
        } else {
            Ok(Found::Clash)
        },
        _ => Ok(Found::Clash),
    }
}

/// The first disagreement of two lists of terms; a clash where one list is longer.
#[cycle(first_disagreement)]
fn first_among(alloc: Global, xs: &[Term], ys: &[Term]) -> Result<Found, AllocError>
    ensures { IfOk result (λ g. found_disagreement g
        ≡ disagreement_among (trees (map tree xs.now)) (trees (map tree ys.now))) }
{
    let mut rest = ys;
    for x in xs {
        match rest {
            [] => return Ok(Found::Clash),
            [y, others @ ..] => {
                let found = first_disagreement(alloc, x, y)?;
                match found {
                    Found::Agree => rest = others,
                    _ => return Ok(found),
                }
            }
        }
    }
    match rest {
        [] => Ok(Found::Agree),
        [_, ..] => Ok(Found::Clash),
    }
}
