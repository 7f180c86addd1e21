//! Terms.

ghost use Rattle.std.specs.Prelude.{◌≡◌, ◌↔◌, IsTrue, IfOk};

use crate::variables::Variable;
use sqlite_items::{Boxed, Items};
use std::alloc::{AllocError, Global};

/// A term: a variable, a number, the truth value true, a sum, a number times a term, or a symbol by its
/// number with its arguments.
#[derive(Debug, Drop)]
pub enum Term {
    Var(Variable),
    Num(i128),
    True,
    Sum(Boxed<Term>, Boxed<Term>),
    Scale(i128, Boxed<Term>),
    App(u32, Items<Term>),
}

/// What a term is: it has a foreground symbol; or else it has an ordinary variable (Impure) or none (Pure).
#[derive(Clone, Copy, Debug, PartialEq, Eq)]
pub enum Purity {
    Pure,
    Impure,
    Foreground,
}

impl Term {
    /// The sum of two terms.
    pub fn sum(alloc: Global, a: Term, b: Term) -> Result<Term, AllocError>
        ensures { IfOk result (λ t. t ≡ Term.Sum a b) }
    {
        Ok(Term::Sum(Boxed::new(alloc, a)?, Boxed::new(alloc, b)?))
    }

    /// A number times a term.
    pub fn scale(alloc: Global, k: i128, a: Term) -> Result<Term, AllocError>
        ensures { IfOk result (λ t. t ≡ Term.Scale k a) }
    {
        Ok(Term::Scale(k, Boxed::new(alloc, a)?))
    }

    /// A term that equals this one.
    #[cycle(copy)]
    pub fn copy(&self, alloc: Global) -> Result<Term, AllocError>
        ensures { IfOk result (λ t. t ≡ self.now) }
    {
        match self {
            Term::Var(v) => Ok(Term::Var(*v)),
            Term::Num(n) => Ok(Term::Num(*n)),
            Term::True => Ok(Term::True),
            Term::Sum(a, b) => {
                let a = Boxed::new(alloc, a.get().copy(alloc)?)?;
                let b = Boxed::new(alloc, b.get().copy(alloc)?)?;
                Ok(Term::Sum(a, b))
            }
            Term::Scale(k, a) => Ok(Term::Scale(*k, Boxed::new(alloc, a.get().copy(alloc)?)?)),
            Term::App(f, args) => Ok(Term::App(*f, copy_all(alloc, args.as_slice())?)),
        }
    }

    /// Whether two terms are equal.
    #[cycle(same)]
    pub fn same(&self, other: &Term) -> bool
        ensures { IsTrue result ↔ (self.now ≡ other.now) }
    {
        match (self, other) {
            (Term::Var(v), Term::Var(w)) => v.same(*w),
            (Term::Num(m), Term::Num(n)) => *m == *n,
            (Term::True, Term::True) => true,
            (Term::Sum(a, b), Term::Sum(c, d)) => a.get().same(c.get()) && b.get().same(d.get()),
            (Term::Scale(j, a), Term::Scale(k, b)) => *j == *k && a.get().same(b.get()),
            (Term::App(f, xs), Term::App(g, ys)) => *f == *g
                && same_all(xs.as_slice(), ys.as_slice()),
            _ => false,
        }
    }
}

/// A list of terms that equals these.
#[cycle(copy)]
pub fn copy_all(alloc: Global, terms: &[Term]) -> Result<Items<Term>, AllocError>
    ensures { IfOk result (λ all. all ≡ terms.now) }
{
    let mut all = Items::new(alloc);
    for term in terms {
        all.push(term.copy(alloc)?)?;
    }
    Ok(all)
}

/// Whether two lists of terms are equal.
#[cycle(same)]
pub fn same_all(xs: &[Term], ys: &[Term]) -> bool
    ensures { IsTrue result ↔ (xs.now ≡ ys.now) }
{
    let mut rest = ys;
    for x in xs {
        match rest {
            [] => return false,
            [y, others @ ..] => {
                if !x.same(y) {
                    return false;
                }
                rest = others;
            }
        }
    }
    rest.is_empty()
}

impl PartialEq for Term {
    ghost use Rattle.std.specs.Cmp.{partial_equiv_from_equiv};
    ghost use Rattle.term_base.specs.SameTerm.{same_term, same_term_equiv};

    ghost eq = { same_term };

    ghost laws = { partial_equiv_from_equiv same_term_equiv };

    fn eq(&self, other: &Term) -> bool {
        self.same(other)
    }
}

impl Eq for Term {
    ghost use Rattle.term_base.specs.SameTerm.{same_term_equiv};

    ghost laws = { same_term_equiv };
}
