//! Literals and clauses.

ghost use Rattle.std.specs.Prelude.{◌≡◌, ◌↔◌, IsTrue, IfOk, map};
ghost use Rattle.term_base.specs.Lits.{lit, lits, at_most};
ghost use Rattle.term_base.specs.LitTests as test;

use crate::terms::Term;
use sqlite_items::Items;
use std::alloc::{AllocError, Global};

/// A literal: `s = t`, `s != t`, or `s <= t` between terms of sort Int. A predicate `p` is `p = true`.
#[derive(Debug, Drop)]
pub enum Literal {
    Equal(Term, Term),
    Differ(Term, Term),
    AtMost(Term, Term),
}

/// A clause: the disjunction of its literals. Without literals it is false.
#[derive(Debug, Drop)]
pub struct Clause {
    pub literals: Items<Literal>,
}

impl Literal {
    /// A literal that equals this one.
    pub fn copy(&self, alloc: Global) -> Result<Literal, AllocError>
        ensures { IfOk result (λ l. l ≡ self.now) }
    {
        match self {
            Literal::Equal(a, b) => Ok(Literal::Equal(a.copy(alloc)?, b.copy(alloc)?)),
            Literal::Differ(a, b) => Ok(Literal::Differ(a.copy(alloc)?, b.copy(alloc)?)),
            Literal::AtMost(a, b) => Ok(Literal::AtMost(a.copy(alloc)?, b.copy(alloc)?)),
        }
    }

    /// Whether two literals are equal.
    pub fn same(&self, other: &Literal) -> bool
        ensures { IsTrue result ↔ (self.now ≡ other.now) }
    {
        *self == *other
    }

    /// Whether the literal is an inequality.
    pub fn is_inequality(&self) -> bool
        ensures test { result ≡ test.is_inequality (lit self.now).relation }
        ensures exactly { IsTrue result ↔ ((lit self.now).relation ≡ at_most) }
    {
        match self {
            Literal::Equal(_, _) => false,
            Literal::Differ(_, _) => false,
            Literal::AtMost(_, _) => true,
        }
    }

    /// Whether the literal is `t != t`.
    pub fn differs_from_itself(&self) -> bool
        ensures { result ≡ test.differs_from_itself (lit self.now) }
    {
        match self {
            Literal::Equal(_, _) => false,
            Literal::Differ(s, t) => *s == *t,
            Literal::AtMost(_, _) => false,
        }
    }
}

impl PartialEq for Literal {
    ghost use Rattle.std.specs.Cmp.{partial_equiv_from_equiv};
    ghost use Rattle.term_base.specs.SameLiteral.{same_literal, same_literal_equiv};

    ghost eq = { same_literal };

    ghost laws = { partial_equiv_from_equiv same_literal_equiv };

    fn eq(&self, other: &Literal) -> bool {
        match (self, other) {
            (Literal::Equal(a, b), Literal::Equal(c, d)) => *a == *c && *b == *d,
            (Literal::Differ(a, b), Literal::Differ(c, d)) => *a == *c && *b == *d,
            (Literal::AtMost(a, b), Literal::AtMost(c, d)) => *a == *c && *b == *d,
            _ => false,
        }
    }
}

impl Eq for Literal {
    ghost use Rattle.term_base.specs.SameLiteral.{same_literal_equiv};

    ghost laws = { same_literal_equiv };
}

impl Clause {
    /// A clause that equals this one.
    pub fn copy(&self, alloc: Global) -> Result<Clause, AllocError>
        ensures { IfOk result (λ c. c ≡ self.now) }
    {
        Ok(Clause {
            literals: copy_literals(alloc, self.literals.as_slice())?,
        })
    }

    /// Whether two clauses have the same literals in the same order.
    pub fn same(&self, other: &Clause) -> bool
        ensures { IsTrue result ↔ (self.now ≡ other.now) }
    {
        same_literals(self.literals.as_slice(), other.literals.as_slice())
    }
}

/// Whether two lists have the same literals in the same order.
pub fn same_literals(ls: &[Literal], ms: &[Literal]) -> bool
    ensures { result ≡ test.same_lits (map lit ls.now) (map lit ms.now) }
{
    let mut rest = ms;
    for l in ls {
        match rest {
            [] => return false,
            [m, others @ ..] => {
                if !(*l == *m) {
                    return false;
                }
                rest = others;
            }
        }
    }
    rest.is_empty()
}

/// A list of literals that equals these.
pub fn copy_literals(alloc: Global, literals: &[Literal]) -> Result<Items<Literal>, AllocError>
    ensures { IfOk result (λ all. all ≡ literals.now) }
{
    let mut all = Items::new(alloc);
    for literal in literals {
        all.push(literal.copy(alloc)?)?;
    }
    Ok(all)
}
