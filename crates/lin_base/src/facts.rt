//! Facts about sums, and pools of clauses of facts.

ghost use Rattle.std.specs.Prelude.{◌≡◌, ◌↔◌, false, IsTrue, IfOk, IsOk};
ghost use Rattle.std.specs.List.{list_all};
ghost use Rattle.lin_base.specs.Fact as spec;
ghost use Rattle.lin_base.specs.Sum.{Valuation, has_unknown};
ghost use Rattle.lin_base.specs.Whole.{divides};

use crate::sums::{Lin, has_unknown, is_lin, same_lin};
use sqlite_items::Items;
use std::alloc::{AllocError, Global};

/// A fact about a sum `t` at whole numbers for its unknowns. A modulus is at least 2.
#[derive(Debug, Drop)]
pub enum Fact {
    /// `t <= 0`
    AtMostZero(Lin),
    /// `t = 0`
    Zero(Lin),
    /// The modulus divides `t`.
    Divides(i128, Lin),
    /// The modulus doesn't divide `t`.
    NotDivides(i128, Lin),
}

/// Clauses of facts. An unknown below `params` is a parameter, each other one a variable of its
/// clause.
#[derive(Debug, Drop)]
pub struct Pool {
    /// How many parameters there are.
    pub params: u32,
    /// The clauses, each with its literals.
    pub clauses: Items<Items<Fact>>,
}

impl Fact {
    /// The same fact. It takes memory only where an unknown occurs.
    pub fn copy(&self, alloc: Global) -> Result<Fact, AllocError>
        ensures value { IfOk result (λ f. f ≡ self.now) }
        ensures memory { has_unknown (spec.sum_of self.now) ≡ false → IsOk result }
    {
        match self {
            Fact::AtMostZero(t) => Ok(Fact::AtMostZero(t.copy(alloc)?)),
            Fact::Zero(t) => Ok(Fact::Zero(t.copy(alloc)?)),
            Fact::Divides(m, t) => Ok(Fact::Divides(*m, t.copy(alloc)?)),
            Fact::NotDivides(m, t) => Ok(Fact::NotDivides(*m, t.copy(alloc)?)),
        }
    }
}

impl Fact {
    /// The sum that the fact speaks of.
    pub fn sum(&self) -> &Lin
        ensures { result.now ≡ spec.sum_of self.now }
    {
        match self {
            Fact::AtMostZero(t) | Fact::Zero(t) | Fact::Divides(_, t) | Fact::NotDivides(_, t) => t,
        }
    }
}

/// The same facts.
pub fn copy_facts(alloc: Global, facts: &[Fact]) -> Result<Items<Fact>, AllocError>
    ensures { IfOk result (λ fs. fs ≡ facts.now) }
{
    let mut copies = Items::new(alloc);
    for fact in facts {
        copies.push(fact.copy(alloc)?)?;
    }
    Ok(copies)
}

impl Pool {
    /// The same pool.
    pub fn copy(&self, alloc: Global) -> Result<Pool, AllocError>
        ensures { IfOk result (λ p. p ≡ self.now) }
    {
        let mut clauses = Items::new(alloc);
        for clause in self.clauses.as_slice() {
            clauses.push(copy_facts(alloc, clause.as_slice())?)?;
        }
        Ok(Pool {
            params: self.params,
            clauses,
        })
    }
}

/// Whether the sum is well formed and a modulus is at least 2.
pub fn is_fact(fact: &Fact) -> bool
    ensures { result ≡ spec.is_fact fact.now }
{
    match fact {
        Fact::AtMostZero(t) | Fact::Zero(t) => is_lin(t),
        Fact::Divides(m, t) | Fact::NotDivides(m, t) => *m >= 2 && is_lin(t),
    }
}

fn is_clause(clause: &[Fact]) -> bool
    ensures { result ≡ list_all spec.is_fact clause.now }
{
    for fact in clause {
        if !is_fact(fact) {
            return false;
        }
    }
    true
}

/// Whether each fact of the pool is well formed.
pub fn is_pool(pool: &Pool) -> bool
    ensures { result ≡ spec.is_pool pool.now }
{
    for clause in pool.clauses.as_slice() {
        if !is_clause(clause.as_slice()) {
            return false;
        }
    }
    true
}

/// Whether the two are the same fact.
pub fn same_fact(fact: &Fact, other: &Fact) -> bool
    ensures { IsTrue result ↔ (fact.now ≡ other.now) }
{
    match (fact, other) {
        (Fact::AtMostZero(t), Fact::AtMostZero(u)) | (Fact::Zero(t), Fact::Zero(u)) => {
            same_lin(t, u)
        }
        (Fact::Divides(m, t), Fact::Divides(n, u)) => *m == *n && same_lin(t, u),
        (Fact::NotDivides(m, t), Fact::NotDivides(n, u)) => *m == *n && same_lin(t, u),
        _ => false,
    }
}

/// Whether `m` divides `z`; 0 divides 0 alone.
pub fn divides(m: i128, z: i128) -> bool
    ensures { result ≡ divides m z }
{
    match m.unsigned_abs() {
        0 => z == 0,
        m => z.unsigned_abs() % m == 0,
    }
}

/// Whether the fact is true where its sum is `z`.
pub fn holds_at(fact: &Fact, z: i128) -> bool
    ensures { result ≡ spec.holds_at z fact.now }
{
    match fact {
        Fact::AtMostZero(_) => z <= 0,
        Fact::Zero(_) => z == 0,
        Fact::Divides(m, _) => divides(*m, z),
        Fact::NotDivides(m, _) => !divides(*m, z),
    }
}

/// Whether the fact has no unknown and is false, so that it holds at no values.
pub fn is_false(fact: &Fact) -> bool
    ensures value { result ≡ spec.is_false fact.now }
    ensures refutes { IsTrue result → (v : Valuation) → spec.holds v fact.now ≡ false }
{
    !has_unknown(fact.sum()) && !holds_at(fact, fact.sum().constant)
}
