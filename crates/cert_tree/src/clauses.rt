//! Facts and clauses as the nodes of a certificate ask for them.

ghost use Rattle.std.specs.Prelude.{◌≡◌, IsTrue, IfSome, slice_get};
ghost use Rattle.std.specs.List.{list_all, list_any};
ghost use Rattle.std.specs.Option.{option_copied};
ghost use Rattle.lin_base.specs.Fact.{is_fact, is_pool};
ghost use Rattle.cert_tree.specs.Counting as spec;
ghost use Rattle.cert_tree.specs.Stands.{is_open_case};
ghost use Rattle.cert_tree.specs.Leasts.{is_lower_bound};

use crate::used::Used;
use lin_base::{Fact, Lin, Pool, coef};
use sqlite_items::Items;

/// The fact of this number.
#[tactic(auto, using(crate::proofs::Members::members))]
pub fn fact_at(facts: &[Fact], number: u32) -> Option<&Fact>
    requires { IsTrue (list_all is_fact facts.now) }
    ensures value { option_copied result ≡ slice_get facts.now number }
    ensures well_formed { IfSome result (λ fact. IsTrue (is_fact fact.now)) }
{
    facts.get(number as usize)
}

/// The clause of this number.
#[tactic(auto, using(crate::proofs::Members::members))]
pub fn clause_at(pool: &Pool, number: u32) -> Option<&Items<Fact>>
    requires { IsTrue (is_pool pool.now) }
    ensures value { option_copied result ≡ slice_get pool.now.clauses number }
    ensures well_formed { IfSome result (λ clause. IsTrue (list_all is_fact clause.now)) }
{
    pool.clauses.get(number as usize)
}

/// Whether `p` is a parameter that isn't used up.
pub(crate) fn is_free(params: u32, used: &Used, p: u32) -> bool
    ensures { result ≡ spec.is_free params used.now p }
{
    p < params && !used.has(p)
}

/// Whether a sum is over parameters that aren't used up.
pub(crate) fn is_over_free(params: u32, used: &Used, t: &Lin) -> bool
    ensures { result ≡ spec.is_over_free params used.now t.now }
{
    for term in t.coefs.as_slice() {
        if !is_free(params, used, term.0) {
            return false;
        }
    }
    true
}

/// Whether each unknown of a clause is a parameter that isn't used up.
pub(crate) fn is_open_case(params: u32, used: &Used, clause: &[Fact]) -> bool
    ensures { result ≡ is_open_case params used.now clause.now }
{
    for fact in clause {
        if !is_over_free(params, used, fact.sum()) {
            return false;
        }
    }
    true
}

/// Whether a fact is a lower bound of `p`.
fn is_lower_bound(p: u32, fact: &Fact) -> bool
    requires { IsTrue (is_fact fact.now) }
    ensures { result ≡ is_lower_bound p fact.now }
{
    match fact {
        Fact::AtMostZero(t) => coef(p, t) < 0,
        Fact::Zero(t) => coef(p, t) != 0,
        _ => false,
    }
}

/// Whether some fact is a lower bound of `p`.
pub fn has_lower_bound(p: u32, facts: &[Fact]) -> bool
    requires { IsTrue (list_all is_fact facts.now) }
    ensures { result ≡ list_any (is_lower_bound p) facts.now }
{
    for fact in facts {
        if is_lower_bound(p, fact) {
            return true;
        }
    }
    false
}
