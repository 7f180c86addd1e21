//! What background clauses decide, by one judge.

ghost use Rattle.std.specs.Prelude.{◌≡◌, ◌⊎◌, ◌++◌, [], ◌∷◌, IfOk, OnErr, IsTrue};
ghost use Rattle.lin_base.specs.Fact.{is_pool};
ghost use Rattle.bg_view.specs.Background.{are_background};
ghost use Rattle.arithmetic_answers.specs.Decisions as spec;
ghost use Rattle.arithmetic_answers.specs.Judging.{IsVerdict};
ghost use Rattle.arithmetic_answers.specs.Texts.{HasText};

use bg_view::laws::refutation;
use bg_view::{ViewError, WideAt, view};
use cert_tree::{Cert, standing_is_impossible};
use judge_base::{Judge, Query, Verdict, Why};
use lin_base::Pool;
use sqlite_items::Items;
use std::alloc::{AllocError, Global};
use term_base::{Clause, Symbol};

/// What background clauses decide.
#[derive(Debug, Drop)]
pub enum Decision {
    /// The clause of this number has no literal.
    EmptyClause(u64),
    /// A number leaves the range where their pool is formed.
    TooWide(WideAt),
    /// They contradict each other, by this certificate for their pool.
    Refuted(Cert),
    /// They are true at these values of their parameters.
    Satisfied(Items<i128>),
    /// The judge did not decide.
    Unknown(Why),
}

// The first clause without literals.
fn first_empty(clauses: &[Clause]) -> Option<u64>
    ensures { result ≡ spec.first_empty 0 clauses.now }
{
    let mut number = 0u64;
    for clause in clauses {
        if clause.literals.is_empty() {
            return Some(number);
        }
        number += 1;
    }
    None
}

// What the judge says of the pool.
fn judged(pool: Pool, judge: &mut dyn Judge, limit: u64) -> Result<Decision, AllocError>
    requires { IsTrue (is_pool pool) }
    ensures verdict { IfOk result (IsVerdict pool limit) }
    ensures asked { IfOk result (λ d. numbers judge.new ≡ numbers judge.old ++ spec.queries_of d) }
    ensures memory { OnErr result ((numbers judge.new ≡ numbers judge.old)
        ⊎ (numbers judge.new ≡ numbers judge.old ++ 0 ∷ [])) }
{
    let query = Query { number: 0, pool };
    match judge.judge(&query, limit)? {
        Verdict::Unsat(cert) => Ok(Decision::Refuted(cert)),
        Verdict::Sat(values) => Ok(Decision::Satisfied(values)),
        Verdict::Unknown(why) => Ok(Decision::Unknown(why)),
    }
}

/// What the clauses decide. Where one is empty, it is the first such clause. Else their pool is formed, and TooWide comes exactly
/// where a number then leaves the range. Else the judge is asked once, with the query of number 0 on the whole pool.
pub fn decide(
    alloc: Global,
    signature: &[Symbol],
    clauses: &[Clause],
    judge: &mut dyn Judge,
    limit: u64,
) -> Result<Decision, AllocError>
    requires { IsTrue (are_background signature.now clauses.now) }
    ensures decided { IfOk result (spec.Decides clauses.now limit) }
    ensures printed { IfOk result HasText }
    ensures asked { IfOk result (λ d. numbers judge.new ≡ numbers judge.old ++ spec.queries_of d) }
    ensures memory { OnErr result ((numbers judge.new ≡ numbers judge.old)
        ⊎ (numbers judge.new ≡ numbers judge.old ++ 0 ∷ [])) }
{
    standing_is_impossible();
    refutation();
    if let Some(number) = first_empty(clauses) {
        return Ok(Decision::EmptyClause(number));
    }
    match view(alloc, signature, clauses) {
        Ok(viewed) => judged(viewed.pool, judge, limit),
        Err(ViewError::Wide(at)) => Ok(Decision::TooWide(at)),
        Err(ViewError::Memory) => Err(AllocError),
    }
}
