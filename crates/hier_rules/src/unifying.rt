//! Most general substitutions on all variables of the premises.

ghost use Rattle.std.specs.Prelude.{◌≡◌, ℕ, true, IfOk, IfSome, IfNone};
ghost use Rattle.term_base.specs.declared.variables.Variable.{Variable};
ghost use Rattle.term_base.specs.Trees.{tree, occurs};
ghost use Rattle.term_base.specs.Known.{is_known, KnownImages};
ghost use Rattle.term_base.specs.Lits.{lits, clause_occurs};
ghost use Rattle.term_base.specs.Substitution.{image};
ghost use Rattle.unifier.specs.Unifiers.{IsMostGeneral, IsMostGeneralPair, NoPair, NoUnifier};
ghost use Rattle.hier_rules.specs.Conclusions.{Keeps, KeepsPair, NumbersOne, NumbersPair};

use crate::occurrences::variables;
use std::alloc::{AllocError, Global};
use term_base::{Clause, Subst, Symbol, Term};
use unifier::{unify_over, unify_within};

/// Most general simple substitutions of two clauses, on all their variables, that make a term of the first and one
/// of the second equal.
pub(crate) fn unify_premises(
    alloc: Global,
    signature: &[Symbol],
    t: &Term,
    u: &Term,
    c: &Clause,
    d: &Clause,
) -> Result<Option<(Subst, Subst)>, AllocError>
    requires first { (v : Variable) → occurs v (tree t.now) ≡ true → clause_occurs v (lits c.now) ≡ true }
    requires second { (v : Variable) → occurs v (tree u.now) ≡ true → clause_occurs v (lits d.now) ≡ true }
    ensures some { IfOk result (λ o. IfSome o (λ p. IsMostGeneralPair signature.now
        (λ v. clause_occurs v (lits c.now)) (λ v. clause_occurs v (lits d.now))
        (tree t.now) (tree u.now) (image p.0) (image p.1))) }
    ensures numbered { IfOk result (λ o. IfSome o (λ p. NumbersPair (lits c.now) (lits d.now) (image p.0) (image p.1))) }
    ensures others { IfOk result (λ o. IfSome o (λ p. KeepsPair (lits c.now) (lits d.now) (image p.0) (image p.1))) }
    ensures known { IfOk result (λ o. IfSome o (λ p. (n : ℕ) → is_known n (tree t.now) ≡ true
        → is_known n (tree u.now) ≡ true → KnownImages n (image p.0) × KnownImages n (image p.1))) }
    ensures none { IfOk result (λ o. IfNone o (NoPair signature.now (tree t.now) (tree u.now))) }
{
    let first = variables(alloc, c)?;
    let second = variables(alloc, d)?;
    unify_over(alloc, signature, t, u, first.as_slice(), second.as_slice())
}

/// A most general simple substitution of a clause, on all its variables, that makes two of its terms equal.
pub(crate) fn unify_terms(
    alloc: Global,
    signature: &[Symbol],
    t: &Term,
    u: &Term,
    c: &Clause,
) -> Result<Option<Subst>, AllocError>
    requires first { (v : Variable) → occurs v (tree t.now) ≡ true → clause_occurs v (lits c.now) ≡ true }
    requires second { (v : Variable) → occurs v (tree u.now) ≡ true → clause_occurs v (lits c.now) ≡ true }
    ensures some { IfOk result (λ o. IfSome o (λ s. IsMostGeneral signature.now
        (λ v. clause_occurs v (lits c.now)) (tree t.now) (tree u.now) (image s))) }
    ensures numbered { IfOk result (λ o. IfSome o (λ s. NumbersOne (lits c.now) (image s))) }
    ensures others { IfOk result (λ o. IfSome o (λ s. Keeps (λ v. clause_occurs v (lits c.now)) (image s))) }
    ensures known { IfOk result (λ o. IfSome o (λ s. (n : ℕ) → is_known n (tree t.now) ≡ true
        → is_known n (tree u.now) ≡ true → KnownImages n (image s))) }
    ensures none { IfOk result (λ o. IfNone o (NoUnifier signature.now (tree t.now) (tree u.now))) }
{
    let all = variables(alloc, c)?;
    unify_within(alloc, signature, t, u, all.as_slice())
}
