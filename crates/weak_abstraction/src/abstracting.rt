//! The abstraction of a clause.

ghost use Rattle.std.specs.Prelude.{◌≡◌, [], IfOk};
ghost use Rattle.term_base.specs.Clauses.{is_well_sorted};
ghost use Rattle.term_base.specs.Lits.{lits};
ghost use Rattle.weak_abstraction.specs.Targets.{targets};
ghost use Rattle.weak_abstraction.specs.Abstraction.{IsAbstraction, IsSharing};
ghost use Rattle.weak_abstraction.specs.Abstracted as spec;

use crate::finding::different_targets;
use crate::naming::{Names, definitions, first_number};
use crate::replacing::replaced_literals;
use std::alloc::{AllocError, Global};
use term_base::laws::clause_is_its_literals;
use term_base::{Clause, Symbol};

/// The clause with its targets replaced by new variables, followed by one literal `x != t` for each
/// new variable x and the term t that it replaces: an abstraction of the clause without a target.
/// Equal targets share a variable, a clause without a target comes back as it is, and the sorts
/// stay right. The new variables have the numbers after the greatest one of the clause, in the
/// order of the first places of their targets; where these pass 2^32 - 1 the answer is want of
/// memory.
pub fn abstracted(alloc: Global, signature: &[Symbol], c: &Clause) -> Result<Clause, AllocError>
    ensures abstraction { IfOk result (λ a. IsAbstraction signature.now (lits c.now) (lits a)) }
    ensures shared { IfOk result (λ a. IsSharing signature.now (lits c.now) (lits a)) }
    ensures no_target { IfOk result (λ a. targets signature.now (lits a) ≡ []) }
    ensures unchanged { targets signature.now (lits c.now) ≡ [] → IfOk result (λ a. a ≡ c.now) }
    ensures sorted { IfOk result (λ a. is_well_sorted signature.now (lits a)
        ≡ is_well_sorted signature.now (lits c.now)) }
    ensures exactly { IfOk result (λ a. lits a ≡ spec.abstracted signature.now (lits c.now)) }
{
    clause_is_its_literals();
    made(alloc, signature, c)
}

fn made(alloc: Global, signature: &[Symbol], c: &Clause) -> Result<Clause, AllocError>
    ensures { IfOk result (λ a. lits a ≡ spec.abstracted signature.now (lits c.now)) }
{
    let names = Names {
        first: first_number(c),
        found: different_targets(alloc, signature, c)?,
    };
    let mut literals = replaced_literals(alloc, signature, &names, c.literals.as_slice())?;
    literals.append(definitions(alloc, signature, &names)?)?;
    Ok(Clause { literals })
}
