//! The next term of a clause to define.

ghost use Rattle.std.specs.Prelude.{◌≡◌, ℕ, true, Some, option_map, IfOk, IfSome};
ghost use Rattle.term_base.specs.declared.symbols.Sort.TheVariants.{Int};
ghost use Rattle.term_base.specs.Trees.{tree};
ghost use Rattle.term_base.specs.Known.{is_known, is_known_clause};
ghost use Rattle.term_base.specs.Lits.{lits};
ghost use Rattle.term_base.specs.Sorting.{sort};
ghost use Rattle.term_base.specs.Clauses.{is_well_sorted};
ghost use Rattle.define_rule.specs.Form.{is_ground_application};
ghost use Rattle.define_rule.specs.NextTerm as spec;
ghost use Rattle.define_rule.specs.Found as code;

use crate::definitions::is_definition;
use crate::filling::{put_pins, remaining};
use crate::scanning::first_definable;
use std::alloc::{AllocError, Global};
use term_base::{Clause, Symbol, Term};

/// The next term of a clause to define: the first term, in innermost leftmost order, that has a foreground
/// symbol with a result of sort Int as its head and whose variables are all pinned, with the pinned terms put
/// in. A literal `x != g` pins the variable x where g is Pure and without variables; the first such literal
/// counts. None exactly where there is no such term, or where the clause defines a term already: with the
/// pinned terms put in and the literals `t != t` left out, it is one equation between a number or a parameter
/// and such a term in whose arguments is no foreground symbol. Where the symbols of the clause have numbers
/// below a bound, so have those of the term.
pub fn next_term(
    alloc: Global,
    signature: &[Symbol],
    c: &Clause,
) -> Result<Option<Term>, AllocError>
    ensures exactly { IfOk result
        (λ o. option_map tree o ≡ spec.next_term signature.now (lits c.now)) }
    ensures form { IfOk result
        (λ o. IfSome o (λ t. is_ground_application signature.now (tree t) ≡ true)) }
    ensures sorted { is_well_sorted signature.now (lits c.now) ≡ true
        → IfOk result (λ o. IfSome o (λ t. sort signature.now (tree t) ≡ Some Int)) }
    ensures known { IfOk result (λ o. IfSome o (λ t. (n : ℕ)
        → is_known_clause n (lits c.now) ≡ true → is_known n (tree t) ≡ true)) }
{
    found(alloc, signature, c)
}

fn found(alloc: Global, signature: &[Symbol], c: &Clause) -> Result<Option<Term>, AllocError>
    ensures { IfOk result (λ o. option_map tree o ≡ code.found signature.now (lits c.now)) }
{
    let literals = c.literals.as_slice();
    match first_definable(signature, literals) {
        None => Ok(None),
        Some(t) => {
            let rest = remaining(alloc, signature, literals)?;
            if is_definition(signature, rest.as_slice()) {
                return Ok(None);
            }
            Ok(Some(put_pins(alloc, signature, literals, t)?))
        }
    }
}
