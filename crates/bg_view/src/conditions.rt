//! Which clauses have a view.

ghost use Rattle.std.specs.Prelude.{◌≡◌};
ghost use Rattle.bg_view.specs.Background as spec;

use term_base::{Clause, Symbol, is_background, well_sorted};

/// Whether the clause is well sorted over the signature and a background clause.
pub fn is_background_clause(signature: &[Symbol], clause: &Clause) -> bool
    ensures { result ≡ spec.is_background_clause signature.now clause.now }
{
    well_sorted(signature, clause) && is_background(signature, clause)
}

/// Whether all clauses are well sorted over the signature and background clauses.
pub fn are_background(signature: &[Symbol], clauses: &[Clause]) -> bool
    ensures { result ≡ spec.are_background signature.now clauses.now }
{
    for clause in clauses {
        if !is_background_clause(signature, clause) {
            return false;
        }
    }
    true
}
