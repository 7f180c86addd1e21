//! Terms, literals, clauses and substitutions over a signature of sorted symbols.
#![tactic(auto)]

mod applying;
mod clauses;
mod covering;
pub mod laws;
mod names;
mod occurrences;
mod places;
mod placing;
mod preparation;
mod purities;
mod sorting;
mod substs;
mod symbols;
mod terms;
mod variables;
mod weights;

pub use applying::{apply, apply_clause, apply_literal};
pub use clauses::{Clause, Literal, copy_literals, same_literals};
pub use covering::covers_by;
pub use names::Name;
pub use occurrences::{is_ground, is_known, is_known_clause, is_variable, occurs};
pub use places::{Path, Place, Side};
pub use placing::{at, child, place_term, replace_at, replace_in_literal, side_of};
pub use preparation::{Prepared, TooMany};
pub use purities::{has_foreground, is_background, is_foreground, is_simple, purity};
pub use sorting::{is_integer, sort_of, well_sorted};
pub use substs::Subst;
pub use symbols::{Class, Sort, Sorts, Symbol, class_of};
pub use terms::{Purity, Term, copy_all, same_all};
pub use variables::{Kind, Variable};
pub use weights::weight;
