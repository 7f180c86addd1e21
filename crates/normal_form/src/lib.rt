//! The clauses of a problem: negation normal form, Skolem symbols and distribution in one recursion on formulas.
#![tactic(auto)]

mod binders;
mod conversion;
mod counting;
mod disjunctions;
mod joins;
mod laws;
mod literals;
mod lookup;
mod measuring;
mod numbering;
mod preparing;
mod scopes;

pub use counting::count;
pub use laws::{
    clauses_are_counted, clauses_are_well_sorted, clauses_have_known_symbols, definition_gives_rows,
};
pub use preparing::{ClausesError, clauses};
pub use scopes::Scope;
pub use term_base::{Prepared, TooMany};
