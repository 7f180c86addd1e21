//! The texts of terms, clauses, substitutions and places, to read and to print.
#![tactic(auto)]

mod clause_printing;
mod clauses;
mod kinds;
mod laws;
mod operations;
mod places;
mod substitutions;
mod term_printing;
mod terms;
mod variables;

pub use clause_printing::push_clause_line;
pub use clauses::clause_line;
pub use kinds::{Operation, Relation, TermKind, VariableKind};
pub use laws::{definitions_give_rows, one_spelling};
pub use places::{place, push_place, push_side, side};
pub use substitutions::{push_substitution, substitution};
pub use term_printing::push_term;
pub use terms::term;
pub use variables::{push_variable, variable};
