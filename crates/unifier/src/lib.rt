//! Simple unification and matching: substitutions that put terms of the right sort for variables,
//! and Pure terms for abstraction variables.
#![tactic(auto)]

mod disagreements;
mod images;
mod matching;
mod naming;
mod occurrences;
mod raising;
mod solving;
mod unifying;
mod variables;

pub use matching::matches;
pub use unifying::{unify, unify_over, unify_within};
