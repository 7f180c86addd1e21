//! The answers to problems of arithmetic: what one judge decides of background clauses, and how it is written.
#![tactic(auto)]

mod deciding;
mod derivations;
mod laws;
mod lines;
mod lists;
mod texts;

pub use deciding::{Decision, decide};
pub use laws::{definitions_give_rows, empty_clause_derives, refutation_derives};
pub use texts::answer_text;
