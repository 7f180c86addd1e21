//! Background clauses as pools of facts about linear sums.
#![tactic(auto)]

mod conditions;
pub mod laws;
mod linear;
mod literals;
mod unknowns;
mod viewing;
mod views;

pub use conditions::{are_background, is_background_clause};
pub use viewing::{ViewError, Viewed, WideAt};
pub use views::{entail_view, view};
