//! Derivations of falsehood, step by step, and their replay without search.
#![tactic(auto)]

mod closing;
mod copying;
mod defining;
pub mod laws;
pub mod numbering_laws;
mod premises;
mod replaying;
mod rules;
mod standing;
mod steps;

pub use replaying::replay;
pub use standing::is_standing;
pub use steps::{Derivation, Replay, Rule, Step};
