//! The rules of the calculus: superposition, resolution of disequations with equal sides, and factoring of equations.
//! Candidates are the places where a rule may apply; their conclusions are what fires there.
#![tactic(auto)]

mod concluding;
mod conditions;
mod factoring;
mod heads;
mod inferences;
pub mod instance_laws;
pub mod laws;
mod listing;
pub mod listing_laws;
mod literals;
mod occurrences;
mod places;
mod resolving;
mod superposing;
mod unifying;

pub use concluding::conclude;
pub use inferences::{Candidate, Fired};
pub use listing::{candidates, own_candidates};
