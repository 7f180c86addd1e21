//! Judges of pools: what they are asked, and what their answers promise.
#![tactic(auto)]

mod judges;
mod verdicts;

pub use judges::{Judge, MAX_DEPTH};
pub use verdicts::{Query, Verdict, Why};
