//! Ground of a pool (Cooper 1972) with its rows, counted against a limit.
#![tactic(auto)]

pub mod completing;
pub mod counting;
pub mod grounding;
