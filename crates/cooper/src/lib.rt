//! Cooper's elimination (Cooper 1972) as a decision procedure: within a limit of rows and nodes, a pool gets a
//! certificate or values.
#![tactic(auto)]

mod choosing;
mod closing;
mod deciding;
mod eliminating;
mod making;
mod search;
mod sharing;
mod valuing;

pub use deciding::decide;
pub use eliminating::eliminate;
