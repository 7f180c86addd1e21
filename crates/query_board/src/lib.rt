//! The board of queries: what each asks, and how far it has come.
#![tactic(auto)]

mod board;
mod queries;

pub use board::Board;
pub use queries::{Asked, Mark, Posted, Stamp};
