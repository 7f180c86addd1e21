//! Problems: typed first-order formulas over a signature, as the premises and the conjecture of a file.
#![tactic(auto)]

mod formulas;
mod laws;
mod problems;

pub use formulas::Formula;
pub use laws::definitions_give_rows;
pub use problems::{Problem, copy_symbols};
