//! Typing and meaning of the input language: from the bytes of a text to its problem, or to the first fault.
#![tactic(auto)]

mod formulas;
mod heads;
mod laws;
mod numbers;
mod products;
mod reader;
mod refusals;
mod scopes;
mod stops;
mod terms;

pub use laws::{faults_ascend, one_answer, problems_are_well_typed};
pub use reader::read;
pub use refusals::{ReadError, Refused, RefusedName};
