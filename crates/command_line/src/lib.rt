//! The words of the command line.
#![tactic(auto)]

mod arguments;

pub use arguments::{WordsFault, options_of};
pub use options::{Mode, Options};
