//! What a run is asked for, and the limits of the product.
#![tactic(auto)]

mod asked;
pub mod limits;

pub use asked::{Mode, Options, default_options};
