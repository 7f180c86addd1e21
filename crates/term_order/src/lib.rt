//! The order of terms and of literals.
#![tactic(auto)]

mod deciding;
mod heads;
pub mod laws;
mod literals;
mod occurring;
mod orders;
mod standing;

pub use literals::is_maximal;
pub use orders::{Order, compare};
