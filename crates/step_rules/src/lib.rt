//! What the rules of the calculus give for written substitutions: conclusions, abstractions, and what may be
//! written.
#![tactic(auto)]

mod abstractions;
mod inferences;
pub mod laws;
mod literals;
mod parts;
mod simplifying;
mod symbols;
pub mod writing_laws;

pub use abstractions::is_abstraction;
pub use inferences::{factored, resolved, superposed};
pub use literals::same_literals;
pub use simplifying::{demodulated, pinned};
pub use symbols::{is_definable, is_known, is_known_clause, is_written};
