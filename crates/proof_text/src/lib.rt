//! The text of derivations: printing, and parsing up to the first byte with which no text goes on.
#![tactic(auto)]

mod derivations;
mod kinds;
pub mod laws;
mod rule_printing;
mod rules;
mod step_printing;
mod steps;

pub use cert_text::{BadText, TextError};
pub use derivations::{parse_derivation, parse_text, print_derivation, print_text};
pub use kinds::{RuleKind, Status};
