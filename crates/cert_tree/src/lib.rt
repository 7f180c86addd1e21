//! Certificates that a pool of clauses of linear facts is true at no values, and their check.
#![tactic(auto)]

mod certs;
mod children;
mod clauses;
mod completing;
mod holding;
mod laws;
mod rows;
pub mod search_tools;
mod standing;
mod sums;
mod test_points;
mod used;
mod variables;

pub use certs::{Cert, Row, Tree};
pub use holding::check_sat;
pub use laws::{
    checked_values_are_true, complete_has_every_case, least_has_every_case, standing_is_impossible,
    true_values_are_checked,
};
pub use standing::check_unsat;
