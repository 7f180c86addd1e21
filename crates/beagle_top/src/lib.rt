//! The top call: from the bytes of a problem to the bytes of an answer.
#![tactic(auto)]

mod answers;
mod laws;
pub mod statuses;
mod texts;
mod top;

pub use laws::{
    decidable_is_decided, one_answer, printed_checks, refuted_is_contradictory, saturated_is_true,
    unknown_where_past, verified_where_proved, wide_where_no_pool,
};
pub use options::limits::INPUT_LIMIT;
pub use options::{Mode, Options};
pub use top::{Ended, beagle, check_bytes, prove_alone};
