//! The check of the answer behind a problem, without search.
#![tactic(auto)]

mod checked;
mod checking;
mod laws;
mod sections;

pub use checked::Checked;
pub use checking::check;
pub use laws::{
    answer_behind, bad_without_answer, definitions_give_rows, one_finding, proof_behind,
    verified_exactly,
};
