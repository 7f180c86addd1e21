//! Literals over the integers as sums over their maximal subterms: which of them say the same, which are false,
//! and which clauses are normal forms of one another.
#![tactic(auto)]

mod collecting;
mod dividing;
mod forming;
mod forms;
mod linear_forms;
mod literals;
mod normal;

pub use collecting::summands;
pub use linear_forms::{LinearForm, linear};
pub use normal::{is_false_literal, is_normal, is_same_literal};
