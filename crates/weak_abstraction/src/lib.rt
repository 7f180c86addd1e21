//! Weak abstraction: the terms of integer arithmetic beside and below foreground symbols give way
//! to new variables.
#![tactic(auto)]

mod abstracting;
mod conditions;
mod finding;
mod keys;
mod naming;
mod replacing;

pub use abstracting::abstracted;
