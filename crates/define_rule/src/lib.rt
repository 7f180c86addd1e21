//! The Define rule: the next term of a clause for which a parameter is introduced.
#![tactic(auto)]

mod definitions;
mod filling;
mod next;
mod pins;
mod scanning;

pub use next::next_term;
