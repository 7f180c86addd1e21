//! Lines of a row program: a call, its arguments, and the answer that was worked out by hand.
//!
//! A line is `CALL ARGUMENT ; ARGUMENT .. => ANSWER`. Empty lines and lines that begin with `#` say nothing, and a line
//! `symbols WORD WORD ..` gives the signature of the lines behind it. Terms, clauses, substitutions and places are spelled
//! as in derivations.
#![tactic(auto)]

mod arguments;
mod lines;
mod symbols;
mod texts;

pub use arguments::{
    bad, clause, number, place, put_flag, put_maybe, substitution, term, two, whole,
};
pub use lines::{Calls, report};
pub use symbols::signature;
pub use texts::{bytes_of, put_text};
