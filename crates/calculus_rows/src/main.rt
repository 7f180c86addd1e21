//! Rows of the calculus: candidates, conclusions, next terms, sums of literals, what steps give, derivations and the board of
//! queries. Each states its answer, which was worked out by hand.
#![tactic(auto)]

mod boards;
mod candidates;
mod conclusions;
mod forms;
mod printing;
mod replaying;
mod rows;
mod steps;

use rows::Rows;
use std::io::{self, Write};

fn main(rt: HostRuntime) -> io::Result<()> {
    let alloc = rt.alloc();
    let text = io::read_to_string(alloc, rt.stdin())?;
    match row_lines::report(alloc, &Rows, text.as_str()) {
        Ok(told) => rt.stdout().write_all(told.as_slice()),
        Err(_) => Err(io::ErrorKind::InvalidData.into()),
    }
}
