//! Rows of texts: numbers, words and lists, terms, clauses, places and substitutions, certificates, derivations, and what a check
//! of a problem and the answer behind it finds. Each states its answer, which was worked out by hand.
#![tactic(auto)]

mod certificates;
mod checks;
mod derivations;
mod lists;
mod pieces;
mod rows;
mod terms;

use rows::Rows;
use std::io::{self, Write};

fn main(rt: HostRuntime) -> io::Result<()> {
    let alloc = rt.alloc();
    let text = io::read_to_string(alloc, rt.stdin())?;
    match row_lines::report(alloc, &Rows, text.as_str()) {
        Ok(told) => rt.stdout().write_all(told.as_slice()),
        Err(_) => Err(io::ErrorKind::InvalidData.into()),
    }
}
