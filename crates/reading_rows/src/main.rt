//! Rows of reading: tokens, the first faults of texts, problems, signatures and clauses. Each states its answer, which was worked
//! out by hand.
#![tactic(auto)]

mod formulas;
mod grammar;
mod normal_forms;
mod problems;
mod rows;
mod scans;
mod signatures;

use rows::Rows;
use std::io::{self, Write};

fn main(rt: HostRuntime) -> io::Result<()> {
    let alloc = rt.alloc();
    let text = io::read_to_string(alloc, rt.stdin())?;
    match row_lines::report(alloc, &Rows, text.as_str()) {
        Ok(told) => rt.stdout().write_all(told.as_slice()),
        Err(_) => Err(io::ErrorKind::InvalidData.into()),
    }
}
