//! Rows of the program: words of a command line, problems, checks, and ends that fail. Each row is a block of text, with a line `---`
//! behind it. Its first line names the call and its arguments, and what follows are the bytes that the call reads, without the last
//! newline. Lines that begin with `#` in front of a row say nothing. `stdout` has what each call does, as it was worked out by hand.
#![tactic(auto)]

mod answers;
mod calls;
mod forgetful;
mod rows;
mod runs;
mod words;

use forgetful::Forgetful;
use judge_base::Judge;
use judges::CooperJudge;
use runs::Judges;
use std::io::{self, Write};

fn main(rt: HostRuntime) -> io::Result<()> {
    let alloc = rt.alloc();
    let text = io::read_to_string(alloc, rt.stdin())?;
    let cooper: Box<dyn Judge + Send> = Box::new(alloc, CooperJudge::new(alloc))?;
    let first: Box<dyn Judge + Send> = Box::new(alloc, Forgetful::new(alloc, 7)?)?;
    let second: Box<dyn Judge + Send> = Box::new(alloc, Forgetful::new(alloc, 8)?)?;
    let mut judges = Judges {
        cooper: vec![in alloc; cooper]?,
        forgetful: vec![in alloc; first, second]?,
    };
    match rows::report(alloc, text.as_str(), &mut judges) {
        Ok(told) => rt.stdout().write_all(told.as_slice()),
        Err(_) => Err(io::ErrorKind::InvalidData.into()),
    }
}
