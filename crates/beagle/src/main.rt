//! The program: reads a problem from standard input and writes the answer to standard output.
#![tactic(auto)]

ghost use Rattle.std.specs.Prelude.{◌≡◌, drop};

use beagle_top::beagle;
use beagle_top::statuses::MEMORY;
use byte_ends::{StdSink, StdSource};
use judge_base::Judge;
use judges::CooperJudge;
use std::alloc::AllocError;
use std::env;
use std::io::ErrorKind;
use std::process::ExitCode;
use std::rt::Env;

/// How many judges the program has.
const JUDGES: usize = 8;

// The words on the command line, the program's name first. Where they are no text, an empty word stands for them behind
// an empty name, which is refused as wrong usage.
fn words(rt: &(impl Env + AllocGlobal)) -> Result<Vec<String>, AllocError> {
    let alloc = rt.alloc();
    match env::args(rt) {
        Ok(words) => words.collect(alloc),
        Err(error) if error.kind() == ErrorKind::OutOfMemory => Err(AllocError),
        Err(_) => Ok(vec![in alloc; String::new(alloc), String::new(alloc)]?),
    }
}

// The words behind the program's name.
fn behind_name(words: &[String]) -> &[String]
    ensures { result.now ≡ drop 1 words.now }
{
    match words {
        [] => words,
        [_name, rest @ ..] => rest,
    }
}

// Runs the program with judges of its own.
fn main(rt: HostRuntime) -> ExitCode {
    let alloc = rt.alloc();
    let Ok(words) = words(&rt) else {
        return ExitCode::from(MEMORY);
    };
    let mut judges: Vec<Box<dyn Judge + Send>> = Vec::new(alloc);
    for _ in 0..JUDGES {
        let Ok(judge) = Box::new(alloc, CooperJudge::new(alloc)) else {
            return ExitCode::from(MEMORY);
        };
        let judge: Box<dyn Judge + Send> = judge;
        if judges.push(judge).is_err() {
            return ExitCode::from(MEMORY);
        }
    }
    let mut source = StdSource::new(rt.stdin());
    let mut sink = StdSink::new(rt.stdout());
    let ended = beagle(alloc, behind_name(&words), &mut source, &mut sink, judges);
    ExitCode::from(ended.status)
}
