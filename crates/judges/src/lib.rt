//! The judges of the program: each decides pools within a limit, and keeps the promises of its verdicts.
#![tactic(auto)]

mod cooper_judge;

pub use cooper_judge::CooperJudge;
