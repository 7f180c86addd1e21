//! The options of a run.

ghost use Rattle.std.specs.Prelude.{◌≡◌};
ghost use Rattle.options.specs.Asked.{AreInRange};
ghost use Rattle.options.specs.Asked as spec;

use crate::limits::{DEFAULT_JUDGE_STEPS, DEFAULT_TURNS, DEFAULT_WORKERS};

/// What a run does.
#[derive(Clone, Copy, Debug, PartialEq, Eq)]
pub enum Mode {
    /// It searches for a refutation of the problem that it reads.
    Prove,
    /// It checks a derivation or a saturated list that stands behind its problem.
    Check,
    /// It makes the problem of this number, and searches for a refutation of it.
    Make(u32),
}

/// The options of a run.
#[derive(Clone, Copy, Debug, PartialEq, Eq)]
pub struct Options {
    /// How many workers decide queries, 1 to `MAX_WORKERS`.
    pub workers: u32,
    /// How many clauses are activated at most, 1 to `MAX_TURNS`.
    pub turns: u32,
    /// How many steps a judge may take on one query, 1 to `MAX_JUDGE_STEPS`.
    pub judge_steps: u64,
    /// Whether all variables are ordinary in each clause with a foreground symbol.
    pub ordinary: bool,
    /// What the run does.
    pub mode: Mode,
}

/// The options of a run for which no words are given, but for what it does.
pub fn default_options(mode: Mode) -> Options
    ensures value { result ≡ spec.default_options mode }
    ensures ranges { AreInRange result }
{
    Options {
        workers: DEFAULT_WORKERS,
        turns: DEFAULT_TURNS,
        judge_steps: DEFAULT_JUDGE_STEPS,
        ordinary: false,
        mode,
    }
}
