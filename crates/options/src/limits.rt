//! Limits and defaults.

/// The most bytes that are read.
pub const INPUT_LIMIT: u64 = 16_777_216;

/// The most clauses that a problem may have.
pub const MAX_CLAUSES: u64 = 100_000;

/// The most workers.
pub const MAX_WORKERS: u64 = 8;

/// How many workers there are where no number is given.
pub const DEFAULT_WORKERS: u32 = 2;

/// The most clauses that may be activated.
pub const MAX_TURNS: u64 = 1_000_000;

/// How many clauses are activated at most where no number is given.
pub const DEFAULT_TURNS: u32 = 5_000;

/// The most steps that a judge may take on one query.
pub const MAX_JUDGE_STEPS: u64 = 4_294_967_296;

/// How many steps a judge may take on one query where no number is given.
pub const DEFAULT_JUDGE_STEPS: u64 = 200_000;

/// The number of the last problem that can be made.
pub const LAST_MADE: u64 = 4_294_967_295;
