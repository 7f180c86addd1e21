//! The exit statuses.

/// A refutation was written, or one was verified.
pub const PROVED: u8 = 0;
/// A saturated list was written.
pub const SATURATED: u8 = 1;
/// The problem was given up.
pub const GAVE_UP: u8 = 2;
/// The input was refused.
pub const REFUSED: u8 = 3;
/// The words on the command line were refused.
pub const USAGE: u8 = 4;
/// The source failed.
pub const READ_FAULT: u8 = 5;
/// The sink failed.
pub const WRITE_FAULT: u8 = 6;
/// Memory ran out.
pub const MEMORY: u8 = 7;
/// A derivation was refused by a check.
pub const PROOF_REFUSED: u8 = 8;
