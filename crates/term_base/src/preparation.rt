//! The clauses of a problem.

use crate::clauses::Clause;
use crate::symbols::Symbol;
use sqlite_items::Items;
use thiserror::Error;

/// The clauses of a problem, and the signature that they are over: the problem's symbols and then the
/// Skolem symbols.
#[derive(Debug, Drop)]
pub struct Prepared {
    pub symbols: Items<Symbol>,
    pub clauses: Items<Clause>,
}

/// A problem has more clauses than are taken; `count` is their number, or 2^64 - 1 where it is at least that.
#[derive(Clone, Copy, Debug, PartialEq, Eq, Error)]
#[error("the problem has {count} clauses")]
pub struct TooMany {
    pub count: u64,
}
