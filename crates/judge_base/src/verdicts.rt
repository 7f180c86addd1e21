//! Queries, and the verdicts on them.

ghost use Rattle.std.specs.Prelude.{◌≡◌, IfOk};

use cert_tree::Cert;
use lin_base::Pool;
use sqlite_items::Items;
use std::alloc::{AllocError, Global};

/// A pool that is to be decided, under a number of its own.
#[derive(Debug, Drop)]
pub struct Query {
    /// The query's number.
    pub number: u64,
    /// The pool.
    pub pool: Pool,
}

/// Why a pool was not decided.
#[derive(Clone, Copy, Debug, PartialEq, Eq)]
pub enum Why {
    /// Its Bulk is greater than the limit.
    Spent,
    /// Its Span is 2^127 or greater.
    Wide,
    /// Its Depth is greater than `MAX_DEPTH`.
    Deep,
}

/// What a judge says of a pool.
#[derive(Debug, Drop)]
pub enum Verdict {
    /// It is true at no values: the certificate stands for it.
    Unsat(Cert),
    /// It is true at these values, one for each parameter, and the check of values says so.
    Sat(Items<i128>),
    /// It was not decided.
    Unknown(Why),
}

impl Verdict {
    /// The same verdict.
    pub fn copy(&self, alloc: Global) -> Result<Verdict, AllocError>
        ensures { IfOk result (λ v. v ≡ self.now) }
    {
        match self {
            Verdict::Unsat(cert) => Ok(Verdict::Unsat(cert.copy(alloc)?)),
            Verdict::Sat(values) => Ok(Verdict::Sat(Items::from_slice(alloc, values.as_slice())?)),
            Verdict::Unknown(why) => Ok(Verdict::Unknown(*why)),
        }
    }
}
