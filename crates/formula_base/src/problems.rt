//! Problems.

ghost use Rattle.std.specs.Prelude.{◌≡◌, IfOk};

use crate::formulas::Formula;
use sqlite_items::Items;
use std::alloc::{AllocError, Global};
use term_base::Symbol;

/// What a file says: its symbols in the order of their first places, the number of its declared sorts, its
/// premises in order, and its conjecture where it has one. `Declared(n)` is a sort where n is below `sorts`.
#[derive(Drop)]
pub struct Problem {
    pub symbols: Items<Symbol>,
    pub sorts: u32,
    pub premises: Items<Formula>,
    pub conjecture: Option<Formula>,
}

/// A list of symbols that equals these.
pub fn copy_symbols(alloc: Global, symbols: &[Symbol]) -> Result<Items<Symbol>, AllocError>
    ensures { IfOk result (λ all. all ≡ symbols.now) }
{
    let mut all = Items::new(alloc);
    for symbol in symbols {
        all.push(symbol.copy(alloc)?)?;
    }
    Ok(all)
}
