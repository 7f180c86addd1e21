//! Signatures as words: a letter for the sort of each argument, then one for that of the result.

use sqlite_items::Items;
use std::alloc::{AllocError, Global};
use term_base::{Name, Sort, Sorts, Symbol};

// i, o, z, or d and e for the first two declared sorts
fn sort(letter: u8) -> Sort {
    match letter {
        b'i' => Sort::Individual,
        b'o' => Sort::Truth,
        b'd' => Sort::Declared(0),
        b'e' => Sort::Declared(1),
        _ => Sort::Int,
    }
}

fn sorts(alloc: Global, letters: &[u8]) -> Result<Sorts, AllocError> {
    let mut all = Vec::new(alloc);
    for letter in letters {
        all.push(sort(*letter))?;
    }
    Sorts::from_slice(alloc, all.as_slice())
}

fn symbol(alloc: Global, letters: &[u8]) -> Result<Symbol, AllocError> {
    let (args, result) = match letters {
        [args @ .., result] => (args, sort(*result)),
        [] => (letters, Sort::Int),
    };
    let args = sorts(alloc, args)?;
    Ok(Symbol::new(Name::from_bytes(alloc, b"f")?, args, result))
}

/// The symbols of these words, with a blank between each two: `zz` is a function of integers, `io` a predicate of individuals,
/// `z` a parameter.
pub fn signature(alloc: Global, words: &str) -> Result<Items<Symbol>, AllocError> {
    let mut all = Items::new(alloc);
    for word in words.split_whitespace() {
        all.push(symbol(alloc, word.as_bytes())?)?;
    }
    Ok(all)
}
