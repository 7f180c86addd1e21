//! The clauses of a problem.

ghost use Rattle.std.specs.Prelude.{◌≡◌, ◌++◌, ◌≤◌, ◌<◌, length, IfOk, OnOk, IfErr};
ghost use Rattle.normal_form.specs.Clauses.{AreWellSorted, count_of, made, max_clauses, prepared};
ghost use Rattle.normal_form.specs.Known.{HasKnownSymbols};
ghost use Rattle.formula_base.specs.Typing.{IsWellTyped};
ghost use Rattle.normal_form.specs.Count.{saturated};
ghost use Rattle.normal_form.specs.Answer.{IsRefusal};

use crate::binders::Binders;
use crate::conversion::Conversion;
use crate::counting::count;
use crate::literals::Clauses;
use crate::numbering::numbered_all;
use formula_base::{Problem, copy_symbols};
use sqlite_items::Items;
use std::alloc::{AllocError, Global};
use term_base::{Prepared, Symbol, TooMany};
use thiserror::Error;

/// The most clauses that are taken.
const MAX_CLAUSES: u64 = 100_000;

/// Why a problem's clauses are not given: memory ran out, or there are more than are taken.
#[derive(Clone, Copy, Debug, PartialEq, Eq, Error)]
pub enum ClausesError {
    #[error("out of memory")]
    Memory,
    #[error("{0}")]
    TooMany(TooMany),
}

impl From<AllocError> for ClausesError {
    ghost use Rattle.std.specs.Prelude.{◌≡◌};
    ghost use Rattle.normal_form.specs.declared.preparing.ClausesError.TheVariants.{Memory};

    ghost from_gives = { λ _ e. e ≡ Memory };

    fn from(_e: AllocError) -> ClausesError {
        ClausesError::Memory
    }
}

/// The clauses of a problem over its symbols and the Skolem symbols behind them. With `ordinary` no abstraction
/// variable is in a clause that has a foreground symbol. TooMany comes exactly where there are over 100,000
/// clauses, before any of them is made.
pub fn clauses(alloc: Global, problem: &Problem, ordinary: bool) -> Result<Prepared, ClausesError>
    ensures prepared { IfOk result (λ p. p ≡ prepared problem.now ordinary) }
    ensures well_sorted { IsWellTyped problem.now → IfOk result AreWellSorted }
    ensures known { IsWellTyped problem.now → IfOk result HasKnownSymbols }
    ensures counted { IfOk result (λ p. length p.clauses ≡ count_of problem.now) }
    ensures within { OnOk result (count_of problem.now ≤ max_clauses) }
    ensures too_many { max_clauses < count_of problem.now
        → result ≡ Err (ClausesError.TooMany (record { count = saturated (count_of problem.now) })) }
    ensures refused { IfErr result (IsRefusal (count_of problem.now)) }
{
    let count = count(problem);
    if count > MAX_CLAUSES {
        return Err(ClausesError::TooMany(TooMany { count }));
    }
    let prepared = prepare(alloc, problem, ordinary)?;
    Ok(prepared)
}

/// The clauses of a problem, however many.
fn prepare(alloc: Global, problem: &Problem, ordinary: bool) -> Result<Prepared, AllocError>
    ensures { IfOk result (λ p. p ≡ prepared problem.now ordinary) }
{
    let converted = convert(alloc, problem)?;
    let symbols = converted.symbols;
    let clauses = numbered_all(alloc, symbols.as_slice(), ordinary, converted.clauses)?;
    Ok(Prepared { symbols, clauses })
}

/// The clauses of a problem before their variables are numbered, and its symbols with the Skolem symbols.
#[derive(Drop)]
struct Converted {
    clauses: Clauses,
    symbols: Items<Symbol>,
}

/// The clauses of the premises with plus, and those of the conjecture with minus.
fn convert(alloc: Global, problem: &Problem) -> Result<Converted, AllocError>
    ensures clauses { IfOk result (λ c. c.clauses.items ≡ (made problem.now).clauses) }
    ensures symbols { IfOk result (λ c. c.symbols ≡ problem.now.symbols ++ (made problem.now).symbols) }
{
    let mut conversion = Conversion {
        scope: Binders::empty(alloc),
        symbols: copy_symbols(alloc, problem.symbols.as_slice())?,
    };
    let mut clauses = Vec::new(alloc);
    for premise in problem.premises.as_slice() {
        let mut made = conversion.convert(alloc, premise, true)?;
        clauses.append(&mut made)?;
    }
    if let Some(conjecture) = &problem.conjecture {
        let mut made = conversion.convert(alloc, conjecture, false)?;
        clauses.append(&mut made)?;
    }
    Ok(Converted {
        clauses,
        symbols: conversion.symbols,
    })
}
