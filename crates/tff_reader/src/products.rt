//! The faults of products.
ghost use Rattle.std.specs.Prelude.{◌≡◌, IfOk, MatchResult};
ghost use Rattle.tff_reader.specs.NumberTerms as spec;
ghost use Rattle.tff_reader.specs.Stops.{first_of, Stopped};

use crate::numbers::{Computed, head_number};
use crate::stops::Stop;
use sqlite_items::Items;
use std::alloc::{AllocError, Global};
use tff_grammar::{Content, Formula, Head, Operation, Statement, Term};
use tff_signature::{Later, LaterName};

/// What a term computes to where it is a number-term, and the first fault of its products.
#[derive(Clone, Copy)]
struct Products {
    number: Option<Computed>,
    fault: Option<Later>,
}

/// The number-term of a product.
fn factor(numbers: &[Option<Computed>]) -> Option<Computed>
    ensures { result ≡ spec.factor numbers.now }
{
    for number in numbers {
        if number.is_some() {
            return *number;
        }
    }
    None
}

/// The fault of a product at this byte, by its number-term.
fn product_fault(at: u64, factor: Option<Computed>) -> Option<Later>
    ensures { result ≡ first_of (spec.product_fault at factor) }
{
    match factor {
        None => Some(Later {
            name: LaterName::NonLinear,
            at,
        }),
        Some(Computed::Wide) => Some(Later {
            name: LaterName::NumberTooWide,
            at,
        }),
        Some(Computed::Value(_)) => None,
    }
}

/// The fault of a head over these arguments.
fn head_fault(head: Head, numbers: &[Option<Computed>]) -> Option<Later>
    ensures { result ≡ first_of (spec.head_fault head numbers.now) }
{
    match head {
        Head::Operation(Operation::Product, span) => product_fault(span.start, factor(numbers)),
        _ => None,
    }
}

/// The products of a term.
#[tactic(auto, using(crate::proofs::StopLemmas::first_of_both))]
fn products_of(alloc: Global, term: &Term) -> Result<Products, AllocError>
    ensures number { IfOk result (λ p. p.number ≡ (spec.products term.now).number) }
    ensures fault { IfOk result (λ p. p.fault ≡ first_of (spec.products term.now).faults) }
{
    match term {
        Term::Variable(_) => Ok(Products {
            number: None,
            fault: None,
        }),
        Term::Numeral(number) => Ok(Products {
            number: Some(Computed::Value(number.value)),
            fault: None,
        }),
        Term::Apply(head, args) => {
            let mut numbers = Items::new(alloc);
            let mut inside = None;
            for arg in args.as_slice() {
                let products = products_of(alloc, arg)?;
                numbers.push(products.number)?;
                inside = inside.or(products.fault);
            }
            Ok(Products {
                number: head_number(*head, numbers.as_slice()),
                fault: head_fault(*head, numbers.as_slice()).or(inside),
            })
        }
    }
}

/// The first fault of a term's products.
fn check_term(alloc: Global, term: &Term) -> Result<(), Stop>
    ensures { Stopped result (spec.products term.now).faults }
{
    let products = products_of(alloc, term)?;
    match products.fault {
        None => Ok(()),
        Some(fault) => Err(Stop::Fault(fault)),
    }
}

/// The first fault of a formula's products.
#[tactic(auto, using(crate::proofs::StopLemmas::stops_sooner, crate::proofs::StopLemmas::stops_later, crate::proofs::StopLemmas::stopped_behind))]
fn check_formula(alloc: Global, formula: &Formula) -> Result<(), Stop>
    ensures { Stopped result (spec.product_faults formula.now) }
{
    match formula {
        Formula::Constant(_) => Ok(()),
        Formula::Atom(term) => check_term(alloc, term),
        Formula::Relation(_, left, right) => {
            check_term(alloc, left)?;
            check_term(alloc, right)
        }
        Formula::Not(operand) => check_formula(alloc, operand.get()),
        Formula::Quantified(_, _, body) => check_formula(alloc, body.get()),
        Formula::Linked(_, left, right) => {
            check_formula(alloc, left.get())?;
            check_formula(alloc, right.get())
        }
        Formula::Joined(_, members) => {
            for member in members.as_slice() {
                check_formula(alloc, member)?;
            }
            Ok(())
        }
    }
}

/// The first fault of all products of a file.
#[tactic(auto, using(crate::proofs::StopLemmas::stops_sooner, crate::proofs::StopLemmas::stops_later, crate::proofs::StopLemmas::stopped_behind))]
pub(crate) fn check_products(alloc: Global, statements: &[Statement]) -> Result<(), Stop>
    ensures { Stopped result (spec.phase_4 statements.now) }
{
    for statement in statements {
        match &statement.content {
            Content::Declaration(_, _) => {}
            Content::Premise(formula) | Content::Conjecture(formula) => {
                check_formula(alloc, formula)?;
            }
        }
    }
    Ok(())
}
