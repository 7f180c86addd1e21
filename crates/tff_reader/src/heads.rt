//! The types of heads, and what a place asks of a term.
ghost use Rattle.std.specs.Prelude.{◌≡◌, [], ◌∷◌, drop, IfOk, IfErr};
ghost use Rattle.tff_reader.specs.Typing as spec;
ghost use Rattle.tff_signature.specs.Faults.{checked, fault};
ghost use Rattle.tff_reader.specs.Heads.{typed};

use term_base::Sort;
use tff_grammar::{Head, Operation};
use tff_signature::{Later, LaterName, span};

/// What a place asks of a term.
#[derive(Clone, Copy)]
pub enum Wanted {
    /// A predicate: the sort `$o`.
    Predicate,
    /// A term of any other sort.
    Term,
    /// A term of this sort.
    OfSort(Sort),
}

/// The sorts of a head's arguments, and of what it gives.
#[derive(Clone, Copy)]
pub(crate) struct HeadType<'a> {
    pub(crate) args: &'a [Sort],
    pub(crate) result: Sort,
}

/// The sorts of the arguments of an arithmetic word.
fn operation_args(operation: Operation) -> &'static [Sort]
    ensures { result.now ≡ (spec.operation_type operation).args }
{
    match operation {
        Operation::Uminus => &[Sort::Int],
        _ => &[Sort::Int, Sort::Int],
    }
}

/// The sort of what an arithmetic word gives.
fn operation_result(operation: Operation) -> Sort
    ensures { result ≡ (spec.operation_type operation).result }
{
    match operation {
        Operation::Sum | Operation::Difference | Operation::Uminus | Operation::Product =>
            Sort::Int,
        Operation::Less | Operation::LessEq | Operation::Greater | Operation::GreaterEq =>
            Sort::Truth,
    }
}

/// The type of an arithmetic word.
pub(crate) fn operation_type(operation: Operation) -> HeadType<'static>
    ensures args { result.args.now ≡ (spec.operation_type operation).args }
    ensures sort { result.result ≡ (spec.operation_type operation).result }
{
    HeadType {
        args: operation_args(operation),
        result: operation_result(operation),
    }
}

/// Where a head stands.
pub(crate) fn head_place(head: Head) -> u64
    ensures { result ≡ spec.head_place head }
{
    match head {
        Head::Word(word) => span(word).start,
        Head::Operation(_, span) => span.start,
    }
}

/// Whether a sort is what is asked.
fn suits(wanted: Wanted, sort: Sort) -> bool
    ensures { result ≡ spec.suits wanted sort }
{
    match wanted {
        Wanted::Predicate => sort == Sort::Truth,
        Wanted::Term => sort != Sort::Truth,
        Wanted::OfSort(asked) => sort == asked,
    }
}

/// What the first of these sorts asks of an argument, and the other sorts.
pub(crate) fn asked(sorts: &[Sort]) -> (Wanted, &[Sort])
    ensures wanted { result.0 ≡ spec.asked sorts.now }
    ensures others { result.1.now ≡ drop 1 sorts.now }
{
    match sorts {
        [] => (Wanted::Term, sorts),
        [sort, others @ ..] => (Wanted::OfSort(*sort), others),
    }
}

/// What the left side of an equation, which has this sort, asks of the right one.
pub(crate) fn right_side(sort: Option<Sort>) -> Wanted
    ensures { result ≡ spec.right_side sort }
{
    match sort {
        Some(sort) => Wanted::OfSort(sort),
        None => Wanted::Term,
    }
}

fn ill_typed(at: u64) -> Later
    ensures { result ≡ fault LaterName.IllTyped at }
{
    Later {
        name: LaterName::IllTyped,
        at,
    }
}

/// IllTyped for a term at this byte that has another sort than is asked, or none.
pub(crate) fn check_own(wanted: Wanted, at: u64, sort: Option<Sort>) -> Result<(), Later>
    ensures { result ≡ checked (spec.own_fault wanted at sort) }
{
    match sort {
        Some(sort) if suits(wanted, sort) => Ok(()),
        _ => Err(ill_typed(at)),
    }
}

/// IllTyped for a head at this byte that is no symbol, or has another use or another number of arguments than its type says.
pub(crate) fn check_head<'a>(
    wanted: Wanted,
    at: u64,
    arity: usize,
    given: Option<HeadType<'a>>,
) -> Result<&'a [Sort], Later>
    ensures ok { IfOk result
        (λ sorts. (spec.head_fault wanted at arity (typed given.entry) ≡ [])
        × (sorts.now ≡ spec.arguments (typed given.entry))) }
    ensures err { IfErr result (λ f. spec.head_fault wanted at arity (typed given.entry) ≡ f ∷ []) }
{
    match given {
        Some(given) if suits(wanted, given.result) && arity == given.args.len() => Ok(given.args),
        _ => Err(ill_typed(at)),
    }
}
