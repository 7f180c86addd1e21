//! Number-terms: numerals, and arithmetic words over number-terms.
ghost use Rattle.std.specs.Prelude.{◌≡◌, ◌+ℤ◌, ◌*ℤ◌};
ghost use Rattle.tff_reader.specs.NumberTerms as spec;

use tff_grammar::{Head, Operation};

/// What a number-term computes to.
#[derive(Clone, Copy)]
pub enum Computed {
    /// Its value, where it and each step on the way are from -2^127 to 2^127 - 1.
    Value(i128),
    /// None: a step leaves the range.
    Wide,
}

/// The sum of two numbers in the range.
fn formed_sum(a: i128, b: i128) -> Computed
    ensures { result ≡ spec.formed (a +ℤ b) }
{
    match a.checked_add(b) {
        Some(value) => Computed::Value(value),
        None => Computed::Wide,
    }
}

/// The product of two numbers in the range.
fn formed_product(a: i128, b: i128) -> Computed
    ensures { result ≡ spec.formed (a *ℤ b) }
{
    match a.checked_mul(b) {
        Some(value) => Computed::Value(value),
        None => Computed::Wide,
    }
}

fn sum(a: Computed, b: Computed) -> Computed
    ensures { result ≡ spec.sum a b }
{
    match (a, b) {
        (Computed::Value(a), Computed::Value(b)) => formed_sum(a, b),
        _ => Computed::Wide,
    }
}

fn product(a: Computed, b: Computed) -> Computed
    ensures { result ≡ spec.product a b }
{
    match (a, b) {
        (Computed::Value(a), Computed::Value(b)) => formed_product(a, b),
        _ => Computed::Wide,
    }
}

/// -1 times a number.
fn negative(a: Computed) -> Computed
    ensures { result ≡ spec.negative a }
{
    product(Computed::Value(-1), a)
}

/// An arithmetic word over number-terms.
fn operated(operation: Operation, numbers: &[Option<Computed>]) -> Option<Computed>
    ensures { result ≡ spec.operated operation numbers.now }
{
    match (operation, numbers) {
        (Operation::Sum, [Some(a), Some(b)]) => Some(sum(*a, *b)),
        (Operation::Difference, [Some(a), Some(b)]) => Some(sum(*a, negative(*b))),
        (Operation::Uminus, [Some(a)]) => Some(negative(*a)),
        (Operation::Product, [Some(a), Some(b)]) => Some(product(*a, *b)),
        _ => None,
    }
}

/// What a head computes over these arguments, where it gives a number-term.
pub(crate) fn head_number(head: Head, numbers: &[Option<Computed>]) -> Option<Computed>
    ensures { result ≡ spec.head_number head numbers.now }
{
    match head {
        Head::Word(_) => None,
        Head::Operation(operation, _) => operated(operation, numbers),
    }
}
