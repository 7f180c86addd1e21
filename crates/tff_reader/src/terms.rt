//! Terms and atoms: their types, and what they mean.
ghost use Rattle.std.specs.Prelude.{◌≡◌, [], ◌∷◌, map, length, IfOk, IfSome, MatchOption};
ghost use Rattle.tff_grammar.specs.Pieces.{bytes_at};
ghost use Rattle.tff_reader.specs.Stops.{Reads};
ghost use Rattle.tff_reader.specs.Scopes as scopes;
ghost use Rattle.tff_reader.specs.Bindings.{Binds};
ghost use Rattle.tff_signature.specs.Tables.{IsNamed};
ghost use Rattle.tff_reader.specs.Heads.{typed};
ghost use Rattle.tff_reader.specs.Typing as typing;
ghost use Rattle.tff_reader.specs.Meaning as spec;
ghost use Rattle.tff_reader.specs.Arguments.{AreMeant, IsMeant, head_faults, pair_of, single_of, applied, operated, combined, scaled_by};

use crate::heads::{
    HeadType, Wanted, asked, check_head, check_own, head_place, operation_type, right_side,
};
use crate::numbers::{Computed, head_number};
use crate::scopes::Scope;
use crate::stops::Stop;
use sqlite_items::Items;
use std::alloc::{AllocError, Global};
use term_base::{Sort, Term, Variable};
use tff_grammar::{Head, Number, Operation, Span, Term as WrittenTerm};
use tff_signature::{Names, Signature, name};

/// What formulas are read by: the text, its declared sorts and its symbols.
#[derive(Drop)]
pub(crate) struct Context<'t, 'n, 's> {
    pub(crate) alloc: Global,
    pub(crate) text: &'t [u8],
    pub(crate) sorts: &'n Names,
    pub(crate) signature: &'s Signature,
}

/// What a term means, and what it computes to where it is a number-term.
#[derive(Drop)]
pub(crate) struct TermMeaning {
    pub(crate) number: Option<Computed>,
    pub(crate) term: Term,
}

/// What the arguments of a head mean.
#[derive(Drop)]
pub(crate) struct Arguments {
    pub(crate) numbers: Items<Option<Computed>>,
    pub(crate) terms: Items<Term>,
}

impl<'t, 'n, 's> Context<'t, 'n, 's> {
    /// The type of a head, None where a word is no symbol.
    fn head_type(&self, head: Head) -> Option<HeadType<'s>>
        requires { IsNamed self.now.signature.now }
        ensures { typed result ≡ typing.head_type self.now.text.now self.now.signature.now.symbols head }
    {
        match head {
            Head::Word(word) => {
                let symbol = self.signature.symbol_named(name(self.text, word))?;
                Some(HeadType {
                    args: symbol.args.as_slice(),
                    result: symbol.result,
                })
            }
            Head::Operation(operation, _) => Some(operation_type(operation)),
        }
    }

    /// The sort of the variable that a name is bound to.
    fn bound_sort(&self, scope: &Scope, span: Span) -> Option<Sort>
        ensures { (sc : scopes.Scope) → Binds scope.now sc
            → result ≡ typing.bound_sort self.now.text.now self.now.signature.now.symbols sc span }
    {
        let variable = scope.variable(span.bytes(self.text))?;
        Some(variable.sort)
    }

    /// The sort of a term, by its head.
    fn term_sort(&self, scope: &Scope, term: &WrittenTerm) -> Option<Sort>
        requires { IsNamed self.now.signature.now }
        ensures { (sc : scopes.Scope) → Binds scope.now sc
            → result ≡ typing.term_sort self.now.text.now self.now.signature.now.symbols sc term.now }
    {
        match term {
            WrittenTerm::Variable(span) => self.bound_sort(scope, *span),
            WrittenTerm::Numeral(_) => Some(Sort::Int),
            WrittenTerm::Apply(head, _) => Some(self.head_type(*head)?.result),
        }
    }

    /// A term at a place that asks something of it.
    #[cycle(term)]
    fn meaning(
        &self,
        scope: &Scope,
        wanted: Wanted,
        term: &WrittenTerm,
    ) -> Result<TermMeaning, Stop>
        requires { IsNamed self.now.signature.now }
        ensures { (sc : scopes.Scope) → Binds scope.now sc
            → Reads result (typing.term_faults self.now.text.now self.now.signature.now.symbols sc term.now wanted)
            (IsMeant (spec.term_meaning self.now.text.now self.now.signature.now.symbols sc term.now)) }
    {
        match term {
            WrittenTerm::Variable(span) => {
                check_own(wanted, span.start, self.bound_sort(scope, *span))?;
                let term = variable_term(scope.variable(span.bytes(self.text)));
                Ok(TermMeaning { number: None, term })
            }
            WrittenTerm::Numeral(number) => {
                check_own(wanted, number.span.start, Some(Sort::Int))?;
                Ok(numeral_meaning(*number))
            }
            WrittenTerm::Apply(head, args) => {
                let arguments = self.arguments(scope, wanted, *head, args.as_slice())?;
                let number = head_number(*head, arguments.numbers.as_slice());
                let term = self.applied(*head, arguments)?;
                Ok(TermMeaning { number, term })
            }
        }
    }

    /// The arguments of a head at a place that asks something of it.
    #[cycle(term)]
    fn arguments(
        &self,
        scope: &Scope,
        wanted: Wanted,
        head: Head,
        args: &[WrittenTerm],
    ) -> Result<Arguments, Stop>
        requires { IsNamed self.now.signature.now }
        ensures { (sc : scopes.Scope) → Binds scope.now sc
            → Reads result (head_faults self.now.text.now self.now.signature.now.symbols sc wanted head args.now)
            (AreMeant (map (spec.term_meaning self.now.text.now self.now.signature.now.symbols sc) args.now)) }
    {
        let sorts = check_head(wanted, head_place(head), args.len(), self.head_type(head))?;
        let mut numbers = Items::new(self.alloc);
        let mut terms = Items::new(self.alloc);
        let mut rest = sorts;
        for arg in args {
            let (asks, others) = asked(rest);
            let meaning = self.meaning(scope, asks, arg)?;
            numbers.push(meaning.number)?;
            terms.push(meaning.term)?;
            rest = others;
        }
        Ok(Arguments { numbers, terms })
    }

    /// A head over its arguments.
    fn applied(&self, head: Head, arguments: Arguments) -> Result<Term, AllocError>
        requires { IsNamed self.now.signature.now }
        ensures { IfOk result (λ t. t ≡ applied self.now.text.now self.now.signature.now.symbols head arguments) }
    {
        match head {
            Head::Word(word) => {
                let number = self.signature.number_of(name(self.text, word));
                match u32::try_from(number) {
                    Ok(number) => Ok(Term::App(number, arguments.terms)),
                    Err(_) => Err(AllocError),
                }
            }
            Head::Operation(operation, _) => operated(self.alloc, operation, arguments),
        }
    }

    /// A term at a place that asks something of it.
    pub(crate) fn term(
        &self,
        scope: &Scope,
        wanted: Wanted,
        term: &WrittenTerm,
    ) -> Result<Term, Stop>
        requires { IsNamed self.now.signature.now }
        ensures { (sc : scopes.Scope) → Binds scope.now sc
            → Reads result (typing.term_faults self.now.text.now self.now.signature.now.symbols sc term.now wanted)
            (λ t. t ≡ spec.term_of self.now.text.now self.now.signature.now.symbols sc term.now) }
    {
        let meaning = self.meaning(scope, wanted, term)?;
        Ok(meaning.term)
    }

    /// An equation, by its two sides.
    pub(crate) fn sides(
        &self,
        scope: &Scope,
        left: &WrittenTerm,
        right: &WrittenTerm,
    ) -> Result<(Term, Term), Stop>
        requires { IsNamed self.now.signature.now }
        ensures { (sc : scopes.Scope) → Binds scope.now sc
            → Reads result
            (typing.relation_faults self.now.text.now self.now.signature.now.symbols sc left.now right.now)
            (λ (s, t). (s ≡ spec.term_of self.now.text.now self.now.signature.now.symbols sc left.now)
            × (t ≡ spec.term_of self.now.text.now self.now.signature.now.symbols sc right.now)) }
    {
        let first = self.term(scope, Wanted::Term, left)?;
        let second = self.term(scope, right_side(self.term_sort(scope, left)), right)?;
        Ok((first, second))
    }

    /// The arguments of an arithmetic word that stands as a formula.
    pub(crate) fn compared(
        &self,
        scope: &Scope,
        head: Head,
        args: &[WrittenTerm],
    ) -> Result<Items<Term>, Stop>
        requires { IsNamed self.now.signature.now }
        ensures { (sc : scopes.Scope) → Binds scope.now sc
            → Reads result
            (head_faults self.now.text.now self.now.signature.now.symbols sc Wanted.Predicate head args.now)
            (λ ts. ts ≡ map (spec.term_of self.now.text.now self.now.signature.now.symbols sc) args.now) }
    {
        let arguments = self.arguments(scope, Wanted::Predicate, head, args)?;
        Ok(arguments.terms)
    }
}

/// What a numeral means.
fn numeral_meaning(number: Number) -> TermMeaning
    ensures number { result.number ≡ Some (Computed.Value number.value) }
    ensures term { result.term ≡ Term.Num number.value }
{
    TermMeaning {
        number: Some(Computed::Value(number.value)),
        term: Term::Num(number.value),
    }
}

/// The term of what a name is bound to.
fn variable_term(variable: Option<Variable>) -> Term
    ensures { result ≡ spec.variable_term variable }
{
    match variable {
        Some(variable) => Term::Var(variable),
        None => Term::True,
    }
}

/// The two terms of a list of two.
pub(crate) fn pair(terms: Items<Term>) -> Option<(Term, Term)>
    ensures { result ≡ pair_of terms }
{
    let mut terms = terms;
    if terms.len() != 2 {
        return None;
    }
    let second = terms.pop()?;
    let first = terms.pop()?;
    Some((first, second))
}

/// The term of a list of one.
fn single(terms: Items<Term>) -> Option<Term>
    ensures { result ≡ single_of terms }
{
    let mut terms = terms;
    if terms.len() != 1 {
        return None;
    }
    terms.pop()
}

/// An arithmetic word with the result `$int` over its arguments.
fn operated(alloc: Global, operation: Operation, arguments: Arguments) -> Result<Term, AllocError>
    ensures { IfOk result (λ t. t ≡ operated operation arguments.numbers arguments.terms) }
{
    match operation {
        Operation::Uminus => match single(arguments.terms) {
            Some(term) => Term::scale(alloc, -1, term),
            None => Ok(Term::True),
        },
        _ => match pair(arguments.terms) {
            Some((first, second)) => {
                combined(
                    alloc,
                    operation,
                    arguments.numbers.as_slice(),
                    first,
                    second,
                )
            }
            None => Ok(Term::True),
        },
    }
}

/// The first term less the second.
fn difference(alloc: Global, first: Term, second: Term) -> Result<Term, AllocError>
    ensures { IfOk result (λ t. t ≡ Term.Sum first (Term.Scale spec.minus_one second)) }
{
    let subtracted = Term::scale(alloc, -1, second)?;
    Term::sum(alloc, first, subtracted)
}

/// An arithmetic word of two arguments.
fn combined(
    alloc: Global,
    operation: Operation,
    numbers: &[Option<Computed>],
    first: Term,
    second: Term,
) -> Result<Term, AllocError>
    ensures { IfOk result (λ t. t ≡ combined operation numbers.now first second) }
{
    match operation {
        Operation::Sum => Term::sum(alloc, first, second),
        Operation::Difference => difference(alloc, first, second),
        Operation::Product => scaled(alloc, numbers, first, second),
        _ => Ok(Term::True),
    }
}

/// A product: scaled by the first argument where that is a number-term, else by the second.
fn scaled(
    alloc: Global,
    numbers: &[Option<Computed>],
    first: Term,
    second: Term,
) -> Result<Term, AllocError>
    ensures { IfOk result (λ t. t ≡ scaled_by numbers.now first second) }
{
    match numbers {
        [Some(factor), _] => Term::scale(alloc, factor_value(*factor), second),
        [None, Some(factor)] => Term::scale(alloc, factor_value(*factor), first),
        _ => Ok(Term::True),
    }
}

/// The number by which a product scales.
fn factor_value(factor: Computed) -> i128
    ensures { result ≡ spec.factor_value factor }
{
    match factor {
        Computed::Value(value) => value,
        Computed::Wide => 0,
    }
}
