//! Formulas: their types, and what they mean.
ghost use Rattle.std.specs.Prelude.{◌≡◌, ◌+◌, [], ◌∷◌, map, length, IfOk, OnOk};
ghost use Rattle.tff_reader.specs.Stops.{Reads};
ghost use Rattle.tff_reader.specs.Scopes as scopes;
ghost use Rattle.tff_reader.specs.Bindings.{Binds};
ghost use Rattle.tff_signature.specs.Tables.{IsNamed};
ghost use Rattle.tff_reader.specs.Typing.{term_faults, relation_faults};
ghost use Rattle.tff_reader.specs.Meaning as spec;
ghost use Rattle.tff_reader.specs.Contexts.{signature, OnRead, OnReadAll};

use crate::heads::Wanted;
use crate::scopes::Scope;
use crate::stops::Stop;
use crate::terms::{Context, pair};
use formula_base::Formula;
use sqlite_items::Items;
use std::alloc::{AllocError, Global};
use term_base::{Sort, Term, Variable};
use tff_grammar::{
    BasicSort, Formula as WrittenFormula, Head, Junction, Link, Operation, Quantifier, Relation,
    Sort as WrittenSort, Term as WrittenTerm, Variable as WrittenVariable,
};
use tff_signature::{Names, name, sort_number};

/// The number behind a binder's. More than 2^32 binders in a formula count as want of memory.
fn after(number: u32) -> Result<u32, AllocError>
    ensures { IfOk result (λ n. n ≡ number + 1) }
{
    match number.checked_add(1) {
        Some(next) => Ok(next),
        None => Err(AllocError),
    }
}

/// An arithmetic word as a formula, by its arguments.
fn comparison(operation: Operation, terms: Items<Term>) -> Formula
    ensures { result ≡ spec.comparison operation terms }
{
    match pair(terms) {
        Some((first, second)) => match operation {
            Operation::Less => Formula::Less(first, second),
            Operation::LessEq => Formula::LessEq(first, second),
            Operation::Greater => Formula::Less(second, first),
            Operation::GreaterEq => Formula::LessEq(second, first),
            _ => Formula::True,
        },
        None => Formula::True,
    }
}

/// Two formulas as members.
fn members_of(alloc: Global, first: Formula, second: Formula) -> Result<Items<Formula>, AllocError>
    ensures { IfOk result (λ fs. fs ≡ first ∷ second ∷ []) }
{
    let mut members = Items::new(alloc);
    let first = members.push(first);
    let second = members.push(second);
    first?;
    second?;
    Ok(members)
}

/// A truth value as a formula.
fn constant(value: bool) -> Formula
    ensures { result ≡ spec.constant_of value }
{
    if value { Formula::True } else { Formula::False }
}

/// Formulas with the same sign between them.
fn joined(junction: Junction, members: Items<Formula>) -> Formula
    ensures { result ≡ spec.joined junction members }
{
    match junction {
        Junction::And => Formula::And(members),
        Junction::Or => Formula::Or(members),
    }
}

/// The first of two formulas, or the negation of the second.
fn converse(alloc: Global, left: Formula, right: Formula) -> Result<Formula, AllocError>
    ensures { IfOk result (λ f. f ≡ spec.linked Link.Implied left right) }
{
    let negated = Formula::negation(alloc, right)?;
    Ok(Formula::Or(members_of(alloc, left, negated)?))
}

/// The negation of an equivalence.
fn difference(alloc: Global, left: Formula, right: Formula) -> Result<Formula, AllocError>
    ensures { IfOk result (λ f. f ≡ spec.linked Link.Xor left right) }
{
    let both = Formula::equivalence(alloc, left, right)?;
    Formula::negation(alloc, both)
}

/// The negation of a conjunction.
fn negated_conjunction(alloc: Global, left: Formula, right: Formula) -> Result<Formula, AllocError>
    ensures { IfOk result (λ f. f ≡ spec.linked Link.Nand left right) }
{
    let both = members_of(alloc, left, right)?;
    Formula::negation(alloc, Formula::And(both))
}

/// The negation of a disjunction.
fn negated_disjunction(alloc: Global, left: Formula, right: Formula) -> Result<Formula, AllocError>
    ensures { IfOk result (λ f. f ≡ spec.linked Link.Nor left right) }
{
    let either = members_of(alloc, left, right)?;
    Formula::negation(alloc, Formula::Or(either))
}

/// Two formulas with a sign between them.
fn linked(alloc: Global, link: Link, left: Formula, right: Formula) -> Result<Formula, AllocError>
    ensures { IfOk result (λ f. f ≡ spec.linked link left right) }
{
    match link {
        Link::Implies => Formula::implication(alloc, left, right),
        Link::Implied => converse(alloc, left, right),
        Link::Iff => Formula::equivalence(alloc, left, right),
        Link::Xor => difference(alloc, left, right),
        Link::Nand => negated_conjunction(alloc, left, right),
        Link::Nor => negated_disjunction(alloc, left, right),
    }
}

/// A quantifier over its variables.
fn quantified(
    alloc: Global,
    quantifier: Quantifier,
    variables: Items<Variable>,
    body: Formula,
) -> Result<Formula, AllocError>
    ensures { IfOk result (λ f. f ≡ spec.quantified quantifier variables body) }
{
    match quantifier {
        Quantifier::ForAll => Formula::for_all(alloc, variables, body),
        Quantifier::Exists => Formula::for_some(alloc, variables, body),
    }
}

/// An equation, or the negation of one.
fn relation(alloc: Global, sign: Relation, left: Term, right: Term) -> Result<Formula, AllocError>
    ensures { IfOk result (λ f. f ≡ spec.relation_of sign left right) }
{
    let same = Formula::Same(left, right);
    match sign {
        Relation::Equal => Ok(same),
        Relation::Differ => Formula::negation(alloc, same),
    }
}

/// The variable of a binder with this number.
fn variable(
    text: &[u8],
    sorts: &Names,
    number: u32,
    sort: Option<WrittenSort>,
) -> Result<Variable, AllocError>
    ensures { IfOk result (λ v. v ≡ scopes.variable_of_sort text.now sorts.now number sort) }
{
    match sort {
        None | Some(WrittenSort::Basic(BasicSort::Individual)) | Some(WrittenSort::Truth) => {
            Ok(Variable::ordinary(Sort::Individual, number))
        }
        Some(WrittenSort::Basic(BasicSort::Int)) => Ok(Variable::abstraction(number)),
        Some(WrittenSort::Word(word)) => {
            let sort = sort_number(sorts, name(text, word))?;
            Ok(Variable::ordinary(Sort::Declared(sort), number))
        }
    }
}

impl Context<'_, '_, '_> {
    /// A term that stands as a formula.
    fn atom(&self, scope: &Scope, term: &WrittenTerm) -> Result<Formula, Stop>
        requires { IsNamed self.now.signature.now }
        ensures { (sc : scopes.Scope) → Binds scope.now sc
            → Reads result (term_faults self.now.text.now self.now.signature.now.symbols sc term.now Wanted.Predicate)
            (λ f. f ≡ spec.atom_of self.now.text.now self.now.signature.now.symbols sc term.now) }
    {
        match term {
            WrittenTerm::Apply(Head::Operation(operation, span), args) => {
                let head = Head::Operation(*operation, *span);
                let terms = self.compared(scope, head, args.as_slice())?;
                Ok(comparison(*operation, terms))
            }
            _ => Ok(Formula::Atom(self.term(scope, Wanted::Predicate, term)?)),
        }
    }

    /// Binds the variables of a quantifier, numbered from `next` on: the variables, and the number behind them.
    fn bind(
        &self,
        scope: &mut Scope,
        next: u32,
        variables: &[WrittenVariable],
    ) -> Result<(Items<Variable>, u32), AllocError>
        ensures bound { IfOk result
            (λ (vs, n). vs ≡ scopes.variables_from self.now.text.now self.now.sorts.now next variables.now) }
        ensures number { IfOk result (λ (vs, n). n ≡ next + length variables.now) }
        ensures scope { (sc : scopes.Scope) → Binds scope.old sc
            → OnOk result (Binds scope.new (scopes.bind self.now.text.now self.now.sorts.now next variables.now sc)) }
    {
        let mut bound = Items::new(self.alloc);
        let mut number = next;
        for written in variables {
            let variable = variable(self.text, self.sorts, number, written.sort)?;
            scope.enter(self.alloc, written.name.bytes(self.text), variable)?;
            bound.push(variable)?;
            number = after(number)?;
        }
        Ok((bound, number))
    }

    /// A formula with its binders numbered from `next` on, and the number behind them.
    #[cycle(formula)]
    pub(crate) fn formula(
        &self,
        scope: &mut Scope,
        next: u32,
        formula: &WrittenFormula,
    ) -> Result<(Formula, u32), Stop>
        requires { IsNamed self.now.signature.now }
        ensures { (sc : scopes.Scope) → Binds scope.old sc
            → OnRead result scope.new sc (spec.meaning self.now.text.now (signature self.now) formula.now sc next) }
    {
        match formula {
            WrittenFormula::Constant(value) => Ok((constant(*value), next)),
            WrittenFormula::Atom(term) => Ok((self.atom(scope, term)?, next)),
            WrittenFormula::Relation(sign, left, right) => {
                let (first, second) = self.sides(scope, left, right)?;
                Ok((relation(self.alloc, *sign, first, second)?, next))
            }
            WrittenFormula::Not(operand) => {
                let (denied, behind) = self.formula(scope, next, operand.get())?;
                Ok((Formula::negation(self.alloc, denied)?, behind))
            }
            WrittenFormula::Quantified(quantifier, variables, body) => {
                let (bound, inside) = self.bind(scope, next, variables.as_slice())?;
                let (body, behind) = self.formula(scope, inside, body.get())?;
                scope.leave(variables.len())?;
                Ok((quantified(self.alloc, *quantifier, bound, body)?, behind))
            }
            WrittenFormula::Linked(link, left, right) => {
                let (first, between) = self.formula(scope, next, left.get())?;
                let (second, behind) = self.formula(scope, between, right.get())?;
                Ok((linked(self.alloc, *link, first, second)?, behind))
            }
            WrittenFormula::Joined(junction, members) => {
                let (all, behind) = self.members(scope, next, members.as_slice())?;
                Ok((joined(*junction, all), behind))
            }
        }
    }

    /// Formulas from left to right, each with its binders numbered behind those before it.
    #[cycle(formula)]
    fn members(
        &self,
        scope: &mut Scope,
        next: u32,
        members: &[WrittenFormula],
    ) -> Result<(Items<Formula>, u32), Stop>
        requires { IsNamed self.now.signature.now }
        ensures { (sc : scopes.Scope) → Binds scope.old sc
            → OnReadAll result scope.new sc
            (map (spec.meaning self.now.text.now (signature self.now)) members.now) next }
    {
        let mut all = Items::new(self.alloc);
        let mut number = next;
        for member in members {
            let (formula, behind) = self.formula(scope, number, member)?;
            all.push(formula)?;
            number = behind;
        }
        Ok((all, number))
    }

    /// A formula of a statement, where nothing is bound.
    pub(crate) fn closed(&self, formula: &WrittenFormula) -> Result<Formula, Stop>
        requires { IsNamed self.now.signature.now }
        ensures { Reads result (spec.formula_meaning self.now.text.now (signature self.now) formula.now).faults
            (λ f. f ≡ (spec.formula_meaning self.now.text.now (signature self.now) formula.now).formula) }
    {
        let mut scope = Scope::new(self.alloc);
        let (read, _) = self.formula(&mut scope, 0, formula)?;
        Ok(read)
    }
}
