//! The numbers of unknowns.

ghost use Rattle.std.specs.Prelude.{◌≡◌, ◌≤◌, ◌<◌, ◌+◌, ◌^◌, ◌++◌, length, IfOk, IfErr, OnOk};
ghost use Rattle.std.specs.List.Sorted.{IsStrictlyIncreasing};
ghost use Rattle.lin_base.specs.declared.wides.ArithmeticError.TheVariants.{Memory};
ghost use Rattle.bg_view.specs.Unknowns as spec;
ghost use Rattle.bg_view.specs.Numbers.{IsNumbering, numbering_of};

use indexmap::IndexSet;
use lin_base::ArithmeticError;
use sqlite_items::Items;
use std::alloc::{AllocError, Global};
use term_base::{Clause, Literal, Term, Variable};

/// The unknowns of a clause: a parameter by the rank of its symbol, a variable by its place after
/// `first`.
#[derive(Drop)]
pub(crate) struct Unknowns<'a> {
    /// The symbols of the parameters, ascending.
    pub(crate) symbols: &'a [u32],
    /// The unknown of the first variable.
    pub(crate) first: u32,
    /// The variables, in order.
    pub(crate) variables: IndexSet<Variable>,
}

fn rank(symbols: &[u32], f: u32) -> usize
    requires { IsStrictlyIncreasing symbols.now }
    ensures rank { result ≡ spec.rank f symbols.now }
    ensures bound { result ≤ length symbols.now }
{
    match symbols.binary_search(&f) {
        Ok(at) | Err(at) => at,
    }
}

fn place(variables: &IndexSet<Variable>, v: Variable) -> usize
    ensures place { result ≡ spec.place v variables.now.keys }
    ensures bound { result ≤ length variables.now.keys }
{
    match variables.get_index_of(&v) {
        Some(at) => at,
        None => variables.len(),
    }
}

impl Unknowns<'_> {
    /// The unknown of a symbol.
    pub(crate) fn of_symbol(&self, f: u32) -> u32
        requires { IsNumbering self.now }
        ensures { result ≡ (numbering_of self.now).of_symbol f }
    {
        rank(self.symbols, f) as u32
    }

    /// The unknown of a variable.
    pub(crate) fn of_variable(&self, v: Variable) -> u32
        requires { IsNumbering self.now }
        ensures { result ≡ (numbering_of self.now).of_variable v }
    {
        self.first + place(&self.variables, v) as u32
    }
}

/// The unknowns with these symbols and variables, or Memory where there are more than a `u32`
/// counts.
pub(crate) fn numbered<'a>(
    symbols: &'a [u32],
    first: u32,
    variables: IndexSet<Variable>,
) -> Result<Unknowns<'a>, ArithmeticError>
    requires ascending { IsStrictlyIncreasing symbols.now }
    requires after { length symbols.now ≤ first }
    ensures is { IfOk result (λ u. IsNumbering u) }
    ensures first { IfOk result (λ u. u.first ≡ first) }
    ensures variables { IfOk result (λ u. u.variables ≡ variables) }
    ensures numbering { IfOk result
        (λ u. numbering_of u ≡ spec.numbering symbols.now first variables.keys) }
    ensures memory { IfErr result (λ e. e ≡ Memory) }
    ensures past { IfErr result (λ e. 2 ^ 32 ≤ first + length variables.keys) }
{
    let Ok(count) = u32::try_from(variables.len()) else {
        return Err(ArithmeticError::Memory);
    };
    if first.checked_add(count).is_none() {
        return Err(ArithmeticError::Memory);
    }
    Ok(Unknowns {
        symbols,
        first,
        variables,
    })
}

/// Appends the symbols of a term.
fn append_symbols(t: &Term, symbols: &mut Vec<u32>) -> Result<(), AllocError>
    ensures { OnOk result (symbols.new.items ≡ symbols.old.items ++ spec.symbols_in t.now) }
{
    match t {
        Term::Var(_) | Term::Num(_) | Term::True => Ok(()),
        Term::Sum(a, b) => {
            append_symbols(a.get(), symbols)?;
            append_symbols(b.get(), symbols)
        }
        Term::Scale(_, a) => append_symbols(a.get(), symbols),
        Term::App(f, _) => {
            symbols.push(*f)?;
            Ok(())
        }
    }
}

fn append_literal_symbols(l: &Literal, symbols: &mut Vec<u32>) -> Result<(), AllocError>
    ensures { OnOk result (symbols.new.items ≡ symbols.old.items ++ spec.symbols_in_literal l.now) }
{
    match l {
        Literal::Equal(s, t) | Literal::Differ(s, t) | Literal::AtMost(s, t) => {
            append_symbols(s, symbols)?;
            append_symbols(t, symbols)
        }
    }
}

/// Appends the symbols of a clause.
pub(crate) fn append_clause_symbols(c: &Clause, symbols: &mut Vec<u32>) -> Result<(), AllocError>
    ensures { OnOk result (symbols.new.items ≡ symbols.old.items
        ++ spec.symbols_in_literals c.now.literals) }
{
    for literal in c.literals.as_slice() {
        append_literal_symbols(literal, symbols)?;
    }
    Ok(())
}

/// Appends the symbols of clauses.
pub(crate) fn append_clauses_symbols(
    clauses: &[Clause],
    symbols: &mut Vec<u32>,
) -> Result<(), AllocError>
    ensures { OnOk result (symbols.new.items ≡ symbols.old.items
        ++ spec.symbols_in_clauses clauses.now) }
{
    for clause in clauses {
        append_clause_symbols(clause, symbols)?;
    }
    Ok(())
}

/// Each number once, ascending.
pub(crate) fn ascending(numbers: Vec<u32>) -> Items<u32>
    ensures value { result ≡ spec.ascending numbers.items }
    ensures rises { IsStrictlyIncreasing result }
{
    let mut numbers = numbers;
    numbers.sort_unstable();
    numbers.dedup();
    Items::from_vec(numbers)
}

/// Appends a variable that isn't there yet.
fn note(v: Variable, variables: &mut IndexSet<Variable>) -> Result<(), AllocError>
    ensures { OnOk result (variables.new.keys ≡ spec.noted variables.old.keys v) }
{
    variables.insert_full(v)?;
    Ok(())
}

#[tactic(auto, using(crate::proofs::Noting::noting))]
fn note_variables(t: &Term, variables: &mut IndexSet<Variable>) -> Result<(), AllocError>
    ensures { OnOk result (variables.new.keys ≡
        spec.all_noted variables.old.keys (spec.variables_in t.now)) }
{
    match t {
        Term::Num(_) | Term::True | Term::App(_, _) => Ok(()),
        Term::Var(v) => note(*v, variables),
        Term::Sum(a, b) => {
            note_variables(a.get(), variables)?;
            note_variables(b.get(), variables)
        }
        Term::Scale(_, a) => note_variables(a.get(), variables),
    }
}

#[tactic(auto, using(crate::proofs::Noting::noting))]
fn note_literal_variables(l: &Literal, variables: &mut IndexSet<Variable>) -> Result<(), AllocError>
    ensures { OnOk result (variables.new.keys ≡
        spec.all_noted variables.old.keys (spec.variables_in_literal l.now)) }
{
    match l {
        Literal::Equal(s, t) | Literal::Differ(s, t) | Literal::AtMost(s, t) => {
            note_variables(s, variables)?;
            note_variables(t, variables)
        }
    }
}

/// The variables of a clause by first place.
#[tactic(auto, using(crate::proofs::Noting::noting))]
pub(crate) fn variables_of(alloc: Global, c: &Clause) -> Result<IndexSet<Variable>, AllocError>
    ensures { IfOk result (λ vs. vs.keys ≡ spec.variables_of c.now) }
{
    let mut variables = IndexSet::new(alloc);
    for literal in c.literals.as_slice() {
        note_literal_variables(literal, &mut variables)?;
    }
    Ok(variables)
}
