//! Declarations, and the faults of declarations and binders.
ghost use Rattle.std.specs.Prelude.{◌≡◌, ◌++◌, ℕ, flat_map, IfOk, OnOk, List};
ghost use Rattle.std.specs.Cmp.Lexicographic.{pointwise};
ghost use Rattle.std.specs.Option.{option_copied};
ghost use Rattle.tff_signature.specs.Declarations as spec;
ghost use Rattle.tff_signature.specs.Faults.{checked, fault};
ghost use Rattle.tff_signature.specs.Names.{span_of};
ghost use Rattle.tff_signature.specs.Tables.{type_at, or_else, given_to, with_sort, listed, Declares};

use crate::faults::{Later, LaterName};
use crate::names::{Names, name, span};
use indexmap::IndexMap;
use std::alloc::{AllocError, Global};
use tff_grammar::{BasicSort, Content, DeclaredType, Formula, Sort, Statement, Variable, Word};

/// What a file declares: the type of the first declaration of each name, and its sorts.
#[derive(Drop)]
pub struct Declared<'a> {
    /// The declared types, each by the name of its first declaration.
    pub types: IndexMap<Vec<u8>, &'a DeclaredType>,
    /// The declared sorts, by their first declarations.
    pub sorts: Names,
}

impl<'a> Declared<'a> {
    /// The type of the first declaration of a name.
    pub(crate) fn type_of(&self, name: &[u8]) -> Option<&'a DeclaredType>
        ensures { option_copied result ≡ type_at self.now name.now }
    {
        match self.types.get(name) {
            Some(given) => Some(*given),
            None => None,
        }
    }

    /// Keeps the type of a name that has none yet.
    fn add_type(
        &mut self,
        alloc: Global,
        name: &[u8],
        given: &'a DeclaredType,
    ) -> Result<(), AllocError>
        ensures types { OnOk result ((n : List ℕ) → type_at self.new n ≡ or_else (type_at self.old n) (given_to name.now given.now n)) }
        ensures sorts { self.new.sorts ≡ self.old.sorts }
    {
        if self.types.contains_key(name) {
            return Ok(());
        }
        self.types.insert(Vec::from_slice(alloc, name)?, given)?;
        Ok(())
    }

    /// Adds a declaration.
    fn add(&mut self, alloc: Global, name: &[u8], given: &'a DeclaredType) -> Result<(), AllocError>
        ensures types { OnOk result ((n : List ℕ) → type_at self.new n ≡ or_else (type_at self.old n) (given_to name.now given.now n)) }
        ensures sorts { OnOk result (self.new.sorts ≡ with_sort given.now name.now self.old.sorts) }
    {
        self.add_type(alloc, name, given)?;
        match given {
            DeclaredType::OfTypes => self.sorts.add(alloc, name),
            DeclaredType::Function(_, _) => Ok(()),
        }
    }

    /// Adds what a statement declares.
    fn add_content(
        &mut self,
        alloc: Global,
        text: &[u8],
        content: &'a Content,
    ) -> Result<(), AllocError>
        ensures { (ds : List spec.Declaration) → Declares text.now self.old ds
            → OnOk result (Declares text.now self.new (ds ++ listed (spec.declared_in content.now))) }
    {
        match content {
            Content::Declaration(word, given) => self.add(alloc, name(text, *word), given),
            Content::Premise(_) | Content::Conjecture(_) => Ok(()),
        }
    }
}

/// What the statements declare.
pub fn declarations_of<'a>(
    alloc: Global,
    text: &[u8],
    statements: &'a [Statement],
) -> Result<Declared<'a>, AllocError>
    ensures { IfOk result (λ d. Declares text.now d (spec.declarations statements.now)) }
{
    let mut declared = Declared {
        types: IndexMap::new(alloc),
        sorts: Names::new(alloc),
    };
    for statement in statements {
        declared.add_content(alloc, text, &statement.content)?;
    }
    Ok(declared)
}

/// Whether two sorts that are written are one.
fn is_same_sort(text: &[u8], a: Sort, b: Sort) -> bool
    ensures { result ≡ spec.same_sort text.now a b }
{
    match (a, b) {
        (Sort::Word(v), Sort::Word(w)) => name(text, v) == name(text, w),
        (Sort::Basic(b), Sort::Basic(c)) => is_same_basic(b, c),
        (Sort::Truth, Sort::Truth) => true,
        _ => false,
    }
}

fn is_same_basic(b: BasicSort, c: BasicSort) -> bool
    ensures { result ≡ spec.same_basic b c }
{
    match (b, c) {
        (BasicSort::Individual, BasicSort::Individual) | (BasicSort::Int, BasicSort::Int) => true,
        _ => false,
    }
}

fn are_same_sorts(text: &[u8], these: &[Sort], those: &[Sort]) -> bool
    ensures { result ≡ pointwise (spec.same_sort text.now) these.now those.now }
{
    let mut rest = those;
    for a in these {
        match rest {
            [] => return false,
            [b, others @ ..] => {
                if !is_same_sort(text, *a, *b) {
                    return false;
                }
                rest = others;
            }
        }
    }
    rest.is_empty()
}

/// Whether two types that are written are one.
fn is_same_type(text: &[u8], a: &DeclaredType, b: &DeclaredType) -> bool
    ensures { result ≡ spec.same_type text.now a.now b.now }
{
    match (a, b) {
        (DeclaredType::OfTypes, DeclaredType::OfTypes) => true,
        (DeclaredType::Function(args, result), DeclaredType::Function(others, other)) => {
            are_same_sorts(text, args.as_slice(), others.as_slice())
                && is_same_sort(text, *result, *other)
        }
        _ => false,
    }
}

/// A fault at a word.
fn fault_at(name: LaterName, word: Word) -> Later
    ensures { result ≡ fault name (span_of word).start }
{
    Later {
        name,
        at: span(word).start,
    }
}

/// UnknownSort where a sort word is no declared sort.
fn check_sort(text: &[u8], sorts: &Names, sort: Sort) -> Result<(), Later>
    ensures { result ≡ checked (spec.sort_faults text.now sorts.now sort) }
{
    match sort {
        Sort::Word(word) => {
            if sorts.contains(name(text, word)) {
                return Ok(());
            }
            Err(fault_at(LaterName::UnknownSort, word))
        }
        Sort::Basic(_) | Sort::Truth => Ok(()),
    }
}

#[tactic(auto, using(crate::proofs::FaultLemmas::checked_ok, crate::proofs::FaultLemmas::checked_err))]
fn check_sorts(text: &[u8], sorts: &Names, these: &[Sort]) -> Result<(), Later>
    ensures { result ≡ checked (flat_map (spec.sort_faults text.now sorts.now) these.now) }
{
    for sort in these {
        check_sort(text, sorts, *sort)?;
    }
    Ok(())
}

#[tactic(auto, using(crate::proofs::FaultLemmas::checked_ok, crate::proofs::FaultLemmas::checked_err))]
fn check_type(text: &[u8], sorts: &Names, given: &DeclaredType) -> Result<(), Later>
    ensures { result ≡ checked (spec.type_faults text.now sorts.now given.now) }
{
    match given {
        DeclaredType::OfTypes => Ok(()),
        DeclaredType::Function(args, result) => {
            check_sorts(text, sorts, args.as_slice())?;
            check_sort(text, sorts, *result)
        }
    }
}

/// Redeclared where the first declaration of a name gives it another type.
fn check_first(
    text: &[u8],
    word: Word,
    given: &DeclaredType,
    first: Option<&DeclaredType>,
) -> Result<(), Later>
    ensures { result ≡ checked (spec.redeclared text.now word given.now (option_copied first.entry)) }
{
    match first {
        None => Ok(()),
        Some(first) => {
            if is_same_type(text, given, first) {
                return Ok(());
            }
            Err(fault_at(LaterName::Redeclared, word))
        }
    }
}

/// UnknownSort where the sort of a variable is none.
#[tactic(auto, using(crate::proofs::FaultLemmas::checked_ok, crate::proofs::FaultLemmas::checked_err))]
fn check_variables(text: &[u8], sorts: &Names, variables: &[Variable]) -> Result<(), Later>
    ensures { result ≡ checked (flat_map (spec.variable_faults text.now sorts.now) variables.now) }
{
    for variable in variables {
        match variable.sort {
            Some(sort) => check_sort(text, sorts, sort)?,
            None => {}
        }
    }
    Ok(())
}

/// The first fault of a formula's binders.
#[tactic(auto, using(crate::proofs::FaultLemmas::checked_ok, crate::proofs::FaultLemmas::checked_err))]
fn check_binders(text: &[u8], sorts: &Names, formula: &Formula) -> Result<(), Later>
    ensures { result ≡ checked (spec.binder_faults text.now sorts.now formula.now) }
{
    match formula {
        Formula::Constant(_) | Formula::Atom(_) | Formula::Relation(_, _, _) => Ok(()),
        Formula::Not(operand) => check_binders(text, sorts, operand.get()),
        Formula::Quantified(_, variables, body) => {
            check_variables(text, sorts, variables.as_slice())?;
            check_binders(text, sorts, body.get())
        }
        Formula::Linked(_, left, right) => {
            check_binders(text, sorts, left.get())?;
            check_binders(text, sorts, right.get())
        }
        Formula::Joined(_, members) => {
            for member in members.as_slice() {
                check_binders(text, sorts, member)?;
            }
            Ok(())
        }
    }
}

/// The first fault of a declaration, or of a formula's binders.
#[tactic(auto, using(crate::proofs::FaultLemmas::checked_ok, crate::proofs::FaultLemmas::checked_err))]
fn check_content(text: &[u8], declared: &Declared<'_>, content: &Content) -> Result<(), Later>
    ensures { (ds : List spec.Declaration) → Declares text.now declared.now ds
        → result ≡ checked (spec.content_faults text.now ds (spec.sort_names text.now ds) content.now) }
{
    match content {
        Content::Declaration(word, given) => {
            check_first(text, *word, given, declared.type_of(name(text, *word)))?;
            check_type(text, &declared.sorts, given)
        }
        Content::Premise(formula) => check_binders(text, &declared.sorts, formula),
        Content::Conjecture(formula) => check_binders(text, &declared.sorts, formula),
    }
}

/// The first fault of the declarations and binders of a file.
pub fn check_declarations(
    text: &[u8],
    declared: &Declared<'_>,
    statements: &[Statement],
) -> Result<(), Later>
    requires { Declares text.now declared.now (spec.declarations statements.now) }
    ensures { result ≡ checked (spec.phase_2 text.now statements.now) }
{
    for statement in statements {
        check_content(text, declared, &statement.content)?;
    }
    Ok(())
}
