//! The symbols of a file, in the order of their first places.
ghost use Rattle.std.specs.Prelude.{◌≡◌, ◌≤◌, ◌^◌, ℕ, List, map, fold, IfOk, OnOk, OnErr};
ghost use Rattle.std.specs.Option.{option_copied};
ghost use Rattle.tff_signature.specs.Names.{number_of};
ghost use Rattle.tff_signature.specs.Declarations.{Declaration, declarations};
ghost use Rattle.tff_signature.specs.Symbols as spec;
ghost use Rattle.tff_signature.specs.Tables.{Declares, IsNamed, add_symbol};

use crate::declarations::Declared;
use crate::names::{Names, name};
use smallvec::SmallVec;
use sqlite_items::Items;
use std::alloc::{AllocError, Global};
use term_base::{Name, Sort, Sorts, Symbol};
use tff_grammar::{
    BasicSort, Content, DeclaredType, Formula, Head, Sort as WrittenSort, Statement, Term, Word,
};

/// The symbols of a file, in the order of their numbers.
#[derive(Drop)]
pub struct Signature {
    /// The names of the symbols, in the same order.
    pub names: Names,
    /// The symbols.
    pub symbols: Items<Symbol>,
}

/// What gives words their symbols: the text, and its declarations.
#[derive(Drop)]
struct Source<'t, 'd, 's> {
    alloc: Global,
    text: &'t [u8],
    declared: &'d Declared<'s>,
}

/// The sort that is written, by its number among the declared ones. A number past 2^32 - 1 counts as want of memory.
fn sort_of(text: &[u8], sorts: &Names, sort: WrittenSort) -> Result<Sort, AllocError>
    ensures { IfOk result (λ s. s ≡ spec.sort_of text.now sorts.now sort) }
{
    match sort {
        WrittenSort::Word(word) => Ok(Sort::Declared(sort_number(sorts, name(text, word))?)),
        WrittenSort::Basic(BasicSort::Individual) => Ok(Sort::Individual),
        WrittenSort::Basic(BasicSort::Int) => Ok(Sort::Int),
        WrittenSort::Truth => Ok(Sort::Truth),
    }
}

/// The number of a declared sort. One past 2^32 - 1 counts as want of memory; nothing else fails.
pub fn sort_number(sorts: &Names, name: &[u8]) -> Result<u32, AllocError>
    ensures ok { IfOk result (λ n. n ≡ number_of sorts.now name.now) }
    ensures wide { OnErr result (2 ^ 32 ≤ number_of sorts.now name.now) }
{
    let number = match sorts.number(name) {
        Some(number) => number,
        None => sorts.len(),
    };
    match u32::try_from(number) {
        Ok(number) => Ok(number),
        Err(_) => Err(AllocError),
    }
}

impl Signature {
    /// The symbol with a name.
    pub fn symbol_named(&self, name: &[u8]) -> Option<&Symbol>
        requires { IsNamed self.now }
        ensures { option_copied result ≡ spec.symbol_named self.now.symbols name.now }
    {
        let number = self.names.number(name)?;
        self.symbols.get(number)
    }

    /// The number of the symbol with a name; the number of all symbols, where none has it.
    pub fn number_of(&self, name: &[u8]) -> usize
        requires { IsNamed self.now }
        ensures { result ≡ spec.symbol_number self.now.symbols name.now }
    {
        match self.names.number(name) {
            Some(number) => number,
            None => self.names.len(),
        }
    }

    /// Adds the symbol of a word at its first place, where it isn't a sort: with its declared type, else by its use.
    fn add_use(
        &mut self,
        source: &Source<'_, '_, '_>,
        word: Word,
        arity: usize,
        whole: bool,
    ) -> Result<(), AllocError>
        requires { IsNamed self.old }
        ensures named { OnOk result (IsNamed self.new) }
        ensures symbols { (ds : List Declaration) → Declares source.now.text.now source.now.declared.now ds
            → OnOk result (self.new.symbols ≡ add_symbol source.now.text.now ds self.old.symbols (spec.word_use source.now.text.now word arity whole)) }
    {
        let name = name(source.text, word);
        if self.names.contains(name) {
            return Ok(());
        }
        let symbol = match source.declared.type_of(name) {
            None => used_symbol(source.alloc, name, arity, whole)?,
            Some(DeclaredType::OfTypes) => return Ok(()),
            Some(DeclaredType::Function(args, result)) => {
                declared_symbol(source, name, args.as_slice(), *result)?
            }
        };
        self.names.add(source.alloc, name)?;
        self.symbols.push(symbol)
    }

    /// Adds the word of a head, where it is one.
    fn add_head(
        &mut self,
        source: &Source<'_, '_, '_>,
        head: Head,
        arity: usize,
        whole: bool,
    ) -> Result<(), AllocError>
        requires { IsNamed self.old }
        ensures named { OnOk result (IsNamed self.new) }
        ensures symbols { (ds : List Declaration) → Declares source.now.text.now source.now.declared.now ds
            → OnOk result (self.new.symbols ≡ fold (add_symbol source.now.text.now ds) self.old.symbols (spec.head_uses source.now.text.now head arity whole)) }
    {
        match head {
            Head::Word(word) => self.add_use(source, word, arity, whole),
            Head::Operation(_, _) => Ok(()),
        }
    }

    /// Adds the words of a term, or of a whole atomic formula that has the form of one.
    fn add_term(
        &mut self,
        source: &Source<'_, '_, '_>,
        term: &Term,
        whole: bool,
    ) -> Result<(), AllocError>
        requires { IsNamed self.old }
        ensures named { OnOk result (IsNamed self.new) }
        ensures symbols { (ds : List Declaration) → Declares source.now.text.now source.now.declared.now ds
            → OnOk result (self.new.symbols ≡ fold (add_symbol source.now.text.now ds) self.old.symbols (spec.term_uses source.now.text.now term.now whole)) }
    {
        match term {
            Term::Variable(_) | Term::Numeral(_) => Ok(()),
            Term::Apply(head, args) => {
                self.add_head(source, *head, args.len(), whole)?;
                for arg in args.as_slice() {
                    self.add_term(source, arg, false)?;
                }
                Ok(())
            }
        }
    }

    /// Adds the words of a formula.
    fn add_formula(
        &mut self,
        source: &Source<'_, '_, '_>,
        formula: &Formula,
    ) -> Result<(), AllocError>
        requires { IsNamed self.old }
        ensures named { OnOk result (IsNamed self.new) }
        ensures symbols { (ds : List Declaration) → Declares source.now.text.now source.now.declared.now ds
            → OnOk result (self.new.symbols ≡ fold (add_symbol source.now.text.now ds) self.old.symbols (spec.formula_uses source.now.text.now formula.now)) }
    {
        match formula {
            Formula::Constant(_) => Ok(()),
            Formula::Atom(term) => self.add_term(source, term, true),
            Formula::Relation(_, left, right) => {
                self.add_term(source, left, false)?;
                self.add_term(source, right, false)
            }
            Formula::Not(operand) => self.add_formula(source, operand.get()),
            Formula::Quantified(_, _, body) => self.add_formula(source, body.get()),
            Formula::Linked(_, left, right) => {
                self.add_formula(source, left.get())?;
                self.add_formula(source, right.get())
            }
            Formula::Joined(_, members) => {
                for member in members.as_slice() {
                    self.add_formula(source, member)?;
                }
                Ok(())
            }
        }
    }

    /// Adds the words of a statement.
    fn add_content(
        &mut self,
        source: &Source<'_, '_, '_>,
        content: &Content,
    ) -> Result<(), AllocError>
        requires { IsNamed self.old }
        ensures named { OnOk result (IsNamed self.new) }
        ensures symbols { (ds : List Declaration) → Declares source.now.text.now source.now.declared.now ds
            → OnOk result (self.new.symbols ≡ fold (add_symbol source.now.text.now ds) self.old.symbols (spec.content_uses source.now.text.now content.now)) }
    {
        match content {
            Content::Declaration(word, _) => self.add_use(source, *word, 0, false),
            Content::Premise(formula) => self.add_formula(source, formula),
            Content::Conjecture(formula) => self.add_formula(source, formula),
        }
    }
}

/// The symbol of a declared word.
fn declared_symbol(
    source: &Source<'_, '_, '_>,
    name: &[u8],
    args: &[WrittenSort],
    given: WrittenSort,
) -> Result<Symbol, AllocError>
    ensures { IfOk result (λ s. s ≡ spec.symbol name.now (map (spec.sort_of source.now.text.now source.now.declared.now.sorts) args.now) (spec.sort_of source.now.text.now source.now.declared.now.sorts given)) }
{
    let mut sorts: SmallVec<Sort, 4> = SmallVec::new(source.alloc);
    for arg in args {
        sorts.push(sort_of(source.text, &source.declared.sorts, *arg)?)?;
    }
    let sort = sort_of(source.text, &source.declared.sorts, given)?;
    let sorts = Sorts::from_slice(source.alloc, sorts.as_slice())?;
    Ok(Symbol::new(Name::from_bytes(source.alloc, name)?, sorts, sort))
}

/// The symbol of an undeclared word, by its first use.
fn used_symbol(alloc: Global, name: &[u8], arity: usize, whole: bool) -> Result<Symbol, AllocError>
    ensures { IfOk result (λ s. s ≡ spec.used_symbol (record { name = name.now; arity = arity; whole = whole })) }
{
    let mut sorts: SmallVec<Sort, 4> = SmallVec::new(alloc);
    for _ in 0..arity {
        sorts.push(Sort::Individual)?;
    }
    let sort = if whole { Sort::Truth } else { Sort::Individual };
    let sorts = Sorts::from_slice(alloc, sorts.as_slice())?;
    Ok(Symbol::new(Name::from_bytes(alloc, name)?, sorts, sort))
}

/// The symbols of a file. More than 2^32 declared sorts count as want of memory.
pub fn signature_of(
    alloc: Global,
    text: &[u8],
    declared: &Declared<'_>,
    statements: &[Statement],
) -> Result<Signature, AllocError>
    requires { Declares text.now declared.now (declarations statements.now) }
    ensures named { IfOk result IsNamed }
    ensures symbols { IfOk result (λ s. s.symbols ≡ (spec.signature_of text.now statements.now).symbols) }
{
    let source = Source {
        alloc,
        text,
        declared,
    };
    let mut signature = Signature {
        names: Names::new(alloc),
        symbols: Items::new(alloc),
    };
    for statement in statements {
        signature.add_content(&source, &statement.content)?;
    }
    Ok(signature)
}
