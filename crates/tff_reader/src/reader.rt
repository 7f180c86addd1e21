//! Reads a problem.
ghost use Rattle.std.specs.Prelude.{◌≡◌, List, Some, length, filter_map, IfOk, IfErr, MatchResult};
ghost use Rattle.std.specs.List.{All};
ghost use Rattle.tff_grammar.specs.Answer.{IsText};
ghost use Rattle.formula_base.specs.Binders.{IsNumbered};
ghost use Rattle.formula_base.specs.Typing.{IsWellTyped, formulas};
ghost use Rattle.formula_base.specs.declared.problems.Problem as the_problem;
ghost use Rattle.tff_reader.specs.Answer as spec;
ghost use Rattle.tff_reader.specs.Answer.{IsProblem, Explains};
ghost use Rattle.tff_reader.specs.Stops.{Reads};
ghost use Rattle.tff_reader.specs.Meaning as meaning;
ghost use Rattle.tff_signature.specs.Tables.{IsNamed};
ghost use Rattle.tff_signature.specs.Declarations.{phase_2};
ghost use Rattle.tff_signature.specs.Symbols.{signature_of};
ghost use Rattle.std.specs.Option.{option_or};
ghost use Rattle.tff_reader.specs.Contexts.{signature, AreRead, AddsFormula};

use crate::products::check_products;
use crate::refusals::{ReadError, Refused, RefusedName};
use crate::stops::Stop;
use crate::terms::Context;
use formula_base::{Formula, Problem};
use sqlite_items::Items;
use std::alloc::{AllocError, Global};
use term_base::Name;
use tff_grammar::{
    Content, Fault, FaultName, Formula as WrittenFormula, ParseError, Span, Statement,
    no_fault_of_text, one_text, parse,
};
use tff_lexer::{Token, TokenKind};
use tff_signature::{
    Later, LaterName, Names, Signature, check_declarations, declarations_of, signature_of,
};

fn early_name(name: FaultName) -> RefusedName
    ensures { result ≡ spec.early_name name }
{
    match name {
        FaultName::Lex => RefusedName::Lex,
        FaultName::Unsupported => RefusedName::Unsupported,
        FaultName::Language => RefusedName::Language,
        FaultName::TwoConjectures => RefusedName::TwoConjectures,
        FaultName::TooDeep => RefusedName::TooDeep,
        FaultName::NumberTooWide => RefusedName::NumberTooWide,
        FaultName::Syntax => RefusedName::Syntax,
    }
}

fn later_name(name: LaterName) -> RefusedName
    ensures { result ≡ spec.later_name name }
{
    match name {
        LaterName::Redeclared => RefusedName::Redeclared,
        LaterName::UnknownSort => RefusedName::UnknownSort,
        LaterName::IllTyped => RefusedName::IllTyped,
        LaterName::NonLinear => RefusedName::NonLinear,
        LaterName::NumberTooWide => RefusedName::NumberTooWide,
    }
}

/// What is said of an unsupported token.
fn token_word(bytes: &[u8], token: Token) -> &[u8]
    ensures { result.now ≡ spec.token_word bytes.now token token.kind }
{
    match token.kind {
        TokenKind::Distinct => b"distinct",
        TokenKind::Rational => b"rational",
        TokenKind::Real => b"real",
        _ => Span {
            start: token.start,
            end: token.end,
        }
        .bytes(bytes),
    }
}

/// The word of a refusal.
fn word(bytes: &[u8], fault: Fault) -> &[u8]
    ensures { result.now ≡ spec.word_of bytes.now fault.name fault.token }
{
    match fault.token {
        Some(token) if fault.name == FaultName::Unsupported => token_word(bytes, token),
        _ => b"",
    }
}

/// A fault of the grammar as a refusal.
fn refused_early(alloc: Global, bytes: &[u8], fault: Fault) -> Result<Refused, AllocError>
    ensures { IfOk result (λ r. r ≡ spec.refused_early bytes.now fault) }
{
    Ok(Refused {
        name: early_name(fault.name),
        at: fault.at,
        word: Name::from_bytes(alloc, word(bytes, fault))?,
    })
}

/// A fault behind the grammar as a refusal.
fn refused_later(alloc: Global, fault: Later) -> Result<Refused, AllocError>
    ensures { IfOk result (λ r. r ≡ spec.refused_later fault) }
{
    Ok(Refused {
        name: later_name(fault.name),
        at: fault.at,
        word: Name::from_bytes(alloc, b"")?,
    })
}

/// The formulas of a file.
#[derive(Drop)]
pub(crate) struct Formulas {
    premises: Items<Formula>,
    conjecture: Option<Formula>,
}

impl Formulas {
    /// Adds the formula of a statement.
    fn add(&mut self, context: &Context<'_, '_, '_>, content: &Content) -> Result<(), Stop>
        requires { IsNamed context.now.signature.now }
        ensures { Reads result (meaning.content_faults context.now.text.now (signature context.now) content.now)
            (λ _. AddsFormula context.now.text.now (signature context.now) content.now self.old self.new) }
    {
        match content {
            Content::Declaration(_, _) => Ok(()),
            Content::Premise(formula) => {
                let premise = context.closed(formula)?;
                self.premises.push(premise)?;
                Ok(())
            }
            Content::Conjecture(formula) => {
                let conjecture = context.closed(formula)?;
                self.add_conjecture(conjecture);
                Ok(())
            }
        }
    }

    /// Adds a conjecture, where none came before it.
    fn add_conjecture(&mut self, conjecture: Formula)
        ensures premises { self.new.premises ≡ self.old.premises }
        ensures conjecture { self.new.conjecture ≡ option_or self.old.conjecture (Some conjecture) }
    {
        if self.conjecture.is_none() {
            self.conjecture = Some(conjecture);
        }
    }
}

/// A statement that says nothing.
fn blank() -> Statement {
    Statement {
        name: Span { start: 0, end: 0 },
        content: Content::Premise(WrittenFormula::Constant(true)),
    }
}

/// The formulas of the statements. The memory of a statement is free again when its formula is read.
fn read_formulas(
    context: &Context<'_, '_, '_>,
    statements: Items<Statement>,
) -> Result<Formulas, Stop>
    requires { IsNamed context.now.signature.now }
    ensures { Reads result (meaning.typing_faults context.now.text.now (signature context.now) statements)
        (AreRead context.now.text.now (signature context.now) statements) }
{
    let mut formulas = Formulas {
        premises: Items::new(context.alloc),
        conjecture: None,
    };
    let mut left = statements;
    for place in 0..left.len() {
        formulas.add(context, &left.as_slice()[place].content)?;
        left.set(place, blank());
    }
    Ok(formulas)
}

/// How many sorts there are. A number past 2^32 - 1 counts as want of memory.
fn sort_count(sorts: &Names) -> Result<u32, AllocError>
    ensures { IfOk result (λ n. n ≡ length sorts.now) }
{
    match u32::try_from(sorts.len()) {
        Ok(count) => Ok(count),
        Err(_) => Err(AllocError),
    }
}

/// The declared sorts and the symbols of the statements of a text, or the first fault of their declarations and binders.
fn tables(alloc: Global, text: &[u8], statements: &[Statement]) -> Result<(Names, Signature), Stop>
    ensures { Reads result (phase_2 text.now statements.now)
        (λ (sorts, signature). (sorts ≡ (signature_of text.now statements.now).sorts)
        × IsNamed signature × (signature.symbols ≡ (signature_of text.now statements.now).symbols)) }
{
    let declared = declarations_of(alloc, text, statements)?;
    check_declarations(text, &declared, statements)?;
    let signature = signature_of(alloc, text, &declared, statements)?;
    Ok((declared.sorts, signature))
}

/// The problem of the statements of a text, or the first fault behind the grammar.
fn problem(alloc: Global, text: &[u8], statements: Items<Statement>) -> Result<Problem, Stop>
    ensures { Reads result (spec.later_faults text.now statements) (λ p. p ≡ meaning.problem_of text.now statements) }
{
    let (sorts, signature) = tables(alloc, text, statements.as_slice())?;
    let count = sort_count(&sorts)?;
    let context = &Context {
        alloc,
        text,
        sorts: &sorts,
        signature: &signature,
    };
    let products = check_products(alloc, statements.as_slice());
    let formulas = read_formulas(context, statements)?;
    products?;
    Ok(Problem {
        symbols: signature.symbols,
        sorts: count,
        premises: formulas.premises,
        conjecture: formulas.conjecture,
    })
}

/// The problem of a text of TPTP's typed first-order form with integers. Refused exactly where the text has a fault: the first
/// one, of the first phase that has one. Phase 1 is that of the grammar, phase 2 that of declarations and binders, phase 3 that of
/// types, phase 4 that of products. Memory where memory is wanting.
pub fn read(alloc: Global, bytes: &[u8]) -> Result<Problem, ReadError>
    ensures ok { IfOk result (IsProblem bytes.now) }
    ensures refused { IfErr result (Explains bytes.now) }
    ensures typed { IfOk result IsWellTyped }
    ensures numbered { IfOk result (λ p. All IsNumbered (formulas p)) }
    // A text without a fault is read, and as no other problem, unless memory runs out.
    ensures only { (p : the_problem.Problem) → IsProblem bytes.now p
        → MatchResult result (λ read. read ≡ p) (λ e. e ≡ ReadError.Memory) }
{
    one_text();
    no_fault_of_text();
    let statements = match parse(alloc, bytes) {
        Ok(statements) => statements,
        Err(ParseError::Memory) => return Err(ReadError::Memory),
        Err(ParseError::Fault(fault)) => {
            return Err(ReadError::Refused(refused_early(alloc, bytes, fault)?));
        }
    };
    match problem(alloc, bytes, statements) {
        Ok(problem) => Ok(problem),
        Err(Stop::Memory) => Err(ReadError::Memory),
        Err(Stop::Fault(fault)) => Err(ReadError::Refused(refused_later(alloc, fault)?)),
    }
}
