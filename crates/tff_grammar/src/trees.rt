//! Syntax trees: what the grammar reads, without its brackets and annotations.

use crate::pieces::{BasicSort, Junction, Link, Number, Operation, Quantifier, Relation, Span};
use sqlite_items::{Boxed, Items};

/// A lower word, or a quoted one with its quotes.
#[derive(Clone, Copy)]
pub enum Word {
    /// A lower word.
    Lower(Span),
    /// A quoted word.
    Quoted(Span),
}

/// A sort: a word, `$i`, `$int`, or `$o`.
#[derive(Clone, Copy)]
pub enum Sort {
    /// A word that a declaration makes a sort.
    Word(Word),
    /// `$i` or `$int`
    Basic(BasicSort),
    /// `$o`, which is no sort of an argument or a variable.
    Truth,
}

/// The type that a declaration gives a word.
#[derive(Drop)]
pub enum DeclaredType {
    /// `$tType`: the word is a sort.
    OfTypes,
    /// The sorts of the arguments, none for a constant, and that of the result.
    Function(Items<Sort>, Sort),
}

/// What stands in front of arguments.
#[derive(Clone, Copy)]
pub enum Head {
    /// A word.
    Word(Word),
    /// An arithmetic word, and where it stands.
    Operation(Operation, Span),
}

/// A term, or an atom that has the form of one.
#[derive(Drop)]
pub enum Term {
    /// A variable, by the place of its name.
    Variable(Span),
    /// A numeral.
    Numeral(Number),
    /// A head with its arguments, none where no bracket follows it.
    Apply(Head, Items<Term>),
}

/// A variable that a quantifier binds, and its sort where one is written.
#[derive(Clone, Copy)]
pub struct Variable {
    /// The place of its name.
    pub name: Span,
    /// Its sort, where one is written.
    pub sort: Option<Sort>,
}

/// A formula.
#[derive(Drop)]
pub enum Formula {
    /// `$true` or `$false`
    Constant(bool),
    /// A term that stands as a formula.
    Atom(Term),
    /// Two terms with `=` or `!=` between them, in the order of the text.
    Relation(Relation, Term, Term),
    /// What `~` denies.
    Not(Boxed<Formula>),
    /// The variables that a quantifier binds, and what it binds them in.
    Quantified(Quantifier, Items<Variable>, Boxed<Formula>),
    /// Two formulas with a sign between them, in the order of the text.
    Linked(Link, Boxed<Formula>, Boxed<Formula>),
    /// Two or more formulas with the same sign between them.
    Joined(Junction, Items<Formula>),
}

/// What a statement says, by its role.
#[derive(Drop)]
pub enum Content {
    /// The role `type`: a word and its type.
    Declaration(Word, DeclaredType),
    /// The role of a premise, as `axiom`.
    Premise(Formula),
    /// The role `conjecture`.
    Conjecture(Formula),
}

/// A statement: the place of its name, and what it says.
#[derive(Drop)]
pub struct Statement {
    /// The place of its name.
    pub name: Span,
    /// What it says.
    pub content: Content,
}
