//! The grammar of the input language: from the bytes of a text to its syntax trees, or to the first fault.
#![tactic(auto)]

mod annotations;
mod cursor;
mod faults;
mod formulas;
mod laws;
mod lists;
mod pieces;
mod reader;
mod statements;
mod terms;
mod tokens;
mod trees;
mod types;
mod words;

pub use faults::{Fault, FaultName, ParseError};
pub use laws::{ascending_places, no_fault_of_text, one_fault, one_text, some_answer};
pub use pieces::{
    BasicSort, Junction, Keyword, Link, Number, Operation, Piece, Quantifier, Relation, Sign, Span,
};
pub use reader::parse;
pub use trees::{Content, DeclaredType, Formula, Head, Sort, Statement, Term, Variable, Word};
