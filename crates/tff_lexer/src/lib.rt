//! The tokens of the input language, and the numbers that its numerals stand for.
#![tactic(auto)]

mod blanks;
mod laws;
mod numbers;
mod quotes;
mod scanner;
mod signs;
mod spans;
mod values;
mod words;

pub use laws::{ascending_spans, one_kind, one_scan, skipped_blanks, stop_text, token_texts};
pub use scanner::tokens;
pub use spans::{Scan, Token, TokenKind};
pub use values::numeral_value;
