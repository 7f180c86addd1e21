//! The text of certificates.
#![tactic(auto)]

mod certs;
mod kinds;
mod laws;
mod lins;
mod parts;
mod printing;
mod tree_printing;
mod trees;

pub use certs::{BadText, TextError, cert, parse_cert, print_cert, push_cert};
pub use kinds::{NodeKind, RowKind, node_kind, row_kind};
pub use laws::{
    a_digit_follows, each_is_spelled, no_other_is_spelled, one_certificate, one_spelling,
};
pub use lins::lin;
pub use parts::{blank_lin, index, multiples, row, rows};
pub use printing::{
    push_count, push_index, push_lin, push_multiples, push_row, push_rows, push_whole,
};
pub use tree_printing::push_blank_tree;
pub use trees::blank_tree;
