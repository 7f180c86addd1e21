//! The pieces that texts are made of, to read and to print: numbers, words, blanks and other single bytes, and lists.
#![tactic(auto)]

mod bad_texts;
mod blanks;
mod fronts;
mod list_printing;
mod lists;
mod numbers;
mod printing;
mod readers;
mod signs;
mod words;

pub use bad_texts::{Bad, Unread};
pub use blanks::{blank_count, blank_number, blank_signed};
pub use fronts::{begins_with, front};
pub use list_printing::{push_counted, push_separated, push_times};
pub use lists::{counted, separated, times};
pub use numbers::{count, number, word32};
pub use printing::{
    push, push_blank_decimal, push_blank_signed, push_decimal, push_signed_decimal,
};
pub use readers::{Printer, Reader};
pub use signs::signed;
pub use words::{after_byte, behind, blank, exactly, one_of};
