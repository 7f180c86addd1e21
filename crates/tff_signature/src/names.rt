//! Names of words, and lists of names.
ghost use Rattle.std.specs.Prelude.{◌≡◌, ◌<◌, length, [], MatchOption, IfOk, OnOk};
ghost use Rattle.std.specs.List.{list_all};
ghost use Rattle.tff_lexer.specs.Forms.{is_alpha_numeric, is_lower};
ghost use Rattle.tff_signature.specs.Names.{unquoted, quoted_name, name_of, span_of, is_among, add_name, number_of};

use indexmap::IndexSet;
use std::alloc::{AllocError, Global};
use std::marker::Model;
use tff_grammar::{Span, Word};

fn is_alpha_numeric(byte: u8) -> bool
    ensures { result ≡ is_alpha_numeric byte }
{
    byte.is_ascii_alphanumeric() || byte == b'_'
}

fn are_alpha_numeric(bytes: &[u8]) -> bool
    ensures { result ≡ list_all is_alpha_numeric bytes.now }
{
    bytes.iter().all(|byte| is_alpha_numeric(*byte))
}

/// A lower word.
fn is_lower(text: &[u8]) -> bool
    ensures { result ≡ is_lower text.now }
{
    match text {
        [] => false,
        [first, rest @ ..] => first.is_ascii_lowercase() && are_alpha_numeric(rest),
    }
}

/// What stands between quotes.
fn unquoted(text: &[u8]) -> &[u8]
    ensures { result.now ≡ unquoted text.now }
{
    let rest = &text[text.len().min(1)..];
    &rest[..text.len().saturating_sub(2)]
}

/// The name of a quoted word.
fn quoted_name(text: &[u8]) -> &[u8]
    ensures { result.now ≡ quoted_name text.now }
{
    let inner = unquoted(text);
    if is_lower(inner) { inner } else { text }
}

/// The name of a word of a text.
pub fn name(text: &[u8], word: Word) -> &[u8]
    ensures { result.now ≡ name_of text.now word }
{
    match word {
        Word::Lower(span) => span.bytes(text),
        Word::Quoted(span) => quoted_name(span.bytes(text)),
    }
}

/// Where a word stands.
pub fn span(word: Word) -> Span
    ensures { result ≡ span_of word }
{
    match word {
        Word::Lower(span) | Word::Quoted(span) => span,
    }
}

/// Names in the order of first sight, each with its place from 0 as its number.
#[derive(Drop)]
pub struct Names {
    names: IndexSet<Vec<u8>>,
}

impl Model for Names {
    ghost use Rattle.std.specs.Prelude.{List, ℕ, map};

    ghost Value = { List (List ℕ) };

    ghost view = { λ n. map (λ name. name.items) n.names.keys };
}

impl Names {
    /// No names.
    pub(crate) fn new(alloc: Global) -> Names
        ensures { result ≡ [] }
    {
        Names {
            names: IndexSet::new(alloc),
        }
    }

    /// How many there are.
    pub fn len(&self) -> usize
        ensures { result ≡ length self.now }
    {
        self.names.len()
    }

    /// Whether a name is one of them.
    #[tactic(auto, using(crate::proofs::NameLemmas::any_map))]
    pub(crate) fn contains(&self, name: &[u8]) -> bool
        ensures { result ≡ is_among self.now name.now }
    {
        self.names.contains(name)
    }

    /// The number of a name, where it is one of them.
    #[tactic(auto, using(crate::proofs::NameLemmas::number_is))]
    pub(crate) fn number(&self, name: &[u8]) -> Option<usize>
        ensures { MatchOption result (number_of self.now name.now ≡ length self.now) (λ k. k ≡ number_of self.now name.now) }
    {
        self.names.get_index_of(name)
    }

    /// Adds a name behind the others, where it isn't one of them.
    #[tactic(auto, using(crate::proofs::NameLemmas::add_is))]
    pub(crate) fn add(&mut self, alloc: Global, name: &[u8]) -> Result<(), AllocError>
        ensures { OnOk result (self.new ≡ add_name self.old name.now) }
    {
        if !self.contains(name) {
            self.names.insert(Vec::from_slice(alloc, name)?)?;
        }
        Ok(())
    }
}
