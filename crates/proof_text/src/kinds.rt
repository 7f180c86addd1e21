//! The words of rules, headers and status lines.

ghost use Rattle.std.specs.Prelude.{◌≡◌, MatchResult};
ghost use Rattle.proof_text.specs.Derivations as spec;
ghost use Rattle.proof_text.specs.Rules as rules;
ghost use Rattle.text_pieces.specs.Languages.{Fails, Reads};

use text_pieces::{Bad, one_of};

/// What kind of rule a word tells.
#[derive(Clone, Copy, Debug, PartialEq, Eq)]
pub enum RuleKind {
    /// `input`
    Input,
    /// `superpose`
    Superpose,
    /// `resolve`
    Resolve,
    /// `factor`
    Factor,
    /// `abstract`
    Abstract,
    /// `normal`
    Normal,
    /// `pin`
    Pin,
    /// `demodulate`
    Demodulate,
    /// `define`
    Define,
    /// `close`
    Close,
}

/// The status of a problem that a derivation is given for, in the SZS ontology.
#[derive(Clone, Copy, Debug, PartialEq, Eq)]
pub enum Status {
    /// The conjecture follows.
    Theorem,
    /// There is no conjecture, and the problem contradicts itself.
    Unsatisfiable,
}

const RULES: [&[u8]; 10] = [
    b"input",
    b"superpose",
    b"resolve",
    b"factor",
    b"abstract",
    b"normal",
    b"pin",
    b"demodulate",
    b"define",
    b"close",
];

const VARIABLES: [&[u8]; 2] = [b"ordinary", b"abstraction"];

const STATUSES: [&[u8]; 2] = [b"Theorem", b"Unsatisfiable"];

// The kind of rule whose word stands at this place of the list.
fn rule_kind_at(place: usize) -> RuleKind
    ensures { result ≡ rules.rule_kind_at place }
{
    match place {
        0 => RuleKind::Input,
        1 => RuleKind::Superpose,
        2 => RuleKind::Resolve,
        3 => RuleKind::Factor,
        4 => RuleKind::Abstract,
        5 => RuleKind::Normal,
        6 => RuleKind::Pin,
        7 => RuleKind::Demodulate,
        8 => RuleKind::Define,
        _ => RuleKind::Close,
    }
}

/// The word of a rule, and what follows. Bad at the first byte with which none goes on.
pub fn rule_kind(text: &[u8]) -> Result<(RuleKind, &[u8]), Bad>
    ensures { MatchResult result (λ f. Reads rules.RuleWord text.now f.0 f.1.now)
        (λ e. Fails rules.RuleWord text.now e.left) }
{
    let (place, rest) = one_of(text, &RULES)?;
    Ok((rule_kind_at(place), rest))
}

/// The word of a rule.
pub fn rule_word(kind: RuleKind) -> &'static [u8]
    ensures { result.now ≡ rules.rule_word kind }
{
    match kind {
        RuleKind::Input => b"input",
        RuleKind::Superpose => b"superpose",
        RuleKind::Resolve => b"resolve",
        RuleKind::Factor => b"factor",
        RuleKind::Abstract => b"abstract",
        RuleKind::Normal => b"normal",
        RuleKind::Pin => b"pin",
        RuleKind::Demodulate => b"demodulate",
        RuleKind::Define => b"define",
        RuleKind::Close => b"close",
    }
}

/// The word for the variables of clauses with a foreground symbol, and what follows. Bad at the first byte with which none goes on.
pub fn is_ordinary(text: &[u8]) -> Result<(bool, &[u8]), Bad>
    ensures { MatchResult result (λ f. Reads spec.VariablesWord text.now f.0 f.1.now)
        (λ e. Fails spec.VariablesWord text.now e.left) }
{
    let (place, rest) = one_of(text, &VARIABLES)?;
    Ok((place == 0, rest))
}

/// The word for the variables of clauses with a foreground symbol.
pub fn variables_word(ordinary: bool) -> &'static [u8]
    ensures { result.now ≡ spec.variables_word ordinary }
{
    if ordinary {
        b"ordinary"
    } else {
        b"abstraction"
    }
}

// The status whose word stands at this place of the list.
fn status_at(place: usize) -> Status
    ensures { result ≡ spec.status_at place }
{
    match place {
        0 => Status::Theorem,
        _ => Status::Unsatisfiable,
    }
}

/// The word of a status, and what follows. Bad at the first byte with which none goes on.
pub fn szs_status(text: &[u8]) -> Result<(Status, &[u8]), Bad>
    ensures { MatchResult result (λ f. Reads spec.StatusWord text.now f.0 f.1.now)
        (λ e. Fails spec.StatusWord text.now e.left) }
{
    let (place, rest) = one_of(text, &STATUSES)?;
    Ok((status_at(place), rest))
}

/// The word of a status.
pub fn status_word(status: Status) -> &'static [u8]
    ensures { result.now ≡ spec.status_word status }
{
    match status {
        Status::Theorem => b"Theorem",
        Status::Unsatisfiable => b"Unsatisfiable",
    }
}
