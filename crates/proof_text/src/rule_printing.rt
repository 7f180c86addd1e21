//! Printing of rules.

ghost use Rattle.std.specs.Prelude.{true, IsTrue, OnOk};
ghost use Rattle.text_pieces.specs.Numbers.{Number, Word32};
ghost use Rattle.text_pieces.specs.Printing.{Adds};
ghost use Rattle.cert_text.specs.Spelled.{is_spelled};
ghost use Rattle.text_pieces.specs.Fronts.{Front};
ghost use Rattle.proof_steps.specs.declared.steps.Rule.TheVariants as rule;
ghost use Rattle.proof_text.specs.Rules.{Index, Written, At, Sided, Premises, SpellsRule, rule_is_spelled};

use cert_text::push_cert;
use cert_tree::Cert;
use proof_steps::Rule;
use std::alloc::{AllocError, Global};
use term_base::{Place, Side, Subst, Term};
use term_text::{push_place, push_side, push_substitution, push_term};
use text_pieces::{Printer, push, push_blank_decimal, push_decimal, push_separated};

// Puts a blank and the number of a clause, a step or a literal behind the text.
fn push_index(alloc: Global, text: &mut Vec<u8>, n: u32) -> Result<(), AllocError>
    ensures { OnOk result (Adds Index n text.old.items text.new.items) }
{
    push_blank_decimal(alloc, text, u128::from(n))
}

// Puts a blank and a substitution behind the text.
fn push_written(alloc: Global, text: &mut Vec<u8>, s: &Subst) -> Result<(), AllocError>
    ensures { OnOk result (Adds Written s.now text.old.items text.new.items) }
{
    push(text, b" ")?;
    push_substitution(alloc, text, s)
}

// Puts a place between blanks behind the text.
fn push_at(alloc: Global, text: &mut Vec<u8>, place: &Place) -> Result<(), AllocError>
    ensures { OnOk result (Adds At place.now text.old.items text.new.items) }
{
    push(text, b" ")?;
    push_place(alloc, text, place)
}

// Puts a blank, the number of a literal and a side behind the text.
fn push_sided(alloc: Global, text: &mut Vec<u8>, literal: u32, side: Side) -> Result<(), AllocError>
    ensures { OnOk result (Adds Sided (literal, side) text.old.items text.new.items) }
{
    push_index(alloc, text, literal)?;
    push_side(text, side)
}

// Puts a word and one number behind the text.
fn push_of(alloc: Global, text: &mut Vec<u8>, word: &[u8], of: u32) -> Result<(), AllocError>
    ensures { OnOk result (Adds (Front word.now Index) of text.old.items text.new.items) }
{
    push(text, word)?;
    push_index(alloc, text, of)
}

fn push_superpose(
    alloc: Global,
    text: &mut Vec<u8>,
    from: (u32, u32, Side),
    into: u32,
    place: &Place,
    s1: &Subst,
    s2: &Subst,
) -> Result<(), AllocError>
    ensures { OnOk result (Adds SpellsRule (rule.Superpose from.0 from.1 from.2 into place.now s1.now s2.now)
        text.old.items text.new.items) }
{
    push(text, b"superpose")?;
    push_index(alloc, text, from.0)?;
    push(text, b".")?;
    push_decimal(alloc, text, u128::from(from.1))?;
    push_side(text, from.2)?;
    push_index(alloc, text, into)?;
    push_at(alloc, text, place)?;
    push_substitution(alloc, text, s1)?;
    push_written(alloc, text, s2)
}

fn push_resolve(
    alloc: Global,
    text: &mut Vec<u8>,
    of: u32,
    literal: u32,
    s1: &Subst,
) -> Result<(), AllocError>
    ensures { OnOk result (Adds SpellsRule (rule.Resolve of literal s1.now) text.old.items text.new.items) }
{
    push(text, b"resolve")?;
    push_index(alloc, text, of)?;
    push_index(alloc, text, literal)?;
    push_written(alloc, text, s1)
}

fn push_factor(
    alloc: Global,
    text: &mut Vec<u8>,
    of: u32,
    first: (u32, Side),
    second: (u32, Side),
    s1: &Subst,
) -> Result<(), AllocError>
    ensures { OnOk result (Adds SpellsRule (rule.Factor of first.0 first.1 second.0 second.1 s1.now)
        text.old.items text.new.items) }
{
    push(text, b"factor")?;
    push_index(alloc, text, of)?;
    push_sided(alloc, text, first.0, first.1)?;
    push_sided(alloc, text, second.0, second.1)?;
    push_written(alloc, text, s1)
}

fn push_pin(alloc: Global, text: &mut Vec<u8>, of: u32, literal: u32) -> Result<(), AllocError>
    ensures { OnOk result (Adds SpellsRule (rule.Pin of literal) text.old.items text.new.items) }
{
    push(text, b"pin")?;
    push_index(alloc, text, of)?;
    push_index(alloc, text, literal)
}

fn push_demodulate(
    alloc: Global,
    text: &mut Vec<u8>,
    of: u32,
    place: &Place,
    by: (u32, Side),
    s1: &Subst,
) -> Result<(), AllocError>
    ensures { OnOk result (Adds SpellsRule (rule.Demodulate of place.now by.0 by.1 s1.now)
        text.old.items text.new.items) }
{
    push(text, b"demodulate")?;
    push_index(alloc, text, of)?;
    push_at(alloc, text, place)?;
    push_decimal(alloc, text, u128::from(by.0))?;
    push_side(text, by.1)?;
    push_written(alloc, text, s1)
}

fn push_define(
    alloc: Global,
    text: &mut Vec<u8>,
    term: &Term,
    symbol: u32,
) -> Result<(), AllocError>
    ensures { OnOk result (Adds SpellsRule (rule.Define term.now symbol) text.old.items text.new.items) }
{
    push(text, b"define ")?;
    push_term(alloc, text, term)?;
    push(text, b" s")?;
    push_decimal(alloc, text, u128::from(symbol))
}

// Prints the numbers of steps.
struct PrintStep;

impl Printer for PrintStep {
    type Value = u32;

    ghost spells = { Number Word32 };

    ghost is_spelled = { λ _. true };

    fn push(alloc: Global, text: &mut Vec<u8>, value: &u32) -> Result<(), AllocError> {
        push_decimal(alloc, text, u128::from(*value))
    }
}

// Puts premises between blanks behind the text.
fn push_premises(alloc: Global, text: &mut Vec<u8>, of: &[u32]) -> Result<(), AllocError>
    ensures { OnOk result (Adds Premises of.now text.old.items text.new.items) }
{
    match of {
        [] => push(text, b" - "),
        [first, more @ ..] => {
            push(text, b" ")?;
            push_separated::<PrintStep>(alloc, text, first, more, b',', b' ')
        }
    }
}

fn push_close(alloc: Global, text: &mut Vec<u8>, of: &[u32], cert: &Cert) -> Result<(), AllocError>
    requires { IsTrue (is_spelled cert.now) }
    ensures { OnOk result (Adds SpellsRule (rule.Close of.now cert.now) text.old.items text.new.items) }
{
    push(text, b"close")?;
    push_premises(alloc, text, of)?;
    push_cert(alloc, text, cert)
}

/// Puts a rule behind the text.
pub fn push_rule(alloc: Global, text: &mut Vec<u8>, rule: &Rule) -> Result<(), AllocError>
    requires { IsTrue (rule_is_spelled rule.now) }
    ensures { OnOk result (Adds SpellsRule rule.now text.old.items text.new.items) }
{
    match rule {
        Rule::Input { clause } => push_of(alloc, text, b"input", *clause),
        Rule::Superpose {
            from,
            literal,
            side,
            into,
            place,
            s1,
            s2,
        } => push_superpose(alloc, text, (*from, *literal, *side), *into, place, s1, s2),
        Rule::Resolve { of, literal, s1 } => push_resolve(alloc, text, *of, *literal, s1),
        Rule::Factor {
            of,
            first,
            first_side,
            second,
            second_side,
            s1,
        } => {
            let second = (*second, *second_side);
            push_factor(alloc, text, *of, (*first, *first_side), second, s1)
        }
        Rule::Abstract { of } => push_of(alloc, text, b"abstract", *of),
        Rule::Normal { of } => push_of(alloc, text, b"normal", *of),
        Rule::Pin { of, literal } => push_pin(alloc, text, *of, *literal),
        Rule::Demodulate {
            of,
            place,
            by,
            side,
            s1,
        } => push_demodulate(alloc, text, *of, place, (*by, *side), s1),
        Rule::Define { term, symbol } => push_define(alloc, text, term, *symbol),
        Rule::Close { of, cert } => push_close(alloc, text, of.as_slice(), cert),
    }
}
