//! The first term of a clause to define.

ghost use Rattle.std.specs.Prelude.{◌≡◌, map, option_map};
ghost use Rattle.std.specs.Option.{option_copied};
ghost use Rattle.term_base.specs.Trees.{symbol, tree};
ghost use Rattle.term_base.specs.Lits.{lit};
ghost use Rattle.define_rule.specs.NextTerm as spec;
ghost use Rattle.define_rule.specs.Found.{clause_find};
ghost use Rattle.define_rule.specs.Scan.{found_at, scan, literal_find};
ghost use Rattle.define_rule.specs.Seen.{seen};

use crate::pins::pinned;
use term_base::{Class, Literal, Sort, Symbol, Term};

/// What a walk through a term gives: the first term to define; or else whether each variable is pinned.
pub(crate) enum Scan<'a> {
    Found(&'a Term),
    AllPinned,
    NotPinned,
}

/// Whether a symbol is a foreground symbol whose result has sort Int.
pub(crate) fn is_integer_head(signature: &[Symbol], f: u32) -> bool
    ensures { result ≡ spec.is_integer_head signature.now (symbol f) }
{
    match signature.get(f as usize) {
        Some(s) => s.class == Class::Foreground && s.result == Sort::Int,
        None => false,
    }
}

#[tactic(auto, using(crate::proofs::StepLemmas::found_after, crate::proofs::StepLemmas::not_pinned_after, crate::proofs::StepLemmas::then_nothing))]
fn scan_term<'a>(signature: &[Symbol], literals: &[Literal], t: &'a Term) -> Scan<'a>
    ensures { seen result ≡ scan signature.now (map lit literals.now) (tree t.now) }
{
    match t {
        Term::Var(v) => if pinned(signature, literals, *v).is_some() {
            Scan::AllPinned
        } else {
            Scan::NotPinned
        },
        Term::Num(_) | Term::True => Scan::AllPinned,
        Term::Sum(a, b) => match scan_term(signature, literals, a.get()) {
            Scan::Found(u) => Scan::Found(u),
            Scan::AllPinned => scan_term(signature, literals, b.get()),
            Scan::NotPinned => match scan_term(signature, literals, b.get()) {
                Scan::Found(u) => Scan::Found(u),
                Scan::AllPinned | Scan::NotPinned => Scan::NotPinned,
            },
        },
        Term::Scale(_, a) => scan_term(signature, literals, a.get()),
        Term::App(f, args) => {
            let mut all_pinned = true;
            for arg in args.as_slice() {
                match scan_term(signature, literals, arg) {
                    Scan::Found(u) => return Scan::Found(u),
                    Scan::AllPinned => {}
                    Scan::NotPinned => all_pinned = false,
                }
            }
            if !all_pinned {
                Scan::NotPinned
            } else if is_integer_head(signature, *f) {
                Scan::Found(t)
            } else {
                Scan::AllPinned
            }
        }
    }
}

fn first_in<'a>(signature: &[Symbol], literals: &[Literal], t: &'a Term) -> Option<&'a Term>
    ensures { option_map tree (option_copied result)
        ≡ found_at (scan signature.now (map lit literals.now) (tree t.now)) }
{
    match scan_term(signature, literals, t) {
        Scan::Found(u) => Some(u),
        Scan::AllPinned | Scan::NotPinned => None,
    }
}

fn first_in_literal<'a>(
    signature: &[Symbol],
    literals: &[Literal],
    l: &'a Literal,
) -> Option<&'a Term>
    ensures { option_map tree (option_copied result)
        ≡ literal_find signature.now (map lit literals.now) (lit l.now) }
{
    match l {
        Literal::Equal(s, t) | Literal::Differ(s, t) | Literal::AtMost(s, t) => {
            match first_in(signature, literals, s) {
                Some(u) => Some(u),
                None => first_in(signature, literals, t),
            }
        }
    }
}

/// The first term of the literals that is to be defined, before the pinned terms are put in.
pub(crate) fn first_definable<'a>(signature: &[Symbol], literals: &'a [Literal]) -> Option<&'a Term>
    ensures { option_map tree (option_copied result)
        ≡ clause_find signature.now (map lit literals.now) (map lit literals.now) }
{
    for l in literals {
        if let Some(t) = first_in_literal(signature, literals, l) {
            return Some(t);
        }
    }
    None
}
