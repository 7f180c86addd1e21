//! What is written of a decision.

ghost use Rattle.std.specs.Prelude.{IfOk};
ghost use Rattle.arithmetic_answers.specs.Texts.{HasText, Tells};

use crate::deciding::Decision;
use crate::derivations::{empty_clause_text, refutation_text};
use crate::lines::{unknown_line, wide_line};
use crate::lists::saturated_list;
use sqlite_items::Items;
use std::alloc::{AllocError, Global};
use term_base::Clause;

/// The text that tells what was decided of the clauses: that of a derivation with its status, a saturated list, or the line of a
/// problem that was given up. A clause's number past 2^32 - 1 in a derivation counts as want of memory.
pub fn answer_text(
    alloc: Global,
    ordinary: bool,
    has_conjecture: bool,
    clauses: Items<Clause>,
    decision: Decision,
) -> Result<Vec<u8>, AllocError>
    requires { HasText decision }
    ensures { IfOk result
        (λ text. Tells ordinary has_conjecture clauses decision text.items) }
{
    match decision {
        Decision::EmptyClause(k) => empty_clause_text(alloc, ordinary, has_conjecture, k),
        Decision::TooWide(at) => wide_line(alloc, at.wide),
        Decision::Refuted(cert) => refutation_text(alloc, ordinary, has_conjecture, clauses, cert),
        Decision::Satisfied(values) => {
            saturated_list(alloc, ordinary, clauses.as_slice(), values.as_slice())
        }
        Decision::Unknown(why) => unknown_line(alloc, why),
    }
}
