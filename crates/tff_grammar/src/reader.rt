//! Reads a text.
ghost use Rattle.std.specs.Prelude.{◌≡◌, ◌≤◌, IfOk, IfErr, MatchResult, List, length};
ghost use Rattle.tff_grammar.specs.declared.trees.Statement as the_statements;
ghost use Rattle.tff_grammar.specs.Answer.{IsText, Explains, IsThere};

use crate::cursor::Pieces;
use crate::faults::{Fault, FaultName, Found, ParseError, Stop};
use crate::statements::statements;
use crate::trees::Statement;
use sqlite_items::Items;
use std::alloc::Global;
use tff_lexer::{Scan, one_scan, token_texts, tokens};

/// The fault that stands in front of so many tokens of a text of `total` bytes.
fn located(total: usize, scan: &Scan, found: Found) -> Fault
    requires { found.left ≤ length scan.now.tokens.items }
    ensures { IsThere total scan.now.tokens.items scan.now.stop found result }
{
    let index = scan.tokens.len() - found.left;
    match scan.tokens.get(index) {
        Some(token) => Fault {
            name: found.name,
            at: token.start,
            token: Some(*token),
        },
        None => match scan.stop {
            Some(at) => Fault {
                name: FaultName::Lex,
                at,
                token: None,
            },
            None => Fault {
                name: found.name,
                at: total as u64,
                token: None,
            },
        },
    }
}

/// The statements of a text. Fault exactly where the bytes are no text of the grammar without a fault (TPTP's typed first-order form,
/// with the limits of this reader): the first fault. Memory where memory is wanting.
pub fn parse(alloc: Global, bytes: &[u8]) -> Result<Items<Statement>, ParseError>
    ensures ok { IfOk result (IsText bytes.now) }
    ensures fault { IfErr result (Explains bytes.now) }
    // A text without a fault is read, and as no other statements, unless memory runs out.
    ensures only { (ss : List the_statements.Statement) → IsText bytes.now ss
        → MatchResult result (λ read. read ≡ ss) (λ e. e ≡ ParseError.Memory) }
{
    one_scan();
    token_texts();
    let scan = tokens(alloc, bytes)?;
    let pieces = Pieces::new(bytes, &scan.tokens);
    match statements(alloc, &pieces) {
        Ok(statements) => match scan.stop {
            None => Ok(statements),
            Some(at) => Err(ParseError::Fault(Fault {
                name: FaultName::Lex,
                at,
                token: None,
            })),
        },
        Err(Stop::Memory) => Err(ParseError::Memory),
        Err(Stop::Fault(found)) => Err(ParseError::Fault(located(bytes.len(), &scan, found))),
    }
}
