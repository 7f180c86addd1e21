//! Laws of the definitions: a text has one answer, and the places in its statements ascend.
ghost use Rattle.std.specs.Prelude.{◌≡◌, ℕ, List, Option, length};
ghost use Rattle.tff_lexer.specs.declared.spans.Token.{Token};
ghost use Rattle.tff_lexer.specs.Scans.{Scans};
ghost use Rattle.tff_grammar.specs.declared.faults.Fault.{Fault};
ghost use Rattle.tff_grammar.specs.declared.trees.Statement.{Statement};
ghost use Rattle.tff_grammar.specs.Answer.{IsText, IsFirstFault, HasAnswer};
ghost use Rattle.tff_grammar.specs.Order.{PlacesAscend, places};

use tff_lexer::{ascending_spans, one_scan};

/// A text that has a scan is one of the grammar without a fault, or has a first fault.
pub fn some_answer()
    ensures { (bytes : List ℕ) (tokens : List Token) (stop : Option ℕ) → Scans bytes tokens stop → HasAnswer bytes }
{}

/// A text is read in one way at most.
pub fn one_text()
    ensures { (bytes : List ℕ) (first second : List Statement) → IsText bytes first → IsText bytes second
        → first ≡ second }
{
    one_scan();
}

/// A text has at most one first fault.
pub fn one_fault()
    ensures { (bytes : List ℕ) (first second : Fault) → IsFirstFault bytes first → IsFirstFault bytes second
        → first ≡ second }
{
    one_scan();
}

/// A text that can be read has no fault.
pub fn no_fault_of_text()
    ensures { (bytes : List ℕ) (statements : List Statement) (fault : Fault) → IsText bytes statements
        → IsFirstFault bytes fault → ⊥ }
{
    one_scan();
}

/// The places in the statements of a text ascend, in the order in which they stand in the trees: none is empty, none begins before
/// the last one's end, and none passes the end of the text. So of faults that stand at such places in this order the first has the
/// least byte.
pub fn ascending_places()
    ensures { (bytes : List ℕ) (statements : List Statement) → IsText bytes statements
        → PlacesAscend (length bytes) 0 (places statements) }
{
    ascending_spans();
}
