//! Laws of the definitions, each the contract of a function that does nothing.
ghost use Rattle.std.specs.Prelude.{◌≡◌, ℕ, ◌≤◌, List, ◌++◌, Option, Some, IsTrue, codes, length, drop};
ghost use Rattle.std.specs.List.{concat};
ghost use Rattle.tff_lexer.specs.declared.spans.Token.{Token};
ghost use Rattle.tff_lexer.specs.declared.spans.TokenKind.{TokenKind};
ghost use Rattle.tff_lexer.specs.Forms.{is_token};
ghost use Rattle.tff_lexer.specs.Blanks.{AreBlanks, BeginsNoBlank, HasNoStarSlash, skip};
ghost use Rattle.tff_lexer.specs.Scans.{BeginsNoToken, Scans, SpansAscend, HaveForms};

/// A text is a token of at most one kind.
pub fn one_kind()
    ensures { (text : List ℕ) (kind other : TokenKind) → IsTrue (is_token kind text)
        → IsTrue (is_token other text) → kind ≡ other }
{}

/// A text has at most one scan.
pub fn one_scan()
    ensures { (bytes : List ℕ) (first second : List Token) (stop other : Option ℕ)
        → Scans bytes first stop → Scans bytes second other → (first ≡ second) × (stop ≡ other) }
{}

/// Each token's bytes are a token of its kind.
pub fn token_texts()
    ensures { (bytes : List ℕ) (tokens : List Token) (stop : Option ℕ)
        → Scans bytes tokens stop → HaveForms bytes tokens }
{}

/// The spans of the tokens of a text ascend: none is empty, none begins before the last one's end, none passes the end of the text.
pub fn ascending_spans()
    ensures { (bytes : List ℕ) (tokens : List Token) (stop : Option ℕ)
        → Scans bytes tokens stop → SpansAscend (length bytes) 0 tokens }
{}

/// At the place at which a scan stops no token begins.
pub fn stop_text()
    ensures { (bytes : List ℕ) (tokens : List Token) (place : ℕ)
        → Scans bytes tokens (Some place) → BeginsNoToken (drop place bytes) }
{}

/// What stands before a token is white-space bytes and comments (`blanks`), all that stand there: what is left begins with
/// neither (`left`), no sequence of them at this place is longer (`longest`), and one behind which neither begins is the one
/// (`all`). Where `/*` has no `*/` behind it, nothing is passed over there, and no token begins (`open_comment`).
pub fn skipped_blanks()
    ensures blanks { (bytes : List ℕ)
        → (blanks : List (List ℕ)) × AreBlanks blanks (skip bytes) × (bytes ≡ concat blanks ++ skip bytes) }
    ensures left { (bytes : List ℕ) → BeginsNoBlank (skip bytes) }
    ensures longest { (bytes rest : List ℕ) (blanks : List (List ℕ))
        → AreBlanks blanks rest → bytes ≡ concat blanks ++ rest → length (skip bytes) ≤ length rest }
    ensures all { (bytes rest : List ℕ) (blanks : List (List ℕ))
        → AreBlanks blanks rest → bytes ≡ concat blanks ++ rest → BeginsNoBlank rest → rest ≡ skip bytes }
    ensures open_comment { (rest : List ℕ) → HasNoStarSlash rest
        → (skip (codes "/*" ++ rest) ≡ codes "/*" ++ rest) × BeginsNoToken (codes "/*" ++ rest) }
{}
