//! Laws of spellings.

ghost use Rattle.std.specs.Prelude.{◌≡◌, ℕ, List, ◌∷◌, ◌++◌, true, IsTrue};
ghost use Rattle.cert_tree.specs.declared.certs.Cert.{Cert};
ghost use Rattle.text_pieces.specs.Decimals.{is_digit};
ghost use Rattle.cert_text.specs.Grammar.{Spells};
ghost use Rattle.cert_text.specs.Ranges.{cert_fits};
ghost use Rattle.cert_text.specs.Spelled.{is_spelled};
ghost use Rattle.text_pieces.specs.Languages.{HasSpelling};

/// Where the spelling of one certificate is a prefix of another's, a digit follows it there.
pub fn a_digit_follows()
    ensures { (a b : Cert) (text : List ℕ) (next : ℕ) (more : List ℕ)
        → Spells a text → Spells b (text ++ next ∷ more) → is_digit next ≡ true }
{}

/// Bytes that spell a certificate spell no other one.
pub fn one_certificate()
    ensures { (a b : Cert) (text : List ℕ) → Spells a text → Spells b text → a ≡ b }
{}

/// Two spellings of one certificate are equal.
pub fn one_spelling()
    ensures { (a : Cert) (text other : List ℕ) → Spells a text → Spells a other → text ≡ other }
{}

/// A certificate that has a spelling meets the condition of printing, and its numbers are within the ranges of their types: no
/// other one has a spelling.
pub fn no_other_is_spelled()
    ensures condition { (a : Cert) (text : List ℕ) → Spells a text → IsTrue (is_spelled a) }
    ensures ranges { (a : Cert) (text : List ℕ) → Spells a text → IsTrue (cert_fits a) }
{}

/// Each certificate that meets the condition of printing has a spelling, its numbers being within the ranges of their types.
pub fn each_is_spelled()
    ensures { (a : Cert) → IsTrue (cert_fits a) → IsTrue (is_spelled a) → HasSpelling Spells a }
{}
