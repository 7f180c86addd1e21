//! Laws of spellings.

ghost use Rattle.std.specs.Prelude.{◌≡◌, ℕ, List, IsTrue};
ghost use Rattle.proof_steps.specs.declared.steps.Derivation.{Derivation};
ghost use Rattle.proof_text.specs.declared.kinds.Status.{Status};
ghost use Rattle.proof_text.specs.Derivations.{SpellsDerivation, Spells, is_spelled};

/// Bytes that spell a derivation spell no other one.
pub fn one_derivation()
    ensures { (d e : Derivation) (text : List ℕ) → SpellsDerivation d text → SpellsDerivation e text → d ≡ e }
{}

/// Two spellings of one derivation are equal.
pub fn one_spelling()
    ensures { (d : Derivation) (text other : List ℕ)
        → SpellsDerivation d text → SpellsDerivation d other → text ≡ other }
{}

/// Bytes that spell a derivation with its status line spell no other one, nor another status.
pub fn one_status_and_derivation()
    ensures { (p r : Status × Derivation) (text : List ℕ) → Spells p text → Spells r text → p ≡ r }
{}

/// Two spellings of one derivation with its status line are equal.
pub fn one_spelling_with_status()
    ensures { (p : Status × Derivation) (text other : List ℕ) → Spells p text → Spells p other → text ≡ other }
{}

/// A derivation that has a spelling, without its status line or with it, meets the condition of printing.
pub fn no_other_is_spelled()
    ensures without_status { (d : Derivation) (text : List ℕ) → SpellsDerivation d text → IsTrue (is_spelled d) }
    ensures with_status { (p : Status × Derivation) (text : List ℕ) → Spells p text → IsTrue (is_spelled p.1) }
{}
