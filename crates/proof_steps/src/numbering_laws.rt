//! Laws of steps under other numbers. Each is the contract of a function that does nothing.

ghost use Rattle.std.specs.Prelude.{◌≡◌, ℕ, Bool, true, List, [], ◌∷◌, ◌++◌, length, Some, slice_get};
ghost use Rattle.term_base.specs.declared.preparation.Prepared.{Prepared};
ghost use Rattle.proof_steps.specs.declared.steps.Step.{Step};
ghost use Rattle.proof_steps.specs.Standing.{defines, step_stands};
ghost use Rattle.proof_steps.specs.Derivations.{is_empty_step, StandBelow, Derives};
ghost use Rattle.proof_steps.specs.Cut.{cut, KeepsNeeded};
ghost use Rattle.proof_steps.specs.Renumbered.{cited, renumbered, SameClauses};

/// Whether a step stands depends on the clauses of the steps that it names and on the number of symbols made before it
/// alone: with other numbers for the same clauses, behind as many new symbols, it stands exactly where it stood.
pub fn renumbered_steps_stand()
    ensures { (prepared : Prepared) (before after : List Step) (new : ℕ → ℕ) (s : Step)
        → defines after ≡ defines before → SameClauses before after new (cited s.rule)
        → step_stands prepared after (renumbered new s) ≡ step_stands prepared before s }
{}

/// Of steps that all stand, those that are kept stand with new numbers, where with each kept step those that it names
/// are kept, and each step that makes a symbol.
pub fn kept_steps_stand()
    ensures { (prepared : Prepared) (keep : ℕ → Bool) (steps : List Step)
        → StandBelow prepared steps (length steps)
        → ((n : ℕ) (s : Step) → slice_get steps n ≡ Some s → KeepsNeeded keep n s)
        → StandBelow prepared (cut keep steps) (length (cut keep steps)) }
{}

/// Such steps derive the empty clause where the last of them all has it and is kept.
pub fn kept_steps_derive()
    ensures { (prepared : Prepared) (keep : ℕ → Bool) (before : List Step) (s : Step)
        → StandBelow prepared (before ++ s ∷ []) (length (before ++ s ∷ []))
        → ((n : ℕ) (t : Step) → slice_get (before ++ s ∷ []) n ≡ Some t → KeepsNeeded keep n t)
        → keep (length before) ≡ true → is_empty_step s ≡ true
        → Derives prepared (cut keep (before ++ s ∷ [])) }
{}
