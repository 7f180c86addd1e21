//! Laws of the definitions.
ghost use Rattle.std.specs.Prelude.{◌≡◌, ◌<◌, ℕ, List, ◌∷◌, All};
ghost use Rattle.std.specs.List.{AllPairs};
ghost use Rattle.tff_grammar.specs.declared.trees.Statement.{Statement};
ghost use Rattle.tff_grammar.specs.Answer.{IsText};
ghost use Rattle.tff_signature.specs.declared.faults.Later as later;
ghost use Rattle.tff_signature.specs.Declarations.{phase_2};
ghost use Rattle.tff_signature.specs.Faults.{Faults};

/// The faults of declarations and binders ascend by byte in file order (`ascending`), so that the first in file order is that of the
/// least byte (`least`).
pub fn faults_ascend()
    ensures ascending { (bytes : List ℕ) (statements : List Statement) → IsText bytes statements → AllPairs (λ f g. f.at < g.at) (phase_2 bytes statements) }
    ensures least { (bytes : List ℕ) (statements : List Statement) (first : later.Later) (others : Faults)
        → IsText bytes statements → phase_2 bytes statements ≡ first ∷ others → All (λ f. first.at < f.at) others }
{}
