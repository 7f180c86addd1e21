//! Laws of the definitions.
ghost use Rattle.std.specs.Prelude.{◌≡◌, ◌<◌, ℕ, List, ◌∷◌, All};
ghost use Rattle.std.specs.List.{AllPairs};
ghost use Rattle.formula_base.specs.declared.problems.Problem.{Problem};
ghost use Rattle.formula_base.specs.Typing.{IsWellTyped};
ghost use Rattle.tff_grammar.specs.declared.trees.Statement.{Statement};
ghost use Rattle.tff_grammar.specs.Answer.{IsText};
ghost use Rattle.tff_signature.specs.declared.faults.Later as later;
ghost use Rattle.tff_signature.specs.Faults.{Faults};
ghost use Rattle.tff_reader.specs.NumberTerms.{phase_4};
ghost use Rattle.tff_reader.specs.Meaning.{phase_3};
ghost use Rattle.tff_reader.specs.declared.refusals.Refused.{Refused};
ghost use Rattle.tff_reader.specs.Answer.{IsProblem, IsRefused};

use tff_grammar::{no_fault_of_text, one_fault, one_text};

/// The faults of types ascend by byte in file order (`types`), and so do those of products (`products`), so that in each of these
/// phases the first in file order is that of the least byte (`least_type`, `least_product`).
pub fn faults_ascend()
    ensures types { (bytes : List ℕ) (statements : List Statement) → IsText bytes statements
        → AllPairs (λ f g. f.at < g.at) (phase_3 bytes statements) }
    ensures products { (bytes : List ℕ) (statements : List Statement) → IsText bytes statements
        → AllPairs (λ f g. f.at < g.at) (phase_4 statements) }
    ensures least_type { (bytes : List ℕ) (statements : List Statement) (first : later.Later) (others : Faults)
        → IsText bytes statements → phase_3 bytes statements ≡ first ∷ others → All (λ f. first.at < f.at) others }
    ensures least_product { (bytes : List ℕ) (statements : List Statement) (first : later.Later) (others : Faults)
        → IsText bytes statements → phase_4 statements ≡ first ∷ others → All (λ f. first.at < f.at) others }
{}

/// A text has at most one answer: one problem, or one first fault.
pub fn one_answer()
    ensures problem { (bytes : List ℕ) (p q : Problem) → IsProblem bytes p → IsProblem bytes q → p ≡ q }
    ensures fault { (bytes : List ℕ) (r s : Refused) → IsRefused bytes r → IsRefused bytes s → r ≡ s }
    ensures apart { (bytes : List ℕ) (p : Problem) (r : Refused) → IsProblem bytes p → IsRefused bytes r → ⊥ }
{
    one_text();
    one_fault();
    no_fault_of_text();
}

/// The problem of a text is well typed.
pub fn problems_are_well_typed()
    ensures { (bytes : List ℕ) (p : Problem) → IsProblem bytes p → IsWellTyped p }
{}
