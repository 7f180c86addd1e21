//! Laws of the rules. Each is the contract of a function that does nothing.

ghost use Rattle.std.specs.Prelude.{◌≡◌, ℕ, true, List};
ghost use Rattle.term_base.specs.declared.symbols.Symbol.{Symbol};
ghost use Rattle.term_base.specs.declared.variables.Variable.{Variable};
ghost use Rattle.term_base.specs.Trees.{Tree};
ghost use Rattle.term_base.specs.Known.{is_known_clause, KnownImages};
ghost use Rattle.term_base.specs.Lits.{Lit};
ghost use Rattle.term_base.specs.Clauses.{is_well_sorted};
ghost use Rattle.hier_rules.specs.declared.inferences.Candidate.{Candidate};
ghost use Rattle.hier_rules.specs.Fires.{Fires};

use term_base::laws::{clauses_stay_well_sorted, places_stay, replacing_keeps_sorts};

/// What fires is well sorted where both clauses are; where there is one premise, it may be handed in for both.
pub fn conclusions_are_well_sorted()
    ensures { (signature : List Symbol) (c d : List Lit) (candidate : Candidate)
        (s1 s2 : Variable → Tree) (k : List Lit)
        → is_well_sorted signature c ≡ true → is_well_sorted signature d ≡ true
        → Fires signature c d candidate s1 s2 k → is_well_sorted signature k ≡ true }
{
    clauses_stay_well_sorted();
    places_stay();
    replacing_keeps_sorts();
}

/// What fires by substitutions whose images have symbols below a number alone has symbols below it alone where both
/// clauses have; where there is one premise, it may be handed in for both.
pub fn conclusions_have_known_symbols()
    ensures { (signature : List Symbol) (c d : List Lit) (candidate : Candidate)
        (s1 s2 : Variable → Tree) (k : List Lit) (n : ℕ)
        → is_known_clause n c ≡ true → is_known_clause n d ≡ true → KnownImages n s1 → KnownImages n s2
        → Fires signature c d candidate s1 s2 k → is_known_clause n k ≡ true }
{}
