//! Laws of what steps may write. Each is the contract of a function that does nothing.

ghost use Rattle.std.specs.Prelude.{◌≡◌, ◌↔◌, ℕ, true, List};
ghost use Rattle.std.specs.List.{list_all};
ghost use Rattle.term_base.specs.declared.symbols.Symbol.{Symbol};
ghost use Rattle.term_base.specs.declared.terms.Term.{Term};
ghost use Rattle.term_base.specs.declared.variables.Variable.{Variable};
ghost use Rattle.term_base.specs.Substitution.{image, IsSubstitution, Simple};
ghost use Rattle.step_rules.specs.Symbols.{is_known_pair, is_written};

/// A substitution may be written exactly where it is simple and its terms have symbols that are there alone.
pub fn written_substitutions_are_simple()
    ensures { (signature : List Symbol) (n : ℕ) (ps : List (Variable × Term)) → IsSubstitution ps →
        (is_written signature n ps ≡ true)
        ↔ (Simple signature (image ps) × (list_all (is_known_pair n) ps ≡ true)) }
{}
