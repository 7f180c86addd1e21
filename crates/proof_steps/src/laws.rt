//! Laws of steps. Each is the contract of a function that does nothing.

ghost use Rattle.std.specs.Prelude.{◌≡◌, ◌↔◌, List, true};
ghost use Rattle.term_base.specs.declared.symbols.Symbol.{Symbol};
ghost use Rattle.term_base.specs.Lits.{Lit};
ghost use Rattle.weak_abstraction.specs.Abstraction.{IsAbstraction};
ghost use Rattle.step_rules.specs.Abstraction.{is_abstraction};

/// The abstractions that a step may make are those of weak abstraction.
pub fn abstractions_are_steps()
    ensures { (signature : List Symbol) (c d : List Lit) →
        (is_abstraction signature c d ≡ true) ↔ IsAbstraction signature c d }
{}
