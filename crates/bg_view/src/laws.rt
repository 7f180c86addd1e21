//! What views mean. Each law is a function that does nothing, whose contract is the law.

ghost use Rattle.std.specs.Prelude.{◌≡◌, ◌↔◌, List, false};
ghost use Rattle.term_base.specs.declared.clauses.Clause.{Clause};
ghost use Rattle.lin_base.specs.Sum.{Valuation};
ghost use Rattle.lin_base.specs.Fact.{HoldsAt, Impossible};
ghost use Rattle.bg_view.specs.Unknowns.{symbols_of};
ghost use Rattle.bg_view.specs.View.{view, entail_view, entail_symbols};
ghost use Rattle.bg_view.specs.Truth.{Symbols, Variables, clause_holds, AreTrueAt, GivesSymbols, GivesTarget, AreContradictory, Entail};

/// The pool of clauses is true at parameter values exactly where the clauses are true in the
/// integers for all values of their variables, where these are the values of their symbols.
pub fn truth_of_view()
    ensures { (clauses : List Clause) (p : Symbols) (q : Valuation) →
        GivesSymbols (symbols_of clauses) p q →
        HoldsAt (view clauses).pool q ↔ AreTrueAt p clauses }
{}

/// The pool of clauses and a negated target is true at parameter values exactly where the clauses
/// are true and the target is false, at the values that these give the symbols and the target's
/// variables.
pub fn truth_of_entail_view()
    ensures { (clauses : List Clause) (target : Clause) (p : Symbols) (w : Variables)
        (q : Valuation) →
        GivesTarget (entail_symbols clauses target) target p w q →
        HoldsAt (entail_view clauses target).pool q ↔
        (AreTrueAt p clauses × (clause_holds p w target ≡ false)) }
{}

/// The pool of clauses is true at no values exactly where the clauses are contradictory: at no
/// values of their symbols are all of them true for all values of their variables.
pub fn refutation()
    ensures { (clauses : List Clause) → Impossible (view clauses).pool ↔ AreContradictory clauses }
{}

/// The pool of clauses and a negated target is true at no values exactly where the clauses entail
/// the target.
pub fn entailment()
    ensures { (clauses : List Clause) (target : Clause) →
        Impossible (entail_view clauses target).pool ↔ Entail clauses target }
{}
