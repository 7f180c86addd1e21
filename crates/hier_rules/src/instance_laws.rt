//! Laws of instances and conclusions. Each is the contract of a function that does nothing.

ghost use Rattle.std.specs.Prelude.{◌≡◌, ◌↔◌, ◌≤◌, List};
ghost use Rattle.term_base.specs.declared.symbols.Symbol.{Symbol};
ghost use Rattle.term_base.specs.declared.variables.Variable.{Variable};
ghost use Rattle.term_base.specs.Lits.{Lit};
ghost use Rattle.term_base.specs.Redundancy.{Tautology, Covers};
ghost use Rattle.term_base.specs.Trees.{Tree};
ghost use Rattle.term_base.specs.Weight.{clause_weight};
ghost use Rattle.hier_rules.specs.declared.inferences.Candidate.{Candidate};
ghost use Rattle.hier_rules.specs.Fires.{Fires, IsInstance};
ghost use Rattle.hier_rules.specs.RedundantBy.{IsConclusionOf, IsRedundant, AllRedundant};

use redundancy_laws::laws::{
    clauses_cover_by_their_instances, covered_clauses_stay_covered, covering_composes,
    substitutions_make_nothing_lighter, tautologies_stay,
};
use term_base::laws::simple_substitutions_compose;

/// A clause is an instance of itself, and an instance of an instance is one.
pub fn instances_compose()
    ensures itself { (signature : List Symbol) (k : List Lit) → IsInstance signature k k }
    ensures after { (signature : List Symbol) (k e f : List Lit)
        → IsInstance signature k e → IsInstance signature e f → IsInstance signature k f }
{
    simple_substitutions_compose();
    tautologies_stay();
    covered_clauses_stay_covered();
    clauses_cover_by_their_instances();
    covering_composes();
    substitutions_make_nothing_lighter();
}

/// Instances of tautologies and of covered clauses are such again, a clause covers its instances and what they cover,
/// and no instance is lighter.
pub fn instances_stay_redundant()
    ensures tautology { (signature : List Symbol) (k e : List Lit) → IsInstance signature k e → Tautology k → Tautology e }
    ensures covered { (signature : List Symbol) (f k e : List Lit)
        → IsInstance signature k e → Covers signature f k → Covers signature f e }
    ensures covers { (signature : List Symbol) (f e k : List Lit)
        → IsInstance signature f e → Covers signature e k → Covers signature f k }
    ensures by_itself { (signature : List Symbol) (k e : List Lit) → IsInstance signature k e → Covers signature k e }
    ensures weight { (signature : List Symbol) (k e : List Lit) → IsInstance signature k e → clause_weight k ≤ clause_weight e }
{
    simple_substitutions_compose();
    tautologies_stay();
    covered_clauses_stay_covered();
    clauses_cover_by_their_instances();
    covering_composes();
    substitutions_make_nothing_lighter();
}

/// The conclusions of one candidate have one weight, the least of all that fires for it.
pub fn conclusions_have_one_weight()
    ensures least { (signature : List Symbol) (c d : List Lit) (candidate : Candidate) (k : List Lit)
        → IsConclusionOf signature c d candidate k → (r1 r2 : Variable → Tree) (e : List Lit)
        → Fires signature c d candidate r1 r2 e → clause_weight k ≤ clause_weight e }
    ensures one { (signature : List Symbol) (c d : List Lit) (candidate : Candidate) (k m : List Lit)
        → IsConclusionOf signature c d candidate k → IsConclusionOf signature c d candidate m
        → clause_weight k ≡ clause_weight m }
{
    simple_substitutions_compose();
    tautologies_stay();
    covered_clauses_stay_covered();
    clauses_cover_by_their_instances();
    covering_composes();
    substitutions_make_nothing_lighter();
}

/// Everything that fires for a candidate is a tautology or covered by one of the items exactly where its conclusion is.
pub fn conclusions_decide_redundancy()
    ensures { (signature : List Symbol) (items : List (List Lit)) (c d : List Lit) (candidate : Candidate) (k : List Lit)
        → IsConclusionOf signature c d candidate k
        → AllRedundant signature items c d candidate ↔ IsRedundant signature items k }
{
    simple_substitutions_compose();
    tautologies_stay();
    covered_clauses_stay_covered();
    clauses_cover_by_their_instances();
    covering_composes();
    substitutions_make_nothing_lighter();
}
