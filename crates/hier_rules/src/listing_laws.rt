//! Laws of the lists of candidates. Each is the contract of a function that does nothing.

ghost use Rattle.std.specs.Prelude.{◌↔◌, ℕ, List, Contains};
ghost use Rattle.query_board.specs.declared.queries.Stamp.{Stamp};
ghost use Rattle.term_base.specs.declared.places.Place.{Place};
ghost use Rattle.term_base.specs.declared.places.Side.{Side};
ghost use Rattle.term_base.specs.declared.symbols.Symbol.{Symbol};
ghost use Rattle.term_base.specs.declared.variables.Variable.{Variable};
ghost use Rattle.term_base.specs.Lits.{Lit};
ghost use Rattle.term_base.specs.Trees.{Tree};
ghost use Rattle.hier_rules.specs.declared.inferences.Candidate.{Candidate};
ghost use Rattle.hier_rules.specs.declared.inferences.Candidate.TheVariants.{Superpose, Resolve, Factor};
ghost use Rattle.hier_rules.specs.Candidates.{superpositions, own_candidates};
ghost use Rattle.hier_rules.specs.Fires.{Fires};
ghost use Rattle.hier_rules.specs.Listed.{IsSuperposition, IsOwn};

use term_base::laws::pure_stays_pure;

/// The superpositions from one clause into another are listed exactly where neither is a background clause, the
/// literal is an equation of the first, and the place is one of the second whose term is neither a variable nor Pure.
pub fn superpositions_are_listed()
    ensures { (signature : List Symbol) (c : List Lit) (cs : Stamp) (d : List Lit) (ds : Stamp) (x : Candidate)
        → Contains (superpositions signature c cs d ds) x ↔ IsSuperposition signature c cs d ds x }
{}

/// The inferences of a clause with itself alone are listed exactly where it is no background clause: the resolutions of
/// its disequations, and the factorings of two different equations.
pub fn own_candidates_are_listed()
    ensures { (signature : List Symbol) (c : List Lit) (cs : Stamp) (x : Candidate)
        → Contains (own_candidates signature c cs) x ↔ IsOwn signature c cs x }
{}

/// Where a clause fires for a candidate, the candidate is listed.
pub fn what_fires_is_listed()
    ensures superpositions { (signature : List Symbol) (c : List Lit) (cs : Stamp) (d : List Lit) (ds : Stamp)
        (literal : ℕ) (side : Side) (place : Place) (s1 s2 : Variable → Tree) (k : List Lit)
        → Fires signature c d (Superpose cs literal side ds place) s1 s2 k
        → Contains (superpositions signature c cs d ds) (Superpose cs literal side ds place) }
    ensures resolutions { (signature : List Symbol) (c : List Lit) (cs : Stamp) (d : List Lit)
        (literal : ℕ) (s1 s2 : Variable → Tree) (k : List Lit)
        → Fires signature c d (Resolve cs literal) s1 s2 k
        → Contains (own_candidates signature c cs) (Resolve cs literal) }
    ensures factorings { (signature : List Symbol) (c : List Lit) (cs : Stamp) (d : List Lit)
        (first : ℕ) (first_side : Side) (second : ℕ) (second_side : Side) (s1 s2 : Variable → Tree) (k : List Lit)
        → Fires signature c d (Factor cs first first_side second second_side) s1 s2 k
        → Contains (own_candidates signature c cs) (Factor cs first first_side second second_side) }
{
    pure_stays_pure();
}
