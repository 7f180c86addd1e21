//! Laws of the order. Each is the contract of a function that does nothing.

ghost use Rattle.std.specs.Prelude.{◌≡◌, ℕ, true, List};
ghost use Rattle.term_base.specs.declared.symbols.Symbol.{Symbol};
ghost use Rattle.term_base.specs.declared.variables.Variable.{Variable};
ghost use Rattle.term_base.specs.Trees.{Tree};
ghost use Rattle.term_base.specs.Purity.{foreground, IsPure};
ghost use Rattle.term_base.specs.Substitution.{put_in, Simple};
ghost use Rattle.term_base.specs.Lits.{Lit, put_lit, put_clause};
ghost use Rattle.term_order.specs.Above.{Above};
ghost use Rattle.term_order.specs.Literals.{LiteralAbove, IsMaximal};

/// No term is above itself.
pub fn irreflexive()
    ensures { (signature : List Symbol) (t : Tree) → Above signature t t → ⊥ }
{}

/// What is above a term is above all that the term is above.
pub fn transitive()
    ensures { (signature : List Symbol) (s t u : Tree) → Above signature s t → Above signature t u → Above signature s u }
{}

/// Every simple substitution keeps the order of terms.
pub fn above_stays()
    ensures { (signature : List Symbol) (s : Variable → Tree) → Simple signature s → (t u : Tree) → Above signature t u → Above signature (put_in s t) (put_in s u) }
{}

/// A term with a foreground symbol is above every Pure term.
pub fn foreground_is_above_pure()
    ensures { (signature : List Symbol) (s t : Tree) → foreground signature s ≡ true → IsPure signature t → Above signature s t }
{}

/// Every simple substitution keeps the order of literals.
pub fn literal_above_stays()
    ensures { (signature : List Symbol) (s : Variable → Tree) → Simple signature s → (m l : Lit) → LiteralAbove signature m l → LiteralAbove signature (put_lit s m) (put_lit s l) }
{}

/// A literal that is maximal in the instance of a clause under a simple substitution is maximal in the clause.
pub fn maximal_before()
    ensures { (signature : List Symbol) (s : Variable → Tree) → Simple signature s → (c : List Lit) (i : ℕ) → IsMaximal signature (put_clause s c) i → IsMaximal signature c i }
{}
