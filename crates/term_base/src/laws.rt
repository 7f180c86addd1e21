//! Laws of substitutions, purity, sorts, places and weights. Each is the contract of a function that does
//! nothing.

ghost use Rattle.std.specs.Prelude.{◌≡◌, ◌≤◌, ◌↔◌, List, Some, true, false};
ghost use Rattle.term_base.specs.declared.clauses.Clause.{Clause};
ghost use Rattle.term_base.specs.declared.clauses.Literal.{Literal};
ghost use Rattle.term_base.specs.declared.places.Place.{Place};
ghost use Rattle.term_base.specs.declared.symbols.Sort.TheVariants.{Int};
ghost use Rattle.term_base.specs.declared.symbols.Symbol.{Symbol};
ghost use Rattle.term_base.specs.declared.terms.Purity.TheVariants.{Pure, Impure, Foreground};
ghost use Rattle.term_base.specs.declared.terms.Term.{Term};
ghost use Rattle.term_base.specs.declared.variables.Variable.{Variable};
ghost use Rattle.term_base.specs.Trees.{Tree, tree, occurs};
ghost use Rattle.term_base.specs.Sorting.{sort};
ghost use Rattle.term_base.specs.Purity.{purity, foreground, ordinary, foreign, IsPure};
ghost use Rattle.term_base.specs.Substitution.{put_in, Simple};
ghost use Rattle.term_base.specs.Lits.{Lit, lit, lits, put_clause, clause_occurs, EachLit};
ghost use Rattle.term_base.specs.Clauses.{is_well_sorted, is_background_tree, is_background};
ghost use Rattle.term_base.specs.Places.{tree_at, replaced};
ghost use Rattle.term_base.specs.Weight.{weight, lit_weight, clause_weight};
ghost use Rattle.term_base.specs.Nodes.{nodes, literal_nodes, clause_nodes};

/// One substitution after another is one substitution, whose images are those of the first under the second.
pub fn substitutions_compose()
    ensures { (r s : Variable → Tree) (t : Tree) → put_in r (put_in s t) ≡ put_in (λ v. put_in r (s v)) t }
{}

/// A simple substitution after a simple one is simple.
pub fn simple_substitutions_compose()
    ensures { (signature : List Symbol) (r s : Variable → Tree) → Simple signature r → Simple signature s → Simple signature (λ v. put_in r (s v)) }
{}

/// A substitution that keeps the sorts of variables keeps those of all terms.
pub fn sorts_stay()
    ensures { (signature : List Symbol) (s : Variable → Tree) → ((v : Variable) → sort signature (s v) ≡ Some v.sort) → (t : Tree) → sort signature (put_in s t) ≡ sort signature t }
{}

/// A substitution that keeps the sorts of variables keeps clauses well sorted.
pub fn clauses_stay_well_sorted()
    ensures { (signature : List Symbol) (s : Variable → Tree) → ((v : Variable) → sort signature (s v) ≡ Some v.sort) → (c : List Lit) → is_well_sorted signature (put_clause s c) ≡ is_well_sorted signature c }
{}

/// The purity of a term says what is in it: Pure neither a foreground symbol nor an ordinary variable, Impure
/// an ordinary variable alone, Foreground a foreground symbol.
pub fn purity_says_what_is_in()
    ensures pure { (signature : List Symbol) (t : Tree) → (purity signature t ≡ Pure) ↔ IsPure signature t }
    ensures impure { (signature : List Symbol) (t : Tree) → (purity signature t ≡ Impure) ↔ ((foreground signature t ≡ false) × (ordinary t ≡ true)) }
    ensures foreground { (signature : List Symbol) (t : Tree) → (purity signature t ≡ Foreground) ↔ (foreground signature t ≡ true) }
{}

/// A simple substitution keeps Pure terms pure.
pub fn pure_stays_pure()
    ensures { (signature : List Symbol) (s : Variable → Tree) → Simple signature s → (t : Tree) → IsPure signature t → IsPure signature (put_in s t) }
{}

/// A term without ordinary variables has variables of sort Int alone.
pub fn abstraction_variables_are_integers()
    ensures { (t : Tree) → ordinary t ≡ false → foreign t ≡ false }
{}

/// A clause whose sides are all Pure is a background clause, and stays one under a simple substitution. (An
/// ordinary variable may go to a foreground term, so other background clauses need not stay.)
pub fn background_stays_background()
    ensures pure { (signature : List Symbol) (c : List Lit) → EachLit (λ l. IsPure signature l.left × IsPure signature l.right) c → is_background signature c ≡ true }
    ensures stays { (signature : List Symbol) (s : Variable → Tree) → Simple signature s → (c : List Lit) → EachLit (λ l. IsPure signature l.left × IsPure signature l.right) c → is_background signature (put_clause s c) ≡ true }
{}

/// A term of sort Int without a foreground symbol has variables of sort Int alone.
pub fn integers_without_foreground_are_background()
    ensures { (signature : List Symbol) (t : Tree) → sort signature t ≡ Some Int → foreground signature t ≡ false → is_background_tree signature t ≡ true }
{}

/// A simple substitution keeps a term without foreground symbols and without variables of another sort than
/// Int such a term, where the variables of the term go to terms without foreground symbols, and only there.
pub fn background_terms_stay_background()
    ensures stays { (signature : List Symbol) (s : Variable → Tree) → Simple signature s → (t : Tree) → ((v : Variable) → occurs v t ≡ true → foreground signature (s v) ≡ false) → is_background_tree signature t ≡ true → is_background_tree signature (put_in s t) ≡ true }
    ensures only { (signature : List Symbol) (s : Variable → Tree) (t : Tree) → is_background_tree signature (put_in s t) ≡ true → (v : Variable) → occurs v t ≡ true → foreground signature (s v) ≡ false }
{}

/// A simple substitution keeps a background clause a background clause where the variables of the clause
/// go to terms without foreground symbols, and only there.
pub fn background_clauses_stay_background()
    ensures stays { (signature : List Symbol) (s : Variable → Tree) → Simple signature s → (c : List Lit) → ((v : Variable) → clause_occurs v c ≡ true → foreground signature (s v) ≡ false) → is_background signature c ≡ true → is_background signature (put_clause s c) ≡ true }
    ensures only { (signature : List Symbol) (s : Variable → Tree) (c : List Lit) → is_background signature (put_clause s c) ≡ true → (v : Variable) → clause_occurs v c ≡ true → foreground signature (s v) ≡ false }
{}

/// A term that was put at a place is there.
pub fn replaced_is_there()
    ensures { (c : List Lit) (p : Place) (u : Tree) → tree_at c p ≡ Some u → (new : Tree) → tree_at (replaced c p new) p ≡ Some new }
{}

/// A term of the sort at a place, put there, keeps the clause well sorted.
pub fn replacing_keeps_sorts()
    ensures { (signature : List Symbol) (c : List Lit) (p : Place) (u new : Tree) → tree_at c p ≡ Some u → sort signature new ≡ sort signature u → is_well_sorted signature (replaced c p new) ≡ is_well_sorted signature c }
{}

/// A place stays under a substitution, and the instance of its term is there.
pub fn places_stay()
    ensures { (c : List Lit) (p : Place) (u : Tree) → tree_at c p ≡ Some u → (s : Variable → Tree) → tree_at (put_clause s c) p ≡ Some (put_in s u) }
{}

/// To put a term at a place and then substitute is to substitute and then put the term's instance there.
pub fn replacing_commutes()
    ensures { (c : List Lit) (p : Place) (u : Tree) → tree_at c p ≡ Some u → (s : Variable → Tree) (new : Tree) → replaced (put_clause s c) p (put_in s new) ≡ put_clause s (replaced c p new) }
{}

/// A term weighs at least as much as it has nodes.
pub fn weight_counts_nodes()
    ensures { (t : Term) → nodes t ≤ weight (tree t) }
{}

/// A literal weighs at least as much as it has nodes.
pub fn literal_weight_counts_nodes()
    ensures { (l : Literal) → literal_nodes l ≤ lit_weight (lit l) }
{}

/// A clause weighs at least as much as it has nodes.
pub fn clause_weight_counts_nodes()
    ensures { (c : Clause) → clause_nodes c ≤ clause_weight (lits c) }
{}

/// Terms with one tree are one.
pub fn term_is_its_tree()
    ensures { (s t : Term) → tree s ≡ tree t → s ≡ t }
{}

/// Clauses with the same literals as trees are one.
pub fn clause_is_its_literals()
    ensures { (c d : Clause) → lits c ≡ lits d → c ≡ d }
{}
