//! What the definitions give.

ghost use Rattle.std.specs.Prelude.{◌≡◌, ℕ, List};
ghost use Rattle.term_base.specs.declared.clauses.Clause.{Clause};
ghost use Rattle.term_base.specs.declared.terms.Term.{Term};
ghost use Rattle.term_text.specs.Clauses.{SpellsClauseLine};
ghost use Rattle.term_text.specs.Rows as rows;
ghost use Rattle.term_text.specs.Terms.{SpellsTerm};

/// Two spellings of one term are equal, and of one clause with the end of its line.
pub fn one_spelling()
    ensures term { (t : Term) (a b : List ℕ) → SpellsTerm t a → SpellsTerm t b → a ≡ b }
    ensures clause_line { (c : Clause) (a b : List ℕ) → SpellsClauseLine c a → SpellsClauseLine c b → a ≡ b }
{}

/// Rows of the definitions, worked out: the empty clause; a sum and a multiple; a symbol with arguments; variables of several
/// sorts.
pub fn definitions_give_rows()
    ensures empty_clause { rows.EmptyClause }
    ensures sum_and_multiple { rows.SumAndMultiple }
    ensures two_arguments { rows.TwoArguments }
    ensures two_sorts { rows.TwoSorts }
{}
