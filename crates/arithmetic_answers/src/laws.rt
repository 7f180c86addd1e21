//! What the definitions give.

ghost use Rattle.std.specs.Prelude.{◌≡◌, ℕ, Bool, true, Some};
ghost use Rattle.term_base.specs.declared.preparation.Prepared.{Prepared};
ghost use Rattle.cert_tree.specs.declared.certs.Cert.{Cert};
ghost use Rattle.bg_view.specs.Background.{are_background};
ghost use Rattle.proof_steps.specs.Derivations.{Derives};
ghost use Rattle.arithmetic_answers.specs.Decisions.{Contradicts, first_empty};
ghost use Rattle.arithmetic_answers.specs.Derivations.{AreProper, empty_clause_derivation, refutation};
ghost use Rattle.arithmetic_answers.specs.Rows as rows;

/// The derivation that takes all clauses of a problem, and closes them by a certificate that contradicts them, derives falsehood, where the
/// clauses are background clauses, each is well sorted, and its symbols are there.
pub fn refutation_derives()
    ensures { (p : Prepared) (cert : Cert) → AreProper p p.clauses → are_background p.symbols p.clauses ≡ true
        → Contradicts p.clauses cert → (ordinary : Bool) → Derives p (refutation ordinary p.clauses cert).steps }
{}

/// The derivation that takes the first empty clause of a problem derives falsehood.
pub fn empty_clause_derives()
    ensures { (p : Prepared) (k : ℕ) → first_empty 0 p.clauses ≡ Some k
        → (ordinary : Bool) → Derives p (empty_clause_derivation ordinary k).steps }
{}

/// Rows of the definitions, worked out: the first empty clause, and none; values by the places of their symbols; the numbers of steps;
/// a derivation by an empty clause, and one of two clauses; the statuses; a line of values; and that of a sum that leaves the range.
pub fn definitions_give_rows()
    ensures second_is_empty { rows.SecondIsEmpty }
    ensures none_is_empty { rows.NoneIsEmpty }
    ensures values_by_place { rows.ValuesByPlace }
    ensures numbers_from_zero { rows.NumbersFromZero }
    ensures four_is_taken { rows.FourIsTaken }
    ensures two_closed { rows.TwoClosed }
    ensures two_statuses { rows.TwoStatuses }
    ensures two_values { rows.TwoValues }
    ensures wide_sum { rows.WideSum }
{}
