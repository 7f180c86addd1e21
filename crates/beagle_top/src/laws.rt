//! What the definition of answers implies.

ghost use Rattle.std.specs.Prelude.{◌≡◌, ◌≤◌, ◌↔◌, ℕ, [], ◌∷◌, ◌++◌, List, length};
ghost use Rattle.options.specs.declared.asked.Options.{Options};
ghost use Rattle.formula_base.specs.declared.problems.Problem.{Problem};
ghost use Rattle.bg_view.specs.declared.viewing.WideAt.{WideAt};
ghost use Rattle.arithmetic_answers.specs.Decisions.{HasWide};
ghost use Rattle.beagle_top.specs.Answer.{Checks, IsDecidable, IsDecided, IsDueFor, Proves, clauses_of, input_limit};
ghost use Rattle.beagle_top.specs.Meaning.{IsArithmetic, IsCheckable, IsContradictory, IsOneAnswer, IsPastMeasure, IsPastRange, IsTrueAtValues, IsVerified, IsWideLine};
ghost use Rattle.beagle_top.specs.Texts.{verified};

use arithmetic_answers::{empty_clause_derives, refutation_derives};
use normal_form::{clauses_are_well_sorted, clauses_have_known_symbols};
use proof_check::{one_finding, proof_behind, verified_exactly};
use proof_text::laws::one_spelling_with_status;
use tff_reader::{one_answer as one_reading, problems_are_well_typed};

/// For given options and bytes the queries are determined; where there is none, the status and the text are; and not both a derivation
/// and a saturated list are due, whatever the judge answers.
pub fn one_answer()
    ensures { (o : Options) (bytes asked also : List ℕ) (s t : ℕ) (x y : List ℕ)
        → IsDueFor o bytes asked s x → IsDueFor o bytes also t y → IsOneAnswer asked also s t x y }
{
    one_reading();
    one_finding();
    one_spelling_with_status();
}

/// Where a derivation is due, the bytes are a problem whose clauses are all of arithmetic, and at no integers for their
/// parameters are all of them true for all integers for their variables.
pub fn refuted_is_contradictory()
    ensures { (o : Options) (bytes asked text : List ℕ) → Proves o bytes asked 0 text → IsContradictory o bytes }
{}

/// Where a saturated list is due, the bytes are a problem whose clauses are all of arithmetic, and all of them are true at the
/// values of the list, for all integers for their variables.
pub fn saturated_is_true()
    ensures { (o : Options) (bytes asked text : List ℕ) → Proves o bytes asked 1 text → IsTrueAtValues o bytes text }
{}

/// The line `wide` is due exactly where no clause is empty and a number leaves the range where the pool is formed; it names the first
/// such operation, and no judge is asked.
pub fn wide_where_no_pool()
    ensures comes { (o : Options) (bytes asked : List ℕ) (status : ℕ) (text : List ℕ) (p : Problem) (at : WideAt)
        → Proves o bytes asked status text → IsArithmetic o bytes p → HasWide (clauses_of p o.ordinary) at
        → IsWideLine at asked status text }
    ensures only { (o : Options) (bytes text : List ℕ) → Proves o bytes [] 2 text → IsPastRange o bytes text }
{
    one_reading();
}

/// A line `unknown` is due only where its measure of the pool is past its limit.
pub fn unknown_where_past()
    ensures { (o : Options) (bytes text : List ℕ) → Proves o bytes (0 ∷ []) 2 text → IsPastMeasure o bytes text }
{}

/// Where the pool of background clauses is formed within the range and its three measures are within their limits, a derivation or a
/// saturated list is due, whatever judge is asked.
pub fn decidable_is_decided()
    ensures { (o : Options) (bytes asked : List ℕ) (status : ℕ) (text : List ℕ)
        → IsDecidable o bytes → Proves o bytes asked status text → IsDecided status }
{
    one_reading();
}

/// That a derivation is verified is due exactly where the bytes are within the limit, a problem without a fault and with at most 100,000 clauses,
/// and behind it the spelling of a derivation of falsehood from its clauses, whose status is Theorem exactly where there is a
/// conjecture; it has a text of its own.
pub fn verified_where_proved()
    ensures status { (bytes asked : List ℕ) (s : ℕ) (text : List ℕ) → Checks bytes asked s text → (s ≡ 0) ↔ IsVerified bytes }
    ensures text { (bytes asked : List ℕ) (s : ℕ) (text : List ℕ) → Checks bytes asked s text → (s ≡ 0) ↔ (text ≡ verified) }
{
    verified_exactly();
}

/// A derivation that is due for the bytes of a problem is verified behind them: where none of their lines begins as an answer does, they end with
/// a line or are none, and both are within the limit together.
pub fn printed_checks()
    ensures { (o : Options) (bytes asked text : List ℕ) → Proves o bytes asked 0 text → IsCheckable bytes
        → length (bytes ++ text) ≤ input_limit → IsVerified (bytes ++ text) }
{
    proof_behind();
    problems_are_well_typed();
    clauses_are_well_sorted();
    clauses_have_known_symbols();
    empty_clause_derives();
    refutation_derives();
}
