//! What the definition of a check implies.

ghost use Rattle.std.specs.Prelude.{◌≡◌, ◌≤◌, ◌↔◌, ℕ, List, ◌++◌, length, true};
ghost use Rattle.formula_base.specs.declared.problems.Problem.{Problem};
ghost use Rattle.tff_reader.specs.Answer.{IsProblem};
ghost use Rattle.normal_form.specs.Clauses.{count_of, max_clauses, prepared};
ghost use Rattle.proof_steps.specs.declared.steps.Derivation.{Derivation};
ghost use Rattle.proof_steps.specs.Derivations.{Derives};
ghost use Rattle.proof_text.specs.declared.kinds.Status.{Status};
ghost use Rattle.proof_text.specs.Derivations.{Spells};
ghost use Rattle.proof_check.specs.declared.checked.Checked.{Checked};
ghost use Rattle.proof_check.specs.declared.checked.Checked.TheVariants as checked;
ghost use Rattle.proof_check.specs.Sections.{answer_part, begins_answer, ends_line, problem_part};
ghost use Rattle.proof_check.specs.Checks.{Finds, IsProved, IsStatusOf};
ghost use Rattle.proof_check.specs.Rows as rows;

use proof_text::laws::one_status_and_derivation;
use tff_reader::one_answer;

/// A check finds one thing alone.
pub fn one_finding()
    ensures { (bytes : List ℕ) (c d : Checked) → Finds bytes c → Finds bytes d → c ≡ d }
{
    one_answer();
    one_status_and_derivation();
}

/// Verified comes exactly where the bytes are a problem without a fault and with at most 100,000 clauses, and behind it the spelling of a
/// derivation of falsehood from its clauses, whose status is Theorem exactly where the problem has a conjecture.
pub fn verified_exactly()
    ensures { (bytes : List ℕ) (c : Checked) → Finds bytes c → (c ≡ checked.Verified) ↔ IsProved bytes }
{
    one_finding();
}

/// Where nothing stands behind a problem without a fault and with at most 100,000 clauses, the text is bad at the input's length.
pub fn bad_without_answer()
    ensures { (bytes : List ℕ) (p : Problem) (c : Checked)
        → problem_part bytes ≡ bytes → IsProblem bytes p → count_of p ≤ max_clauses
        → Finds bytes c → c ≡ checked.BadText (length bytes) }
{
    one_answer();
}

/// Bytes of which no line begins as an answer does, and which end with a line or are none, are the problem's part in front of an answer, and the
/// answer is the part behind it.
pub fn answer_behind()
    ensures { (bytes answer : List ℕ)
        → problem_part bytes ≡ bytes → ends_line bytes ≡ true → begins_answer answer ≡ true
        → (problem_part (bytes ++ answer) ≡ bytes) × (answer_part (bytes ++ answer) ≡ answer) }
{}

/// The spelling of a derivation of falsehood from a problem's clauses, behind the problem's bytes, is verified where the status is the problem's own:
/// the bytes are a problem without a fault and with at most 100,000 clauses, none of their lines begins as an answer does, and they end
/// with a line or are none.
pub fn proof_behind()
    ensures { (bytes answer : List ℕ) (p : Problem) (status : Status) (d : Derivation)
        → problem_part bytes ≡ bytes → ends_line bytes ≡ true
        → IsProblem bytes p → count_of p ≤ max_clauses → Spells (status, d) answer → IsStatusOf p status
        → Derives (prepared p d.ordinary) d.steps → IsProved (bytes ++ answer) }
{}

/// Rows of the definitions, worked out: an answer behind a problem is cut off where the first line begins that begins as one does, and
/// never inside a line; and which bytes end with the end of a line.
pub fn definitions_give_rows()
    ensures cut_off { rows.CutOffAnswer }
    ensures cut_off_first { rows.CutOffFirst }
    ensures no_cut_inside { rows.NoCutInside }
    ensures ends_of_lines { rows.EndsOfLines }
{}
