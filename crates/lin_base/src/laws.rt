//! Laws of sums, facts and numbers. Each is a function that does nothing, whose contract is the
//! law; a valuation gives each unknown a whole number, and whole numbers have no limit.

ghost use Rattle.std.specs.Prelude.{◌≡◌, ◌≢◌, ℕ, ℤ, pos, not, ◌==◌, ◌&&◌, ◌+ℤ◌, ◌*ℤ◌, ◌≤ℤ◌, ◌<ℤ◌, neg_ℤ, Bool, false, IsTrue, List, ◌∷◌, ◌++◌, None};
ghost use Rattle.std.specs.List.{list_all, AllByRecursion};
ghost use Rattle.std.specs.Option.{option_or};
ghost use Rattle.lin_base.specs.declared.sums.Lin.{Lin};
ghost use Rattle.lin_base.specs.declared.facts.Fact.{Fact};
ghost use Rattle.lin_base.specs.declared.wides.Wide.{Wide};
ghost use Rattle.lin_base.specs.declared.wides.ArithmeticError.{ArithmeticError};
ghost use Rattle.lin_base.specs.Whole.{divides, div_ceil, lcm};
ghost use Rattle.lin_base.specs.Sum.{Valuation, value, assigned, coef, occurs, each_unknown, without, number, add, scale, negated, add_number, above};
ghost use Rattle.lin_base.specs.Steps.{first_wide, IsErrorAt};
ghost use Rattle.lin_base.specs.Combine.{add_scaled, add_scaled_steps, combined, combined_onto_steps, total, IsSmall};
ghost use Rattle.lin_base.specs.Fact.{sum_of, holds, is_lin, is_fact};
ghost use Rattle.lin_base.specs.Change.{replace, tight};

/// Each unknown's coefficient in a sum of sums, in a multiple, and where the unknown doesn't occur.
pub fn coefficients()
    ensures sum { (x : ℕ) (t u : Lin) → coef x (add t u) ≡ coef x t +ℤ coef x u }
    ensures multiple { (x : ℕ) (k : ℤ) (t : Lin) → coef x (scale k t) ≡ k *ℤ coef x t }
    ensures absent { (x : ℕ) (t : Lin) → occurs x t ≡ false → coef x t ≡ pos 0 }
{}

/// Which unknowns occur in what is formed of sums. In a well-formed sum the coefficient of what
/// occurs isn't 0.
pub fn occurrences()
    ensures sum { (x : ℕ) (t u : Lin) → occurs x t ≡ false → occurs x u ≡ false →
        occurs x (add t u) ≡ false }
    ensures multiple { (x : ℕ) (k : ℤ) (t : Lin) → occurs x t ≡ false →
        occurs x (scale k t) ≡ false }
    ensures negated { (x : ℕ) (t : Lin) → IsTrue (is_lin t) → occurs x (negated t) ≡ occurs x t }
    ensures number_added { (x : ℕ) (t : Lin) (c : ℤ) → IsTrue (is_lin t) →
        occurs x (add_number t c) ≡ occurs x t }
    ensures above { (x : ℕ) (t : Lin) → IsTrue (is_lin t) → occurs x (above t) ≡ occurs x t }
    ensures rest { (x y : ℕ) (t : Lin) → occurs y (without x t) ≡ (not (y == x) && occurs y t) }
    ensures coefficient { (x : ℕ) (t : Lin) → IsTrue (is_lin t) → IsTrue (occurs x t) →
        coef x t ≢ pos 0 }
{}

/// The sum without a term: the sum itself where the unknown doesn't occur, and of a multiple the
/// multiple.
pub fn rests()
    ensures absent { (x : ℕ) (t : Lin) → occurs x t ≡ false → without x t ≡ t }
    ensures multiple { (x : ℕ) (k : ℤ) (t : Lin) → without x (scale k t) ≡ scale k (without x t) }
    ensures negated { (x : ℕ) (t : Lin) → without x (negated t) ≡ negated (without x t) }
{}

/// The value of a sum of sums is the sum of the values.
pub fn value_of_add()
    ensures { (v : Valuation) (t u : Lin) → value v (add t u) ≡ value v t +ℤ value v u }
{}

/// The value of a multiple is the multiple of the value.
pub fn value_of_scale()
    ensures { (v : Valuation) (k : ℤ) (t : Lin) → value v (scale k t) ≡ k *ℤ value v t }
{}

/// The value of `-t`.
pub fn value_of_negate()
    ensures { (v : Valuation) (t : Lin) → value v (negated t) ≡ neg_ℤ (value v t) }
{}

/// The value of `t + c`.
pub fn value_of_add_number()
    ensures { (v : Valuation) (t : Lin) (c : ℤ) → value v (add_number t c) ≡ value v t +ℤ c }
{}

/// The value of `-t + 1`.
pub fn value_of_above()
    ensures { (v : Valuation) (t : Lin) → value v (above t) ≡ neg_ℤ (value v t) +ℤ pos 1 }
{}

/// The value of a number, which has no unknown.
pub fn value_of_number()
    ensures { (v : Valuation) (c : ℤ) → value v (number c) ≡ c }
{}

/// The value of the step of a combination.
pub fn value_of_add_scaled()
    ensures { (v : Valuation) (t u : Lin) (k : ℤ) →
        value v (add_scaled t k u) ≡ value v t +ℤ k *ℤ value v u }
{}

/// The value of a sum is that of its term at `x` and that of the sum without it.
pub fn value_of_without()
    ensures { (v : Valuation) (x : ℕ) (t : Lin) →
        value v t ≡ coef x t *ℤ v x +ℤ value v (without x t) }
{}

/// The value of a sum where `x` has another value than in `v`.
pub fn value_where_assigned()
    ensures { (v : Valuation) (x : ℕ) (z : ℤ) (t : Lin) →
        value (assigned x z v) t ≡ coef x t *ℤ z +ℤ value v (without x t) }
{}

/// What a fact speaks of after a replacement: a fact without `x` stays. Where `x` occurs with the
/// coefficient `b` and `u` is the rest of the sum, the value is `b` times that of `t` and `a`
/// times that of `u`; it is `a` times the old value where `t` has the value of `a * x`.
pub fn value_of_replace()
    ensures absent { (x : ℕ) (a : ℤ) (t : Lin) (f : Fact) → occurs x (sum_of f) ≡ false →
        replace x a t f ≡ f }
    ensures value { (v : Valuation) (x : ℕ) (a : ℤ) (t : Lin) (f : Fact) →
        IsTrue (occurs x (sum_of f)) →
        value v (sum_of (replace x a t f)) ≡
        coef x (sum_of f) *ℤ value v t +ℤ a *ℤ value v (without x (sum_of f)) }
    ensures multiple { (v : Valuation) (x : ℕ) (a : ℤ) (t : Lin) (f : Fact) →
        IsTrue (occurs x (sum_of f)) →
        value v t ≡ a *ℤ v x → value v (sum_of (replace x a t f)) ≡ a *ℤ value v (sum_of f) }
{}

/// The sum that a combination forms has the sum of the multiples of the values as its value.
/// Where each multiple is at most 0 it is at most 0, and it is well formed where each of the sums
/// is.
pub fn combination()
    ensures value { (v : Valuation) (parts : List (Lin × ℤ)) →
        value v (combined parts) ≡ total v parts }
    ensures at_most_zero { (v : Valuation) (parts : List (Lin × ℤ)) →
        AllByRecursion (IsSmall v) parts →
        value v (combined parts) ≤ℤ pos 0 }
    ensures well_formed { (parts : List (Lin × ℤ)) → IsTrue (list_all (λ e. is_lin e.0) parts) →
        IsTrue (is_lin (combined parts)) }
{}

/// The first step of a combination that leaves the range: the error of a step is the error of the
/// whole, and where a step stays in the range the rest decides, which goes on from the sum that
/// the step formed.
pub fn combination_steps()
    ensures wide { (e : ArithmeticError) (so_far t : Lin) (k : ℤ) (rest : List (Lin × ℤ)) →
        IsErrorAt e (first_wide (add_scaled_steps so_far k t)) →
        IsErrorAt e (first_wide (combined_onto_steps so_far ((t, k) ∷ rest))) }
    ensures narrow { (so_far t : Lin) (k : ℤ) (rest : List (Lin × ℤ)) →
        first_wide (add_scaled_steps so_far k t) ≡ None →
        first_wide (combined_onto_steps so_far ((t, k) ∷ rest)) ≡
        first_wide (combined_onto_steps (add_scaled so_far k t) rest) }
{}

/// Of steps one after the other the first that leaves the range is that of the earlier ones,
/// where there is one, and else that of the later ones.
pub fn steps_in_order()
    ensures { (ss ts : List Wide) →
        first_wide (ss ++ ts) ≡ option_or (first_wide ss) (first_wide ts) }
{}

/// Where `t` has the value of `a * x`, putting it in place of `a * x` changes no truth.
pub fn truth_of_replace()
    ensures { (v : Valuation) (x : ℕ) (a : ℤ) (t : Lin) (f : Fact) → pos 1 ≤ℤ a →
        value v t ≡ a *ℤ v x → holds v (replace x a t f) ≡ holds v f }
{}

/// A fact has one truth at valuations that agree on its unknowns.
pub fn truth_of_same()
    ensures { (test : ℕ → Bool) (v w : Valuation) → ((x : ℕ) → IsTrue (test x) → v x ≡ w x) →
        (f : Fact) →
        IsTrue (each_unknown test (sum_of f)) → holds v f ≡ holds w f }
{}

/// Tightening keeps the whole numbers at which a fact is true.
pub fn truth_of_tight()
    ensures { (v : Valuation) (f : Fact) → holds v (tight f) ≡ holds v f }
{}

/// Unknowns ascend and no coefficient is 0 in all that is formed of well-formed sums.
pub fn well_formed_sums()
    ensures sum { (t u : Lin) → IsTrue (is_lin t) → IsTrue (is_lin u) → IsTrue (is_lin (add t u)) }
    ensures multiple { (k : ℤ) (t : Lin) → IsTrue (is_lin t) → IsTrue (is_lin (scale k t)) }
    ensures rest { (x : ℕ) (t : Lin) → IsTrue (is_lin t) → IsTrue (is_lin (without x t)) }
    ensures number_added { (t : Lin) (c : ℤ) → IsTrue (is_lin t) →
        IsTrue (is_lin (add_number t c)) }
    ensures above { (t : Lin) → IsTrue (is_lin t) → IsTrue (is_lin (above t)) }
{}

/// What is made of well-formed facts is well formed.
pub fn well_formed_facts()
    ensures replaced { (x : ℕ) (a : ℤ) (t : Lin) (f : Fact) → pos 1 ≤ℤ a → IsTrue (is_lin t) →
        IsTrue (is_fact f) → IsTrue (is_fact (replace x a t f)) }
    ensures tightened { (f : Fact) → IsTrue (is_fact f) → IsTrue (is_fact (tight f)) }
{}

/// The quotient rounded up is the least whole number of which `b` times isn't below `a`.
pub fn rounded_up()
    ensures above { (a b : ℤ) → pos 1 ≤ℤ b → a ≤ℤ (div_ceil a b *ℤ b) }
    ensures least { (a b : ℤ) → pos 1 ≤ℤ b → (div_ceil a b *ℤ b) <ℤ (a +ℤ b) }
{}

/// The least common multiple is a common multiple, and it divides each other one.
pub fn least_multiple()
    ensures left { (a b : ℤ) → pos 1 ≤ℤ a → pos 1 ≤ℤ b → IsTrue (divides a (lcm a b)) }
    ensures right { (a b : ℤ) → pos 1 ≤ℤ a → pos 1 ≤ℤ b → IsTrue (divides b (lcm a b)) }
    ensures positive { (a b : ℤ) → pos 1 ≤ℤ a → pos 1 ≤ℤ b → pos 1 ≤ℤ lcm a b }
    ensures least { (a b z : ℤ) → pos 1 ≤ℤ a → pos 1 ≤ℤ b → IsTrue (divides a z) →
        IsTrue (divides b z) → IsTrue (divides (lcm a b) z) }
{}
