//! The number of a problem's clauses.

ghost use Rattle.std.specs.Prelude.{◌≡◌, ◌+◌, ◌*◌, map, sum, true, false, cond};
ghost use Rattle.normal_form.specs.Count.{number, product, saturated};
ghost use Rattle.normal_form.specs.Clauses.{count_of};

use formula_base::{Formula, Problem};

/// How many clauses a formula gives for each sign; 2^64 - 1 stands for that many and more.
#[derive(Clone, Copy)]
pub(crate) struct Counts {
    pub(crate) plus: u64,
    pub(crate) minus: u64,
}

impl Counts {
    /// Those of the formula that always holds.
    pub(crate) fn always() -> Counts
        ensures plus { result.plus ≡ 0 }
        ensures minus { result.minus ≡ 1 }
    {
        Counts { plus: 0, minus: 1 }
    }

    /// Those of an atom.
    pub(crate) fn atom() -> Counts
        ensures plus { result.plus ≡ 1 }
        ensures minus { result.minus ≡ 1 }
    {
        Counts { plus: 1, minus: 1 }
    }

    /// Those of the negation.
    pub(crate) fn negated(self) -> Counts
        ensures plus { result.plus ≡ self.minus }
        ensures minus { result.minus ≡ self.plus }
    {
        Counts {
            plus: self.minus,
            minus: self.plus,
        }
    }

    /// Those of a conjunction of two formulas: lists one after the other, or joined pairwise.
    pub(crate) fn and(self, other: Counts) -> Counts
        ensures plus { result.plus ≡ saturated (self.plus + other.plus) }
        ensures minus { result.minus ≡ saturated (self.minus * other.minus) }
    {
        Counts {
            plus: self.plus.saturating_add(other.plus),
            minus: self.minus.saturating_mul(other.minus),
        }
    }

    /// Those of a disjunction of two formulas.
    pub(crate) fn or(self, other: Counts) -> Counts
        ensures plus { result.plus ≡ saturated (self.plus * other.plus) }
        ensures minus { result.minus ≡ saturated (self.minus + other.minus) }
    {
        Counts {
            plus: self.plus.saturating_mul(other.plus),
            minus: self.minus.saturating_add(other.minus),
        }
    }

    /// Those of an implication of two formulas.
    pub(crate) fn implies(self, other: Counts) -> Counts
        ensures plus { result.plus ≡ saturated (self.minus * other.plus) }
        ensures minus { result.minus ≡ saturated (self.plus + other.minus) }
    {
        self.negated().or(other)
    }

    /// That for a sign.
    pub(crate) fn of(self, sign: bool) -> u64
        ensures { result ≡ cond sign self.plus self.minus }
    {
        if sign { self.plus } else { self.minus }
    }
}

/// How many clauses a formula gives for each sign.
#[cycle(counts)]
pub(crate) fn counts_of(formula: &Formula) -> Counts
    ensures plus { result.plus ≡ saturated (number formula.now true) }
    ensures minus { result.minus ≡ saturated (number formula.now false) }
{
    match formula {
        Formula::True => Counts::always(),
        Formula::False => Counts::always().negated(),
        Formula::Atom(_) | Formula::Same(_, _) | Formula::Less(_, _) | Formula::LessEq(_, _) =>
            Counts::atom(),
        Formula::Not(f) => counts_of(f.get()).negated(),
        Formula::And(fs) => conjunction_counts(fs.as_slice()),
        Formula::Or(fs) => disjunction_counts(fs.as_slice()),
        Formula::Implies(f, g) => {
            let f = counts_of(f.get());
            f.implies(counts_of(g.get()))
        }
        Formula::Iff(f, g) => {
            let f = counts_of(f.get());
            let g = counts_of(g.get());
            f.implies(g).and(g.implies(f))
        }
        Formula::All(_, f) | Formula::Some(_, f) => counts_of(f.get()),
    }
}

/// How many clauses the conjunction of these formulas gives for each sign.
#[cycle(counts)]
fn conjunction_counts(members: &[Formula]) -> Counts
    ensures plus { result.plus ≡ saturated (sum (map (λ g. number g true) members.now)) }
    ensures minus { result.minus ≡ saturated (product (map (λ g. number g false) members.now)) }
{
    let mut all = Counts::always();
    for member in members {
        all = all.and(counts_of(member));
    }
    all
}

/// How many clauses the disjunction of these formulas gives for each sign.
#[cycle(counts)]
fn disjunction_counts(members: &[Formula]) -> Counts
    ensures plus { result.plus ≡ saturated (product (map (λ g. number g true) members.now)) }
    ensures minus { result.minus ≡ saturated (sum (map (λ g. number g false) members.now)) }
{
    let mut all = Counts::always().negated();
    for member in members {
        all = all.or(counts_of(member));
    }
    all
}

/// Whether an implication between formulas with these counts gives a clause for a sign.
pub(crate) fn may_give_clauses(from: Counts, to: Counts, sign: bool) -> bool
    ensures { result ≡ false → cond sign (from.minus * to.plus) (from.plus + to.minus) ≡ 0 }
{
    from.implies(to).of(sign) != 0
}

/// The number of clauses of a problem, or 2^64 - 1 where it is at least that.
pub fn count(problem: &Problem) -> u64
    ensures { result ≡ saturated (count_of problem.now) }
{
    let mut all: u64 = 0;
    for premise in problem.premises.as_slice() {
        all = all.saturating_add(counts_of(premise).plus);
    }
    match &problem.conjecture {
        Some(conjecture) => all.saturating_add(counts_of(conjecture).minus),
        None => all,
    }
}
