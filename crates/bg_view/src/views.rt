//! Background clauses as pools.

ghost use Rattle.std.specs.Prelude.{◌≡◌, ◌≤◌, ◌<◌, ◌^◌, ◌++◌, [], ◌∷◌, length, false, ◌↔◌, IfOk, IfErr, IsTrue};
ghost use Rattle.std.specs.List.Sorted.{IsStrictlyIncreasing};
ghost use Rattle.lin_base.specs.declared.wides.ArithmeticError.TheVariants.{Memory};
ghost use Rattle.lin_base.specs.Sum.{Valuation};
ghost use Rattle.lin_base.specs.Fact.{HoldsAt, is_pool};
ghost use Rattle.lin_base.specs.Steps.{Forms};
ghost use Rattle.bg_view.specs.Numbers.{IsNumbering, numbering_of};
ghost use Rattle.bg_view.specs.Background.{is_background_clause, are_background};
ghost use Rattle.bg_view.specs.Unknowns.{symbols_of};
ghost use Rattle.bg_view.specs.Truth.{Symbols, Variables, clause_holds, AreTrueAt, GivesSymbols, GivesTarget};
ghost use Rattle.bg_view.specs.View as spec;

use crate::literals::{literal_view, negated_view};
use crate::unknowns::{
    Unknowns, append_clause_symbols, append_clauses_symbols, ascending, numbered, variables_of,
};
use crate::viewing::{ViewError, Viewed, WideAt};
use lin_base::{ArithmeticError, Fact, Pool};
use sqlite_items::Items;
use std::alloc::{AllocError, Global};
use term_base::{Clause, Literal, Symbol};

/// The facts of all literals.
#[tactic(auto, using(crate::proofs::Forming::forming))]
fn literals_facts(
    alloc: Global,
    unknowns: &Unknowns,
    literals: &[Literal],
) -> Result<Items<Fact>, ArithmeticError>
    requires { IsNumbering unknowns.now }
    ensures { Forms result (spec.literals_steps (numbering_of unknowns.now) literals.now)
        (spec.literals_facts (numbering_of unknowns.now) literals.now) }
{
    let mut facts = Items::new(alloc);
    for literal in literals {
        let more = literal_view(alloc, unknowns, literal)?;
        facts.append(more)?;
    }
    Ok(facts)
}

/// A unit clause for each literal of the negated clause.
#[tactic(auto, using(crate::proofs::Forming::forming))]
fn negated_facts(
    alloc: Global,
    unknowns: &Unknowns,
    literals: &[Literal],
) -> Result<Items<Items<Fact>>, ArithmeticError>
    requires { IsNumbering unknowns.now }
    ensures { Forms result (spec.negated_steps_of (numbering_of unknowns.now) literals.now)
        (spec.negated_facts (numbering_of unknowns.now) literals.now) }
{
    let mut clauses = Items::new(alloc);
    for literal in literals {
        let clause = negated_view(alloc, unknowns, literal)?;
        clauses.push(clause)?;
    }
    Ok(clauses)
}

/// The facts of a clause.
fn clause_facts(
    alloc: Global,
    symbols: &[u32],
    params: u32,
    clause: &Clause,
) -> Result<Items<Fact>, ArithmeticError>
    requires ascending { IsStrictlyIncreasing symbols.now }
    requires after { length symbols.now ≤ params }
    ensures { Forms result (spec.clause_steps symbols.now params clause.now)
        (spec.clause_facts symbols.now params clause.now) }
{
    let unknowns = numbered(symbols, params, variables_of(alloc, clause)?)?;
    literals_facts(alloc, &unknowns, clause.literals.as_slice())
}

/// The error of the clause of this number.
fn at_clause(number: u32, error: ArithmeticError) -> ViewError
    ensures { result ≡ spec.at_clause number error }
{
    match error {
        ArithmeticError::Memory => ViewError::Memory,
        ArithmeticError::Wide(wide) => ViewError::Wide(WideAt {
            clause: number,
            wide,
        }),
    }
}

/// The facts of the clauses.
fn clauses_facts(
    alloc: Global,
    symbols: &[u32],
    params: u32,
    clauses: &[Clause],
) -> Result<Items<Items<Fact>>, ViewError>
    requires ascending { IsStrictlyIncreasing symbols.now }
    requires after { length symbols.now ≤ params }
    requires count { length clauses.now < 2 ^ 32 }
    ensures { spec.Forms result (spec.clauses_steps symbols.now params clauses.now)
        (spec.clauses_facts symbols.now params clauses.now) }
{
    let mut pool = Items::new(alloc);
    let mut number = 0;
    for clause in clauses {
        match clause_facts(alloc, symbols, params, clause) {
            Ok(facts) => pool.push(facts)?,
            Err(error) => return Err(at_clause(number, error)),
        }
        number += 1;
    }
    Ok(pool)
}

/// A count as a `u32`, or Memory where it is larger.
fn count(n: usize) -> Result<u32, ViewError>
    ensures ok { IfOk result (λ m. m ≡ n) }
    ensures err { IfErr result (λ e. e ≡ ViewError.Memory) }
    ensures past { IfErr result (λ e. 2 ^ 32 ≤ n) }
{
    match u32::try_from(n) {
        Ok(m) => Ok(m),
        Err(_) => Err(ViewError::Memory),
    }
}

fn parameters(alloc: Global, clauses: &[Clause]) -> Result<Items<u32>, AllocError>
    ensures value { IfOk result (λ s. s ≡ symbols_of clauses.now) }
    ensures rises { IfOk result (λ s. IsStrictlyIncreasing s) }
{
    let mut symbols = Vec::new(alloc);
    append_clauses_symbols(clauses, &mut symbols)?;
    Ok(ascending(symbols))
}

fn view_of(alloc: Global, symbols: Items<u32>, clauses: &[Clause]) -> Result<Viewed, ViewError>
    requires ascending { IsStrictlyIncreasing symbols }
    ensures { spec.Forms result (spec.clauses_steps symbols (length symbols) clauses.now)
        (spec.view_of symbols clauses.now) }
{
    count(clauses.len())?;
    let params = count(symbols.len())?;
    let clauses = clauses_facts(alloc, symbols.as_slice(), params, clauses)?;
    Ok(Viewed {
        symbols,
        pool: Pool { params, clauses },
    })
}

/// The pool of background clauses. Its parameters are numbered by ascending symbol number, and
/// the variables of each clause after them by first place. A literal `s <= t` gives the fact
/// `s - t <= 0`, `s = t` gives `s - t = 0`, and `s != t` gives two facts, `s - t + 1 <= 0` and
/// `-(s - t) + 1 <= 0`; `true = true` gives `0 = 0`, and `true != true` gives `1 <= 0`. Each fact
/// of the pool is well formed. The answer is Wide with the first sum or product that leaves the
/// range.
pub fn view(alloc: Global, signature: &[Symbol], clauses: &[Clause]) -> Result<Viewed, ViewError>
    requires { IsTrue (are_background signature.now clauses.now) }
    ensures pool { spec.Forms result (spec.view_steps clauses.now) (spec.view clauses.now) }
    ensures truth { IfOk result (λ r. (p : Symbols) (q : Valuation) → GivesSymbols r.symbols p q →
        HoldsAt r.pool q ↔ AreTrueAt p clauses.now) }
    ensures well_formed { IfOk result (λ r. IsTrue (is_pool r.pool)) }
    ensures rises { IfOk result (λ r. IsStrictlyIncreasing r.symbols) }
{
    let symbols = parameters(alloc, clauses)?;
    view_of(alloc, symbols, clauses)
}

fn entail_parameters(
    alloc: Global,
    clauses: &[Clause],
    target: &Clause,
) -> Result<Items<u32>, AllocError>
    ensures value { IfOk result (λ s. s ≡ spec.entail_symbols clauses.now target.now) }
    ensures rises { IfOk result (λ s. IsStrictlyIncreasing s) }
{
    let mut symbols = Vec::new(alloc);
    append_clauses_symbols(clauses, &mut symbols)?;
    append_clause_symbols(target, &mut symbols)?;
    Ok(ascending(symbols))
}

/// The unit clauses of the negated target, which counts as the clause of this number.
fn target_facts(
    alloc: Global,
    unknowns: &Unknowns,
    target: &Clause,
    number: u32,
) -> Result<Items<Items<Fact>>, ViewError>
    requires { IsNumbering unknowns.now }
    ensures { spec.FormsAt number result
        (spec.negated_steps_of (numbering_of unknowns.now) target.now.literals)
        (spec.negated_facts (numbering_of unknowns.now) target.now.literals) }
{
    match negated_facts(alloc, unknowns, target.literals.as_slice()) {
        Ok(clauses) => Ok(clauses),
        Err(error) => Err(at_clause(number, error)),
    }
}

/// The facts of the clauses and then those of the negated target.
fn entail_facts(
    alloc: Global,
    unknowns: &Unknowns,
    params: u32,
    clauses: &[Clause],
    target: &Clause,
) -> Result<Items<Items<Fact>>, ViewError>
    requires numbering { IsNumbering unknowns.now }
    requires after { length unknowns.now.symbols.now ≤ params }
    ensures { spec.Forms result
        (spec.clauses_steps unknowns.now.symbols.now params clauses.now
        ++ spec.negated_steps_of (numbering_of unknowns.now) target.now.literals ∷ [])
        (spec.clauses_facts unknowns.now.symbols.now params clauses.now
        ++ spec.negated_facts (numbering_of unknowns.now) target.now.literals) }
{
    let number = count(clauses.len())?;
    let mut pool = clauses_facts(alloc, unknowns.symbols, params, clauses)?;
    let units = target_facts(alloc, unknowns, target, number)?;
    pool.append(units)?;
    Ok(pool)
}

/// The pool, and how many parameters it has.
fn entail_pool(
    alloc: Global,
    symbols: &[u32],
    clauses: &[Clause],
    target: &Clause,
) -> Result<Pool, ViewError>
    requires ascending { IsStrictlyIncreasing symbols.now }
    ensures { spec.Forms result (spec.entail_steps_of symbols.now clauses.now target.now)
        (spec.entail_pool_of symbols.now clauses.now target.now) }
{
    let variables = variables_of(alloc, target)?;
    let added = variables.len();
    let first = count(symbols.len())?;
    let Ok(unknowns) = numbered(symbols, first, variables) else {
        return Err(ViewError::Memory);
    };
    let params = first + added as u32;
    let clauses = entail_facts(alloc, &unknowns, params, clauses, target)?;
    Ok(Pool { params, clauses })
}

fn entail_view_of(
    alloc: Global,
    symbols: Items<u32>,
    clauses: &[Clause],
    target: &Clause,
) -> Result<Viewed, ViewError>
    requires ascending { IsStrictlyIncreasing symbols }
    ensures { spec.Forms result (spec.entail_steps_of symbols clauses.now target.now)
        (spec.entail_view_of symbols clauses.now target.now) }
{
    let pool = entail_pool(alloc, symbols.as_slice(), clauses, target)?;
    Ok(Viewed { symbols, pool })
}

/// The pool of background clauses and of a negated target, which counts as the last clause: it is
/// true where the clauses are true and the target is false. Each literal of the target adds a
/// unit clause: `s <= t` adds `-(s - t) + 1 <= 0`, `s = t` adds the clause of `s - t + 1 <= 0`
/// and `-(s - t) + 1 <= 0`, `s != t` adds `s - t = 0`, `true = true` adds `1 <= 0`, and
/// `true != true` adds `0 = 0`. The target's variables are parameters after those of the symbols.
/// Each fact of the pool is well formed. The answer is Wide with the first sum or product that
/// leaves the range.
pub fn entail_view(
    alloc: Global,
    signature: &[Symbol],
    clauses: &[Clause],
    target: &Clause,
) -> Result<Viewed, ViewError>
    requires clauses { IsTrue (are_background signature.now clauses.now) }
    requires target { IsTrue (is_background_clause signature.now target.now) }
    ensures pool { spec.Forms result (spec.entail_view_steps clauses.now target.now)
        (spec.entail_view clauses.now target.now) }
    ensures truth { IfOk result
        (λ r. (p : Symbols) (w : Variables) (q : Valuation) →
        GivesTarget r.symbols target.now p w q →
        HoldsAt r.pool q ↔ (AreTrueAt p clauses.now × (clause_holds p w target.now ≡ false))) }
    ensures well_formed { IfOk result (λ r. IsTrue (is_pool r.pool)) }
    ensures rises { IfOk result (λ r. IsStrictlyIncreasing r.symbols) }
{
    let symbols = entail_parameters(alloc, clauses, target)?;
    entail_view_of(alloc, symbols, clauses, target)
}
