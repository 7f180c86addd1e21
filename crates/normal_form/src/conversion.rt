//! The recursion on formulas: what a formula gives for a sign. Clauses are made only where there are any; the
//! Skolem symbols of a formula whose clauses are not needed are made all the same, since they are numbered.

ghost use Rattle.std.specs.Prelude.{◌≡◌, ◌++◌, length, map, IfOk, OnOk, IsTrue, if◌then◌else◌, [], ◌∷◌};
ghost use Rattle.normal_form.specs.Cnf as spec;
ghost use Rattle.normal_form.specs.Measures.{measures};

use crate::binders::Binders;
use crate::counting::may_give_clauses;
use crate::joins::{disjoined, join};
use crate::literals::{Clauses, always, atom, less, less_eq, same, unit};
use crate::measuring::{Measured, measure};
use formula_base::Formula;
use sqlite_items::Items;
use std::alloc::{AllocError, Global};
use term_base::{Symbol, Variable};

/// The state of the recursion: what is in scope, and the symbols so far.
#[derive(Drop)]
pub(crate) struct Conversion {
    pub(crate) scope: Binders,
    pub(crate) symbols: Items<Symbol>,
}

impl Conversion {
    /// The clauses of a formula with a sign. Its Skolem symbols are added.
    pub(crate) fn convert(
        &mut self,
        alloc: Global,
        formula: &Formula,
        sign: bool,
    ) -> Result<Clauses, AllocError>
        ensures clauses { IfOk result
            (λ cs. cs.items ≡ (spec.cnf formula.now sign self.old.scope (length self.old.symbols)).clauses) }
        ensures symbols { OnOk result
            (self.new.symbols
            ≡ self.old.symbols ++ (spec.cnf formula.now sign self.old.scope (length self.old.symbols)).symbols) }
        ensures scope { OnOk result (self.new.scope ≡ self.old.scope) }
    {
        let measured = measure(alloc, formula)?;
        self.visit(alloc, formula, &measured, sign, true)
    }

    /// The clauses of a formula with a sign, or none where they are not wanted. Its Skolem symbols are added.
    #[cycle(visit)]
    fn visit(
        &mut self,
        alloc: Global,
        formula: &Formula,
        measured: &Measured,
        sign: bool,
        wanted: bool,
    ) -> Result<Clauses, AllocError>
        requires { measured.now ≡ measures formula.now }
        ensures clauses { IfOk result
            (λ cs. cs.items
            ≡ (if wanted then (spec.cnf formula.now sign self.old.scope (length self.old.symbols)).clauses else [])) }
        ensures symbols { OnOk result
            (self.new.symbols
            ≡ self.old.symbols ++ (spec.cnf formula.now sign self.old.scope (length self.old.symbols)).symbols) }
        ensures scope { OnOk result (self.new.scope ≡ self.old.scope) }
    {
        if !wanted || measured.counts.of(sign) == 0 {
            self.note(alloc, formula, measured, sign)?;
            return Ok(Vec::new(alloc));
        }
        let parts = measured.parts.as_slice();
        match formula {
            Formula::True => always(alloc, sign),
            Formula::False => always(alloc, !sign),
            Formula::Atom(s) => unit(alloc, atom(alloc, &self.scope, sign, s)?),
            Formula::Same(s, t) => unit(alloc, same(alloc, &self.scope, sign, s, t)?),
            Formula::Less(s, t) => unit(alloc, less(alloc, &self.scope, sign, s, t)?),
            Formula::LessEq(s, t) => unit(alloc, less_eq(alloc, &self.scope, sign, s, t)?),
            Formula::Not(f) => self.visit(alloc, f.get(), &parts[0], !sign, true),
            Formula::And(fs) if sign => self.appended(alloc, fs.as_slice(), parts, sign),
            Formula::And(fs) => self.joined(alloc, fs.as_slice(), parts, sign),
            Formula::Or(fs) if sign => self.joined(alloc, fs.as_slice(), parts, sign),
            Formula::Or(fs) => self.appended(alloc, fs.as_slice(), parts, sign),
            Formula::Implies(f, g) => {
                let left = self.visit(alloc, f.get(), &parts[0], !sign, true)?;
                let right = self.visit(alloc, g.get(), &parts[1], sign, true)?;
                disjoined(alloc, sign, left, right)
            }
            Formula::Iff(f, g) => {
                let (f, g) = (f.get(), g.get());
                let (m, n) = (&parts[0], &parts[1]);
                let there = may_give_clauses(m.counts, n.counts, sign);
                let back = may_give_clauses(n.counts, m.counts, sign);
                let left = self.visit(alloc, f, m, !sign, there)?;
                let right = self.visit(alloc, g, n, sign, there)?;
                let first = disjoined(alloc, sign, left, right)?;
                let left = self.visit(alloc, g, n, !sign, back)?;
                let right = self.visit(alloc, f, m, sign, back)?;
                let second = disjoined(alloc, sign, left, right)?;
                disjoined(alloc, !sign, first, second)
            }
            Formula::All(vs, f) => self.quantified(
                alloc,
                sign,
                vs.as_slice(),
                f.get(),
                &parts[0],
                sign,
            ),
            Formula::Some(vs, f) => self.quantified(
                alloc,
                !sign,
                vs.as_slice(),
                f.get(),
                &parts[0],
                sign,
            ),
        }
    }

    /// The clauses of these formulas with a sign, one list after the other.
    #[cycle(visit)]
    fn appended(
        &mut self,
        alloc: Global,
        members: &[Formula],
        parts: &[Measured],
        sign: bool,
    ) -> Result<Clauses, AllocError>
        requires { parts.now ≡ map measures members.now }
        ensures clauses { IfOk result
            (λ cs. cs.items
            ≡ spec.appended
            (map (λ m. m.clauses)
            (spec.visit (map spec.cnf members.now) sign self.old.scope (length self.old.symbols)))) }
        ensures symbols { OnOk result
            (self.new.symbols
            ≡ self.old.symbols
            ++ spec.all_symbols (spec.visit (map spec.cnf members.now) sign self.old.scope (length self.old.symbols))) }
        ensures scope { OnOk result (self.new.scope ≡ self.old.scope) }
    {
        let mut all = Vec::new(alloc);
        for (i, member) in members.iter().enumerate() {
            let mut made = self.visit(alloc, member, &parts[i], sign, true)?;
            all.append(&mut made)?;
        }
        Ok(all)
    }

    /// The clauses of these formulas with a sign, joined pairwise from the left.
    #[cycle(visit)]
    fn joined(
        &mut self,
        alloc: Global,
        members: &[Formula],
        parts: &[Measured],
        sign: bool,
    ) -> Result<Clauses, AllocError>
        requires { parts.now ≡ map measures members.now }
        ensures clauses { IfOk result
            (λ cs. cs.items
            ≡ spec.joined
            (map (λ m. m.clauses)
            (spec.visit (map spec.cnf members.now) sign self.old.scope (length self.old.symbols)))) }
        ensures symbols { OnOk result
            (self.new.symbols
            ≡ self.old.symbols
            ++ spec.all_symbols (spec.visit (map spec.cnf members.now) sign self.old.scope (length self.old.symbols))) }
        ensures scope { OnOk result (self.new.scope ≡ self.old.scope) }
    {
        let mut all = always(alloc, false)?;
        for (i, member) in members.iter().enumerate() {
            let made = self.visit(alloc, member, &parts[i], sign, true)?;
            all = join(alloc, all, made)?;
        }
        Ok(all)
    }

    /// The clauses of a formula with a sign inside binders.
    #[cycle(visit)]
    fn quantified(
        &mut self,
        alloc: Global,
        universal: bool,
        variables: &[Variable],
        body: &Formula,
        measured: &Measured,
        sign: bool,
    ) -> Result<Clauses, AllocError>
        requires { measured.now ≡ measures body.now }
        ensures clauses { IfOk result
            (λ cs. cs.items
            ≡ (spec.quantified universal variables.now (spec.cnf body.now) sign self.old.scope
            (length self.old.symbols)).clauses) }
        ensures symbols { OnOk result
            (self.new.symbols
            ≡ self.old.symbols
            ++ (spec.quantified universal variables.now (spec.cnf body.now) sign self.old.scope
            (length self.old.symbols)).symbols) }
        ensures scope { OnOk result (self.new.scope ≡ self.old.scope) }
    {
        let depth = self.scope.depth();
        self.enter(alloc, universal, variables)?;
        let clauses = self.visit(alloc, body, measured, sign, true)?;
        self.scope.leave_to(depth);
        Ok(clauses)
    }

    /// Adds the Skolem symbols of a formula with a sign.
    #[cycle(note)]
    fn note(
        &mut self,
        alloc: Global,
        formula: &Formula,
        measured: &Measured,
        sign: bool,
    ) -> Result<(), AllocError>
        requires { measured.now ≡ measures formula.now }
        ensures symbols { OnOk result
            (self.new.symbols
            ≡ self.old.symbols ++ (spec.cnf formula.now sign self.old.scope (length self.old.symbols)).symbols) }
        ensures scope { OnOk result (self.new.scope ≡ self.old.scope) }
    {
        if !measured.quantified {
            return Ok(());
        }
        let parts = measured.parts.as_slice();
        match formula {
            Formula::Not(f) => self.note(alloc, f.get(), &parts[0], !sign),
            Formula::And(fs) | Formula::Or(fs) => self.note_members(
                alloc,
                fs.as_slice(),
                parts,
                sign,
            ),
            Formula::Implies(f, g) => {
                self.note(alloc, f.get(), &parts[0], !sign)?;
                self.note(alloc, g.get(), &parts[1], sign)
            }
            Formula::Iff(f, g) => {
                let (f, g) = (f.get(), g.get());
                let (m, n) = (&parts[0], &parts[1]);
                self.note(alloc, f, m, !sign)?;
                self.note(alloc, g, n, sign)?;
                self.note(alloc, g, n, !sign)?;
                self.note(alloc, f, m, sign)
            }
            Formula::All(vs, f) => self.note_quantified(
                alloc,
                sign,
                vs.as_slice(),
                f.get(),
                &parts[0],
                sign,
            ),
            Formula::Some(vs, f) => self.note_quantified(
                alloc,
                !sign,
                vs.as_slice(),
                f.get(),
                &parts[0],
                sign,
            ),
            _ => Ok(()),
        }
    }

    /// Adds the Skolem symbols of these formulas with a sign.
    #[cycle(note)]
    fn note_members(
        &mut self,
        alloc: Global,
        members: &[Formula],
        parts: &[Measured],
        sign: bool,
    ) -> Result<(), AllocError>
        requires { parts.now ≡ map measures members.now }
        ensures symbols { OnOk result
            (self.new.symbols
            ≡ self.old.symbols
            ++ spec.all_symbols (spec.visit (map spec.cnf members.now) sign self.old.scope (length self.old.symbols))) }
        ensures scope { OnOk result (self.new.scope ≡ self.old.scope) }
    {
        for (i, member) in members.iter().enumerate() {
            self.note(alloc, member, &parts[i], sign)?;
        }
        Ok(())
    }

    /// Adds the Skolem symbols of a formula with a sign inside binders.
    #[cycle(note)]
    fn note_quantified(
        &mut self,
        alloc: Global,
        universal: bool,
        variables: &[Variable],
        body: &Formula,
        measured: &Measured,
        sign: bool,
    ) -> Result<(), AllocError>
        requires { measured.now ≡ measures body.now }
        ensures symbols { OnOk result
            (self.new.symbols
            ≡ self.old.symbols
            ++ (spec.quantified universal variables.now (spec.cnf body.now) sign self.old.scope
            (length self.old.symbols)).symbols) }
        ensures scope { OnOk result (self.new.scope ≡ self.old.scope) }
    {
        let depth = self.scope.depth();
        self.enter(alloc, universal, variables)?;
        self.note(alloc, body, measured, sign)?;
        self.scope.leave_to(depth);
        Ok(())
    }

    /// Enters binders, whose variables are universal or are replaced by new Skolem symbols.
    fn enter(
        &mut self,
        alloc: Global,
        universal: bool,
        variables: &[Variable],
    ) -> Result<(), AllocError>
        ensures scope { OnOk result
            (self.new.scope
            ≡ (if universal then spec.with_universal variables.now self.old.scope else spec.with_skolem
            (length self.old.symbols) variables.now self.old.scope)) }
        ensures symbols { OnOk result
            (self.new.symbols
            ≡ self.old.symbols
            ++ (if universal then [] else map (spec.skolem self.old.scope.universal) variables.now)) }
    {
        if universal {
            return self.scope.bind_universal(variables);
        }
        let next = self.symbols.len();
        add_skolem_symbols(alloc, &self.scope, variables, &mut self.symbols)?;
        self.scope.bind_skolem(alloc, next, variables)
    }
}

/// Adds the Skolem symbols that stand for these variables.
fn add_skolem_symbols(
    alloc: Global,
    scope: &Binders,
    variables: &[Variable],
    symbols: &mut Items<Symbol>,
) -> Result<(), AllocError>
    ensures { OnOk result (symbols.new ≡ symbols.old ++ map (spec.skolem scope.now.universal) variables.now) }
{
    for v in variables {
        let symbol = scope.skolem_symbol(alloc, *v)?;
        symbols.push(symbol)?;
    }
    Ok(())
}
