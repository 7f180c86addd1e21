//! The variables of a clause.

ghost use Rattle.std.specs.Prelude.{◌≡◌, [], IfOk, OnOk};
ghost use Rattle.term_base.specs.Trees.{tree};
ghost use Rattle.term_base.specs.Lits.{lit, lits};
ghost use Rattle.hier_rules.specs.Occurrences as spec;

use std::alloc::{AllocError, Global};
use term_base::{Clause, Literal, Term, Variable};

fn push_variables(t: &Term, all: &mut Vec<Variable>) -> Result<(), AllocError>
    ensures { OnOk result (all.new.items ≡ spec.gathered (tree t.now) all.old.items) }
{
    match t {
        Term::Var(v) => {
            all.push(*v)?;
            Ok(())
        }
        Term::Num(_) | Term::True => Ok(()),
        Term::Sum(a, b) => {
            push_variables(a.get(), all)?;
            push_variables(b.get(), all)
        }
        Term::Scale(_, a) => push_variables(a.get(), all),
        Term::App(_, args) => {
            for arg in args.as_slice() {
                push_variables(arg, all)?;
            }
            Ok(())
        }
    }
}

fn push_literal_variables(l: &Literal, all: &mut Vec<Variable>) -> Result<(), AllocError>
    ensures { OnOk result (all.new.items ≡ spec.lit_gathered (lit l.now) all.old.items) }
{
    match l {
        Literal::Equal(a, b) | Literal::Differ(a, b) | Literal::AtMost(a, b) => {
            push_variables(a, all)?;
            push_variables(b, all)
        }
    }
}

/// The variables of a clause, each as often as it occurs.
pub(crate) fn variables(alloc: Global, c: &Clause) -> Result<Vec<Variable>, AllocError>
    ensures { IfOk result (λ all. all.items ≡ spec.clause_gathered (lits c.now) []) }
{
    let mut all = Vec::new(alloc);
    for l in c.literals.as_slice() {
        push_literal_variables(l, &mut all)?;
    }
    Ok(all)
}
