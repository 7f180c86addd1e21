//! The literals of a clause that is being made. Putting one list before another moves the shorter of the two.

ghost use Rattle.std.specs.Prelude.{◌≡◌, ◌++◌, ◌∷◌, [], IfOk, OnOk, IsTrue, ◌↔◌};

use sqlite_items::Items;
use std::alloc::{AllocError, Global};
use std::collections::VecDeque;
use std::marker::Model;
use term_base::Literal;

/// The literals of a clause, in their order; they are added at either end. Contracts see the list.
#[derive(Drop)]
pub(crate) struct Disjunction {
    literals: VecDeque<Literal>,
}

impl Model for Disjunction {
    ghost use Rattle.std.specs.Prelude.{List};
    ghost use Rattle.std.specs.Coded.{coded_list};
    ghost use Rattle.term_base.specs.declared.clauses.Literal.{Literal};
    ghost use Rattle.term_base.specs.contracts.clauses.Literal as literal;

    ghost Value = { List Literal };

    ghost coded = { coded_list literal.the_row.coded };

    ghost view = { λ d. d.literals.items };
}

impl Disjunction {
    /// That of no literals.
    pub(crate) fn empty(alloc: Global) -> Disjunction
        ensures { result ≡ [] }
    {
        Disjunction {
            literals: VecDeque::new(alloc),
        }
    }

    /// Whether there is no literal.
    pub(crate) fn is_empty(&self) -> bool
        ensures { IsTrue result ↔ (self.now ≡ []) }
    {
        self.literals.is_empty()
    }

    /// Adds a literal at the end.
    pub(crate) fn push(&mut self, literal: Literal) -> Result<(), AllocError>
        ensures { OnOk result (self.new ≡ self.old ++ literal ∷ []) }
    {
        self.literals.push_back(literal)?;
        Ok(())
    }

    /// Copies of these literals behind its own.
    fn extended(self, alloc: Global, more: &[Literal]) -> Result<Disjunction, AllocError>
        ensures { IfOk result (λ d. d ≡ self ++ more.now) }
    {
        let mut all = self;
        for literal in more {
            all.push(literal.copy(alloc)?)?;
        }
        Ok(all)
    }

    /// Copies of the literals of another one behind its own.
    pub(crate) fn with_copies(
        self,
        alloc: Global,
        more: &Disjunction,
    ) -> Result<Disjunction, AllocError>
        ensures { IfOk result (λ d. d ≡ self ++ more.now) }
    {
        let (front, back) = more.literals.as_slices();
        self.extended(alloc, front)?.extended(alloc, back)
    }

    /// One that equals this one.
    pub(crate) fn copy(&self, alloc: Global) -> Result<Disjunction, AllocError>
        ensures { IfOk result (λ d. d ≡ self.now) }
    {
        Disjunction::empty(alloc).with_copies(alloc, self)
    }

    /// Its literals, and those of another one behind them. The literals of the shorter one are moved.
    pub(crate) fn followed_by(self, more: Disjunction) -> Result<Disjunction, AllocError>
        ensures { IfOk result (λ d. d ≡ self ++ more) }
    {
        let Disjunction { literals: before } = self;
        let Disjunction { literals: behind } = more;
        Ok(Disjunction {
            literals: put_together(before, behind)?,
        })
    }

    /// Its literals as items.
    pub(crate) fn into_items(self) -> Items<Literal>
        ensures { result ≡ self }
    {
        let Disjunction { literals } = self;
        Items::from_vec(literals.into_vec())
    }
}

/// The literals of the first and then those of the second, of which the fewer are moved.
fn put_together(
    first: VecDeque<Literal>,
    second: VecDeque<Literal>,
) -> Result<VecDeque<Literal>, AllocError>
    ensures { IfOk result (λ d. d.items ≡ first.items ++ second.items) }
{
    let mut first = first;
    let mut second = second;
    if first.len() < second.len() {
        put_before(first, &mut second)?;
        return Ok(second);
    }
    first.append(&mut second)?;
    Ok(first)
}

/// Adds literals before others.
fn put_before(before: VecDeque<Literal>, literals: &mut VecDeque<Literal>) -> Result<(), AllocError>
    ensures { OnOk result (literals.new.items ≡ before.items ++ literals.old.items) }
{
    let mut before = before;
    while let Some(literal) = before.pop_back() {
        literals.push_front(literal)?;
    }
    Ok(())
}
