//! Variables.

ghost use Rattle.std.specs.Prelude.{◌≡◌, ◌↔◌, IsTrue};
ghost use Rattle.term_base.specs.Proper.{IsProper};

use crate::symbols::Sort;
use std::cmp::Ordering;

/// The kind of a variable: an abstraction variable stands for pure terms alone, an ordinary one for any
/// term of its sort.
#[derive(Clone, Copy, Debug, PartialEq, Eq, PartialOrd, Ord, Hash)]
pub enum Kind {
    Abstraction,
    Ordinary,
}

/// A variable. An abstraction variable has sort Int, and no variable has sort Truth.
/// Variables are ordered by kind, then by sort, then by number.
#[derive(Clone, Copy, Debug, PartialEq, Eq, PartialOrd, Ord, Hash)]
pub struct Variable {
    pub kind: Kind,
    pub sort: Sort,
    pub id: u32,
    ghost proper: { IsProper kind sort },
}

impl Variable {
    ghost use Rattle.term_base.specs.VariableOrder.{variable_cmp};

    /// The abstraction variable of a number.
    pub fn abstraction(id: u32) -> Variable
        ensures kind { result.kind ≡ Kind.Abstraction }
        ensures sort { result.sort ≡ Sort.Int }
        ensures id { result.id ≡ id }
    {
        Variable {
            kind: Kind::Abstraction,
            sort: Sort::Int,
            id,
        }
    }

    /// The ordinary variable of a sort and a number.
    pub fn ordinary(sort: Sort, id: u32) -> Variable
        requires { IsProper Kind.Ordinary sort }
        ensures kind { result.kind ≡ Kind.Ordinary }
        ensures sort { result.sort ≡ sort }
        ensures id { result.id ≡ id }
    {
        Variable {
            kind: Kind::Ordinary,
            sort,
            id,
        }
    }

    /// The variable of the same kind and sort with another number.
    pub fn with_id(self, id: u32) -> Variable
        ensures kind { result.kind ≡ self.kind }
        ensures sort { result.sort ≡ self.sort }
        ensures id { result.id ≡ id }
    {
        Variable {
            kind: self.kind,
            sort: self.sort,
            id,
        }
    }

    /// How two variables stand to each other in their order.
    pub fn order(self, other: Variable) -> Ordering
        ensures { result ≡ variable_cmp self other }
    {
        self.cmp(&other)
    }

    /// Whether two variables are one.
    pub fn same(self, other: Variable) -> bool
        ensures { IsTrue result ↔ (self ≡ other) }
    {
        self == other
    }
}
