//! Sorts, and the symbols of a signature.
//!
//! A signature is a list of symbols, named by their numbers from 0. A number at or past the end of the
//! list is that of a parameter.

ghost use Rattle.std.specs.Prelude.{◌≡◌, IfOk};
ghost use Rattle.term_base.specs.Classes.{class_of};

use crate::names::Name;
use smallvec::SmallVec;
use std::alloc::{AllocError, Global};
use std::marker::Model;

/// A sort: individuals (`$i` of TPTP), whole numbers (`$int`), a declared sort by its number from 0, or
/// truth values (`$o`).
#[derive(Clone, Copy, Debug, Default, PartialEq, Eq, PartialOrd, Ord, Hash)]
pub enum Sort {
    #[default]
    Individual,
    Int,
    Declared(u32),
    Truth,
}

/// What a symbol is: a parameter is a constant of sort Int, and any other symbol is a foreground symbol.
#[derive(Clone, Copy, Debug, PartialEq, Eq)]
pub enum Class {
    Parameter,
    Foreground,
}

/// The sorts of a symbol's arguments. Contracts see their list.
#[derive(Debug, Drop)]
pub struct Sorts {
    items: SmallVec<Sort, 4>,
}

impl Model for Sorts {
    ghost use Rattle.std.specs.Prelude.{List};
    ghost use Rattle.term_base.specs.declared.symbols.Sort.{Sort};

    ghost Value = { List Sort };

    ghost view = { λ s. s.items.items };
}

impl Sorts {
    /// The list of these sorts.
    pub fn from_slice(alloc: Global, sorts: &[Sort]) -> Result<Sorts, AllocError>
        ensures { IfOk result (λ s. s ≡ sorts.now) }
    {
        Ok(Sorts {
            items: SmallVec::from_slice(alloc, sorts)?,
        })
    }

    /// The sorts, in order.
    pub fn as_slice(&self) -> &[Sort]
        ensures { result.now ≡ self.now }
    {
        self.items.as_slice()
    }

    /// A list that equals this one.
    pub fn copy(&self, alloc: Global) -> Result<Sorts, AllocError>
        ensures { IfOk result (λ s. s ≡ self.now) }
    {
        Sorts::from_slice(alloc, self.as_slice())
    }
}

/// A symbol: its name, the sorts of its arguments and of its result, and its class. The class is
/// Parameter exactly where it has no arguments and the result Int.
#[derive(Debug, Drop)]
pub struct Symbol {
    pub name: Name,
    pub args: Sorts,
    pub result: Sort,
    pub class: Class,
    ghost classified: { class ≡ class_of args result },
}

impl Symbol {
    /// The symbol with these parts, and the class that they give it.
    pub fn new(name: Name, args: Sorts, sort: Sort) -> Symbol
        ensures name { result.name ≡ name }
        ensures args { result.args ≡ args }
        ensures sort { result.result ≡ sort }
        ensures class { result.class ≡ class_of args sort }
    {
        let class = class_of(args.as_slice(), sort);
        Symbol {
            name,
            args,
            result: sort,
            class,
        }
    }

    /// A symbol that equals this one.
    pub fn copy(&self, alloc: Global) -> Result<Symbol, AllocError>
        ensures { IfOk result (λ s. s ≡ self.now) }
    {
        Ok(Symbol {
            name: self.name.copy(alloc)?,
            args: self.args.copy(alloc)?,
            result: self.result,
            class: self.class,
        })
    }
}

/// The class of a symbol with arguments and a result of these sorts.
pub fn class_of(args: &[Sort], sort: Sort) -> Class
    ensures { result ≡ class_of args.now sort }
{
    if args.is_empty() && sort == Sort::Int {
        Class::Parameter
    } else {
        Class::Foreground
    }
}
