//! Certificates: rows that extend a pool, and a tree.

ghost use Rattle.std.specs.Prelude.{◌≡◌, IfOk};

use lin_base::Lin;
use sqlite_items::{Boxed, Items};
use std::alloc::{AllocError, Global};

/// A row gives a clause that follows from a clause with a variable `x`. It is put after the pool's last clause.
#[derive(Debug, Drop)]
pub enum Row {
    /// The clause at `a*x = t`.
    Inst {
        /// The clause's number in the pool as it is extended so far.
        clause: u32,
        /// The variable.
        x: u32,
        /// The multiplier, at least 1.
        a: i128,
        /// The sum, over parameters and other variables of the clause.
        t: Lin,
    },
    /// The clause at numbers for `x` that are far down and `j` modulo the clause's moduli.
    Low {
        /// The clause's number in the pool as it is extended so far.
        clause: u32,
        /// The variable.
        x: u32,
        /// The number that is put for the variable.
        j: i128,
    },
}

/// A tree that shows that a list of facts, empty at the root, holds at no values at which the pool is true. A fact's
/// number is its place in the list.
#[derive(Debug, Drop)]
pub enum Tree {
    /// One child for each literal of a clause, which is appended.
    Case {
        /// The clause's number in the extended pool.
        clause: u32,
        /// The children, by literal.
        children: Items<Tree>,
    },
    /// The sum of multiples of facts is appended.
    Combine {
        /// Numbers of facts, each with its multiplier.
        list: Items<(u32, i128)>,
        /// What is left to show.
        child: Boxed<Tree>,
    },
    /// A fact is appended, divided by the common divisor of its coefficients and rounded.
    Cut {
        /// The fact's number.
        fact: u32,
        /// What is left to show.
        child: Boxed<Tree>,
    },
    /// Either `t <= 0` or `-t + 1 <= 0` is appended.
    Branch {
        /// The sum.
        t: Lin,
        /// With `t <= 0`.
        left: Boxed<Tree>,
        /// With `-t + 1 <= 0`.
        right: Boxed<Tree>,
    },
    /// One child for each remainder of a sum, which is appended as a fact.
    Residues {
        /// The modulus.
        m: i128,
        /// The sum.
        t: Lin,
        /// The children, by remainder.
        children: Items<Tree>,
    },
    /// A fact `b*p = s` is put into every fact, which uses the parameter up.
    Solve {
        /// The fact's number.
        fact: u32,
        /// The parameter.
        p: u32,
        /// What is left to show.
        child: Boxed<Tree>,
    },
    /// The test points of a parameter, one child for each, which uses the parameter up.
    Least {
        /// The parameter.
        p: u32,
        /// The children, by lower bound and then by distance from it.
        children: Items<Tree>,
    },
    /// A fact without unknown that is false.
    Clash {
        /// The fact's number.
        fact: u32,
    },
}

/// A certificate that a pool is true at no values. Any value is one; `check_unsat` tells which stand.
#[derive(Debug, Drop)]
pub struct Cert {
    /// The rows that extend the pool, the first one first.
    pub rows: Items<Row>,
    /// The tree over the extended pool.
    pub tree: Tree,
}

impl Row {
    /// The same row.
    pub fn copy(&self, alloc: Global) -> Result<Row, AllocError>
        ensures { IfOk result (λ r. r ≡ self.now) }
    {
        match self {
            Row::Inst { clause, x, a, t } => Ok(Row::Inst {
                clause: *clause,
                x: *x,
                a: *a,
                t: t.copy(alloc)?,
            }),
            Row::Low { clause, x, j } => Ok(Row::Low {
                clause: *clause,
                x: *x,
                j: *j,
            }),
        }
    }
}

impl Tree {
    /// The same tree.
    #[cycle(copy)]
    pub fn copy(&self, alloc: Global) -> Result<Tree, AllocError>
        ensures { IfOk result (λ t. t ≡ self.now) }
    {
        match self {
            Tree::Case { clause, children } => Ok(Tree::Case {
                clause: *clause,
                children: copy_trees(alloc, children.as_slice())?,
            }),
            Tree::Combine { list, child } => Ok(Tree::Combine {
                list: Items::from_slice(alloc, list.as_slice())?,
                child: copy_child(alloc, child.get())?,
            }),
            Tree::Cut { fact, child } => Ok(Tree::Cut {
                fact: *fact,
                child: copy_child(alloc, child.get())?,
            }),
            Tree::Branch { t, left, right } => Ok(Tree::Branch {
                t: t.copy(alloc)?,
                left: copy_child(alloc, left.get())?,
                right: copy_child(alloc, right.get())?,
            }),
            Tree::Residues { m, t, children } => Ok(Tree::Residues {
                m: *m,
                t: t.copy(alloc)?,
                children: copy_trees(alloc, children.as_slice())?,
            }),
            Tree::Solve { fact, p, child } => Ok(Tree::Solve {
                fact: *fact,
                p: *p,
                child: copy_child(alloc, child.get())?,
            }),
            Tree::Least { p, children } => Ok(Tree::Least {
                p: *p,
                children: copy_trees(alloc, children.as_slice())?,
            }),
            Tree::Clash { fact } => Ok(Tree::Clash { fact: *fact }),
        }
    }
}

#[cycle(copy)]
fn copy_child(alloc: Global, tree: &Tree) -> Result<Boxed<Tree>, AllocError>
    ensures { IfOk result (λ t. t ≡ tree.now) }
{
    Boxed::new(alloc, tree.copy(alloc)?)
}

#[cycle(copy)]
fn copy_trees(alloc: Global, trees: &[Tree]) -> Result<Items<Tree>, AllocError>
    ensures { IfOk result (λ ts. ts ≡ trees.now) }
{
    let mut copies = Items::new(alloc);
    for tree in trees {
        copies.push(tree.copy(alloc)?)?;
    }
    Ok(copies)
}

impl Cert {
    /// The same certificate.
    pub fn copy(&self, alloc: Global) -> Result<Cert, AllocError>
        ensures { IfOk result (λ c. c ≡ self.now) }
    {
        let mut rows = Items::new(alloc);
        for row in self.rows.as_slice() {
            rows.push(row.copy(alloc)?)?;
        }
        Ok(Cert {
            rows,
            tree: self.tree.copy(alloc)?,
        })
    }
}
