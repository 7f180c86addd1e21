//! Substitutions as lists of pairs.

ghost use Rattle.std.specs.Prelude.{◌≡◌, ◌≢◌, ◌↔◌, [], IsTrue, IsSome, IfSome, IfOk, MatchOption};
ghost use Rattle.term_base.specs.Substitution.{IsSubstitution, image};
ghost use Rattle.term_base.specs.SubstTest.{follows, ascends_after};
ghost use Rattle.term_base.specs.SameTerm.{same_term};
ghost use Rattle.term_base.specs.Trees.{tree, var};

use crate::terms::Term;
use crate::variables::Variable;
use sqlite_items::Items;
use std::alloc::{AllocError, Global};
use std::marker::Model;

/// A substitution: pairs of a variable and the term that stands for it, with distinct variables in
/// ascending order (kind, sort, id) and no pair of a variable with itself. Contracts see the list of its pairs.
#[derive(Debug, Drop)]
pub struct Subst {
    pairs: Items<(Variable, Term)>,
}

impl Model for Subst {
    ghost use Rattle.std.specs.Prelude.{List};
    ghost use Rattle.std.specs.Coded.{codes};
    ghost use Rattle.term_base.specs.declared.variables.Variable.{Variable};
    ghost use Rattle.term_base.specs.declared.terms.Term.{Term};
    ghost use Rattle.term_base.specs.contracts.terms.Term as term;

    ghost Value = { List (Variable × Term) };

    ghost coded = { Prim.hlevel (codes, term.the_row.coded) };

    ghost use Rattle.term_base.specs.Substitution.{IsSubstitution};

    ghost view = { λ s. s.pairs };

    ghost invariant = { λ s. IsSubstitution s.pairs };
}

impl Subst {
    /// The substitution that changes nothing.
    pub fn empty(alloc: Global) -> Subst
        ensures { result ≡ [] }
    {
        Subst {
            pairs: Items::new(alloc),
        }
    }

    /// The substitution of these pairs.
    pub fn from_pairs(pairs: Items<(Variable, Term)>) -> Subst
        requires { IsSubstitution pairs }
        ensures { result ≡ pairs }
    {
        Subst { pairs }
    }

    /// The substitution of these pairs. None exactly where they are not those of one: the variables do not
    /// ascend strictly, or a variable stands beside itself.
    pub fn try_from_pairs(pairs: Items<(Variable, Term)>) -> Option<Subst>
        ensures pairs { IfSome result (λ s. s ≡ pairs) }
        ensures exactly { IsSome result ↔ IsSubstitution pairs }
    {
        if is_substitution(pairs.as_slice()) {
            Some(Subst { pairs })
        } else {
            None
        }
    }

    /// The pairs, in ascending order of their variables.
    pub fn pairs(&self) -> &[(Variable, Term)]
        ensures pairs { result.now ≡ self.now }
        ensures ascending { IsSubstitution self.now }
    {
        self.pairs.as_slice()
    }

    /// The term that stands for a variable, found by binary search; None exactly where the variable stands
    /// for itself.
    pub fn get(&self, v: Variable) -> Option<&Term>
        ensures { MatchOption result (image self.now v ≡ var v) (λ t. (image self.now v ≡ tree t.now) × (image self.now v ≢ var v)) }
    {
        find(self.pairs(), v)
    }

    /// A substitution that equals this one.
    pub fn copy(&self, alloc: Global) -> Result<Subst, AllocError>
        ensures { IfOk result (λ s. s ≡ self.now) }
    {
        Ok(Subst::from_pairs(copy_pairs(alloc, self.pairs())?))
    }
}

fn copy_pairs(
    alloc: Global,
    pairs: &[(Variable, Term)],
) -> Result<Items<(Variable, Term)>, AllocError>
    ensures { IfOk result (λ all. all ≡ pairs.now) }
{
    let mut all = Items::new(alloc);
    for pair in pairs {
        all.push((pair.0, pair.1.copy(alloc)?))?;
    }
    Ok(all)
}

fn find(pairs: &[(Variable, Term)], v: Variable) -> Option<&Term>
    requires { IsSubstitution pairs.now }
    ensures { MatchOption result (image pairs.now v ≡ var v) (λ t. (image pairs.now v ≡ tree t.now) × (image pairs.now v ≢ var v)) }
{
    match pairs.binary_search_by_key(&v, |pair| pair.0) {
        Ok(at) => Some(&pairs[at].1),
        Err(_) => None,
    }
}

fn does_follow(last: Option<Variable>, v: Variable) -> bool
    ensures { result ≡ follows last v }
{
    match last {
        Some(u) => u.order(v).is_lt(),
        None => true,
    }
}

fn is_itself(t: &Term, v: Variable) -> bool
    ensures { result ≡ same_term t.now (Term.Var v) }
{
    *t == Term::Var(v)
}

/// Whether the pairs are those of a substitution.
fn is_substitution(pairs: &[(Variable, Term)]) -> bool
    ensures { IsTrue result ↔ IsSubstitution pairs.now }
{
    ascends(pairs)
}

fn ascends(pairs: &[(Variable, Term)]) -> bool
    ensures { result ≡ ascends_after None pairs.now }
{
    let mut last = None;
    for pair in pairs {
        if !does_follow(last, pair.0) || is_itself(&pair.1, pair.0) {
            return false;
        }
        last = Some(pair.0);
    }
    true
}
