//! The search for a most general substitution that keeps sorts (after Robinson 1965). The kinds of
//! variables play no part in it yet.

ghost use Rattle.std.specs.Prelude.{◌≡◌, ◌↔◌, [], ℕ, true, IfOk, IfSome, IfNone, IsTrue, Some};
ghost use Rattle.term_base.specs.Known.{is_known, KnownImages};
ghost use Rattle.term_base.specs.Sorting.{sort};
ghost use Rattle.term_base.specs.Substitution.{image, put_in, single};
ghost use Rattle.term_base.specs.Trees.{tree};
ghost use Rattle.unifier.specs.Search.{HasAll};
ghost use Rattle.unifier.specs.Sorted.{IsGeneral, NoneSorted};
ghost use Rattle.unifier.specs.Variables as spec;

use crate::disagreements::{Found, first_disagreement};
use crate::occurrences::{occurs, replace};
use crate::variables::{gather, without};
use sqlite_items::Items;
use std::alloc::{AllocError, Global};
use term_base::{Sort, Symbol, Term, Variable, sort_of};

/// The pairs with a term for a variable in each, and behind them the pair of these two.
fn bind_pairs(
    alloc: Global,
    pairs: &[(Variable, Term)],
    v: Variable,
    new: &Term,
) -> Result<Items<(Variable, Term)>, AllocError>
    ensures { IfOk result (λ r.
        (w : _) → image r w ≡ put_in (single v (tree new.now)) (image pairs.now w)) }
{
    let mut bound = Items::new(alloc);
    for pair in pairs {
        bound.push((pair.0, replace(alloc, &pair.1, v, new)?))?;
    }
    bound.push((v, new.copy(alloc)?))?;
    Ok(bound)
}

/// Whether a term has a sort.
fn has_sort(signature: &[Symbol], t: &Term, wanted: Sort) -> bool
    ensures { IsTrue result ↔ (sort signature.now (tree t.now) ≡ Some wanted) }
{
    match sort_of(signature, t) {
        Some(found) => found == wanted,
        None => false,
    }
}

/// Where the search stands: the pairs found so far, the two terms under them, and the variables
/// that may be in these.
#[derive(Debug, Drop)]
struct Search {
    l: Term,
    u: Term,
    pairs: Items<(Variable, Term)>,
    pool: Vec<Variable>,
}

/// The search with a term for a variable.
fn after_binding(alloc: Global, search: Search, v: Variable, t: Term) -> Result<Search, AllocError>
    ensures left { IfOk result (λ n. tree n.l ≡ put_in (single v (tree t)) (tree search.l)) }
    ensures right { IfOk result (λ n. tree n.u ≡ put_in (single v (tree t)) (tree search.u)) }
    ensures pairs { IfOk result (λ n.
        (w : _) → image n.pairs w ≡ put_in (single v (tree t)) (image search.pairs w)) }
    ensures pool { IfOk result (λ n. n.pool.items ≡ spec.without v search.pool.items) }
{
    let pool = without(alloc, search.pool.as_slice(), v)?;
    let l = replace(alloc, &search.l, v, &t)?;
    let u = replace(alloc, &search.u, v, &t)?;
    let pairs = bind_pairs(alloc, search.pairs.as_slice(), v, &t)?;
    Ok(Search { l, u, pairs, pool })
}

/// The pairs of a most general substitution, if there is one. The pool has all variables of the
/// terms; each binding takes one out of it, so the search ends.
fn solve(
    alloc: Global,
    signature: &[Symbol],
    l: Term,
    u: Term,
    pool: Vec<Variable>,
) -> Result<Option<Items<(Variable, Term)>>, AllocError>
    requires { HasAll pool.items (tree l) (tree u) }
    ensures general { IfOk result (λ o. IfSome o (λ s.
        IsGeneral signature.now (tree l) (tree u) (image s))) }
    ensures known { IfOk result (λ o. IfSome o (λ s.
        (n : ℕ) → is_known n (tree l) ≡ true → is_known n (tree u) ≡ true → KnownImages n (image s))) }
    ensures apart { IfOk result (λ o. IfNone o (NoneSorted signature.now (tree l) (tree u))) }
{
    let pairs = Items::new(alloc);
    let mut search = Search { l, u, pairs, pool };
    loop {
        match first_disagreement(alloc, &search.l, &search.u)? {
            Found::Agree => return Ok(Some(search.pairs)),
            Found::Clash => return Ok(None),
            Found::Bind(v, t) => {
                if occurs(v, &t) {
                    return Ok(None);
                }
                if !has_sort(signature, &t, v.sort) {
                    return Ok(None);
                }
                search = after_binding(alloc, search, v, t)?;
            }
        }
    }
}

fn pool_of(alloc: Global, l: &Term, u: &Term) -> Result<Vec<Variable>, AllocError>
    ensures { IfOk result (λ r.
        r.items ≡ spec.gathered (tree u.now) (spec.gathered (tree l.now) [])) }
{
    let mut pool = Vec::new(alloc);
    gather(l, &mut pool)?;
    gather(u, &mut pool)?;
    Ok(pool)
}

/// The pairs of a most general substitution that keeps sorts and makes two terms equal. None
/// exactly where none that keeps sorts does.
pub fn most_general(
    alloc: Global,
    signature: &[Symbol],
    l: &Term,
    u: &Term,
) -> Result<Option<Items<(Variable, Term)>>, AllocError>
    ensures general { IfOk result (λ o. IfSome o (λ s.
        IsGeneral signature.now (tree l.now) (tree u.now) (image s))) }
    ensures known { IfOk result (λ o. IfSome o (λ s.
        (n : ℕ) → is_known n (tree l.now) ≡ true → is_known n (tree u.now) ≡ true → KnownImages n (image s))) }
    ensures apart { IfOk result (λ o. IfNone o
        (NoneSorted signature.now (tree l.now) (tree u.now))) }
{
    let pool = pool_of(alloc, l, u)?;
    let left = l.copy(alloc)?;
    let right = u.copy(alloc)?;
    solve(alloc, signature, left, right, pool)
}
