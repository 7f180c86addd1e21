//! Linear sums, and what can be asked of them.

ghost use Rattle.std.specs.Prelude.{◌≡◌, ◌↔◌, false, [], IsTrue, IfOk, IsOk};
ghost use Rattle.lin_base.specs.Fact.{is_ascending, is_lin};
ghost use Rattle.lin_base.specs.Sum as spec;

use sqlite_items::Items;
use std::alloc::{AllocError, Global};

/// A linear sum over unknowns. The unknowns ascend and no coefficient is 0: `is_lin` tests both.
#[derive(Debug, Drop)]
pub struct Lin {
    /// Each unknown with its coefficient.
    pub coefs: Items<(u32, i128)>,
    /// The number without unknown.
    pub constant: i128,
}

impl Lin {
    /// The same sum. It takes memory only where an unknown occurs.
    pub fn copy(&self, alloc: Global) -> Result<Lin, AllocError>
        ensures value { IfOk result (λ t. t ≡ self.now) }
        ensures memory { spec.has_unknown self.now ≡ false → IsOk result }
    {
        Ok(Lin {
            coefs: copy_terms(alloc, self.coefs.as_slice())?,
            constant: self.constant,
        })
    }
}

/// The same terms.
fn copy_terms(alloc: Global, terms: &[(u32, i128)]) -> Result<Items<(u32, i128)>, AllocError>
    ensures value { IfOk result (λ ts. ts ≡ terms.now) }
    ensures memory { terms.now ≡ [] → IsOk result }
{
    let mut copies = Vec::with_capacity(alloc, terms.len())?;
    copies.extend_from_slice(terms)?;
    Ok(Items::from_vec(copies))
}

/// The sum that is `c`, without unknown.
pub fn number(alloc: Global, c: i128) -> Lin
    ensures { result ≡ spec.number c }
{
    Lin {
        coefs: Items::new(alloc),
        constant: c,
    }
}

fn is_ascending(terms: &[(u32, i128)]) -> bool
    ensures { result ≡ is_ascending terms.now }
{
    match terms {
        [] => true,
        [first, rest @ ..] => {
            let mut last = first.0;
            for term in rest {
                if term.0 <= last {
                    return false;
                }
                last = term.0;
            }
            true
        }
    }
}

fn is_reduced(terms: &[(u32, i128)]) -> bool
    ensures { result ≡ spec.is_reduced terms.now }
{
    for term in terms {
        if term.1 == 0 {
            return false;
        }
    }
    true
}

/// Whether the unknowns ascend and no coefficient is 0.
pub fn is_lin(t: &Lin) -> bool
    ensures { result ≡ is_lin t.now }
{
    is_ascending(t.coefs.as_slice()) && is_reduced(t.coefs.as_slice())
}

fn same_terms(terms: &[(u32, i128)], others: &[(u32, i128)]) -> bool
    ensures { IsTrue result ↔ (terms.now ≡ others.now) }
{
    terms == others
}

#[tactic(auto, using(crate::proofs::Equality::same_lin))]
/// Whether the two are the same sum.
pub fn same_lin(t: &Lin, u: &Lin) -> bool
    ensures { IsTrue result ↔ (t.now ≡ u.now) }
{
    t.constant == u.constant && same_terms(t.coefs.as_slice(), u.coefs.as_slice())
}

/// Whether some unknown occurs.
pub fn has_unknown(t: &Lin) -> bool
    ensures { result ≡ spec.has_unknown t.now }
{
    !t.coefs.is_empty()
}

/// Whether the unknown `x` occurs.
pub fn occurs(x: u32, t: &Lin) -> bool
    ensures { result ≡ spec.occurs x t.now }
{
    t.coefs.as_slice().iter().any(|term| term.0 == x)
}

/// The coefficient of the unknown `x`, 0 where it doesn't occur.
pub fn coef(x: u32, t: &Lin) -> i128
    requires { IsTrue (is_lin t.now) }
    ensures { result ≡ spec.coef x t.now }
{
    for term in t.coefs.as_slice() {
        if term.0 == x {
            return term.1;
        }
    }
    0
}

/// The sum without its term at the unknown `x`. It takes memory only where another unknown occurs.
pub fn without(alloc: Global, x: u32, t: &Lin) -> Result<Lin, AllocError>
    ensures value { IfOk result (λ r. r ≡ spec.without x t.now) }
    ensures memory { spec.has_unknown (spec.without x t.now) ≡ false → IsOk result }
    ensures well_formed { IsTrue (is_lin t.now) → IfOk result (λ r. IsTrue (is_lin r)) }
{
    let mut coefs = Vec::new(alloc);
    for term in t.coefs.as_slice() {
        if term.0 != x {
            coefs.push(*term)?;
        }
    }
    Ok(Lin {
        coefs: Items::from_vec(coefs),
        constant: t.constant,
    })
}
