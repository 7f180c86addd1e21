//! How two terms compare.

ghost use Rattle.std.specs.Prelude.{◌≡◌, ◌≢◌, ◌↔◌};
ghost use Rattle.term_base.specs.Trees.{tree};
ghost use Rattle.term_order.specs.Above.{Above};
ghost use Rattle.term_order.specs.Compare as spec;
ghost use Rattle.term_order.specs.declared.orders.Order.TheVariants as answer;

use crate::deciding::standing;
use crate::standing::Standing;
use term_base::{Symbol, Term};

/// How one term stands to another: above it, below it, equal to it, or none of these.
#[derive(Clone, Copy, Debug, PartialEq, Eq)]
pub enum Order {
    Above,
    Below,
    Equal,
    Open,
}

/// The order of two terms over a signature, exactly by the four cases of the order. A symbol's number past the
/// signature is that of a parameter. The time is at most proportional to the product of the sizes of the two terms.
pub fn compare(signature: &[Symbol], s: &Term, t: &Term) -> Order
    ensures above { (result ≡ answer.Above) ↔ Above signature.now (tree s.now) (tree t.now) }
    ensures below { (result ≡ answer.Below) ↔ Above signature.now (tree t.now) (tree s.now) }
    ensures equal { (result ≡ answer.Equal) ↔ (s.now ≡ t.now) }
    ensures open { (result ≡ answer.Open)
        ↔ ((¬ (Above signature.now (tree s.now) (tree t.now))) × (¬ (Above signature.now (tree t.now) (tree s.now))) × (s.now ≢ t.now)) }
{
    compared(signature, s, t)
}

fn compared(signature: &[Symbol], s: &Term, t: &Term) -> Order
    ensures { result ≡ spec.compare signature.now (tree s.now) (tree t.now) }
{
    match standing(signature, s, t) {
        Standing::Above => Order::Above,
        Standing::Equal => Order::Equal,
        Standing::Neither => {
            if standing(signature, t, s).is_above() {
                Order::Below
            } else {
                Order::Open
            }
        }
    }
}
