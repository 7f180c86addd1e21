//! Eliminates a variable of a clause.

ghost use Rattle.std.specs.Prelude.{IfOk, IsTrue, ◌↔◌};
ghost use Rattle.std.specs.List.{list_all};
ghost use Rattle.lin_base.specs.Fact.{is_fact};
ghost use Rattle.lin_base.specs.Steps.{Forms};
ghost use Rattle.lin_base.specs.Sum.{Valuation};
ghost use Rattle.cert_tree.specs.Complete.{complete, complete_steps};
ghost use Rattle.cert_tree.specs.Laws.{TrueForAll, AllTrue};

use cert_tree::complete_has_every_case;
use cert_tree::search_tools::formed_complete;
use lin_base::{ArithmeticError, Fact};
use sqlite_items::Items;
use std::alloc::Global;

/// Complete of a clause and its unknown `x` (Cooper 1972): clauses without `x`, all of which are true exactly where the
/// clause is true for all `x`.
///
/// By literal the instances above each upper bound, then those far down where no literal bounds `x` above. Each unknown
/// but `x` stays as it is, whether it is one of the parameters or not. Wide exactly where a number that is formed
/// leaves the range, with the operands of the first one.
pub fn eliminate(
    alloc: Global,
    clause: &[Fact],
    _params: u32,
    x: u32,
) -> Result<Items<Items<Fact>>, ArithmeticError>
    requires { IsTrue (list_all is_fact clause.now) }
    ensures formed { Forms result (complete_steps x clause.now) (complete x clause.now) }
    ensures exact { IfOk result (λ cs. (v : Valuation) → TrueForAll v x clause.now ↔ AllTrue v cs) }
    ensures well_formed { IfOk result (λ cs. IsTrue (list_all (list_all is_fact) cs)) }
{
    complete_has_every_case();
    formed_complete(alloc, x, clause)
}
