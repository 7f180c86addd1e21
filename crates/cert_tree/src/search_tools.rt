//! What the search for certificates and values shares with their check. It is public for `cooper_rows` and `cooper`
//! alone: what a certificate means stands in `check_unsat` and `check_sat`.

pub use crate::completing::{formed_complete, formed_upper};
pub use crate::rows::{formed_far_down, formed_instance, has_upper_bound, occurs_in};
pub use crate::sums::{Side, solve_for};
pub use crate::test_points::{Bound, lower_bound, move_up, period};
pub use crate::variables::{unknowns, variables};
