//! Exact arithmetic on linear sums over the integers: sums, facts about them and pools of clauses
//! of facts.
#![tactic(auto)]

mod changes;
mod checked;
mod facts;
pub mod laws;
mod numbers;
mod replacing;
mod sums;
mod wides;

pub use changes::{above, add, add_number, add_scaled, negate, scale};
pub use checked::{checked_add, checked_mul};
pub use facts::{Fact, Pool, copy_facts, divides, holds_at, is_fact, is_false, is_pool, same_fact};
pub use numbers::{div_ceil, gcd, lcm};
pub use replacing::{replace, tight};
pub use sums::{Lin, coef, has_unknown, is_lin, number, occurs, same_lin, without};
pub use wides::{ArithmeticError, Op, Wide};
