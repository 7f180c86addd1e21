//! That the stated search of a pool is right: a search that closed gives a certificate that stands, and the values of
//! one that didn't are values of the pool.
#![tactic(auto)]

mod laws;

pub use laws::{
    closed_search_stands, found_values_are_checked, found_values_hold, grounding_never_shrinks,
    numbers_are_in_range, search_is_right, span_bounds_numbers, wide_makes_span,
};
