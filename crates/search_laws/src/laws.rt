//! The laws of the search. The definitions are those of `cert_tree`: Ground, the search, Span.

ghost use Rattle.search_laws.specs.Laws.{ClosedSearchStands, FoundValuesHold, FoundValuesCheck, SearchIsRight, SpanBoundsNumbers, NumbersInRange, WideMakesSpan, GroundingNeverShrinks};

/// Where a search of a well-formed pool closes, the rows of the grounding and the tree found are a certificate that
/// stands, if no step of the grounding and no number of the visited nodes leaves the range of `i128`.
pub fn closed_search_stands()
    ensures { ClosedSearchStands }
{}

/// Where a search of a well-formed pool ends at a satisfied leaf, the pool is true at the values that it gives.
pub fn found_values_hold()
    ensures { FoundValuesHold }
{}

/// And the check of these values says yes, if none of them and no number of their check leaves the range of `i128`.
pub fn found_values_are_checked()
    ensures { FoundValuesCheck }
{}

/// A Span below 2^127 makes the search of a well-formed pool right: it closes with a certificate that stands, or gives
/// values whose check says yes.
pub fn search_is_right()
    ensures { SearchIsRight }
{}

/// A Span below 2^127 keeps each number of the pool, of its grounding, of the visited nodes and of the values with
/// their check in the range of `i128`.
pub fn span_bounds_numbers()
    ensures { SpanBoundsNumbers }
{}

/// Where the numbers of a pool are in the range, so are the steps of its grounding, and the numbers of the visited
/// nodes and of the values with their check.
pub fn numbers_are_in_range()
    ensures { NumbersInRange }
{}

/// A step of the grounding, a number of the visited nodes, or one of the values with their check that leaves the range
/// makes Span at least 2^127.
pub fn wide_makes_span()
    ensures { WideMakesSpan }
{}

/// A clause has at least one ground clause, and several have at least as many as they are: so clauses in hand are never
/// more than those of the whole grounding.
pub fn grounding_never_shrinks()
    ensures { GroundingNeverShrinks }
{}
