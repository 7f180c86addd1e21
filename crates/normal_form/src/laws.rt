//! Laws of the definitions.

ghost use Rattle.std.specs.Prelude.{◌≡◌, Bool, length};
ghost use Rattle.formula_base.specs.declared.problems.Problem.{Problem};
ghost use Rattle.formula_base.specs.Typing.{IsWellTyped};
ghost use Rattle.normal_form.specs.Clauses.{prepared, count_of, AreWellSorted};
ghost use Rattle.normal_form.specs.Known.{HasKnownSymbols};
ghost use Rattle.normal_form.specs.Rows as rows;

/// A problem has as many clauses as are counted.
pub fn clauses_are_counted()
    ensures { (p : Problem) (ordinary : Bool) → length (prepared p ordinary).clauses ≡ count_of p }
{}

/// The clauses of a well typed problem are well sorted over its symbols and the Skolem symbols.
pub fn clauses_are_well_sorted()
    ensures { (p : Problem) (ordinary : Bool) → IsWellTyped p → AreWellSorted (prepared p ordinary) }
{}

/// The clauses of a well typed problem have no symbol but the problem's and the Skolem symbols: each symbol number
/// is below the number of the symbols.
pub fn clauses_have_known_symbols()
    ensures { (p : Problem) (ordinary : Bool) → IsWellTyped p → HasKnownSymbols (prepared p ordinary) }
{}

/// Rows of the definition, worked out: an inequality with both signs; `! [X] : ? [Y] : Y < X` with both signs; two
/// lists of two clauses, joined; and the number of clauses of 17 conjunctions of two propositions each, joined.
pub fn definition_gives_rows()
    ensures less { rows.Less }
    ensures not_less { rows.NotLess }
    ensures bounded_below { rows.BoundedBelow }
    ensures not_bounded_below { rows.NotBoundedBelow }
    ensures joined { rows.Joined }
    ensures counted { rows.Counted }
{}
