//! Laws of the definitions.

ghost use Rattle.formula_base.specs.Rows as rows;

/// Rows of the definitions, worked out: `! [X] : ? [Y] : Y < X` binds X and then Y, with the numbers 0 and 1, and is
/// well typed; without its outer quantifier it isn't, nor where an inner binder of another sort has the number of X.
pub fn definitions_give_rows()
    ensures bound { rows.Bound }
    ensures numbered { rows.Numbered }
    ensures typed { rows.Typed }
    ensures unbound { rows.Unbound }
    ensures hidden { rows.Hidden }
{}
