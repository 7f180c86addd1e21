//! How one term stands to another, as seen from the one.

ghost use Rattle.std.specs.Prelude.{◌≡◌};
ghost use Rattle.term_order.specs.Standing as spec;
ghost use Rattle.term_order.specs.Parts as part;

/// How a term stands to another: above it, equal to it, or neither.
#[derive(Clone, Copy, Debug, PartialEq, Eq)]
pub enum Standing {
    Above,
    Equal,
    Neither,
}

impl Standing {
    /// Above where the test holds, else neither.
    pub fn above_if(holds: bool) -> Standing
        ensures { result ≡ spec.above_if holds }
    {
        if holds {
            Standing::Above
        } else {
            Standing::Neither
        }
    }

    /// Equal where the test holds, else neither.
    pub fn equal_if(holds: bool) -> Standing
        ensures { result ≡ part.equal_if holds }
    {
        if holds {
            Standing::Equal
        } else {
            Standing::Neither
        }
    }

    pub fn is_above(self) -> bool
        ensures { result ≡ spec.is_above self }
    {
        self == Standing::Above
    }

    /// Equal or above.
    pub fn reaches(self) -> bool
        ensures { result ≡ spec.reaches self }
    {
        self != Standing::Neither
    }
}
