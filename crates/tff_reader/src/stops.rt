//! Why the reading of a formula stops.

use std::alloc::AllocError;
use tff_signature::Later;

/// Why the reading of a formula stops.
#[derive(Clone, Copy)]
pub(crate) enum Stop {
    Memory,
    Fault(Later),
}

impl From<AllocError> for Stop {
    ghost use Rattle.std.specs.Prelude.{◌≡◌};
    ghost use Rattle.tff_reader.specs.declared.stops.Stop.TheVariants.{Memory};

    ghost from_gives = { λ _ e. e ≡ Memory };

    fn from(_error: AllocError) -> Stop {
        Stop::Memory
    }
}

impl From<Later> for Stop {
    ghost use Rattle.std.specs.Prelude.{◌≡◌};
    ghost use Rattle.tff_reader.specs.declared.stops.Stop.TheVariants.{Fault};

    ghost from_gives = { λ f e. e ≡ Fault f };

    fn from(fault: Later) -> Stop {
        Stop::Fault(fault)
    }
}
