//! Why a walk stops.

ghost use Rattle.std.specs.Prelude.{◌≡◌};
ghost use Rattle.rhai_ast.specs.Walking.{ended};
ghost use Rattle.rhai_ast.specs.declared.walker.stop.Stop.TheVariants as stop;

use rhai_base::OutOfMemory;
use std::alloc::AllocFailed;

/// Why a walk goes no further.
pub(crate) enum Stop {
    /// The closure answered `false`.
    Refused,
    /// There was no room on the path.
    OutOfMemory(OutOfMemory),
}

impl<T: Drop> From<AllocFailed<T>> for Stop {
    ghost from_gives = { λ _ s. s ≡ stop.OutOfMemory (record {}) };

    fn from(_: AllocFailed<T>) -> Stop {
        Stop::OutOfMemory(OutOfMemory)
    }
}

/// What a caller is told: did the walk see all nodes?
pub(crate) fn answered(walked: Result<(), Stop>) -> Result<bool, OutOfMemory>
    ensures { result ≡ ended walked }
{
    match walked {
        Ok(()) => Ok(true),
        Err(Stop::Refused) => Ok(false),
        Err(Stop::OutOfMemory(error)) => Err(error),
    }
}
