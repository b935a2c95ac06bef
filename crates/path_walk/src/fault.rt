use std::alloc::{AllocError, AllocFailed};

/// Why a path was not read.
#[derive(Debug, Drop)]
pub(crate) enum PathFault {
    /// The component there spells no name; at 0 also where the path does not begin with a slash.
    BadPath { at: u32 },
    /// There was no memory for the names.
    OutOfMemory,
}

impl From<AllocError> for PathFault {
    ghost use Rattle.std.specs.Prelude.{◌≡◌};
    ghost use Rattle.path_walk.specs.declared.fault.PathFault.TheVariants.{OutOfMemory};

    ghost from_gives = { λ _ e. e ≡ OutOfMemory };

    fn from(_: AllocError) -> PathFault {
        PathFault::OutOfMemory
    }
}

impl<T: Drop> From<AllocFailed<T>> for PathFault {
    ghost use Rattle.std.specs.Prelude.{◌≡◌};
    ghost use Rattle.path_walk.specs.declared.fault.PathFault.TheVariants.{OutOfMemory};

    ghost from_gives = { λ _ e. e ≡ OutOfMemory };

    fn from(_: AllocFailed<T>) -> PathFault {
        PathFault::OutOfMemory
    }
}
