use std::alloc::{AllocError, AllocFailed};
use thiserror::Error;

/// Why bytes were not read as a line.
#[derive(Debug, Drop, Error)]
pub enum LineFault {
    /// The bytes are outside the grammar.
    #[error("not a line")]
    NotALine,
    /// There was no memory for what the line says.
    #[error("out of memory")]
    OutOfMemory,
}

impl From<AllocError> for LineFault {
    ghost use Rattle.std.specs.Prelude.{◌≡◌};
    ghost use Rattle.script.specs.declared.fault.LineFault.TheVariants.{OutOfMemory};

    ghost from_gives = { λ _ e. e ≡ OutOfMemory };

    fn from(_: AllocError) -> LineFault {
        LineFault::OutOfMemory
    }
}

impl<T: Drop> From<AllocFailed<T>> for LineFault {
    ghost use Rattle.std.specs.Prelude.{◌≡◌};
    ghost use Rattle.script.specs.declared.fault.LineFault.TheVariants.{OutOfMemory};

    ghost from_gives = { λ _ e. e ≡ OutOfMemory };

    fn from(_: AllocFailed<T>) -> LineFault {
        LineFault::OutOfMemory
    }
}

/// The bytes are outside the grammar.
#[derive(Debug, Drop)]
pub(crate) struct Outside;

impl From<Outside> for LineFault {
    ghost use Rattle.std.specs.Prelude.{◌≡◌};
    ghost use Rattle.script.specs.declared.fault.LineFault.TheVariants.{NotALine};

    ghost from_gives = { λ _ e. e ≡ NotALine };

    fn from(_: Outside) -> LineFault {
        LineFault::NotALine
    }
}
