use std::alloc::{AllocError, AllocFailed};
use thiserror::Error;

/// Why a text was not read as a tree.
#[derive(Debug, Drop, Error)]
pub enum TreeFault {
    /// The text is outside the tree grammar.
    #[error("not a tree")]
    BadTree,
    /// There was no memory for the tree, or for reading it.
    #[error("out of memory")]
    OutOfMemory,
}

impl From<AllocError> for TreeFault {
    ghost use Rattle.std.specs.Prelude.{◌≡◌};
    ghost use Rattle.bulk.specs.declared.fault.TreeFault.TheVariants.{OutOfMemory};

    ghost from_gives = { λ _ e. e ≡ OutOfMemory };

    fn from(_: AllocError) -> TreeFault {
        TreeFault::OutOfMemory
    }
}

impl<T: Drop> From<AllocFailed<T>> for TreeFault {
    ghost use Rattle.std.specs.Prelude.{◌≡◌};
    ghost use Rattle.bulk.specs.declared.fault.TreeFault.TheVariants.{OutOfMemory};

    ghost from_gives = { λ _ e. e ≡ OutOfMemory };

    fn from(_: AllocFailed<T>) -> TreeFault {
        TreeFault::OutOfMemory
    }
}
