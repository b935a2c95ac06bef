ghost use Rattle.std.specs.Prelude.{◌≡◌};

use mds_base::NameFault;
use std::alloc::AllocError;
use thiserror::Error;

/// Why bytes do not begin with the spelling of a record.
#[derive(Clone, Copy, Debug, PartialEq, Eq, Error)]
pub enum RecordFault {
    /// The bytes are a proper prefix of some spelling.
    #[error("cut short")]
    Short,
    /// The byte at this place is the first after which no spelling can follow.
    #[error("no record, from the byte at this place on")]
    Bad {
        /// The offset, counted from 0.
        offset: u64,
    },
    /// There was no memory for the record.
    #[error("out of memory")]
    OutOfMemory,
}

/// The first fault of bytes that are read from left to right.
#[derive(Clone, Copy, Debug, PartialEq, Eq)]
pub(crate) enum Fault {
    /// They end within a spelling.
    Short,
    /// The byte with so many bytes from it on is the first after which no spelling can follow.
    Bad(usize),
}

/// Why reading ended.
#[derive(Clone, Copy, Debug, PartialEq, Eq)]
pub(crate) enum Stop {
    Memory,
    Fault(Fault),
}

impl From<AllocError> for Stop {
    ghost use Rattle.records.specs.declared.fault.Stop.TheVariants.{Memory};

    ghost from_gives = { λ _ e. e ≡ Memory };

    fn from(_: AllocError) -> Stop {
        Stop::Memory
    }
}
