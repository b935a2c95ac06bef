ghost use Rattle.std.specs.Prelude.{◌≡◌};

use std::alloc::{AllocError, AllocFailed};
use thiserror::Error;

/// What a server's disk says at its head: the cluster that it belongs to.
#[derive(Clone, Copy, Debug, PartialEq, Eq)]
pub struct Head {
    /// How many servers the cluster has.
    pub servers: u32,
    /// The number of this server, from 0.
    pub server: u32,
    /// A partition with more rows than this is split.
    pub threshold: u32,
}

/// What is wrong with bytes on a disk.
#[derive(Clone, Copy, Debug, PartialEq, Eq)]
pub enum Damage {
    /// They spell nothing that may stand at their place.
    Spelling,
    /// The MD5 that is kept beside them is not theirs.
    Sum { kept: [u8; 16], found: [u8; 16] },
    /// The head is that of another cluster or server.
    Head { kept: Head, wanted: Head },
}

/// Why a server on a disk refused a call.
#[derive(Clone, Copy, Debug, PartialEq, Eq, Error)]
pub enum StoreFault {
    /// The device failed. The server is down.
    #[error("device fault")]
    Device,
    /// The server is down, and stays so until it is opened or restarted.
    #[error("stopped")]
    Stopped,
    /// The bytes from this place of this file on are damaged.
    #[error("damaged")]
    Damaged {
        file: u32,
        offset: u64,
        damage: Damage,
    },
    /// The messages to send would count more rows than there was room for. Nothing changed.
    #[error("no room")]
    Room,
    /// There was no memory for the call.
    #[error("out of memory")]
    OutOfMemory,
}

impl From<AllocError> for StoreFault {
    ghost use Rattle.mds_base.specs.declared.store_fault.StoreFault.{StoreFault};

    ghost from_gives = { λ _ e. e ≡ StoreFault.OutOfMemory };

    fn from(_: AllocError) -> StoreFault {
        StoreFault::OutOfMemory
    }
}

impl<T: Drop> From<AllocFailed<T>> for StoreFault {
    ghost use Rattle.mds_base.specs.declared.store_fault.StoreFault.{StoreFault};

    ghost from_gives = { λ _ e. e ≡ StoreFault.OutOfMemory };

    fn from(_: AllocFailed<T>) -> StoreFault {
        StoreFault::OutOfMemory
    }
}
