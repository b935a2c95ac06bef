use gate_log::LogFault;
use mds_base::RowsFault;
use mds_out::{DiskFault, Failed};
use std::alloc::{AllocError, AllocFailed};
use thiserror::Error;

/// Why a call has no answer but this.
#[derive(Clone, Copy, Debug, PartialEq, Eq, Error)]
pub enum RowFault {
    /// The line, or the action, is none.
    #[error("not a row")]
    NotARow,
    /// The arguments do not meet what the call requires.
    #[error("refused")]
    Refused,
    /// The device failed.
    #[error("device")]
    Device,
    /// The log has stopped.
    #[error("stopped")]
    Stopped,
    /// The file holds no log.
    #[error("bad log at {offset}")]
    BadLog { offset: u64 },
    /// There was no memory; the program ends.
    #[error("out of memory")]
    OutOfMemory,
}

/// What a call answered, as text.
pub type Answer = Result<String, RowFault>;

impl From<AllocError> for RowFault {
    fn from(_: AllocError) -> RowFault {
        RowFault::OutOfMemory
    }
}

impl<T: Drop> From<AllocFailed<T>> for RowFault {
    fn from(_: AllocFailed<T>) -> RowFault {
        RowFault::OutOfMemory
    }
}

impl From<Failed> for RowFault {
    fn from(_: Failed) -> RowFault {
        RowFault::Device
    }
}

impl From<DiskFault> for RowFault {
    fn from(fault: DiskFault) -> RowFault {
        match fault {
            DiskFault::Device => RowFault::Device,
            DiskFault::OutOfMemory => RowFault::OutOfMemory,
        }
    }
}

impl From<RowsFault> for RowFault {
    fn from(fault: RowsFault) -> RowFault {
        match fault {
            RowsFault::Device => RowFault::Device,
            RowsFault::OutOfMemory => RowFault::OutOfMemory,
        }
    }
}

impl From<LogFault> for RowFault {
    fn from(fault: LogFault) -> RowFault {
        match fault {
            LogFault::Device => RowFault::Device,
            LogFault::Stopped => RowFault::Stopped,
            LogFault::BadLog { offset } => RowFault::BadLog { offset },
            LogFault::OutOfMemory => RowFault::OutOfMemory,
        }
    }
}
