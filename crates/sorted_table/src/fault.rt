ghost use Rattle.std.specs.Prelude.{◌≡◌};
ghost use Rattle.sorted_table.specs.Answers.{table_fault_of};
ghost use Rattle.sorted_table.specs.declared.fault.TableFault.TheVariants.{OutOfMemory};

use mds_out::DiskFault;
use std::alloc::{AllocError, AllocFailed};
use thiserror::Error;

/// What is wrong with the file of a table.
#[derive(Clone, Copy, Debug, PartialEq, Eq)]
pub enum TableDamage {
    /// It is too short for its fixed parts, or spells no table.
    Spelling,
    /// The MD5 that is kept at its end is not that of what is before.
    Sum { kept: [u8; 16], found: [u8; 16] },
}

/// Why a call of a table was refused.
#[derive(Clone, Copy, Debug, PartialEq, Eq, Error)]
pub enum TableFault {
    /// The disk failed; its count of faults has risen.
    #[error("device fault")]
    Device,
    /// The file is no table. The offset is that of the stored sum where the sum is another, else 0.
    #[error("damaged table at byte {offset}")]
    Damaged { offset: u64, damage: TableDamage },
    /// There was no memory, and the disk's count of faults is as before: it never stands for a fault of the device.
    #[error("out of memory")]
    OutOfMemory,
}

impl From<DiskFault> for TableFault {
    ghost from_gives = { λ fault answer. answer ≡ table_fault_of fault };

    fn from(fault: DiskFault) -> Self {
        match fault {
            DiskFault::Device => TableFault::Device,
            DiskFault::OutOfMemory => TableFault::OutOfMemory,
        }
    }
}

impl From<AllocError> for TableFault {
    ghost from_gives = { λ _ answer. answer ≡ OutOfMemory };

    fn from(_: AllocError) -> Self {
        TableFault::OutOfMemory
    }
}

impl<T: Drop> From<AllocFailed<T>> for TableFault {
    ghost from_gives = { λ _ answer. answer ≡ OutOfMemory };

    fn from(_: AllocFailed<T>) -> Self {
        TableFault::OutOfMemory
    }
}
