//! What a store answers where a part of it refused a call.
ghost use Rattle.std.specs.Prelude.{◌≡◌};
ghost use Rattle.row_store.specs.Answers.{disk_fault_of, root_fault_of, log_fault_of, table_fault_of};

use gate_log::LogFault;
use mds_base::{Damage, StoreFault};
use mds_out::DiskFault;
use root_slots::{RootFault, SlotDamage};
use sorted_table::{TableDamage, TableFault};

pub(crate) fn of_disk(fault: DiskFault) -> StoreFault
    ensures { result ≡ disk_fault_of fault }
{
    match fault {
        DiskFault::Device => StoreFault::Device,
        DiskFault::OutOfMemory => StoreFault::OutOfMemory,
    }
}

pub(crate) fn of_root(fault: RootFault) -> StoreFault
    ensures { result ≡ root_fault_of fault }
{
    match fault {
        RootFault::Device => StoreFault::Device,
        RootFault::Stopped => StoreFault::Stopped,
        RootFault::Bad {
            offset,
            damage: SlotDamage::Spelling,
        } => damaged(0, offset, Damage::Spelling),
        RootFault::Bad {
            offset,
            damage: SlotDamage::Sum { kept, found },
        } => damaged(0, offset, Damage::Sum { kept, found }),
        RootFault::OutOfMemory => StoreFault::OutOfMemory,
    }
}

pub(crate) fn of_log(file: u32, fault: LogFault) -> StoreFault
    ensures { result ≡ log_fault_of file fault }
{
    match fault {
        LogFault::Device => StoreFault::Device,
        LogFault::Stopped => StoreFault::Stopped,
        LogFault::BadLog { offset } => damaged(file, offset, Damage::Spelling),
        LogFault::OutOfMemory => StoreFault::OutOfMemory,
    }
}

pub(crate) fn of_table(file: u32, fault: TableFault) -> StoreFault
    ensures { result ≡ table_fault_of file fault }
{
    match fault {
        TableFault::Device => StoreFault::Device,
        TableFault::Damaged {
            offset,
            damage: TableDamage::Spelling,
        } => damaged(file, offset, Damage::Spelling),
        TableFault::Damaged {
            offset,
            damage: TableDamage::Sum { kept, found },
        } => damaged(file, offset, Damage::Sum { kept, found }),
        TableFault::OutOfMemory => StoreFault::OutOfMemory,
    }
}

fn damaged(file: u32, offset: u64, damage: Damage) -> StoreFault
    ensures { result ≡ StoreFault.Damaged file offset damage }
{
    StoreFault::Damaged {
        file,
        offset,
        damage,
    }
}
