//! A file written whole.
ghost use Rattle.std.specs.Prelude.{◌≡◌, ◌<◌, ◌^◌, OnOk, length};
ghost use Rattle.std.specs.Prelude.{◌+◌, ◌≤◌};
ghost use Rattle.gate_log.specs.LogState.{IsElsewhereOld};
ghost use Rattle.mds_out.specs.Disk.{LeavesOnly, IsElsewhereUnchanged, IsChanging, StaysTold};
ghost use Rattle.mds_out.specs.Known.{OnTold};
ghost use Rattle.row_store.specs.Answers.{IsMemoryAnswer, IsStoreWriting};
ghost use Rattle.sorted_table.specs.Tables.{IsDurable};

use crate::faults::of_disk;
use mds_base::StoreFault;
use mds_out::{Disk, DiskFault};

/// Writes bytes into a file, in place of what it held, and syncs it. After `Ok` every crash leaves it so.
pub(crate) fn write_whole<D: Disk>(disk: &mut D, file: u32, bytes: &[u8]) -> Result<(), DiskFault>
    requires { length bytes.now < 2 ^ 63 }
    ensures written { OnOk result (OnTold (D.seen disk.new file) (λ held. held ≡ bytes.now)) }
    ensures durable { OnOk result (IsDurable file (D.seen disk.new) (D.images disk.new)) }
    ensures elsewhere { IsElsewhereUnchanged file (D.seen disk.old) (D.seen disk.new) (D.sizes disk.old)
        (D.sizes disk.new) }
    ensures told { StaysTold (D.seen disk.old file) (D.seen disk.new file) }
    ensures any_moment { LeavesOnly D.moment D.images_since disk.old disk.new
        (IsElsewhereOld file (D.images disk.old)) }
    ensures call { IsChanging D.faults D.lasts D.fails disk.old disk.new result }
    ensures asked { D.asked disk.new ≤ D.asked disk.old + 3 }
{
    disk.cut(file, 0)?;
    disk.write_at(file, 0, bytes)?;
    disk.sync(file)
}

/// Cuts a file to no byte.
pub(crate) fn cut_file<D: Disk>(disk: &mut D, file: u32) -> Result<(), StoreFault>
    ensures answer { IsMemoryAnswer result }
    ensures call { IsStoreWriting D.seen D.sizes D.images D.moment D.images_since D.faults D.lasts D.fails file disk.old
        disk.new result }
    ensures asked { D.asked disk.new ≤ D.asked disk.old + 1 }
{
    match cut_whole(disk, file) {
        Ok(()) => Ok(()),
        Err(fault) => Err(of_disk(fault)),
    }
}

// The same, as the disk answers it.
fn cut_whole<D: Disk>(disk: &mut D, file: u32) -> Result<(), DiskFault>
    ensures elsewhere { IsElsewhereUnchanged file (D.seen disk.old) (D.seen disk.new) (D.sizes disk.old)
        (D.sizes disk.new) }
    ensures told { StaysTold (D.seen disk.old file) (D.seen disk.new file) }
    ensures any_moment { LeavesOnly D.moment D.images_since disk.old disk.new
        (IsElsewhereOld file (D.images disk.old)) }
    ensures call { IsChanging D.faults D.lasts D.fails disk.old disk.new result }
    ensures asked { D.asked disk.new ≤ D.asked disk.old + 1 }
{
    disk.cut(file, 0)
}
