//! The writes of a builder, each behind the one before.
ghost use Rattle.std.specs.Prelude.{◌≡◌, ◌+◌, ◌*◌, ◌<◌, ◌≤◌, ◌^◌, ◌++◌, List, ℕ, Some, OnOk, IsErrOf, length};
ghost use Rattle.gate_log.specs.LogState.{IsElsewhereOld};
ghost use Rattle.mds_out.specs.Disk.{LeavesOnly, IsElsewhereUnchanged, HasDiskCause, StaysTold};
ghost use Rattle.mds_out.specs.Known.{OnTold};
ghost use Rattle.sorted_table.specs.Tables.{IsDurable};

use crate::BLOCK_BYTES;
use mds_out::{Disk, DiskFault};

/// Cuts the file where no block was written yet: what it held is gone.
fn begin_file<D: Disk>(disk: &mut D, file: u32, written: u32) -> Result<(), DiskFault>
    requires growing { 0 < written → D.sizes disk.old file ≡ Some (BLOCK_BYTES * written) }
    ensures size { OnOk result (D.sizes disk.new file ≡ Some (BLOCK_BYTES * written)) }
    ensures told { OnOk result
        ((before : List ℕ) → length before ≡ BLOCK_BYTES * written
        → (0 < written → OnTold (D.seen disk.old file) (λ bytes. bytes ≡ before))
        → OnTold (D.seen disk.new file) (λ bytes. bytes ≡ before)) }
    ensures any_moment { LeavesOnly D.moment D.images_since disk.old disk.new
        (IsElsewhereOld file (D.images disk.old)) }
    ensures elsewhere { IsElsewhereUnchanged file (D.seen disk.old) (D.seen disk.new) (D.sizes disk.old)
        (D.sizes disk.new) }
    ensures stays_told { StaysTold (D.seen disk.old file) (D.seen disk.new file) }
    ensures cause { HasDiskCause (D.faults disk.old) (D.faults disk.new) result }
    ensures lasts { D.lasts disk.old disk.new }
    ensures failed { IsErrOf result DiskFault.Device → D.fails disk.old disk.new }
    ensures asked { D.asked disk.new ≤ D.asked disk.old + 1 }
{
    if written == 0 {
        return disk.cut(file, 0);
    }
    Ok(())
}

/// Writes bytes behind all that the file holds.
fn write_behind<D: Disk>(disk: &mut D, file: u32, at: u64, bytes: &[u8]) -> Result<(), DiskFault>
    requires known { D.sizes disk.old file ≡ Some at }
    requires short { at + length bytes.now < 2 ^ 63 }
    ensures size { OnOk result (D.sizes disk.new file ≡ Some (at + length bytes.now)) }
    ensures told { OnOk result
        ((before : List ℕ) → length before ≡ at → OnTold (D.seen disk.old file) (λ held. held ≡ before)
        → OnTold (D.seen disk.new file) (λ held. held ≡ before ++ bytes.now)) }
    ensures any_moment { LeavesOnly D.moment D.images_since disk.old disk.new
        (IsElsewhereOld file (D.images disk.old)) }
    ensures elsewhere { IsElsewhereUnchanged file (D.seen disk.old) (D.seen disk.new) (D.sizes disk.old)
        (D.sizes disk.new) }
    ensures stays_told { StaysTold (D.seen disk.old file) (D.seen disk.new file) }
    ensures cause { HasDiskCause (D.faults disk.old) (D.faults disk.new) result }
    ensures lasts { D.lasts disk.old disk.new }
    ensures failed { IsErrOf result DiskFault.Device → D.fails disk.old disk.new }
    ensures asked { D.asked disk.new ≤ D.asked disk.old + 1 }
{
    disk.write_at(file, at, bytes)
}

/// Writes bytes behind so many blocks, or at the front of a file that is cut first where there is none.
pub(crate) fn put_block<D: Disk>(
    disk: &mut D,
    file: u32,
    written: u32,
    bytes: &[u8],
) -> Result<(), DiskFault>
    requires growing { 0 < written → D.sizes disk.old file ≡ Some (BLOCK_BYTES * written) }
    requires short { length bytes.now ≤ BLOCK_BYTES }
    ensures size { OnOk result (D.sizes disk.new file ≡ Some (BLOCK_BYTES * written + length bytes.now)) }
    ensures told { OnOk result
        ((before : List ℕ) → length before ≡ BLOCK_BYTES * written
        → (0 < written → OnTold (D.seen disk.old file) (λ held. held ≡ before))
        → OnTold (D.seen disk.new file) (λ held. held ≡ before ++ bytes.now)) }
    ensures any_moment { LeavesOnly D.moment D.images_since disk.old disk.new
        (IsElsewhereOld file (D.images disk.old)) }
    ensures elsewhere { IsElsewhereUnchanged file (D.seen disk.old) (D.seen disk.new) (D.sizes disk.old)
        (D.sizes disk.new) }
    ensures stays_told { StaysTold (D.seen disk.old file) (D.seen disk.new file) }
    ensures cause { HasDiskCause (D.faults disk.old) (D.faults disk.new) result }
    ensures lasts { D.lasts disk.old disk.new }
    ensures failed { IsErrOf result DiskFault.Device → D.fails disk.old disk.new }
    ensures asked { D.asked disk.new ≤ D.asked disk.old + 2 }
{
    begin_file(disk, file, written)?;
    write_behind(disk, file, written as u64 * BLOCK_BYTES as u64, bytes)
}

/// Writes the last bytes of a file behind its blocks, and syncs it.
pub(crate) fn put_end<D: Disk>(
    disk: &mut D,
    file: u32,
    written: u32,
    bytes: &[u8],
) -> Result<(), DiskFault>
    requires growing { 0 < written → D.sizes disk.old file ≡ Some (BLOCK_BYTES * written) }
    requires short { length bytes.now ≤ BLOCK_BYTES }
    ensures size { OnOk result (D.sizes disk.new file ≡ Some (BLOCK_BYTES * written + length bytes.now)) }
    ensures told { OnOk result
        ((before : List ℕ) → length before ≡ BLOCK_BYTES * written
        → (0 < written → OnTold (D.seen disk.old file) (λ held. held ≡ before))
        → OnTold (D.seen disk.new file) (λ held. held ≡ before ++ bytes.now)) }
    ensures durable { OnOk result (IsDurable file (D.seen disk.new) (D.images disk.new)) }
    ensures any_moment { LeavesOnly D.moment D.images_since disk.old disk.new
        (IsElsewhereOld file (D.images disk.old)) }
    ensures elsewhere { IsElsewhereUnchanged file (D.seen disk.old) (D.seen disk.new) (D.sizes disk.old)
        (D.sizes disk.new) }
    ensures stays_told { StaysTold (D.seen disk.old file) (D.seen disk.new file) }
    ensures cause { HasDiskCause (D.faults disk.old) (D.faults disk.new) result }
    ensures lasts { D.lasts disk.old disk.new }
    ensures failed { IsErrOf result DiskFault.Device → D.fails disk.old disk.new }
    ensures asked { D.asked disk.new ≤ D.asked disk.old + 3 }
{
    put_block(disk, file, written, bytes)?;
    disk.sync(file)
}
