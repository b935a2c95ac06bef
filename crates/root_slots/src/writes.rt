//! Writes into file 0, each synced before the next.
ghost use Rattle.std.specs.Prelude.{◌≡◌, ◌+◌, ◌^◌, ◌<◌, ◌≤◌, max, length, OnOk, IsErrOf};
ghost use Rattle.gate_log.specs.Calls.{Asks};
ghost use Rattle.gate_log.specs.LogState.{IsWrittenOver};
ghost use Rattle.mds_out.specs.Calls.{next_number};
ghost use Rattle.mds_out.specs.Disk.{Image, Tells, put, LeavesOnly, IsElsewhereUnchanged, HasDiskCause, StaysTold};
ghost use Rattle.mds_out.specs.Known.{OnKnown, OnTold};

use mds_out::{Disk, DiskFault};

/// Writes bytes into file 0 and syncs it. A crash at any moment leaves an image from before, with the write or a part
/// of it.
pub(crate) fn write_synced<D: Disk>(disk: &mut D, at: u64, bytes: &[u8]) -> Result<(), DiskFault>
    requires short { at + length bytes.now < 2 ^ 63 }
    requires within { OnTold (D.sizes disk.old 0) (λ size. at ≤ size) }
    ensures written { OnOk result
        (Tells (D.seen disk.old 0) (D.seen disk.new 0) (λ old new. new ≡ put old at bytes.now)) }
    ensures size { OnOk result
        (OnKnown (D.sizes disk.old 0) (D.sizes disk.new 0) (λ old new. new ≡ max old (at + length bytes.now))) }
    ensures told { StaysTold (D.seen disk.old 0) (D.seen disk.new 0) }
    ensures durable { OnOk result
        (OnTold (D.seen disk.new 0) (λ now. (image : Image) → D.images disk.new image → image 0 ≡ now)) }
    ensures elsewhere { IsElsewhereUnchanged 0 (D.seen disk.old) (D.seen disk.new) (D.sizes disk.old)
        (D.sizes disk.new) }
    ensures any_moment { LeavesOnly D.moment D.images_since disk.old disk.new
        (IsWrittenOver 0 at (length bytes.now) (D.images disk.old)) }
    ensures crash { (image : Image) → D.images disk.new image
        → IsWrittenOver 0 at (length bytes.now) (D.images disk.old) image }
    ensures cause { HasDiskCause (D.faults disk.old) (D.faults disk.new) result }
    ensures lasts { D.lasts disk.old disk.new }
    ensures failed { IsErrOf result DiskFault.Device → D.fails disk.old disk.new }
    ensures asked { Asks 2 (D.asked disk.old) (D.asked disk.new) result }
{
    disk.write_at(0, at, bytes)?;
    disk.sync(0)
}
