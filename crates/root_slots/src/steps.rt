//! The steps of a change of root on the disk, each a synced write.
ghost use Rattle.std.specs.Prelude.{◌≡◌, ◌+◌, ◌≤◌, List, ℕ, true, false, length, None, OnOk, IsErrOf, ◌++◌};
ghost use Rattle.gate_log.specs.Calls.{Asks};
ghost use Rattle.gate_log.specs.LogState.{IsElsewhereOld};
ghost use Rattle.mds_out.specs.Disk.{LeavesOnly, IsElsewhereUnchanged, HasDiskCause, Tells, StaysTold};
ghost use Rattle.mds_out.specs.Known.{OnTold};
ghost use Rattle.root_slots.specs.Slot.{offset_of, found_in, open_content};
ghost use Rattle.root_slots.specs.Slots.{spare, emptied, filled, opened, with_file, filled_root, IsAbove, IsReady};
ghost use Rattle.root_slots.specs.Slots.{IsOldOrNew};
ghost use Rattle.root_slots.specs.declared.content.Content.TheVariants.{Open};
ghost use Rattle.root_slots.specs.declared.content.Found.TheVariants.{New, InForce};
ghost use Rattle.root_slots.specs.declared.root_slots.Step.TheVariants.{Begun, Emptied, Filled};

use crate::root::Root;
use crate::root_slots::RootSlots;
use crate::writes::write_synced;
use crate::{FILE_BYTES, OPEN};
use mds_out::{Disk, DiskFault};

/// Makes file 0 with two closed slots.
pub(crate) fn make_at<D: Disk>(disk: &mut D, slots: &RootSlots) -> Result<(), DiskFault>
    requires unmade { slots.now.made ≡ false }
    requires begun { (slots.now.force ≡ None) × (slots.now.spare_open ≡ false) × (slots.now.step ≡ Begun) }
    requires ready { IsReady slots.now (D.seen disk.old) (D.sizes disk.old) (D.images disk.old) }
    ensures ready { OnOk result
        (IsReady (with_file slots.now) (D.seen disk.new) (D.sizes disk.new) (D.images disk.new)) }
    ensures any_moment { OnTold (D.seen disk.old 0)
        (λ _. LeavesOnly D.moment D.images_since disk.old disk.new (λ image. found_in (image 0) ≡ New)) }
    ensures elsewhere { IsElsewhereUnchanged 0 (D.seen disk.old) (D.seen disk.new) (D.sizes disk.old)
        (D.sizes disk.new) }
    ensures told { StaysTold (D.seen disk.old 0) (D.seen disk.new 0) }
    ensures cause { HasDiskCause (D.faults disk.old) (D.faults disk.new) result }
    ensures lasts { D.lasts disk.old disk.new }
    ensures failed { IsErrOf result DiskFault.Device → D.fails disk.old disk.new }
    ensures asked { Asks 4 (D.asked disk.old) (D.asked disk.new) result }
{
    write_synced(disk, 0, &[0; FILE_BYTES as usize - 1])?;
    write_synced(disk, FILE_BYTES - 1, &[0])
}

/// Closes the gate at a place, that of the slot that is not in force.
pub(crate) fn close_at<D: Disk>(
    disk: &mut D,
    slots: &RootSlots,
    offset: u64,
) -> Result<(), DiskFault>
    requires made { slots.now.made ≡ true }
    requires is_open { slots.now.spare_open ≡ true }
    requires offset { offset ≡ offset_of (spare slots.now.force) }
    requires small { offset ≤ 1024 }
    requires ready { IsReady slots.now (D.seen disk.old) (D.sizes disk.old) (D.images disk.old) }
    ensures ready { OnOk result (IsReady (emptied slots.now) (D.seen disk.new) (D.sizes disk.new) (D.images disk.new)) }
    ensures any_moment { OnTold (D.seen disk.old 0)
        (λ file. LeavesOnly D.moment D.images_since disk.old disk.new (λ image. found_in (image 0) ≡ found_in file)) }
    ensures kept { OnOk result
        (Tells (D.seen disk.old 0) (D.seen disk.new 0) (λ old new. found_in new ≡ found_in old)) }
    ensures images_elsewhere { LeavesOnly D.moment D.images_since disk.old disk.new
        (IsElsewhereOld 0 (D.images disk.old)) }
    ensures elsewhere { IsElsewhereUnchanged 0 (D.seen disk.old) (D.seen disk.new) (D.sizes disk.old)
        (D.sizes disk.new) }
    ensures told { StaysTold (D.seen disk.old 0) (D.seen disk.new 0) }
    ensures cause { HasDiskCause (D.faults disk.old) (D.faults disk.new) result }
    ensures lasts { D.lasts disk.old disk.new }
    ensures failed { IsErrOf result DiskFault.Device → D.fails disk.old disk.new }
    ensures asked { Asks 2 (D.asked disk.old) (D.asked disk.new) result }
{
    write_synced(disk, offset, &[0])
}

/// Where that gate is closed already, nothing is done.
pub(crate) fn nothing_to_close<D: Disk>(disk: &D, slots: &RootSlots)
    requires shut { slots.now.spare_open ≡ false }
    requires ready { IsReady slots.now (D.seen disk.now) (D.sizes disk.now) (D.images disk.now) }
    requires made { slots.now.made ≡ true }
    ensures ready { IsReady (emptied slots.now) (D.seen disk.now) (D.sizes disk.now) (D.images disk.now) }
    ensures emptied { record slots.now { step = Emptied } ≡ emptied slots.now }
    ensures any_moment { OnTold (D.seen disk.now 0)
        (λ file. LeavesOnly D.moment D.images_since disk.now disk.now (λ image. found_in (image 0) ≡ found_in file)) }
    ensures kept { Tells (D.seen disk.now 0) (D.seen disk.now 0) (λ old new. found_in new ≡ found_in old) }
    ensures images_elsewhere { LeavesOnly D.moment D.images_since disk.now disk.now
        (IsElsewhereOld 0 (D.images disk.now)) }
{}

/// Writes a root behind the closed gate at a place.
pub(crate) fn fill_at<D: Disk>(
    disk: &mut D,
    slots: &RootSlots,
    offset: u64,
    root: &Root,
    bytes: &[u8],
) -> Result<(), DiskFault>
    requires made { slots.now.made ≡ true }
    requires shut { slots.now.spare_open ≡ false }
    requires offset { offset ≡ offset_of (spare slots.now.force) }
    requires small { offset ≤ 1024 }
    requires short { length bytes.now ≤ 289 }
    requires read { (tail : List ℕ) → open_content (bytes.now ++ tail) ≡ Open root.now }
    requires above { IsAbove slots.now.force root.now.number }
    requires ready { IsReady slots.now (D.seen disk.old) (D.sizes disk.old) (D.images disk.old) }
    ensures ready { OnOk result
        (IsReady (filled slots.now root.now.number) (D.seen disk.new) (D.sizes disk.new) (D.images disk.new)) }
    ensures root { OnOk result (OnTold (D.seen disk.new 0) (λ file. filled_root slots.now file ≡ root.now)) }
    ensures any_moment { OnTold (D.seen disk.old 0)
        (λ file. LeavesOnly D.moment D.images_since disk.old disk.new (λ image. found_in (image 0) ≡ found_in file)) }
    ensures kept { OnOk result
        (Tells (D.seen disk.old 0) (D.seen disk.new 0) (λ old new. found_in new ≡ found_in old)) }
    ensures images_elsewhere { LeavesOnly D.moment D.images_since disk.old disk.new
        (IsElsewhereOld 0 (D.images disk.old)) }
    ensures elsewhere { IsElsewhereUnchanged 0 (D.seen disk.old) (D.seen disk.new) (D.sizes disk.old)
        (D.sizes disk.new) }
    ensures told { StaysTold (D.seen disk.old 0) (D.seen disk.new 0) }
    ensures cause { HasDiskCause (D.faults disk.old) (D.faults disk.new) result }
    ensures lasts { D.lasts disk.old disk.new }
    ensures failed { IsErrOf result DiskFault.Device → D.fails disk.old disk.new }
    ensures asked { Asks 2 (D.asked disk.old) (D.asked disk.new) result }
{
    write_synced(disk, offset + 1, bytes)
}

/// Opens the gate at a place, behind which a root was written.
pub(crate) fn open_at<D: Disk>(
    disk: &mut D,
    slots: &RootSlots,
    offset: u64,
) -> Result<(), DiskFault>
    requires made { slots.now.made ≡ true }
    requires shut { slots.now.spare_open ≡ false }
    requires filled { (number : ℕ) × (slots.now.step ≡ Filled number) }
    requires offset { offset ≡ offset_of (spare slots.now.force) }
    requires small { offset ≤ 1024 }
    requires ready { IsReady slots.now (D.seen disk.old) (D.sizes disk.old) (D.images disk.old) }
    ensures ready { OnOk result
        ((number : ℕ) → slots.now.step ≡ Filled number
        → IsReady (opened slots.now number) (D.seen disk.new) (D.sizes disk.new) (D.images disk.new)) }
    ensures any_moment { OnTold (D.seen disk.old 0)
        (λ file. LeavesOnly D.moment D.images_since disk.old disk.new (λ image. IsOldOrNew slots.now file (image 0))) }
    ensures in_force { OnOk result
        (Tells (D.seen disk.old 0) (D.seen disk.new 0)
        (λ old new. found_in new ≡ InForce (spare slots.now.force) (filled_root slots.now old))) }
    ensures images_elsewhere { LeavesOnly D.moment D.images_since disk.old disk.new
        (IsElsewhereOld 0 (D.images disk.old)) }
    ensures elsewhere { IsElsewhereUnchanged 0 (D.seen disk.old) (D.seen disk.new) (D.sizes disk.old)
        (D.sizes disk.new) }
    ensures told { StaysTold (D.seen disk.old 0) (D.seen disk.new 0) }
    ensures cause { HasDiskCause (D.faults disk.old) (D.faults disk.new) result }
    ensures lasts { D.lasts disk.old disk.new }
    ensures failed { IsErrOf result DiskFault.Device → D.fails disk.old disk.new }
    ensures asked { Asks 2 (D.asked disk.old) (D.asked disk.new) result }
{
    write_synced(disk, offset, &[OPEN])
}
