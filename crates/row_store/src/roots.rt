//! The change of the root in force.
ghost use Rattle.std.specs.Prelude.{◌≡◌, true, false, Some, OnOk, OnErr};
ghost use Rattle.std.specs.Prelude.{◌+◌, ◌≤◌};
ghost use Rattle.mds_out.specs.Disk.{LeavesOnly};
ghost use Rattle.mds_out.specs.Known.{OnTold};
ghost use Rattle.root_slots.specs.Root.{is_root};
ghost use Rattle.root_slots.specs.Slot.{root_in};
ghost use Rattle.root_slots.specs.Slots.{IsAbove, IsDiskAnswer, IsReady};
ghost use Rattle.row_store.specs.Answers.{IsMemoryAnswer, IsStoreWriting};
ghost use Rattle.row_store.specs.RootSteps.{IsRootOr, IsRootStep, IsInForce};

use crate::faults::of_root;
use mds_base::StoreFault;
use mds_out::Disk;
use root_slots::{Root, RootFault, RootSlots};
use std::alloc::Global;

/// Brings a root into force. A crash at any moment of it leaves the old root in force or the new one; after `Ok` it is
/// the new one.
pub(crate) fn change_root<D: Disk>(
    alloc: Global,
    disk: &mut D,
    slots: &mut RootSlots,
    root: &Root,
) -> Result<(), StoreFault>
    requires made { slots.old.made ≡ true }
    requires running { slots.old.stopped ≡ false }
    requires root { is_root root.now ≡ true }
    requires above { IsAbove slots.old.force root.now.number }
    requires ready { IsReady slots.old (D.seen disk.old) (D.sizes disk.old) (D.images disk.old) }
    ensures in_force { OnOk result (IsInForce slots.new root.now (D.seen disk.new) (D.sizes disk.new)
        (D.images disk.new)) }
    ensures any_moment { OnTold (D.seen disk.old 0)
        (λ file. LeavesOnly D.moment D.images_since disk.old disk.new (λ image. IsRootOr root.now file (image 0))) }
    ensures answer { IsMemoryAnswer result }
    ensures call { IsStoreWriting D.seen D.sizes D.images D.moment D.images_since D.faults D.lasts D.fails 0 disk.old
        disk.new result }
    ensures asked { D.asked disk.new ≤ D.asked disk.old + 6 }
{
    match set_root(alloc, disk, slots, root) {
        Ok(()) => Ok(()),
        Err(fault) => Err(of_root(fault)),
    }
}

// The same, as the slots answer it.
fn set_root<D: Disk>(
    alloc: Global,
    disk: &mut D,
    slots: &mut RootSlots,
    root: &Root,
) -> Result<(), RootFault>
    requires made { slots.old.made ≡ true }
    requires running { slots.old.stopped ≡ false }
    requires root { is_root root.now ≡ true }
    requires above { IsAbove slots.old.force root.now.number }
    requires ready { IsReady slots.old (D.seen disk.old) (D.sizes disk.old) (D.images disk.old) }
    ensures in_force { OnOk result (IsInForce slots.new root.now (D.seen disk.new) (D.sizes disk.new)
        (D.images disk.new)) }
    ensures answer { IsDiskAnswer result }
    ensures call { IsRootStep D.seen D.sizes D.images D.moment D.images_since D.faults D.lasts D.fails root.now disk.old
        disk.new result }
    ensures asked { D.asked disk.new ≤ D.asked disk.old + 6 }
{
    slots.close_slot(disk)?;
    slots.fill_slot(alloc, disk, root)?;
    slots.open_slot(disk)
}
