//! Reading file 0.
ghost use Rattle.std.specs.Prelude.{◌≡◌, ◌+◌, ◌^◌, ◌<◌, ◌≤◌, Some, length, take, drop, ◌&&◌, IfOk, OnOk, IsErrOf};
ghost use Rattle.mds_out.specs.Calls.{next_number};
ghost use Rattle.mds_out.specs.Disk.{Image, AreSame, LeavesOnly, IsUnchanged, HasDiskCause};
ghost use Rattle.mds_out.specs.Known.{OnTold};
ghost use Rattle.root_slots.specs.Slot.{HoldsRoot, FindsRoot, content_at, is_open, are_slots};
ghost use Rattle.root_slots.specs.Slots.{IsDiskAnswer, HasRootCause};
ghost use Rattle.root_slots.specs.declared.TheConstants.{FILE_BYTES};

use crate::content::{Content, Found, Slot, behind_gate, choose};
use crate::root_slots::RootFault;
use crate::{BEHIND_BYTES, FILE_BYTES, OPEN};
use mds_out::{Disk, DiskFault};
use std::alloc::Global;

/// Syncs file 0, and answers its length.
pub(crate) fn synced_length<D: Disk>(disk: &mut D) -> Result<u64, DiskFault>
    ensures size { IfOk result (λ size. D.sizes disk.new 0 ≡ Some size) }
    ensures short { IfOk result (λ size. size < 2 ^ 63) }
    ensures durable { OnOk result
        (OnTold (D.seen disk.new 0) (λ file. (image : Image) → D.images disk.new image → image 0 ≡ file)) }
    ensures unchanged { IsUnchanged (D.seen disk.old) (D.seen disk.new) (D.sizes disk.old) (D.sizes disk.new) }
    ensures any_moment { LeavesOnly D.moment D.images_since disk.old disk.new (D.images disk.old) }
    ensures crash { (image : Image) → D.images disk.new image → D.images disk.old image }
    ensures cause { HasDiskCause (D.faults disk.old) (D.faults disk.new) result }
    ensures lasts { D.lasts disk.old disk.new }
    ensures failed { IsErrOf result DiskFault.Device → D.fails disk.old disk.new }
    ensures asked { D.asked disk.new ≤ D.asked disk.old + 2 }
{
    disk.sync(0)?;
    disk.length(0)
}

/// Which slot counts, and whether both are open.
pub(crate) fn read_slots<D: Disk>(
    alloc: Global,
    disk: &mut D,
    size: u64,
) -> Result<(Found, bool), RootFault>
    requires known { D.sizes disk.old 0 ≡ Some size }
    requires whole { FILE_BYTES ≤ size }
    requires short { size < 2 ^ 63 }
    ensures found { IfOk result (λ read. OnTold (D.seen disk.old 0) (λ file. are_slots file read.0 read.1)) }
    ensures root { IfOk result (λ read. FindsRoot read.0) }
    ensures answer { IsDiskAnswer result }
    ensures unchanged { IsUnchanged (D.seen disk.old) (D.seen disk.new) (D.sizes disk.old) (D.sizes disk.new) }
    ensures crash { AreSame (D.images disk.old) (D.images disk.new) }
    ensures any_moment { LeavesOnly D.moment D.images_since disk.old disk.new (D.images disk.old) }
    ensures cause { HasRootCause (D.faults disk.old) (D.faults disk.new) result }
    ensures lasts { D.lasts disk.old disk.new }
    ensures failed { IsErrOf result RootFault.Device → D.fails disk.old disk.new }
    ensures asked { D.asked disk.new ≤ D.asked disk.old + 4 }
{
    let first = read_slot(alloc, disk, size, Slot::First)?;
    let second = read_slot(alloc, disk, size, Slot::Second)?;
    let both = both_open(&first, &second);
    Ok((choose(first, second), both))
}

fn both_open(first: &Content, second: &Content) -> bool
    ensures { result ≡ (is_open first.now && is_open second.now) }
{
    first.is_open() && second.is_open()
}

// What a slot holds. Behind a closed gate nothing is read.
fn read_slot<D: Disk>(
    alloc: Global,
    disk: &mut D,
    size: u64,
    slot: Slot,
) -> Result<Content, RootFault>
    requires known { D.sizes disk.old 0 ≡ Some size }
    requires whole { FILE_BYTES ≤ size }
    requires short { size < 2 ^ 63 }
    ensures content { IfOk result (λ content. OnTold (D.seen disk.old 0) (λ file. content ≡ content_at file slot)) }
    ensures root { IfOk result HoldsRoot }
    ensures answer { IsDiskAnswer result }
    ensures unchanged { IsUnchanged (D.seen disk.old) (D.seen disk.new) (D.sizes disk.old) (D.sizes disk.new) }
    ensures crash { AreSame (D.images disk.old) (D.images disk.new) }
    ensures any_moment { LeavesOnly D.moment D.images_since disk.old disk.new (D.images disk.old) }
    ensures cause { HasRootCause (D.faults disk.old) (D.faults disk.new) result }
    ensures lasts { D.lasts disk.old disk.new }
    ensures failed { IsErrOf result RootFault.Device → D.fails disk.old disk.new }
    ensures asked { D.asked disk.new ≤ D.asked disk.old + 2 }
{
    let mut gate = [0; 1];
    read_at(disk, slot.offset(), &mut gate)?;
    if gate[0] != OPEN {
        return Ok(Content::Closed);
    }
    let mut bytes = [0; BEHIND_BYTES];
    read_at(disk, slot.offset() + 1, &mut bytes)?;
    Ok(behind_gate(alloc, &bytes)?)
}

// A read that says of each moment that it changed no image.
fn read_at<D: Disk>(disk: &mut D, at: u64, into: &mut [u8]) -> Result<(), DiskFault>
    requires short { at + length into.old < 2 ^ 63 }
    requires within { OnTold (D.sizes disk.old 0) (λ size. at + length into.old ≤ size) }
    ensures bytes { OnOk result
        (OnTold (D.seen disk.old 0) (λ bytes. into.new ≡ take (length into.old) (drop at bytes))) }
    ensures unchanged { IsUnchanged (D.seen disk.old) (D.seen disk.new) (D.sizes disk.old) (D.sizes disk.new) }
    ensures crash { AreSame (D.images disk.old) (D.images disk.new) }
    ensures any_moment { LeavesOnly D.moment D.images_since disk.old disk.new (D.images disk.old) }
    ensures no_memory { IsErrOf result DiskFault.OutOfMemory → ⊥ }
    ensures cause { HasDiskCause (D.faults disk.old) (D.faults disk.new) result }
    ensures lasts { D.lasts disk.old disk.new }
    ensures failed { IsErrOf result DiskFault.Device → D.fails disk.old disk.new }
    ensures asked { D.asked disk.new ≡ next_number (D.asked disk.old) }
{
    disk.read(0, at, into)
}
