//! Calls of a store's disk that change nothing that a read gives.
ghost use Rattle.std.specs.Prelude.{◌≡◌, ◌+◌, ◌^◌, ◌<◌, ◌≤◌, Some, ◌⊎◌, IfOk, IfErr, OnOk, length, take, drop};
ghost use Rattle.mds_base.specs.declared.store_fault.StoreFault.TheVariants.{Device, OutOfMemory};
ghost use Rattle.mds_out.specs.Disk.{Image};
ghost use Rattle.mds_out.specs.Known.{OnTold};
ghost use Rattle.row_store.specs.Answers.{IsStoreReading};

use crate::faults::of_disk;
use mds_base::StoreFault;
use mds_out::Disk;

pub(crate) fn length_of<D: Disk>(disk: &mut D, file: u32) -> Result<u64, StoreFault>
    ensures size { IfOk result (λ size. D.sizes disk.new file ≡ Some size) }
    ensures short { IfOk result (λ size. size < 2 ^ 63) }
    ensures refused { IfErr result (λ fault. fault ≡ Device) }
    ensures call { IsStoreReading D.seen D.sizes D.images D.moment D.images_since D.faults D.lasts D.fails disk.old
        disk.new result }
{
    match disk.length(file) {
        Ok(size) => Ok(size),
        Err(fault) => Err(of_disk(fault)),
    }
}

/// Fills `into` with the bytes of a file from its first on.
pub(crate) fn read_front<D: Disk>(
    disk: &mut D,
    file: u32,
    into: &mut [u8],
) -> Result<(), StoreFault>
    requires short { length into.old < 2 ^ 63 }
    requires within { OnTold (D.sizes disk.old file) (λ size. length into.old ≤ size) }
    ensures bytes { OnOk result (OnTold (D.seen disk.old file) (λ bytes. into.new ≡ take (length into.old) bytes)) }
    ensures refused { IfErr result (λ fault. fault ≡ Device) }
    ensures call { IsStoreReading D.seen D.sizes D.images D.moment D.images_since D.faults D.lasts D.fails disk.old
        disk.new result }
{
    match disk.read(file, 0, into) {
        Ok(()) => Ok(()),
        Err(fault) => Err(of_disk(fault)),
    }
}

/// After it a crash leaves of the file what a read gives.
pub(crate) fn sync_file<D: Disk>(disk: &mut D, file: u32) -> Result<(), StoreFault>
    ensures durable { OnOk result
        (OnTold (D.seen disk.new file) (λ bytes. (image : Image) → D.images disk.new image → image file ≡ bytes)) }
    ensures refused { IfErr result (λ fault. (fault ≡ Device) ⊎ (fault ≡ OutOfMemory)) }
    ensures call { IsStoreReading D.seen D.sizes D.images D.moment D.images_since D.faults D.lasts D.fails disk.old
        disk.new result }
{
    match disk.sync(file) {
        Ok(()) => Ok(()),
        Err(fault) => Err(of_disk(fault)),
    }
}
