//! Numbered files that a crash may leave in another state than they read.
ghost use Rattle.std.specs.Prelude.{◌≡◌, ◌+◌, ◌-◌, ◌*◌, ◌^◌, ◌<◌, ◌≤◌, List, ℕ, Option, Some, max, length, take, drop};
ghost use Rattle.std.specs.Prelude.{IfOk, OnOk, OnErr, IsErrOf, ⊤};
ghost use Rattle.mds_out.specs.declared.disk.DiskFault.TheVariants.{OutOfMemory};
ghost use Rattle.mds_out.specs.Fault.{Rose};
ghost use Rattle.mds_out.specs.Calls.{next_number};
ghost use Rattle.mds_out.specs.Known.{OnKnown, OnTold};
ghost use Rattle.mds_out.specs.Images.{IsTorn, IsShortened, StepsGiveImages, ImagesComeByStep};
ghost use Rattle.mds_out.specs.Disk.{Image, Tells, Contents, Lengths, put, Shows, IsUnchanged, IsElsewhereUnchanged};
ghost use Rattle.mds_out.specs.Disk.{AreSame, Follows, Elapses, IsReading, IsChanging};

use std::alloc::{AllocError, AllocFailed};
use thiserror::Error;

/// Why a disk refused a call.
#[derive(Clone, Copy, Debug, PartialEq, Eq, Error)]
pub enum DiskFault {
    /// The device failed; the disk's count of faults has risen. A write or a cut may have been done in part, and any
    /// other call has changed nothing that a read gives.
    #[error("device fault")]
    Device,
    /// The disk found no memory, and its count of faults is as before: it never stands for a fault of the device.
    /// `length` and `read` never answer it. A write or a cut may have been done in part.
    #[error("out of memory")]
    OutOfMemory,
}

impl From<AllocError> for DiskFault {
    ghost from_gives = { λ _ fault. fault ≡ OutOfMemory };

    fn from(_: AllocError) -> Self {
        DiskFault::OutOfMemory
    }
}

impl<T: Drop> From<AllocFailed<T>> for DiskFault {
    ghost from_gives = { λ _ fault. fault ≡ OutOfMemory };

    fn from(_: AllocFailed<T>) -> Self {
        DiskFault::OutOfMemory
    }
}

/// Numbered files. A file that was never written has length 0, and each length is below 2^63.
///
/// The disk has a clock of moments: each call's clauses say what a crash may leave at the moments since the call
/// began. Between two syncs of a file each written range, and the part past the old end, may hold any bytes after a
/// crash; other bytes stay. After a sync that succeeds a crash leaves what a read gives.
pub trait Disk {
    /// What a read of a file gives, where the disk tells it.
    ghost seen: { Self → Contents };

    /// The length of a file, where it is known.
    ghost sizes: { Self → Lengths };

    /// What a crash at this moment may leave.
    ghost images: { Self → Image → Type 0 };

    /// The moment, as a number that does not fall.
    ghost moment: { Self → ℕ };

    /// What a crash at some moment from that one on might have left.
    ghost images_since: { Self → ℕ → Image → Type 0 };

    /// How often the disk has failed.
    ghost faults: { Self → ℕ };

    /// What calls alone make of a disk: whether they may lead from the one to the other.
    ghost lasts: { Self → Self → Type 0 };

    /// That among the calls that led from the one disk to the other one was answered `Device`.
    ghost fails: { Self → Self → Type 0 };

    /// How many calls the disk was asked, those that it refused among them. It stays at the greatest u64.
    ghost asked: { Self → ℕ };

    /// How many of these were writes or cuts.
    ghost changes_asked: { Self → ℕ };

    /// The length of a file. Never `OutOfMemory`.
    fn length(&mut self, file: u32) -> Result<u64, DiskFault>
        ensures short { IfOk result (λ size. size < 2 ^ 63) }
        ensures told { IfOk result
            (λ size. (sizes self.new file ≡ Some size) × OnTold (sizes self.old file) (λ before. size ≡ before)) }
        ensures call { IsReading seen sizes images moment images_since faults changes_asked lasts fails self.old
            self.new result }
        ensures asked { asked self.new ≡ next_number (asked self.old) };

    /// Fills `into` with the bytes of a file from `at` on. Never `OutOfMemory`. After a refusal `into` holds any bytes.
    fn read(&mut self, file: u32, at: u64, into: &mut [u8]) -> Result<(), DiskFault>
        requires short { at + length into.old < 2 ^ 63 }
        requires within { OnTold (sizes self.old file) (λ size. at + length into.old ≤ size) }
        ensures bytes { OnOk result
            (OnTold (seen self.old file) (λ bytes. into.new ≡ take (length into.old) (drop at bytes))) }
        ensures call { IsReading seen sizes images moment images_since faults changes_asked lasts fails self.old
            self.new result }
        ensures asked { asked self.new ≡ next_number (asked self.old) };

    /// Writes over what is there, and past the end. A refused write touches its own range at most.
    fn write_at(&mut self, file: u32, at: u64, bytes: &[u8]) -> Result<(), DiskFault>
        requires short { at + length bytes.now < 2 ^ 63 }
        requires within { OnTold (sizes self.old file) (λ size. at ≤ size) }
        ensures written { OnOk result
            (Tells (seen self.old file) (seen self.new file) (λ old new. new ≡ put old at bytes.now)) }
        ensures size { OnOk result
            (OnKnown (sizes self.old file) (sizes self.new file) (λ old new. new ≡ max old (at + length bytes.now))) }
        ensures torn { OnErr result (Tells (seen self.old file) (seen self.new file) (IsTorn at (length bytes.now))) }
        ensures elsewhere { IsElsewhereUnchanged file (seen self.old) (seen self.new) (sizes self.old)
            (sizes self.new) }
        ensures crash { Follows file (IsTorn at (length bytes.now)) (images self.old) (images self.new) }
        ensures time { Elapses (moment self.old) (moment self.new) (images_since self.old) (images_since self.new)
            (images self.new) }
        ensures call { IsChanging faults lasts fails self.old self.new result }
        ensures asked { asked self.new ≡ next_number (asked self.old) }
        ensures changes { changes_asked self.new ≡ next_number (changes_asked self.old) };

    /// Cuts a file to a length. A refused cut touches the bytes from there on at most.
    fn cut(&mut self, file: u32, to: u64) -> Result<(), DiskFault>
        requires { OnTold (sizes self.old file) (λ size. to ≤ size) }
        ensures cut { OnOk result (Tells (seen self.old file) (seen self.new file) (λ old new. new ≡ take to old)) }
        ensures size { OnOk result (sizes self.new file ≡ Some to) }
        ensures torn { OnErr result (Tells (seen self.old file) (seen self.new file) (IsShortened to)) }
        ensures elsewhere { IsElsewhereUnchanged file (seen self.old) (seen self.new) (sizes self.old)
            (sizes self.new) }
        ensures crash { Follows file (IsShortened to) (images self.old) (images self.new) }
        ensures time { Elapses (moment self.old) (moment self.new) (images_since self.old) (images_since self.new)
            (images self.new) }
        ensures call { IsChanging faults lasts fails self.old self.new result }
        ensures asked { asked self.new ≡ next_number (asked self.old) }
        ensures changes { changes_asked self.new ≡ next_number (changes_asked self.old) };

    /// After it a crash leaves of the file what a read gives. A refused sync changes no image.
    fn sync(&mut self, file: u32) -> Result<(), DiskFault>
        ensures durable { OnOk result
            (OnTold (seen self.old file) (λ bytes. (image : Image) → images self.new image → image file ≡ bytes)) }
        ensures unchanged { IsUnchanged (seen self.old) (seen self.new) (sizes self.old) (sizes self.new) }
        ensures crash { (image : Image) → images self.new image → images self.old image }
        ensures refused { OnErr result (AreSame (images self.old) (images self.new)) }
        ensures time { Elapses (moment self.old) (moment self.new) (images_since self.old) (images_since self.new)
            (images self.new) }
        ensures call { IsChanging faults lasts fails self.old self.new result }
        ensures asked { asked self.new ≡ next_number (asked self.old) }
        ensures changes { changes_asked self.new ≡ changes_asked self.old };

    /// Brings the disk up after a crash: what it tells then reads as one of the images that a crash could have left,
    /// and each image directly after it is one of those. It tells the files that it told before. A refused restart
    /// changes nothing.
    fn restart(&mut self) -> Result<(), DiskFault>
        ensures left { OnOk result ((image : Image) × images self.old image × Shows (seen self.new) image) }
        ensures tells { OnOk result ((file : ℕ) → Tells (seen self.old file) (seen self.new file) (λ old new. ⊤)) }
        ensures crash { (image : Image) → images self.new image → images self.old image }
        ensures unchanged { OnErr result
            (IsUnchanged (seen self.old) (seen self.new) (sizes self.old) (sizes self.new)) }
        ensures refused { OnErr result (AreSame (images self.old) (images self.new)) }
        ensures time { Elapses (moment self.old) (moment self.new) (images_since self.old) (images_since self.new)
            (images self.new) }
        ensures call { IsChanging faults lasts fails self.old self.new result }
        ensures asked { asked self.new ≡ next_number (asked self.old) }
        ensures changes { changes_asked self.new ≡ changes_asked self.old };

    /// A disk tells the length of each file whose bytes it tells.
    ghost tells_length: { (disk : Self) (file : ℕ) (bytes : List ℕ) → seen disk file ≡ Some bytes
        → sizes disk file ≡ Some (length bytes) };

    /// A disk as it reads is one of its images.
    ghost reads_as: { (disk : Self) (image : Image) → Shows (seen disk) image → images disk image };

    /// This moment is one of those since an earlier one.
    ghost counts_now: { (disk : Self) (t : ℕ) (image : Image) → t ≤ moment disk → images disk image
        → images_since disk t image };

    /// Since this moment there is no other.
    ghost only_now: { (disk : Self) (image : Image) → images_since disk (moment disk) image → images disk image };

    /// With no call at all a disk stays what it was.
    ghost lasts_here: { (disk : Self) → lasts disk disk };

    /// Two runs of calls, one after the other, are one run.
    ghost lasts_on: { (a b c : Self) → lasts a b → lasts b c → lasts a c };

    /// A run of calls in which one was answered `Device` stays such a run, whatever calls follow.
    ghost fails_on: { (a b c : Self) → fails a b → lasts b c → fails a c };

    /// And whatever calls went before.
    ghost fails_after: { (a b c : Self) → lasts a b → fails b c → fails a c };

    /// Where a call was answered `Device` the count has risen.
    ghost fails_rise: { (a b : Self) → fails a b → Rose (faults a) (faults b) };
}

/// The law that ties the clauses of `Disk` to the definition of crash images: what a file's steps since its last good
/// sync lead to, one torn step after another, is an image by the definition; and each image by the definition comes
/// by one torn step from one before that step.
pub fn crash_images_law()
    ensures steps_give_images { StepsGiveImages }
    ensures images_come_by_step { ImagesComeByStep }
{}
