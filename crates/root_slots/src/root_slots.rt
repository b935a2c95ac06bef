//! The two slots of a disk.
ghost use Rattle.std.specs.Prelude.{◌≡◌, ◌≢◌, ◌⊎◌, ◌+◌, ◌≤◌, ℕ, true, false, Ok, Err, Some, None, IfOk, IfSome, OnOk};
ghost use Rattle.std.specs.Prelude.{OnErr, IsErrOf};
ghost use Rattle.gate_log.specs.LogState.{IsElsewhereOld};
ghost use Rattle.mds_out.specs.Disk.{LeavesOnly, IsUnchanged, IsElsewhereUnchanged, Tells, StaysTold};
ghost use Rattle.mds_out.specs.Known.{OnTold};
ghost use Rattle.root_slots.specs.Root.{is_root};
ghost use Rattle.root_slots.specs.Slot.{found_in, offset_of};
ghost use Rattle.root_slots.specs.Slots.{root_fault_of, answer_of, value_of, spare, emptied, filled, opened, with_file};
ghost use Rattle.root_slots.specs.Slots.{filled_root, IsAbove, IsReady, IsOldOrNew, IsDiskAnswer, IsRead, IsAsRead};
ghost use Rattle.root_slots.specs.Slots.{HasRootCause};
ghost use Rattle.root_slots.specs.declared.content.Found.TheVariants.{New, InForce};
ghost use Rattle.root_slots.specs.declared.root_slots.Step.TheVariants.{Begun, Filled};
ghost use Rattle.root_slots.specs.Crash.{OtherFilesAreFree, RootDecides};
ghost use Rattle.root_slots.specs.declared.root_slots.RootFault.TheVariants.{OutOfMemory};

use crate::FILE_BYTES;
use crate::content::{Found, Slot};
use crate::reading::{read_slots, synced_length};
use crate::root::Root;
use crate::spelling::spelled;
use crate::steps::{close_at, fill_at, make_at, nothing_to_close, open_at};
use mds_out::{Disk, DiskFault};
use std::alloc::{AllocError, Global};
use thiserror::Error;

/// What is wrong with an open slot, or with a table.
#[derive(Clone, Copy, Debug, PartialEq, Eq)]
pub enum SlotDamage {
    /// The bytes spell nothing that may stand there.
    Spelling,
    /// The MD5 that is kept beside them is not theirs.
    Sum { kept: [u8; 16], found: [u8; 16] },
}

/// Why a call of the slots was refused.
#[derive(Clone, Copy, Debug, PartialEq, Eq, Error)]
pub enum RootFault {
    /// The disk failed; its count of faults has risen. The slots have stopped.
    #[error("device fault")]
    Device,
    /// The slots have stopped: after `Device`, or a disk's want of memory, until they are read again.
    #[error("the slots have stopped")]
    Stopped,
    /// An open slot is damaged, from this byte of file 0 on.
    #[error("damaged root at byte {offset}")]
    Bad { offset: u64, damage: SlotDamage },
    /// There was no memory, and the disk's count of faults is as before: it never stands for a fault of the device.
    /// Where the disk found none, the slots have stopped.
    #[error("out of memory")]
    OutOfMemory,
}

impl From<DiskFault> for RootFault {
    ghost from_gives = { λ fault answer. answer ≡ root_fault_of fault };

    fn from(fault: DiskFault) -> Self {
        match fault {
            DiskFault::Device => RootFault::Device,
            DiskFault::OutOfMemory => RootFault::OutOfMemory,
        }
    }
}

impl From<AllocError> for RootFault {
    ghost from_gives = { λ _ answer. answer ≡ OutOfMemory };

    fn from(_: AllocError) -> Self {
        RootFault::OutOfMemory
    }
}

// The slot in force, and the number of its root.
#[derive(Clone, Copy, Debug, PartialEq, Eq)]
pub(crate) struct Force {
    pub(crate) slot: Slot,
    pub(crate) number: u64,
}

// How far the other slot is on its way to a new root.
#[derive(Clone, Copy, Debug, PartialEq, Eq)]
pub(crate) enum Step {
    // Nothing was done to it.
    Begun,
    // Its gate is closed.
    Emptied,
    // A root of this number stands behind its closed gate.
    Filled(u64),
}

/// The two slots of file 0, of which one at most is in force.
///
/// A new root comes into force by `close_slot`, `fill_slot` and `open_slot`, in this order; they work on the slot that
/// is not in force.
#[derive(Debug, Drop)]
pub struct RootSlots {
    made: bool,
    force: Option<Force>,
    spare_open: bool,
    step: Step,
    stopped: bool,
}

impl RootSlots {
    /// Whether file 0 has the bytes of two slots. Until it has, `make_file` comes before a new root.
    pub fn is_made(&self) -> bool
        ensures { result ≡ self.now.made }
    {
        self.made
    }

    /// Reads the root in force; `None` exactly where no slot is open. It syncs file 0 first, and makes six calls of the
    /// disk at most. `Bad` comes exactly where an open slot is damaged: more tables than a root has, then a sum that
    /// differs, then numbers that no root has; of two that are damaged alike the first is named.
    pub fn read<D: Disk>(
        alloc: Global,
        disk: &mut D,
    ) -> Result<(RootSlots, Option<Root>), RootFault>
        ensures ready { IfOk result (λ read. IsReady read.0 (D.seen disk.new) (D.sizes disk.new) (D.images disk.new)) }
        ensures begun { IfOk result (λ read. (read.0.step ≡ Begun) × (read.0.stopped ≡ false)) }
        ensures value { IfOk result (λ read. IsAsRead read.0 read.1) }
        ensures read { OnTold (D.seen disk.old 0) (λ file. IsRead (found_in file) result) }
        ensures root { IfOk result (λ read. IfSome read.1 (λ root. is_root root ≡ true)) }
        ensures not_stopped { IsErrOf result RootFault.Stopped → ⊥ }
        ensures unchanged { IsUnchanged (D.seen disk.old) (D.seen disk.new) (D.sizes disk.old) (D.sizes disk.new) }
        ensures any_moment { LeavesOnly D.moment D.images_since disk.old disk.new (D.images disk.old) }
        ensures cause { HasRootCause (D.faults disk.old) (D.faults disk.new) result }
        ensures lasts { D.lasts disk.old disk.new }
        ensures failed { IsErrOf result RootFault.Device → D.fails disk.old disk.new }
        ensures asked { D.asked disk.new ≤ D.asked disk.old + 6 }
    {
        let size = synced_length(disk)?;
        if size < FILE_BYTES {
            return Ok((RootSlots::of(false, None, false), None));
        }
        let (found, both) = read_slots(alloc, disk, size)?;
        settled(found, both)
    }

    // The value once the file was read.
    fn of(made: bool, force: Option<Force>, spare_open: bool) -> RootSlots
        ensures { result ≡ value_of made force spare_open }
    {
        RootSlots {
            made,
            force,
            spare_open,
            step: Step::Begun,
            stopped: false,
        }
    }

    /// Makes file 0 with two closed slots, in four calls of the disk. At every moment of it no slot is open.
    pub fn make_file<D: Disk>(&mut self, disk: &mut D) -> Result<(), RootFault>
        requires unmade { self.old.made ≡ false }
        requires begun { (self.old.force ≡ None) × (self.old.spare_open ≡ false) × (self.old.step ≡ Begun) }
        requires ready { self.old.stopped ≡ false
            → IsReady self.old (D.seen disk.old) (D.sizes disk.old) (D.images disk.old) }
        ensures made { OnOk result (self.new ≡ with_file self.old) }
        ensures ready { OnOk result (IsReady self.new (D.seen disk.new) (D.sizes disk.new) (D.images disk.new)) }
        ensures any_moment { self.old.stopped ≡ false
            → OnTold (D.seen disk.old 0)
            (λ _. LeavesOnly D.moment D.images_since disk.old disk.new (λ image. found_in (image 0) ≡ New)) }
        ensures stopped { self.old.stopped ≡ true
            → (result ≡ Err RootFault.Stopped) × (self.new ≡ self.old) × (disk.new ≡ disk.old) }
        ensures answer { self.old.stopped ≡ false → IsDiskAnswer result }
        ensures stops { OnErr result (self.new ≡ record self.old { stopped = true }) }
        ensures elsewhere { IsElsewhereUnchanged 0 (D.seen disk.old) (D.seen disk.new) (D.sizes disk.old)
            (D.sizes disk.new) }
        ensures told { StaysTold (D.seen disk.old 0) (D.seen disk.new 0) }
        ensures cause { HasRootCause (D.faults disk.old) (D.faults disk.new) result }
        ensures lasts { D.lasts disk.old disk.new }
        ensures failed { IsErrOf result RootFault.Device → D.fails disk.old disk.new }
        ensures asked { D.asked disk.new ≤ D.asked disk.old + 4 }
    {
        if self.stopped {
            return Err(RootFault::Stopped);
        }
        match make_at(disk, self) {
            Ok(()) => {
                self.made = true;
                Ok(())
            }
            Err(fault) => {
                self.stopped = true;
                Err(fault.into())
            }
        }
    }

    /// Closes the slot that is not in force. It writes only where that gate is open.
    pub fn close_slot<D: Disk>(&mut self, disk: &mut D) -> Result<(), RootFault>
        requires made { self.old.made ≡ true }
        requires ready { self.old.stopped ≡ false
            → IsReady self.old (D.seen disk.old) (D.sizes disk.old) (D.images disk.old) }
        ensures untouched { self.old.spare_open ≡ false → disk.new ≡ disk.old }
        ensures emptied { OnOk result (self.new ≡ emptied self.old) }
        ensures ready { OnOk result (IsReady self.new (D.seen disk.new) (D.sizes disk.new) (D.images disk.new)) }
        ensures any_moment { self.old.stopped ≡ false
            → OnTold (D.seen disk.old 0) (λ file. LeavesOnly D.moment D.images_since disk.old disk.new
            (λ image. found_in (image 0) ≡ found_in file)) }
        ensures kept { OnOk result
            (Tells (D.seen disk.old 0) (D.seen disk.new 0) (λ old new. found_in new ≡ found_in old)) }
        ensures stopped { self.old.stopped ≡ true
            → (result ≡ Err RootFault.Stopped) × (self.new ≡ self.old) × (disk.new ≡ disk.old) }
        ensures answer { self.old.stopped ≡ false → IsDiskAnswer result }
        ensures stops { OnErr result (self.new ≡ record self.old { stopped = true }) }
        ensures images_elsewhere { self.old.stopped ≡ false
            → LeavesOnly D.moment D.images_since disk.old disk.new (IsElsewhereOld 0 (D.images disk.old)) }
        ensures elsewhere { IsElsewhereUnchanged 0 (D.seen disk.old) (D.seen disk.new) (D.sizes disk.old)
            (D.sizes disk.new) }
        ensures told { StaysTold (D.seen disk.old 0) (D.seen disk.new 0) }
        ensures cause { HasRootCause (D.faults disk.old) (D.faults disk.new) result }
        ensures lasts { D.lasts disk.old disk.new }
        ensures failed { IsErrOf result RootFault.Device → D.fails disk.old disk.new }
        ensures asked { D.asked disk.new ≤ D.asked disk.old + 2 }
    {
        if self.stopped {
            return Err(RootFault::Stopped);
        }
        if !self.spare_open {
            nothing_to_close(disk, self);
            self.step = Step::Emptied;
            return Ok(());
        }
        let offset = self.spare_offset();
        match close_at(disk, self, offset) {
            Ok(()) => {
                self.spare_open = false;
                self.step = Step::Emptied;
                Ok(())
            }
            Err(fault) => {
                self.stopped = true;
                Err(fault.into())
            }
        }
    }

    /// Writes a root behind the closed gate of the slot that is not in force. Its number is above that of the root in
    /// force. Where there is no memory to spell it, nothing has changed.
    pub fn fill_slot<D: Disk>(
        &mut self,
        alloc: Global,
        disk: &mut D,
        root: &Root,
    ) -> Result<(), RootFault>
        requires made { self.old.made ≡ true }
        requires emptied { self.old.spare_open ≡ false }
        requires root { is_root root.now ≡ true }
        requires above { IsAbove self.old.force root.now.number }
        requires ready { self.old.stopped ≡ false
            → IsReady self.old (D.seen disk.old) (D.sizes disk.old) (D.images disk.old) }
        ensures filled { OnOk result (self.new ≡ filled self.old root.now.number) }
        ensures root { OnOk result (OnTold (D.seen disk.new 0) (λ file. filled_root self.new file ≡ root.now)) }
        ensures ready { OnOk result (IsReady self.new (D.seen disk.new) (D.sizes disk.new) (D.images disk.new)) }
        ensures any_moment { self.old.stopped ≡ false
            → OnTold (D.seen disk.old 0) (λ file. LeavesOnly D.moment D.images_since disk.old disk.new
            (λ image. found_in (image 0) ≡ found_in file)) }
        ensures kept { OnOk result
            (Tells (D.seen disk.old 0) (D.seen disk.new 0) (λ old new. found_in new ≡ found_in old)) }
        ensures stopped { self.old.stopped ≡ true
            → (result ≡ Err RootFault.Stopped) × (self.new ≡ self.old) × (disk.new ≡ disk.old) }
        ensures answer { self.old.stopped ≡ false → IsDiskAnswer result }
        ensures stops { OnErr result
            (((self.new ≡ self.old) × (disk.new ≡ disk.old)) ⊎ (self.new ≡ record self.old { stopped = true })) }
        ensures images_elsewhere { self.old.stopped ≡ false
            → LeavesOnly D.moment D.images_since disk.old disk.new (IsElsewhereOld 0 (D.images disk.old)) }
        ensures elsewhere { IsElsewhereUnchanged 0 (D.seen disk.old) (D.seen disk.new) (D.sizes disk.old)
            (D.sizes disk.new) }
        ensures told { StaysTold (D.seen disk.old 0) (D.seen disk.new 0) }
        ensures cause { HasRootCause (D.faults disk.old) (D.faults disk.new) result }
        ensures lasts { D.lasts disk.old disk.new }
        ensures failed { IsErrOf result RootFault.Device → D.fails disk.old disk.new }
        ensures asked { D.asked disk.new ≤ D.asked disk.old + 2 }
    {
        if self.stopped {
            return Err(RootFault::Stopped);
        }
        let bytes = spelled(alloc, root)?;
        let offset = self.spare_offset();
        match fill_at(disk, self, offset, root, &bytes) {
            Ok(()) => {
                self.step = Step::Filled(root.number);
                Ok(())
            }
            Err(fault) => {
                self.stopped = true;
                Err(fault.into())
            }
        }
    }

    /// Opens the slot that was filled: its root is in force from then on. A crash at any moment of it leaves the old
    /// root in force or the new one.
    pub fn open_slot<D: Disk>(&mut self, disk: &mut D) -> Result<(), RootFault>
        requires made { self.old.made ≡ true }
        requires emptied { self.old.spare_open ≡ false }
        requires filled { (number : ℕ) × (self.old.step ≡ Filled number) }
        requires ready { self.old.stopped ≡ false
            → IsReady self.old (D.seen disk.old) (D.sizes disk.old) (D.images disk.old) }
        ensures opened { OnOk result
            ((number : ℕ) → self.old.step ≡ Filled number → self.new ≡ opened self.old number) }
        ensures ready { OnOk result (IsReady self.new (D.seen disk.new) (D.sizes disk.new) (D.images disk.new)) }
        ensures any_moment { self.old.stopped ≡ false
            → OnTold (D.seen disk.old 0) (λ file. LeavesOnly D.moment D.images_since disk.old disk.new
            (λ image. IsOldOrNew self.old file (image 0))) }
        ensures in_force { OnOk result
            (Tells (D.seen disk.old 0) (D.seen disk.new 0)
            (λ old new. found_in new ≡ InForce (spare self.old.force) (filled_root self.old old))) }
        ensures stopped { self.old.stopped ≡ true
            → (result ≡ Err RootFault.Stopped) × (self.new ≡ self.old) × (disk.new ≡ disk.old) }
        ensures answer { self.old.stopped ≡ false → IsDiskAnswer result }
        ensures stops { OnErr result (self.new ≡ record self.old { stopped = true }) }
        ensures images_elsewhere { self.old.stopped ≡ false
            → LeavesOnly D.moment D.images_since disk.old disk.new (IsElsewhereOld 0 (D.images disk.old)) }
        ensures elsewhere { IsElsewhereUnchanged 0 (D.seen disk.old) (D.seen disk.new) (D.sizes disk.old)
            (D.sizes disk.new) }
        ensures told { StaysTold (D.seen disk.old 0) (D.seen disk.new 0) }
        ensures cause { HasRootCause (D.faults disk.old) (D.faults disk.new) result }
        ensures lasts { D.lasts disk.old disk.new }
        ensures failed { IsErrOf result RootFault.Device → D.fails disk.old disk.new }
        ensures asked { D.asked disk.new ≤ D.asked disk.old + 2 }
    {
        if self.stopped {
            return Err(RootFault::Stopped);
        }
        let offset = self.spare_offset();
        match open_at(disk, self, offset) {
            Ok(()) => {
                self.come_in();
                Ok(())
            }
            Err(fault) => {
                self.stopped = true;
                Err(fault.into())
            }
        }
    }

    // The gate of the other slot is open, so that its root is in force.
    fn come_in(&mut self)
        ensures { (number : ℕ) → self.old.step ≡ Filled number → self.new ≡ opened self.old number }
    {
        if let Step::Filled(number) = self.step {
            let slot = self.spare();
            self.spare_open = self.force.is_some();
            self.force = Some(Force { slot, number });
            self.step = Step::Begun;
        }
    }

    // The slot that is not in force.
    fn spare(&self) -> Slot
        ensures { result ≡ spare self.now.force }
    {
        match self.force {
            None => Slot::First,
            Some(force) => force.slot.other(),
        }
    }

    // The place of its gate.
    fn spare_offset(&self) -> u64
        ensures offset { result ≡ offset_of (spare self.now.force) }
        ensures small { result ≤ 1024 }
    {
        self.spare().offset()
    }
}

// What a reading answers.
fn settled(found: Found, both: bool) -> Result<(RootSlots, Option<Root>), RootFault>
    ensures { result ≡ answer_of found both }
{
    match found {
        Found::New => Ok((RootSlots::of(true, None, false), None)),
        Found::InForce { slot, root } => {
            let number = root.number;
            let force = Some(Force { slot, number });
            Ok((RootSlots::of(true, force, both), Some(root)))
        }
        Found::Damaged { offset, damage } => Err(RootFault::Bad { offset, damage }),
    }
}

/// The one statement of crashes for the layers above: files that no root in force names may hold anything; the root
/// decides.
pub fn root_decides_law()
    ensures others { OtherFilesAreFree }
    ensures decides { RootDecides }
{}
