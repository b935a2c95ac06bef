//! Numbered files in memory, which fail and are torn as their maker said.
ghost use Rattle.std.specs.Prelude.{◌≡◌, ◌∷◌, ◌++◌, [], ◌+◌, ◌-◌, ◌*◌, ◌/◌, ◌%◌, ◌^◌, ◌<◌, ◌≤◌, ℕ, ⊤, Some, length};
ghost use Rattle.std.specs.Prelude.{take, drop, max, OnOk, OnErr, IfOk};
ghost use Rattle.mds_out.specs.Calls.{failed_calls, next_number};
ghost use Rattle.mds_out.specs.Change.{Write, Cut};
ghost use Rattle.mds_out.specs.Content.{bytes_of};
ghost use Rattle.mds_out.specs.Disk.{Image, Tells, put, Shows, IsUnchanged, IsElsewhereUnchanged, AreSame, Follows};
ghost use Rattle.mds_out.specs.Disk.{Elapses, HasDiskCause, IsReading, IsChanging};
ghost use Rattle.mds_out.specs.Images.{IsTorn, IsShortened};
ghost use Rattle.mds_out.specs.Known.{OnKnown, OnTold};
ghost use Rattle.mds_out.specs.PastLaws.{tells_length, reads_as, counts_now, only_now, past_here, past_on};
ghost use Rattle.mds_out.specs.PastLaws.{past_fails_on, past_fails_after};
ghost use Rattle.mds_out.specs.Past.{Changed, Synced, Restarted, content_of, IsDone, IsLooked, past_seen, past_sizes};
ghost use Rattle.mds_out.specs.Past.{past_images, past_moment, past_since, past_faults, past_changes, PastLasts};
ghost use Rattle.mds_out.specs.Past.{PastFails};

use crate::acts::Acts;
use crate::calls::Calls;
use crate::slots::{Slot, cut_file, length_of, read_file, restart_files, sync_file, write_file};
use crate::{Disk, DiskFault, Outcome};
use std::alloc::{AllocError, Global};
use std::marker::Model;

/// A disk in memory. A write costs the bytes written, a read the bytes read, a cut the bytes cut, and a sync nothing
/// for each byte. For its images it keeps each change, in one buffer for the bytes of all writes.
#[derive(Drop)]
pub struct Memory {
    alloc: Global,
    outcome: Outcome,
    calls: Calls,
    changes: u64,
    slots: Vec<Slot>,
    acts: Acts,
}

impl Model for Memory {
    ghost use Rattle.mds_out.specs.Past.{Past};
    ghost use Rattle.mds_out.specs.Slots.{HoldPast};

    ghost Value = { Past };

    ghost view = { λ m.
        record {
          outcome = m.outcome;
          fails = m.calls.fails.items;
          made = m.calls.made;
          changes = m.changes;
          acts =
              m.acts;
        } };

    ghost invariant = { λ m. HoldPast m.outcome m.acts m.slots.items };
}

impl Memory {
    /// A disk without files. The outcome says what a restart leaves. The calls whose numbers, from 0, stand in
    /// `fails` answer `Device`; the number 2^64 - 1 stands for none.
    pub fn new(alloc: Global, outcome: Outcome, fails: Vec<u64>) -> Result<Memory, AllocError>
        ensures { IfOk result
            (λ disk. disk ≡ record { outcome = outcome; fails = fails.items; made = 0; changes = 0; acts = [] }) }
    {
        Ok(Memory {
            alloc,
            outcome,
            calls: Calls { fails, made: 0 },
            changes: 0,
            slots: Vec::new(alloc),
            acts: Acts::new(alloc),
        })
    }

    // Writes to one file.
    fn add_write(&mut self, file: u32, at: usize, bytes: &[u8]) -> Result<(), AllocError>
        requires { at + length bytes.now < 2 ^ 63 }
        ensures ok { OnOk result
            (self.new ≡ record self.old { acts = self.old.acts ++ Changed file (Write at bytes.now) ∷ [] }) }
        ensures err { OnErr result (self.new ≡ self.old) }
    {
        self.acts.add_write(file, at, bytes)?;
        match write_file(self.alloc, &mut self.slots, file, at, bytes) {
            Ok(()) => Ok(()),
            Err(error) => {
                self.acts.take_back();
                Err(error)
            }
        }
    }

    // Cuts one file.
    fn add_cut(&mut self, file: u32, to: usize) -> Result<(), AllocError>
        ensures ok { OnOk result (self.new ≡ record self.old { acts = self.old.acts ++ Changed file (Cut to) ∷ [] }) }
        ensures err { OnErr result (self.new ≡ self.old) }
    {
        self.acts.add_cut(file, to)?;
        match cut_file(self.alloc, &mut self.slots, file, to) {
            Ok(()) => Ok(()),
            Err(error) => {
                self.acts.take_back();
                Err(error)
            }
        }
    }
}

// The calls of the disk, each said as what it did to the disk's past.
impl Memory {
    fn length_in(&mut self, file: u32) -> Result<u64, DiskFault>
        ensures size { IfOk result (λ size. size ≡ length (bytes_of (content_of self.old.outcome self.old.acts file))) }
        ensures short { IfOk result (λ size. size < 2 ^ 63) }
        ensures looked { IsLooked self.old self.new result }
        ensures cause { HasDiskCause (failed_calls self.old.fails self.old.made)
            (failed_calls self.new.fails self.new.made) result }
    {
        if self.calls.make().is_err() {
            return Err(DiskFault::Device);
        }
        Ok(length_of(&self.slots, file) as u64)
    }

    fn read_from(&mut self, file: u32, at: u64, into: &mut [u8]) -> Result<(), DiskFault>
        requires { at + length into.old ≤ length (bytes_of (content_of self.old.outcome self.old.acts file)) }
        ensures bytes { OnOk result
            (into.new ≡ take (length into.old) (drop at (bytes_of (content_of self.old.outcome self.old.acts file)))) }
        ensures looked { IsLooked self.old self.new result }
        ensures cause { HasDiskCause (failed_calls self.old.fails self.old.made)
            (failed_calls self.new.fails self.new.made) result }
    {
        if self.calls.make().is_err() {
            return Err(DiskFault::Device);
        }
        read_file(&self.slots, file, at as usize, into);
        Ok(())
    }

    fn write(&mut self, file: u32, at: u64, bytes: &[u8]) -> Result<(), DiskFault>
        requires { at + length bytes.now < 2 ^ 63 }
        ensures done { IsDone (Changed file (Write at bytes.now)) self.old self.new result }
        ensures cause { HasDiskCause (failed_calls self.old.fails self.old.made)
            (failed_calls self.new.fails self.new.made) result }
    {
        self.changes = self.changes.saturating_add(1);
        if self.calls.make().is_err() {
            return Err(DiskFault::Device);
        }
        self.add_write(file, at as usize, bytes)?;
        Ok(())
    }

    fn cut_to(&mut self, file: u32, to: u64) -> Result<(), DiskFault>
        ensures done { IsDone (Changed file (Cut to)) self.old self.new result }
        ensures cause { HasDiskCause (failed_calls self.old.fails self.old.made)
            (failed_calls self.new.fails self.new.made) result }
    {
        self.changes = self.changes.saturating_add(1);
        if self.calls.make().is_err() {
            return Err(DiskFault::Device);
        }
        self.add_cut(file, to as usize)?;
        Ok(())
    }

    fn sync_one(&mut self, file: u32) -> Result<(), DiskFault>
        ensures done { IsDone (Synced file) self.old self.new result }
        ensures cause { HasDiskCause (failed_calls self.old.fails self.old.made)
            (failed_calls self.new.fails self.new.made) result }
    {
        if self.calls.make().is_err() {
            return Err(DiskFault::Device);
        }
        self.acts.add_sync(file)?;
        sync_file(&mut self.slots, file);
        Ok(())
    }

    fn restart_all(&mut self) -> Result<(), DiskFault>
        ensures done { IsDone Restarted self.old self.new result }
        ensures cause { HasDiskCause (failed_calls self.old.fails self.old.made)
            (failed_calls self.new.fails self.new.made) result }
    {
        if self.calls.make().is_err() {
            return Err(DiskFault::Device);
        }
        self.acts.add_restart()?;
        restart_files(&mut self.slots, self.outcome);
        Ok(())
    }
}

impl Disk for Memory {
    ghost seen = { past_seen };

    ghost sizes = { past_sizes };

    ghost images = { past_images };

    ghost moment = { past_moment };

    ghost images_since = { past_since };

    ghost faults = { past_faults };

    ghost lasts = { PastLasts };

    ghost fails = { PastFails };

    ghost asked = { λ m. m.made };

    ghost changes_asked = { past_changes };

    ghost tells_length = { λ m file bytes is. tells_length m.outcome m.acts file bytes is };

    ghost reads_as = { λ m image shows. reads_as m.outcome m.acts image shows };

    ghost counts_now = { λ m t image le now. counts_now m.outcome m.acts t image le now };

    ghost only_now = { λ m image since. only_now m.outcome m.acts image since };

    ghost lasts_here = { past_here };

    ghost lasts_on = { past_on };

    ghost fails_on = { past_fails_on };

    ghost fails_after = { past_fails_after };

    ghost fails_rise = { λ _ _ is. is };

    fn length(&mut self, file: u32) -> Result<u64, DiskFault>
        ensures short { IfOk result (λ size. size < 2 ^ 63) }
        ensures told { IfOk result
            (λ size. (past_sizes self.new file ≡ Some size)
            × OnTold (past_sizes self.old file) (λ before. size ≡ before)) }
        ensures call { IsReading past_seen past_sizes past_images past_moment past_since past_faults past_changes
            PastLasts PastFails self.old self.new result }
        ensures asked { self.new.made ≡ next_number self.old.made }
        ensures looked { IsLooked self.old self.new result }
    {
        self.length_in(file)
    }

    fn read(&mut self, file: u32, at: u64, into: &mut [u8]) -> Result<(), DiskFault>
        requires short { at + length into.old < 2 ^ 63 }
        requires within { OnTold (past_sizes self.old file) (λ size. at + length into.old ≤ size) }
        ensures bytes { OnOk result
            (OnTold (past_seen self.old file) (λ bytes. into.new ≡ take (length into.old) (drop at bytes))) }
        ensures call { IsReading past_seen past_sizes past_images past_moment past_since past_faults past_changes
            PastLasts PastFails self.old self.new result }
        ensures asked { self.new.made ≡ next_number self.old.made }
        ensures looked { IsLooked self.old self.new result }
    {
        self.read_from(file, at, into)
    }

    fn write_at(&mut self, file: u32, at: u64, bytes: &[u8]) -> Result<(), DiskFault>
        requires short { at + length bytes.now < 2 ^ 63 }
        requires within { OnTold (past_sizes self.old file) (λ size. at ≤ size) }
        ensures written { OnOk result
            (Tells (past_seen self.old file) (past_seen self.new file) (λ old new. new ≡ put old at bytes.now)) }
        ensures size { OnOk result
            (OnKnown (past_sizes self.old file) (past_sizes self.new file)
            (λ old new. new ≡ max old (at + length bytes.now))) }
        ensures torn { OnErr result
            (Tells (past_seen self.old file) (past_seen self.new file) (IsTorn at (length bytes.now))) }
        ensures elsewhere { IsElsewhereUnchanged file (past_seen self.old) (past_seen self.new) (past_sizes self.old)
            (past_sizes self.new) }
        ensures crash { Follows file (IsTorn at (length bytes.now)) (past_images self.old) (past_images self.new) }
        ensures time { Elapses (past_moment self.old) (past_moment self.new) (past_since self.old) (past_since self.new)
            (past_images self.new) }
        ensures call { IsChanging past_faults PastLasts PastFails self.old self.new result }
        ensures asked { self.new.made ≡ next_number self.old.made }
        ensures changes { self.new.changes ≡ next_number self.old.changes }
        ensures done { IsDone (Changed file (Write at bytes.now)) self.old self.new result }
    {
        self.write(file, at, bytes)
    }

    fn cut(&mut self, file: u32, to: u64) -> Result<(), DiskFault>
        requires { OnTold (past_sizes self.old file) (λ size. to ≤ size) }
        ensures cut { OnOk result
            (Tells (past_seen self.old file) (past_seen self.new file) (λ old new. new ≡ take to old)) }
        ensures size { OnOk result (past_sizes self.new file ≡ Some to) }
        ensures torn { OnErr result (Tells (past_seen self.old file) (past_seen self.new file) (IsShortened to)) }
        ensures elsewhere { IsElsewhereUnchanged file (past_seen self.old) (past_seen self.new) (past_sizes self.old)
            (past_sizes self.new) }
        ensures crash { Follows file (IsShortened to) (past_images self.old) (past_images self.new) }
        ensures time { Elapses (past_moment self.old) (past_moment self.new) (past_since self.old) (past_since self.new)
            (past_images self.new) }
        ensures call { IsChanging past_faults PastLasts PastFails self.old self.new result }
        ensures asked { self.new.made ≡ next_number self.old.made }
        ensures changes { self.new.changes ≡ next_number self.old.changes }
        ensures done { IsDone (Changed file (Cut to)) self.old self.new result }
    {
        self.cut_to(file, to)
    }

    fn sync(&mut self, file: u32) -> Result<(), DiskFault>
        ensures durable { OnOk result
            (OnTold (past_seen self.old file)
            (λ bytes. (image : Image) → past_images self.new image → image file ≡ bytes)) }
        ensures unchanged { IsUnchanged (past_seen self.old) (past_seen self.new) (past_sizes self.old)
            (past_sizes self.new) }
        ensures crash { (image : Image) → past_images self.new image → past_images self.old image }
        ensures refused { OnErr result (AreSame (past_images self.old) (past_images self.new)) }
        ensures time { Elapses (past_moment self.old) (past_moment self.new) (past_since self.old) (past_since self.new)
            (past_images self.new) }
        ensures call { IsChanging past_faults PastLasts PastFails self.old self.new result }
        ensures asked { self.new.made ≡ next_number self.old.made }
        ensures changes { self.new.changes ≡ self.old.changes }
        ensures done { IsDone (Synced file) self.old self.new result }
    {
        self.sync_one(file)
    }

    fn restart(&mut self) -> Result<(), DiskFault>
        ensures left { OnOk result ((image : Image) × past_images self.old image × Shows (past_seen self.new) image) }
        ensures tells { OnOk result
            ((file : ℕ) → Tells (past_seen self.old file) (past_seen self.new file) (λ old new. ⊤)) }
        ensures crash { (image : Image) → past_images self.new image → past_images self.old image }
        ensures unchanged { OnErr result
            (IsUnchanged (past_seen self.old) (past_seen self.new) (past_sizes self.old) (past_sizes self.new)) }
        ensures refused { OnErr result (AreSame (past_images self.old) (past_images self.new)) }
        ensures time { Elapses (past_moment self.old) (past_moment self.new) (past_since self.old) (past_since self.new)
            (past_images self.new) }
        ensures call { IsChanging past_faults PastLasts PastFails self.old self.new result }
        ensures asked { self.new.made ≡ next_number self.old.made }
        ensures changes { self.new.changes ≡ self.old.changes }
        ensures done { IsDone Restarted self.old self.new result }
    {
        self.restart_all()
    }
}
