//! The disk.
ghost use Rattle.std.specs.Prelude.{◌≡◌, ◌*◌, ◌^◌, ◌<◌, ℕ, None, ◌≤◌, IfOk, IfSome, IsSome, IsTrue, MatchBool, ⊤};
ghost use Rattle.mds_out.specs.Disk.{Image};
ghost use Rattle.mds_out.specs.Fault.{Rose};
ghost use Rattle.mds_out.specs.Known.{OnTold};
ghost use Rattle.mds_out.specs.FaultLaws.{same_count, no_fewer_on, rose_on, rose_after};
ghost use Rattle.mds_out.specs.declared.disk.DiskFault.TheVariants as DiskFault;
ghost use Rattle.file_disk.specs.Noted.{new_disk, told_length, noted, forgotten, grown, counted, change_counted};
ghost use Rattle.file_disk.specs.Noted.{failed, refused};
ghost use Rattle.file_disk.specs.NotedLaws.{never_told};

use crate::folder::Folder;
use crate::syncing::Syncing;
use mds_out::{Disk, DiskFault};
use std::alloc::{AllocError, Global};
use std::collections::BTreeMap;
use std::fs::File;
use std::io;
use std::marker::Model;
use std::rt::Files;

// Lengths are below this.
const LONGEST: u64 = 1 << 63;

/// A disk whose file F is the real file `dD.fF` of a folder, where D is the number of the disk. A file that is not
/// there has length 0; where the folder is not there the first write fails. Nothing else may change the files while the
/// disk is used. `restart` does nothing: what was written is there as the system has it.
#[derive(Drop)]
pub struct FileDisk<R> {
    folder: Folder<R>,
    // The lengths that were told.
    lengths: BTreeMap<u32, u64>,
    faults: u64,
    asked: u64,
    changes: u64,
}

impl<R> Model for FileDisk<R> {
    ghost use Rattle.std.specs.FinMap as map;
    ghost use Rattle.std.specs.Coded.{codes};
    ghost use Rattle.file_disk.specs.Noted.{Noted};

    ghost Value = { Noted };

    ghost coded = { Prim.hlevel (codes, map.code) };

    ghost view = { λ d. record {
      lengths = map.from_entries d.lengths.entries;
      faults = d.faults;
      asked = d.asked;
      changes = d.changes;
    } };
}

impl<R: Files<File = File> + Drop> FileDisk<R> {
    /// The disk of this number in a folder. It makes no call of the system.
    pub fn new(
        alloc: Global,
        files: R,
        folder: &str,
        number: u32,
        syncing: Syncing,
    ) -> Result<FileDisk<R>, AllocError>
        ensures { IfOk result (λ disk. disk ≡ new_disk) }
    {
        let path = String::from_str(alloc, folder)?;
        Ok(FileDisk {
            folder: Folder::new(alloc, files, path, number, syncing),
            lengths: BTreeMap::new(alloc),
            faults: 0,
            asked: 0,
            changes: 0,
        })
    }
}

impl<R> FileDisk<R> {
    // Counts a call that changes nothing.
    fn count(&mut self)
        ensures { self.new ≡ counted self.old }
    {
        self.asked = self.asked.saturating_add(1);
    }

    // Counts a write or a cut.
    fn count_change(&mut self)
        ensures { self.new ≡ change_counted self.old }
    {
        self.asked = self.asked.saturating_add(1);
        self.changes = self.changes.saturating_add(1);
    }

    // Counts a fault.
    fn fail(&mut self)
        ensures value { self.new ≡ failed self.old }
        ensures short { self.old.faults < 2 ^ 64 }
    {
        self.faults = self.faults.saturating_add(1);
    }

    // Why a call is refused that met this error of the system; where it is a fault it is counted.
    fn refuse(&mut self, error: &io::Error) -> DiskFault
        ensures value { self.new ≡ refused result self.old }
        ensures short { result ≡ DiskFault.Device → self.old.faults < 2 ^ 64 }
    {
        if error.kind() == io::ErrorKind::OutOfMemory {
            return DiskFault::OutOfMemory;
        }
        self.fail();
        DiskFault::Device
    }

    // The length of a file, where it was told.
    fn told(&self, file: u32) -> Option<u64>
        ensures { result ≡ told_length self.now file }
    {
        self.lengths.get(&file).copied()
    }

    // Notes the length of a file; whether there was memory for it. Where a length was told there is.
    fn note(&mut self, file: u32, length: u64) -> bool
        ensures value { MatchBool result (self.new ≡ noted self.old file length) (self.new ≡ self.old) }
        ensures known { IsSome (told_length self.old file) → IsTrue result }
    {
        match self.lengths.insert(file, length) {
            Ok(_) => true,
            Err(_) => false,
        }
    }

    // Notes what a write that ended at this place made of the length of a file, where one was told.
    fn grow(&mut self, file: u32, end: u64)
        ensures { self.new ≡ grown (told_length self.old file) self.old file end }
    {
        if let Some(before) = self.told(file) {
            let _ = self.note(file, before.max(end));
        }
    }

    // Forgets the length of a file.
    fn forget(&mut self, file: u32)
        ensures { self.new ≡ forgotten self.old file }
    {
        let _ = self.lengths.remove(&file);
    }
}

impl<R: Files<File = File>> FileDisk<R> {
    // The length of a file: the one that was told, or else what the system says, where that is a length of a disk.
    fn length_of(&mut self, file: u32) -> Option<u64>
        ensures value { self.new ≡ self.old }
        ensures short { IfSome result (λ length. length < LONGEST) }
        ensures told { IfSome result (λ length. OnTold (told_length self.old file) (λ before. length ≡ before)) }
    {
        let length = match self.told(file) {
            Some(length) => length,
            None => self.folder.length(file).ok()?,
        };
        if length < LONGEST { Some(length) } else { None }
    }
}

impl<R: Files<File = File>> Disk for FileDisk<R> {
    ghost seen = { λ _ _. None };

    ghost sizes = { told_length };

    ghost images = { λ _ _. ⊤ };

    ghost moment = { λ _. 0 };

    ghost images_since = { λ _ _ _. ⊤ };

    ghost faults = { λ disk. disk.faults };

    ghost lasts = { λ old new. old.faults ≤ new.faults };

    ghost fails = { λ old new. Rose old.faults new.faults };

    ghost asked = { λ disk. disk.asked };

    ghost changes_asked = { λ disk. disk.changes };

    ghost tells_length = { λ _ _ _ told. never_told told };

    ghost reads_as = { λ _ _ _. tt };

    ghost counts_now = { λ _ _ _ _ _. tt };

    ghost only_now = { λ _ _ _. tt };

    ghost lasts_here = { λ a. same_count a.faults };

    ghost lasts_on = { λ a b c. no_fewer_on a.faults b.faults c.faults };

    ghost fails_on = { λ a b c. rose_on a.faults b.faults c.faults };

    ghost fails_after = { λ a b c. rose_after a.faults b.faults c.faults };

    ghost fails_rise = { λ _ _ rose. rose };

    /// As the trait says. The system is asked where no length was told. Where there is no memory to note it, it is
    /// refused as a fault.
    fn length(&mut self, file: u32) -> Result<u64, DiskFault> {
        self.count();
        if let Some(length) = self.length_of(file) {
            if self.note(file, length) {
                return Ok(length);
            }
        }
        self.fail();
        Err(DiskFault::Device)
    }

    /// As the trait says. A file that is shorter than it was told is a fault.
    fn read(&mut self, file: u32, at: u64, into: &mut [u8]) -> Result<(), DiskFault> {
        self.count();
        match self.folder.read(file, at, into) {
            Ok(()) => Ok(()),
            Err(_) => {
                self.fail();
                Err(DiskFault::Device)
            }
        }
    }

    /// As the trait says. The first write of a file makes it.
    fn write_at(&mut self, file: u32, at: u64, bytes: &[u8]) -> Result<(), DiskFault> {
        self.count_change();
        match self.folder.write(file, at, bytes) {
            Ok(()) => {
                self.grow(file, at + bytes.len() as u64);
                Ok(())
            }
            Err(error) => {
                self.forget(file);
                Err(self.refuse(&error))
            }
        }
    }

    /// As the trait says.
    fn cut(&mut self, file: u32, to: u64) -> Result<(), DiskFault> {
        self.count_change();
        if !self.note(file, to) {
            return Err(DiskFault::OutOfMemory);
        }
        match self.folder.cut(file, to) {
            Ok(()) => Ok(()),
            Err(error) => {
                self.forget(file);
                Err(self.refuse(&error))
            }
        }
    }

    /// As the trait says. The first sync after a file was made syncs the folder too, so that its name is kept. A file
    /// that is not there has nothing to keep.
    fn sync(&mut self, file: u32) -> Result<(), DiskFault> {
        self.count();
        match self.folder.sync(file) {
            Ok(()) => Ok(()),
            Err(error) => Err(self.refuse(&error)),
        }
    }

    /// It does nothing.
    fn restart(&mut self) -> Result<(), DiskFault> {
        self.count();
        Ok(())
    }
}
