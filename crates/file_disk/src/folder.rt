//! The files of one disk in a folder, by their numbers, each opened once.
use crate::syncing::Syncing;
use std::alloc::Global;
use std::collections::BTreeMap;
use std::fs::{File, OpenOptions};
use std::io;
use std::os::unix::fs::FileExt;
use std::rt::Files;

#[derive(Drop)]
pub(crate) struct Folder<R> {
    alloc: Global,
    files: R,
    // The folder.
    path: String,
    // The number of the disk.
    disk: u32,
    opened: BTreeMap<u32, File>,
    syncing: Syncing,
    // Whether the folder was synced since a file of it was made.
    is_named: bool,
}

impl<R: Files<File = File>> Folder<R> {
    pub(crate) fn new(
        alloc: Global,
        files: R,
        path: String,
        disk: u32,
        syncing: Syncing,
    ) -> Folder<R> {
        Folder {
            alloc,
            files,
            path,
            disk,
            opened: BTreeMap::new(alloc),
            syncing,
            is_named: false,
        }
    }

    // The path of a file: `dD.fF` in the folder.
    fn path_of(&self, file: u32) -> io::Result<String> {
        let Folder { path, disk, .. } = self;
        Ok(format!(in self.alloc; "{path}/d{disk}.f{file}")?)
    }

    // Opens a file that is there; whether there is one.
    fn open(&mut self, file: u32) -> io::Result<bool> {
        if self.opened.contains_key(&file) {
            return Ok(true);
        }
        let path = self.path_of(file)?;
        match OpenOptions::new()
            .read(true)
            .write(true)
            .open(&self.files, path.as_str())
        {
            Ok(opened) => {
                self.opened.insert(file, opened)?;
                Ok(true)
            }
            Err(error) if error.kind() == io::ErrorKind::NotFound => Ok(false),
            Err(error) => Err(error),
        }
    }

    // Opens a file, and makes it where there is none.
    fn make(&mut self, file: u32) -> io::Result<()> {
        if self.open(file)? {
            return Ok(());
        }
        self.is_named = false;
        let path = self.path_of(file)?;
        let made = File::create_new(&self.files, path.as_str())?;
        self.opened.insert(file, made)?;
        Ok(())
    }

    // A file that was opened.
    fn opened(&self, file: u32) -> io::Result<&File> {
        match self.opened.get(&file) {
            Some(opened) => Ok(opened),
            None => Err(io::Error::from(io::ErrorKind::NotFound)),
        }
    }

    /// The length of a file, 0 where there is none.
    pub(crate) fn length(&mut self, file: u32) -> io::Result<u64> {
        if !self.open(file)? {
            return Ok(0);
        }
        Ok(self.opened(file)?.metadata()?.len())
    }

    /// Fills `into` from a place of a file.
    pub(crate) fn read(&mut self, file: u32, at: u64, into: &mut [u8]) -> io::Result<()> {
        if into.is_empty() {
            return Ok(());
        }
        self.open(file)?;
        self.opened(file)?.read_exact_at(into, at)
    }

    /// Writes at a place of a file, which it makes where there is none.
    pub(crate) fn write(&mut self, file: u32, at: u64, bytes: &[u8]) -> io::Result<()> {
        self.make(file)?;
        self.opened(file)?.write_all_at(bytes, at)
    }

    /// Cuts a file to a length; one that is not there is made.
    pub(crate) fn cut(&mut self, file: u32, to: u64) -> io::Result<()> {
        self.make(file)?;
        self.opened(file)?.set_len(to)
    }

    /// Has the device keep a file and its name. Where there is none there is nothing to keep.
    pub(crate) fn sync(&mut self, file: u32) -> io::Result<()> {
        if self.syncing == Syncing::Never || !self.open(file)? {
            return Ok(());
        }
        self.opened(file)?.sync_data()?;
        if !self.is_named {
            File::open(&self.files, self.path.as_str())?.sync_all()?;
            self.is_named = true;
        }
        Ok(())
    }
}
