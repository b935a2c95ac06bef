ghost use Rattle.std.specs.Prelude.{◌≡◌, ◌↔◌, IsTrue};
ghost use Rattle.mds_base.specs.Entries.{new_file, new_directory, reset_attr, is_file, is_stamped, stamp_of};

use crate::limits::{DIRECTORY_MODE, FILE_MODE};

/// The attributes of an entry.
#[derive(Clone, Copy, Debug, PartialEq, Eq)]
pub struct Attr {
    /// The number of the directory that the entry names; 0 for a file.
    pub dir: u64,
    /// The mode, from 0 to 4095.
    pub mode: u32,
    /// The size, in bytes.
    pub size: u64,
    /// The owner's number, which callers set; 0 in an entry that was just made.
    pub owner: u32,
    /// The moment of the last modification, in any unit that the callers choose; 0 in an entry that was just made.
    pub mtime: u64,
}

/// An owner and a time of modification, as a caller sets them.
#[derive(Clone, Copy, Debug, PartialEq, Eq)]
pub struct Stamp {
    /// The owner's number.
    pub owner: u32,
    /// The moment of the last modification.
    pub mtime: u64,
}

impl Attr {
    /// The attributes of a file that was just made.
    pub fn new_file() -> Attr
        ensures { result ≡ new_file }
    {
        Attr {
            dir: 0,
            mode: FILE_MODE,
            size: 0,
            owner: 0,
            mtime: 0,
        }
    }

    /// The attributes of a directory of this number that was just made.
    pub fn new_directory(number: u64) -> Attr
        ensures { result ≡ new_directory number }
    {
        Attr {
            dir: number,
            mode: DIRECTORY_MODE,
            size: 0,
            owner: 0,
            mtime: 0,
        }
    }

    /// Whether the entry is a file.
    pub fn is_file(&self) -> bool
        ensures { result ≡ is_file self.now }
    {
        self.dir == 0
    }

    /// Whether an owner or a time of modification was set that is not 0.
    pub fn is_stamped(&self) -> bool
        ensures { result ≡ is_stamped self.now }
    {
        self.owner != 0 || self.mtime != 0
    }

    /// The owner and time of modification, where one of them was set that is not 0.
    pub fn stamp(&self) -> Option<Stamp>
        ensures { result ≡ stamp_of self.now }
    {
        if self.is_stamped() {
            Some(Stamp {
                owner: self.owner,
                mtime: self.mtime,
            })
        } else {
            None
        }
    }

    /// The attributes with another mode and size, and with the stamp's owner and time where there is a stamp.
    pub fn reset(&self, mode: u32, size: u64, stamp: Option<Stamp>) -> Attr
        ensures { result ≡ reset_attr self.now mode size stamp }
    {
        let Stamp { owner, mtime } = stamp.unwrap_or(Stamp {
            owner: self.owner,
            mtime: self.mtime,
        });
        Attr {
            dir: self.dir,
            mode,
            size,
            owner,
            mtime,
        }
    }
}
