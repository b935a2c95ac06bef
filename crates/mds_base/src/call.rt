ghost use Rattle.std.specs.Prelude.{◌≡◌, true, IfOk};
ghost use Rattle.mds_base.specs.Calls.{OnName, dir_of, asked_of, shown, is_well_made, is_directory, is_epoch};

use crate::RADIX;
use crate::attr::Stamp;
use crate::limits::{DIRECTORIES, EPOCHS, GRAB_MOST, LOAD_MOST, MODE_MOST};
use crate::name::Name;
use crate::row::RowList;
use std::alloc::{AllocError, Global};

/// A call on the service. `dir` is the number of a directory, from 1 to 2^48 - 1; directory 1 is the root.
#[derive(Debug, Drop)]
pub enum Call {
    /// Makes a file of mode 420 and size 0.
    Create {
        dir: u64,
        name: Name,
    },
    /// Makes a directory of mode 493, to which the service gives a number.
    Mkdir {
        dir: u64,
        name: Name,
    },
    /// Removes a file.
    Remove {
        dir: u64,
        name: Name,
    },
    /// Asks for the attributes of an entry.
    Lookup {
        dir: u64,
        name: Name,
    },
    /// Sets the mode (from 0 to 4095) and the size (in bytes) of an entry, and its owner and time of modification
    /// where there is a stamp.
    Setattr {
        dir: u64,
        name: Name,
        mode: u32,
        size: u64,
        stamp: Option<Stamp>,
    },
    /// Lists a directory.
    Scan {
        dir: u64,
    },
    /// Asks for as many unused directory numbers as `count` says, from 1 to 4096, on behalf of a name.
    Grab {
        dir: u64,
        name: Name,
        count: u32,
    },
    /// Adds each row whose name is absent.
    Load {
        dir: u64,
        rows: RowList,
    },
    /// Makes a directory of mode 493 with a number that was given before.
    Link {
        dir: u64,
        name: Name,
        id: u64,
    },
    /// Seals a partition of a directory that is to be removed. The epoch, at most 2^48 - 1, is that of the removal; for
    /// partition 0 the server gives it.
    Seal {
        dir: u64,
        part: u32,
        epoch: u64,
    },
    /// Takes the seal of this epoch off a partition.
    Unseal {
        dir: u64,
        part: u32,
        epoch: u64,
    },
    /// Declares a directory dead whose partitions are all sealed with this epoch.
    Kill {
        dir: u64,
        epoch: u64,
    },
    /// Removes the entry of the directory with this number.
    Unlink {
        dir: u64,
        name: Name,
        id: u64,
    },
}

/// What a call is on.
#[derive(Clone, Copy, Debug)]
pub enum Asked<'a> {
    /// A name of a directory; whether the call is a change, which a server notes and records.
    Name {
        dir: u64,
        name: &'a Name,
        changes: bool,
    },
    /// All names of a directory.
    Directory {
        dir: u64,
    },
    /// A partition of a directory, by its number. The call is a change.
    Partition {
        dir: u64,
        part: u32,
    },
}

impl Call {
    /// What the call is on.
    pub fn asked(&self) -> Asked<'_>
        ensures { shown result ≡ asked_of self.now }
    {
        match self {
            Call::Create { dir, name } => changing(*dir, name),
            Call::Mkdir { dir, name } => changing(*dir, name),
            Call::Remove { dir, name } => changing(*dir, name),
            Call::Lookup { dir, name } => Asked::Name {
                dir: *dir,
                name,
                changes: false,
            },
            Call::Setattr { dir, name, .. } => changing(*dir, name),
            Call::Scan { dir } => Asked::Directory { dir: *dir },
            Call::Grab { dir, name, .. } => changing(*dir, name),
            Call::Load { dir, .. } => Asked::Partition { dir: *dir, part: 0 },
            Call::Link { dir, name, .. } => changing(*dir, name),
            Call::Seal { dir, part, .. } => Asked::Partition {
                dir: *dir,
                part: *part,
            },
            Call::Unseal { dir, part, .. } => Asked::Partition {
                dir: *dir,
                part: *part,
            },
            Call::Kill { dir, .. } => Asked::Partition { dir: *dir, part: 0 },
            Call::Unlink { dir, name, .. } => changing(*dir, name),
        }
    }

    /// Whether each number of the call is within its range (`crates/mds_base/README.md`, "Well-made call").
    pub fn is_well_made(&self) -> bool
        ensures { result ≡ is_well_made self.now }
    {
        match self {
            Call::Create { dir, .. } => is_directory_number(*dir),
            Call::Mkdir { dir, .. } => is_directory_number(*dir),
            Call::Remove { dir, .. } => is_directory_number(*dir),
            Call::Lookup { dir, .. } => is_directory_number(*dir),
            Call::Setattr { dir, mode, .. } => is_directory_number(*dir) && *mode <= MODE_MOST,
            Call::Scan { dir } => is_directory_number(*dir),
            Call::Grab { dir, count, .. } => {
                is_directory_number(*dir) && 1 <= *count && *count <= GRAB_MOST
            }
            Call::Load { dir, rows } => {
                is_directory_number(*dir)
                    && 1 <= rows.rows().len()
                    && rows.rows().len() <= LOAD_MOST as usize
            }
            Call::Link { dir, id, .. } => is_directory_number(*dir) && is_directory_number(*id),
            Call::Seal { dir, part, epoch } => {
                is_directory_number(*dir) && *part < 1 << RADIX && is_epoch_number(*epoch)
            }
            Call::Unseal { dir, part, epoch } => {
                is_directory_number(*dir) && *part < 1 << RADIX && is_epoch_number(*epoch)
            }
            Call::Kill { dir, epoch } => is_directory_number(*dir) && is_epoch_number(*epoch),
            Call::Unlink { dir, id, .. } => is_directory_number(*dir) && is_directory_number(*id),
        }
    }

    /// The number of the directory that the call is on.
    pub fn dir(&self) -> u64
        ensures { result ≡ dir_of self.now }
    {
        match self {
            Call::Create { dir, .. } => *dir,
            Call::Mkdir { dir, .. } => *dir,
            Call::Remove { dir, .. } => *dir,
            Call::Lookup { dir, .. } => *dir,
            Call::Setattr { dir, .. } => *dir,
            Call::Scan { dir } => *dir,
            Call::Grab { dir, .. } => *dir,
            Call::Load { dir, .. } => *dir,
            Call::Link { dir, .. } => *dir,
            Call::Seal { dir, .. } => *dir,
            Call::Unseal { dir, .. } => *dir,
            Call::Kill { dir, .. } => *dir,
            Call::Unlink { dir, .. } => *dir,
        }
    }

    /// A copy of the call; it is refused only where there is no memory for it.
    pub fn copy(&self, alloc: Global) -> Result<Call, AllocError>
        ensures { IfOk result (λ call. call ≡ self.now) }
    {
        Ok(match self {
            Call::Create { dir, name } => Call::Create {
                dir: *dir,
                name: name.copy(alloc)?,
            },
            Call::Mkdir { dir, name } => Call::Mkdir {
                dir: *dir,
                name: name.copy(alloc)?,
            },
            Call::Remove { dir, name } => Call::Remove {
                dir: *dir,
                name: name.copy(alloc)?,
            },
            Call::Lookup { dir, name } => Call::Lookup {
                dir: *dir,
                name: name.copy(alloc)?,
            },
            Call::Setattr {
                dir,
                name,
                mode,
                size,
                stamp,
            } => Call::Setattr {
                dir: *dir,
                name: name.copy(alloc)?,
                mode: *mode,
                size: *size,
                stamp: *stamp,
            },
            Call::Scan { dir } => Call::Scan { dir: *dir },
            Call::Grab { dir, name, count } => Call::Grab {
                dir: *dir,
                name: name.copy(alloc)?,
                count: *count,
            },
            Call::Load { dir, rows } => Call::Load {
                dir: *dir,
                rows: rows.copy(alloc)?,
            },
            Call::Link { dir, name, id } => Call::Link {
                dir: *dir,
                name: name.copy(alloc)?,
                id: *id,
            },
            Call::Seal { dir, part, epoch } => Call::Seal {
                dir: *dir,
                part: *part,
                epoch: *epoch,
            },
            Call::Unseal { dir, part, epoch } => Call::Unseal {
                dir: *dir,
                part: *part,
                epoch: *epoch,
            },
            Call::Kill { dir, epoch } => Call::Kill {
                dir: *dir,
                epoch: *epoch,
            },
            Call::Unlink { dir, name, id } => Call::Unlink {
                dir: *dir,
                name: name.copy(alloc)?,
                id: *id,
            },
        })
    }
}

fn changing(dir: u64, name: &Name) -> Asked<'_>
    ensures { shown result ≡ OnName dir name.now true }
{
    Asked::Name {
        dir,
        name,
        changes: true,
    }
}

/// Whether a number is that of a directory.
pub fn is_directory_number(dir: u64) -> bool
    ensures { result ≡ is_directory dir }
{
    1 <= dir && dir < DIRECTORIES
}

fn is_epoch_number(epoch: u64) -> bool
    ensures { result ≡ is_epoch epoch }
{
    epoch < EPOCHS
}
