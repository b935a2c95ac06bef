ghost use Rattle.std.specs.Prelude.{◌≡◌, IfOk};

use crate::attr::Attr;
use crate::row::RowList;
use std::alloc::{AllocError, Global};

/// A final reply that holds numbers alone.
#[derive(Clone, Copy, Debug, PartialEq, Eq)]
pub enum Final {
    /// The file was made.
    Created,
    /// The directory was made, with this number.
    CreatedDir(u64),
    /// An entry of that name exists already.
    Exists,
    /// The file was removed.
    Removed,
    /// There is no entry of that name.
    Missing,
    /// The entry is a directory, and only files are removed.
    IsDir,
    /// The attributes were set.
    Set,
    /// The first of the numbers that were given.
    Ids(u64),
    /// How many rows a load added.
    Loaded(u32),
    /// The load added nothing, since the directory's rows no longer lie in one partition.
    Stale,
    /// The partition, of this depth, is sealed with this epoch.
    Sealed { depth: u32, epoch: u64 },
    /// The partition that was to be sealed has a row.
    NotEmpty,
    /// Another removal has this partition, or the partition is not kept.
    Late,
    /// The seal was taken off.
    Opened,
    /// The directory is dead.
    Killed,
}

/// What answers a call.
#[derive(Debug, Drop)]
pub enum Reply {
    /// A final reply.
    Said(Final),
    /// The attributes that a lookup found, and the moment at which the lease on them ends.
    Found { attr: Attr, until: u64 },
    /// The rows that a scan listed.
    Listed { rows: RowList },
}

impl Reply {
    /// A copy of the reply; it is refused only where there is no memory for it.
    pub fn copy(&self, alloc: Global) -> Result<Reply, AllocError>
        ensures { IfOk result (λ reply. reply ≡ self.now) }
    {
        Ok(match self {
            Reply::Said(said) => Reply::Said(*said),
            Reply::Found { attr, until } => Reply::Found {
                attr: *attr,
                until: *until,
            },
            Reply::Listed { rows } => Reply::Listed {
                rows: rows.copy(alloc)?,
            },
        })
    }
}
