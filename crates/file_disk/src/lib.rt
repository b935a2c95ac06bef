//! Floor 2, parts: the numbered files of a disk as real files of one folder.
//!
//! It stands on `mds_out`, whose trait `Disk` it meets, and on the files of std. Its one contract is that of `Disk`,
//! with nothing told of content: what a real file keeps no clause can say. What it does say is that a call is refused
//! as `Device` only where the count of faults has risen, that a length that was told stays the one that later calls
//! make of it, and how many calls were asked. `crates/file_disk/README.md` is its page.
#![tactic(auto)]

mod file_disk;
mod folder;
mod syncing;

pub use file_disk::FileDisk;
pub use syncing::Syncing;
