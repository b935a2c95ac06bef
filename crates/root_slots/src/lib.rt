//! Floor 3, bytes: the root of a disk, in one of two slots of file 0, which changes as one.
//!
//! It stands on the trait `Disk` of `mds_out` and on `gate_log` for its words on writes, and on the kit's `md5` and
//! `byteorder`. A root names the files of a store. Its one contract: before `open_slot` every crash leaves the old
//! root in force, during it the old or the new one, and after `Ok` the new one; each step makes at most two calls of
//! the disk. `root_decides_law` has the one statement of crashes for the layers above: files that no root in force
//! names may hold anything; the root decides. docs/FORMATS has the file byte by byte.
#![tactic(auto)]

mod content;
mod reading;
mod root;
mod root_slots;
mod spelling;
mod steps;
mod writes;

pub use root::{FileList, Root};
pub use root_slots::{RootFault, RootSlots, SlotDamage, root_decides_law};

/// The tables of a root, at most.
pub const TABLES_MOST: usize = 64;

// The bytes of file 0.
const FILE_BYTES: u64 = 2048;

// The bytes of a slot behind its gate.
const BEHIND_BYTES: usize = 1023;

// An open gate. Any other byte is a closed one, and 00 is written.
const OPEN: u8 = 1;

// The place of the count of tables behind a gate, and of the first table.
const COUNT_AT: usize = 16;

const TABLES_AT: usize = 17;

// The bytes of a stored sum.
const SUM_BYTES: usize = 16;
