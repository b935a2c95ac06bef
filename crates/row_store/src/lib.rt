//! Floor 3, bytes: rows that outlive memory, a finite map over sorted tables and a log, under one root.
//!
//! It stands on the trait `Disk` of `mds_out`, on the root of `root_slots`, the tables of `sorted_table`, the log of
//! `gate_log` and the frames of `frame_pool`. Its map is the base, which is the map at the last flush, with the changes
//! of the bodies committed since. Its one contract: after a crash at any moment of any call the disk gives the base and
//! a front of the bodies that holds each acknowledged one. `docs/FORMATS.md` has the files byte by byte, and
//! `crates/row_store/README.md` is its page.
#![tactic(auto)]

mod behind;
mod caching;
mod calls;
mod change;
mod faults;
mod flushes;
mod fresh;
mod looks;
mod merges;
mod numbers;
mod opening;
mod parts;
mod plans;
mod ranges;
mod roots;
mod row_store;
mod seeking;
mod seeks;
mod states;
mod tables;
mod writes;

pub use change::Change;
pub use row_store::{RowStore, stands_law};

// The frames that are lent for the time of a call; the others are for blocks that are kept.
const LENT_FRAMES: u32 = 4;

// The bytes of a stored sum.
const SUM_BYTES: usize = 16;
