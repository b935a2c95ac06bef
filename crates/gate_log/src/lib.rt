//! A log that survives a crash: bodies of bytes in one file of a disk, each there wholly or not at all.
//!
//! It stands on the trait `Disk` of `mds_out`. Its one contract: after `Ok` of `append` every crash leaves the body,
//! and a crash at any moment of an append leaves the bodies before it, with this one or without.
//! No checksum is trusted. A closed gate stands on the disk behind the last body before anything is written past it,
//! and is opened by a write of its own once the body is synced. docs/FORMATS has the file byte by byte.
#![tactic(auto)]

mod frame;
mod gate_log;
mod scan;
mod writes;

pub use frame::Piece;
pub use gate_log::{GateLog, LogFault, log_places_law, one_log_law};
