//! A server on a disk: each change is one record and one append to its log.
//!
//! It stands on `mds_base`, `records`, `gate_log` and `node_core`, over any `Disk` of `mds_out`. The definitions that
//! the layers above cite are `FileStandsFor`, `KeepsStore` and `IsDownAt` (`crates/node_store/README.md`, "What a disk
//! stands for"). The contract: after Ok of `serve_batch` the disk keeps the new store, and a crash at any moment of the
//! call leaves the old store or the new one; after a refused append the server is down, and a restart keeps all of its
//! records in doubt or none.
#![tactic(auto)]

mod fuse;
mod laws;
mod node_store;
mod opening;
mod reading;
mod restart;
mod serve;

pub use laws::laws_of_disks;
pub use node_store::{NodeStore, Refused};
