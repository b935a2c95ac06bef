//! A plain directory, kept as one map: the slow and obvious service that all others are measured by.
//!
//! It stands on `mds_base` alone. Contract for the layer above: `apply` is the step of the plain rules
//! (`crates/mds_base/README.md`, "Plain rules") on the map that the directory is seen as, and a refusal, which is want
//! of memory alone, leaves that map as it was.
#![tactic(auto)]

mod allowing;
mod check;
mod directory;
mod numbers;
mod replies;
mod taking;

pub use check::{Check, check_history};
pub use directory::PlainDir;
