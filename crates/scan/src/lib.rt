//! Floor 4, nodes: how far a client's scan of a directory has come.
//!
//! It stands on `mds_base` and, for the order of a scan, on `name_hash`. Its contract: a `ScanState` has the rows of
//! the pages that were taken, in their order, and the cursor from which the next one is asked for, none exactly after
//! the last page (`specs/Scans`). `laws_of_scans`: where each page is one of the cursor it was asked for from
//! (`specs/Pages`), the rows rise in the order of a scan, and none of them is left for later pages.
#![tactic(auto)]

mod laws;
mod state;

pub use laws::laws_of_scans;
pub use state::ScanState;
