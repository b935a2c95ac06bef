//! What a partition keeps of its clients' last changes, so that a change which comes again is not carried out again.
//!
//! It stands on `mds_base` alone. `Sessions` is a finite map from clients to the number and the reply of their last
//! changes. Its contract for the layer above: `judge` says `New`, `Again` or `Old` exactly by the kept number, `note`
//! keeps a new one in place of it, `list` and `from_list` go to a list by rising clients and back, and `copy` equals
//! its source.
#![tactic(auto)]

mod kept;

pub use kept::{Judged, Kept, Sessions};
