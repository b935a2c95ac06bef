//! Floor 6, servers on disks. What disks that past runs left are, and how servers are opened on them and hand them back
//! (`crates/pasts/README.md`).
//!
//! It stands on `node_store`, `world` and `mds_out`, and knows no clients and no messages: whoever lets servers run,
//! one event after another or in threads, opens them here. The contract: on disks to which a past leads the servers are
//! those to which it leads; where one is refused all disks come back and are still such disks; and the disks of servers
//! that are those of a world are such as a run leaves that ends there, so that the next run may begin with them.
#![tactic(auto)]

mod law;
mod opening;

pub use law::laws_of_pasts;
pub use opening::{NotOpened, Servers};
