//! Floor 4, nodes: one partition of a directory, and what serving a call on a name in it does.
//!
//! It stands on `mds_base` for calls and rows, on `chains` and `name_hash` for where a name's row stands, on `sessions`
//! and on `leases`. A call is compared with the session of its client, then it may have to wait for the leases on its
//! name, and then the plain rules say its reply and the edits of rows that it makes. The contract for the layer above:
//! `Partition::serve` equals `serve_part` of `specs/Serving.antt` over any `Rows`. It is `Partition::plan`, which
//! changes nothing, and then `Partition::make`; what is planned is a value that can be read, so that a server can keep
//! it before it is made. `crates/partition/README.md` is its page.
#![tactic(auto)]

mod edits;
mod law;
mod partition;
mod plan;
mod replies;

pub use edits::{EditList, RowEdit, write_edits};
pub use law::laws_of_serving;
pub use partition::Partition;
pub use plan::{Change, Plan, Step};
pub use replies::is_served;
