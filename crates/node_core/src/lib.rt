//! Floor 4, nodes: a server without its disk, and what serving a message and replaying a record do.
//!
//! It stands on `mds_base` for calls and rows, on `name_hash` and `placement` for where a name's row stands, on
//! `records` for messages and records, on `bitmap`, on `partition` for what a call does in one partition, and on
//! `split` for pieces of halves. No split begins yet, so a directory stays its partition 0. Its contract for
//! the layers above: `Node::serve` and `Node::replay` equal the functions of `specs/Serving.antt` over any `Rows`, in
//! the node, the rows, the records and the messages; where a call is refused the node and the rows stay as they were.
//! Serving is `Node::plan`, which changes nothing, and then `Node::make`, which makes the change of one partition that
//! the plan holds.
#![tactic(auto)]

mod asks;
mod change;
mod law;
mod making;
mod node;
mod plan;
mod replaying;
mod serving;
mod told;

pub use asks::is_served;
pub use law::laws_of_replay;
pub use node::Node;
pub use plan::Plan;
