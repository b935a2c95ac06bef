//! Floor 4, nodes: the subtree that a bulk line spells, as the rows of each of its directories.
//!
//! It stands on `mds_base`, on `name_hash` and `chains` for the scan order, and on the kit's `serde_json` and `json`.
//! `specs/Grammar` says which texts are trees, `specs/Trees` what the tree of a text is. The contract for the layer
//! above: `Tree::read` gives the tree of a text and answers `BadTree` exactly where it is none; `dirs` is how many
//! numbers a grab of it asks for, and `rows_of` gives the rows of the load of one directory, in the scan order.
#![tactic(auto)]

mod fault;
mod measure;
mod number;
mod object;
mod reading;
mod tree;

pub use fault::TreeFault;
pub use tree::Tree;
