//! Floor 1, words: who holds a hash while the partitions of a directory split.
//!
//! All kept partitions of a directory together are its tree, and a hash belongs to the partition where the tree
//! locates it. Each server knows only a part of the tree, and a split goes in three steps on two servers: a
//! partition begins to move, its child is installed, and the partition ends its move. The laws here say that each
//! step keeps what servers know in order, what a server may conclude from its own bitmap, and who holds what
//! afterwards. The crate stands on `chains` alone and runs nothing: it is the definitions of `specs/` and their
//! laws, each a clause of a public function with an empty body, for every radix and every view of one directory.
//! `crates/trees/README.md` is its page.
#![tactic(auto)]

mod depth;
mod location;
mod page;
mod range;
mod redirect;
mod split;
mod transfer;
mod whole;

pub use depth::laws_of_split_depths;
pub use location::laws_of_own_partitions;
pub use page::laws_of_active_ranges;
pub use range::laws_of_held_ranges;
pub use redirect::laws_of_redirects;
pub use split::{laws_of_ends, laws_of_installs, laws_of_splits};
pub use transfer::laws_of_transfers;
pub use whole::laws_of_whole_trees;
