//! Where a hash belongs among the partitions of a directory: chains of hashes, well-formed sets of
//! partitions, locating, depths and ranges, and hashes with their bits in the opposite order.
//!
//! It stands on std alone. Two functions compute: `chain_next` gives each element of a chain after the one
//! before, and `reverse` turns the 64 bits of a hash round. All else is the definitions of `specs/` and their
//! laws, each a clause of a public function with an empty body. Every definition, law and function takes the
//! radix as an argument, and a set of partitions is a test of numbers, so that the same laws serve a bitmap and
//! the tree of the partitions that servers keep. The contract for the layers above: what they prove of splits,
//! scans and redirections cites these laws and opens no definition. `crates/chains/README.md` says the definitions
//! in plain words.
#![tactic(auto)]

mod chain;
mod depth;
mod location;
mod owner;
mod radix;
mod reversal;
mod well_formed;

pub use chain::{chain_next, laws_of_chains};
pub use depth::{laws_of_children, laws_of_depths};
pub use location::laws_of_locating;
pub use owner::laws_of_owners;
pub use radix::laws_of_radixes;
pub use reversal::{laws_of_reversed_hashes, laws_of_spans, reverse};
pub use well_formed::{laws_of_missing_numbers, laws_of_well_formed_sets};
