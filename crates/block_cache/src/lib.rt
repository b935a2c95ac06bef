//! Floor 3, bytes: blocks of files that were read, kept in memory, the last one used first.
//!
//! It stands on the kit's `lru` and, for the size of a block, on `frame_pool`. Its contract for the layer above: the
//! cache is the list of an `lru` cache by places, and `keep` and `promote` are what its calls of `put` and `promote` do
//! to that list; `find` gives the bytes that were kept last of the place; after `leave` nothing of the file is kept,
//! and all else is. `laws_of_block_caches` says what that comes to. Only `new` and `keep` take memory.
//! `crates/block_cache/README.md` is its page.
#![tactic(auto)]

mod block_cache;
mod law;
mod place;

pub use block_cache::BlockCache;
pub use law::laws_of_block_caches;
pub use place::Place;
