//! Floor 3, bytes: the rows of several sorted tables made one table, in turns.
//!
//! It stands on `sorted_table`, whose tables it reads block by block and whose builder it writes with, and on all that
//! this stands on. A `Merge` keeps of each table the block that it reads next and the rows of the one before it that
//! are left, and passes the least key of these, one after another: the newest row of a key is added, and a tombstone is
//! dropped. Its one contract: what was added, with what is left merged behind it, says of each key what the tables say,
//! so that `Finished` is each key's newest row without tombstones; until then, and at each moment of each turn, only
//! the file of the merge changes. `crates/merge_rows/README.md` is its page.
#![tactic(auto)]

mod cursor;
mod cursors;
mod merge;

pub use merge::{Merge, Turn};
