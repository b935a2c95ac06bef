//! Floor 3, bytes: sorted tables, rows in a file of a disk in the order of their keys.
//!
//! It stands on `mds_base` for keys and attributes, on the trait `Disk` of `mds_out`, on `gate_log` for what a run of
//! calls leaves of other files, on the frames of `frame_pool`, and on the kit's `md5`. A `Builder` writes rows, given
//! in rising order, into blocks of 4096 bytes; a `Table` keeps the first key of each block and reads a block into a
//! frame where it is asked for a key. Its one contract: what a table answers is what the list of its rows answers, and
//! `open_file` gives a table exactly of a file whose sum agrees and that spells one. `docs/FORMATS.md` has the file
//! byte by byte, and `crates/sorted_table/README.md` is its page.
#![tactic(auto)]

mod block;
mod builder;
mod checked;
mod fault;
mod opening;
mod reading;
mod spelling;
mod start;
mod table;
mod table_row;
mod writes;

pub use builder::Builder;
pub use fault::{TableDamage, TableFault};
pub use start::Start;
pub use table::{Table, one_table_law};
pub use table_row::{Held, TableRow};

/// The bytes of a block.
pub const BLOCK_BYTES: usize = 4096;

/// The bytes of a block that its rows may take: those behind the count.
pub(crate) const ROW_BYTES: usize = 4094;

/// The bytes of a table's sum, an MD5, with which its file ends.
pub const SUM_BYTES: usize = 16;

/// The bytes behind a table's blocks: the counts of blocks and rows, and the sum.
pub const FIXED_BYTES: usize = 28;
