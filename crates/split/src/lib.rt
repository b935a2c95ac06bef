//! The half of a partition that a split moves: which rows it has, how it is put at another partition and taken away
//! from the first one, and the pieces in which it is sent.
//!
//! It stands on `mds_base` for rows, on `name_hash` and `chains` for where names belong. The calls go over any `Rows`
//! and know no node. `moving_half` lists the half, `install` puts it into the child, `end` takes it away from the
//! partition; where each row stands at the key of its name, which `laws_of_halves` speaks of, these move exactly the
//! rows with the next bit of their hashes set. A half is walked once, and nothing else of the partition is.
//! `piece` cuts it, and a `Collector` joins the pieces. `crates/split/README.md` is the crate's page.
#![tactic(auto)]

mod collector;
mod half;
mod laws;
mod pieces;

pub use collector::Collector;
pub use half::{end, frozen, install, moving_half};
pub use laws::{laws_of_halves, laws_of_pieces};
pub use pieces::{PIECE_ROWS, piece, piece_count};
