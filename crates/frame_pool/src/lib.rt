//! Floor 1, words: frames, the memory into which blocks of files are read.
//!
//! A `Pool` reserves all its frames when it is made, so none of its other calls takes memory. It is seen as the list
//! of its frames by their numbers, of each its bytes where it is free and `None` where it is out: a frame is free or
//! out, and never both. A `Frame` is lent by `Pool::take`; it can't be dropped, only given back, and its bytes change
//! only through it. The contract for the layer above: `take` answers `None` exactly where no frame is free, and what
//! was lent comes back as its holder left it.
#![tactic(auto)]

mod frame;
mod pool;

pub use frame::Frame;
pub use pool::Pool;

/// The bytes of a frame: those of one block of a file.
pub const FRAME_BYTES: usize = 4096;
