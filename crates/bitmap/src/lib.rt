//! The bitmap of a directory: which of its partitions exist, as far as a server or a client knows.
//!
//! It stands on `mds_base` for the radix, and on `chains` for what is well formed, located and how deep, and for
//! steps along a chain. No call takes memory. The contract for the layers above: a `Bitmap` is seen as a finite
//! set of numbers and is always well formed; `locate` is the greatest element of the chain with all elements up
//! to it in the set, `merge` is the union, and every answer is what the definitions of `chains` say of that set,
//! so that nothing above reasons about words of bits.
#![tactic(auto)]

mod bitmap;
mod fault;
mod laws;
mod missing;
mod span;
mod words;

pub use bitmap::Bitmap;
pub use fault::{BadBitmap, NoParent};
pub use laws::laws_of_bitmaps;
pub use span::Span;
pub use words::WORDS;
