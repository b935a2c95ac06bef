//! The outside of the service, as traits that the program is generic over, and their forms in memory.
//!
//! It stands on std and `thiserror`. Each trait that can fail has a count of faults that never falls, and its one
//! contract is that a refusal comes only where that count rose: so a caller that answers with a fault can show whose
//! fault it is.
//! A `Source` gives bytes and a `Sink` takes them, in pieces of any size. A `Disk` has numbered files, and says what a
//! crash may leave of them at each moment. Where the value tells what it holds, each call's clause says which bytes.
//! `BytesIn`, `BytesOut` and `Memory` tell everything, and fail at the calls that their maker named; a `Fuse` makes
//! any disk fail from a chosen call on. A `Clock` tells moments, a `Link` decides what becomes of messages, a `Gate`
//! holds calls; `FixedClock`, `ListLink` and `NoGate` are their forms in memory. The definitions that the clauses cite
//! are in `specs/`: `Images` has what a crash may leave of a file, and `crash_images_law` ties it to the clauses of
//! `Disk`.
#![tactic(auto)]

mod acts;
mod buffer;
mod bytes_in;
mod bytes_out;
mod calls;
mod changes;
mod clock;
mod disk;
mod fate;
mod file;
mod fixed_clock;
mod fuse;
mod gate;
mod heads;
mod link;
mod list_link;
mod memory;
mod no_gate;
mod outcome;
mod sink;
mod slots;
mod source;

pub use bytes_in::BytesIn;
pub use bytes_out::BytesOut;
pub use clock::Clock;
pub use disk::{Disk, DiskFault, crash_images_law};
pub use fate::Fate;
pub use fixed_clock::FixedClock;
pub use fuse::Fuse;
pub use gate::Gate;
pub use link::Link;
pub use list_link::ListLink;
pub use memory::Memory;
pub use no_gate::NoGate;
pub use outcome::Outcome;
pub use sink::{Sink, write_whole};
pub use source::{Failed, Source};
