//! What a server writes to its log, and what servers and clients send to each other.
//!
//! It stands on `mds_base`, on `chains` and `name_hash` for the order of rows, and on `bitmap` for what messages and
//! Installs carry. A `Record` has one spelling as bytes (`docs/FORMATS.md`, "Records"), which `write` appends and
//! `read` reads; messages are values, and have no byte form. The contract for the layers above: `read`
//! gives the record whose spelling begins the bytes and that spelling's length, `Short` exactly where the bytes are
//! a proper prefix of some spelling, and `Bad` with the first byte after which no spelling can follow; no spelling
//! begins another one.
#![tactic(auto)]

mod boxed;
mod fault;
mod handled;
mod kinds;
mod least_format;
mod msg;
mod reading;
mod reading_installs;
mod record;
mod writing;
mod writing_installs;

pub use boxed::{BoxedBitmap, BoxedCursor};
pub use fault::RecordFault;
pub use handled::Handled;
pub use msg::{Msg, MsgList};
pub use reading::{laws_of_spellings, read};
pub use record::{Record, RecordList};
pub use writing::write;
