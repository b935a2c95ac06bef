//! The program `rows_disks`: rows of streams, disks and logs whose calls fail. `crates/rows/README.md` says what a row
//! is.
#![tactic(auto)]

mod logging;
mod streaming;

use row_words::{Answer, RowFault, Table, Words, disk_row, print};
use std::alloc::Global;
use std::io;

fn main(rt: HostRuntime) -> io::Result<()> {
    print::<Calls>(rt)
}

/// The calls of the outside and of the log.
struct Calls;

impl Table for Calls {
    fn answer(alloc: Global, mut words: Words<'_>) -> Answer {
        match words.word()? {
            "stream" => streaming::answer(alloc, words),
            "mds_out" => disk_row(alloc, words),
            "gate_log" => logging::answer(alloc, words),
            _ => Err(RowFault::NotARow),
        }
    }
}
