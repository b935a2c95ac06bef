//! The program `rows_parts`: rows of the parts of a server and of a client. `crates/rows/README.md` says what a row is.
#![tactic(auto)]

mod bulking;
mod caching;
mod leasing;
mod lists;
mod scanning;
mod serving;
mod splitting;
mod walking;

use row_words::{Answer, RowFault, Table, Words, print};
use std::alloc::Global;
use std::io;

fn main(rt: HostRuntime) -> io::Result<()> {
    print::<Calls>(rt)
}

/// The calls of the parts.
struct Calls;

impl Table for Calls {
    fn answer(alloc: Global, mut words: Words<'_>) -> Answer {
        match words.word()? {
            "leases" => leasing::answer(alloc, words),
            "lease_cache" => caching::answer(alloc, words),
            "partition" => serving::answer(alloc, words),
            "split" => splitting::answer(alloc, words),
            "path_walk" => walking::answer(alloc, words),
            "scan" => scanning::answer(alloc, words),
            "bulk" => bulking::answer(alloc, words),
            _ => Err(RowFault::NotARow),
        }
    }
}
