//! The program `rows_worlds`: rows of servers that are brought up and of random schedules of the world.
//! `crates/rows/README.md` says what a row is.
#![tactic(auto)]

mod history;
mod opening;
mod worlds;

use row_words::{Answer, RowFault, Table, Words, print};
use std::alloc::Global;
use std::io;

fn main(rt: HostRuntime) -> io::Result<()> {
    print::<Calls>(rt)
}

/// The calls of servers on disks and of the world.
struct Calls;

impl Table for Calls {
    fn answer(alloc: Global, mut words: Words<'_>) -> Answer {
        match words.word()? {
            "node_store" => opening::answer(alloc, words),
            "world" => worlds::answer(alloc, words),
            _ => Err(RowFault::NotARow),
        }
    }
}
