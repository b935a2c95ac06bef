//! The program `rows_store`: rows of the durable map: frames, roots, tables, merging, the store.
//! `crates/rows/README.md` says what a row is.
#![tactic(auto)]

mod changed;
mod damages;
mod dumps;
mod keeping;
mod merges;
mod pages;
mod roots;
mod store;
mod sweeps;
mod tables;

use row_words::{Answer, RowFault, Table, Words, print};
use std::alloc::Global;
use std::io;

fn main(rt: HostRuntime) -> io::Result<()> {
    print::<Calls>(rt)
}

/// The calls of the durable map.
struct Calls;

impl Table for Calls {
    fn answer(alloc: Global, mut words: Words<'_>) -> Answer {
        match words.word()? {
            "sorted_table" | "merge_rows" => tables::answer(alloc, words),
            "root_slots" => roots::answer(alloc, words),
            "row_store" => store::answer(alloc, words),
            _ => Err(RowFault::NotARow),
        }
    }
}
