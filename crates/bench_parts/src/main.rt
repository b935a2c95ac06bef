//! The program `bench_parts`: what the parts of a server and of a client are timed at (`bench/run`). A line says the
//! work, a size and how many rounds of it; the answer is the count of what came of them.
#![tactic(auto)]

mod caching;
mod leasing;
mod names;
mod reading;
mod splitting;

use row_words::{Answer, RowFault, Table, Words, print};
use std::alloc::Global;
use std::io;

fn main(rt: HostRuntime) -> io::Result<()> {
    print::<Works>(rt)
}

/// The works.
struct Works;

impl Table for Works {
    fn answer(alloc: Global, mut words: Words<'_>) -> Answer {
        let work = words.word()?;
        let size = words.small()?;
        let rounds = words.small()?;
        words.end()?;
        let count = count_of(alloc, work, size, rounds)?;
        Ok(format!(in alloc; "{count}")?)
    }
}

fn count_of(alloc: Global, work: &str, size: u32, rounds: u32) -> Result<u64, RowFault> {
    match work {
        "sweep" => leasing::sweep(alloc, size, rounds),
        "answer" => caching::answer(alloc, size, rounds),
        "half" => splitting::half(alloc, size, rounds),
        "beside" => splitting::beside(alloc, size, rounds),
        "tree" => reading::tree(alloc, size, rounds),
        _ => Err(RowFault::NotARow),
    }
}
