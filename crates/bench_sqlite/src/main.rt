//! The program `bench_sqlite`: the rows of `bench_rows` in the kit's port of SQLite, as `bench/rows` times it beside
//! the row store. It reads the lines that `bench_rows` reads, over real files of which each commit is synced.
#![tactic(auto)]

mod rows;
mod works;

use std::alloc::AllocError;
use std::io;
use std::io::{BufRead, BufReader};

fn main(rt: HostRuntime) -> io::Result<()> {
    for line in BufReader::new(rt.alloc(), rt.stdin())?.lines(rt.alloc()) {
        let line = line?;
        let text = reply(&rt, line.as_str())?;
        println!(rt; "{text}")?;
    }
    Ok(())
}

/// What is printed for a line.
fn reply(rt: &HostRuntime, line: &str) -> Result<String, AllocError> {
    match works::answer(rt, line) {
        Ok(Some(found)) => format!(in rt.alloc(); "{line} = {found}"),
        Ok(None) => format!(in rt.alloc(); "{line} = not a row"),
        Err(error) => format!(in rt.alloc(); "{line} = {error}"),
    }
}
