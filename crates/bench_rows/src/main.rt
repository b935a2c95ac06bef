//! The program `bench_rows`: the row store alone, over disks in memory and over real files, as `bench/run` times it. A
//! line says the disk and the work; the answer is the count of what came of it.
#![tactic(auto)]

mod filling;
mod keys;
mod works;

use row_words::{RowFault, Words};
use std::alloc::AllocError;
use std::io;
use std::io::{BufRead, BufReader};

fn main(rt: HostRuntime) -> io::Result<()> {
    for line in BufReader::new(rt.alloc(), rt.stdin())?.lines(rt.alloc()) {
        let line = line?;
        let text = reply(&rt, line.as_str())?;
        println!(rt; "{text}")?;
    }
    Ok(())
}

/// What is printed for a line.
fn reply(rt: &HostRuntime, line: &str) -> Result<String, AllocError> {
    match works::answer(rt, Words::new(line, 0)) {
        Ok(text) => format!(in rt.alloc(); "{line} = {text}"),
        Err(RowFault::OutOfMemory) => Err(AllocError),
        Err(fault) => format!(in rt.alloc(); "{line} = {fault}"),
    }
}
