//! A table of rows, line by line.
use crate::row_fault::{Answer, RowFault};
use crate::words::Words;
use std::alloc::{AllocError, Global};
use std::io;
use std::io::{BufRead, BufReader};

/// The calls of which a program has rows.
pub trait Table {
    /// The answer to the row of these words.
    fn answer(alloc: Global, words: Words<'_>) -> Answer;
}

/// Prints each line of the standard input with its answer behind ` = `. Empty lines and lines that begin with `#` are
/// printed as they are.
pub fn print<T: Table>(rt: HostRuntime) -> io::Result<()> {
    for line in BufReader::new(rt.alloc(), rt.stdin())?.lines(rt.alloc()) {
        let line = line?;
        let text = reply::<T>(rt.alloc(), line.as_str())?;
        println!(rt; "{text}")?;
    }
    Ok(())
}

/// What is printed for a line.
fn reply<T: Table>(alloc: Global, line: &str) -> Result<String, AllocError> {
    if line.is_empty() || line.starts_with('#') {
        return String::from_str(alloc, line);
    }
    match T::answer(alloc, Words::new(line, 0)) {
        Ok(text) => format!(in alloc; "{line} = {text}"),
        Err(RowFault::OutOfMemory) => Err(AllocError),
        Err(fault) => format!(in alloc; "{line} = {fault}"),
    }
}
