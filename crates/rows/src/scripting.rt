//! Rows of `script`, for three servers and two clients.
use crate::values::line_text;
use mds_base::Setup;
use row_words::{Answer, RowFault, Words, text};
use script::{LineFault, read_line};
use std::alloc::Global;

const SETUP: Setup = Setup {
    servers: 3,
    threshold: 8000,
    lease: 1000,
    clients: 2,
};

/// `line LINE`, and `bytes BYTES` for a line that is no text of its own: the line that was read, in its printed form.
pub(crate) fn answer(alloc: Global, mut words: Words<'_>) -> Answer {
    match words.word()? {
        "line" => read_back(alloc, words.rest().as_bytes()),
        "bytes" => bytes_row(alloc, words),
        _ => Err(RowFault::NotARow),
    }
}

fn bytes_row(alloc: Global, mut words: Words<'_>) -> Answer {
    let bytes = words.hex(alloc)?;
    words.end()?;
    read_back(alloc, bytes.as_slice())
}

fn read_back(alloc: Global, bytes: &[u8]) -> Answer {
    match read_line(alloc, bytes, &SETUP) {
        Ok(line) => line_text(alloc, &line),
        Err(LineFault::NotALine) => text(alloc, "not a line"),
        Err(LineFault::OutOfMemory) => Err(RowFault::OutOfMemory),
    }
}
