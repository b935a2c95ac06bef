//! The program `rows`: a row of a test is data. Here are the rows of words and of bytes.
//!
//! It stands at the top, on the crates whose calls it makes. Each line of its input names a crate, a call and the
//! call's arguments; the program makes the call and prints the line, ` = ` and the answer. What a call requires of its
//! arguments is tested before it, and a line that does not meet it is answered `refused`; a line that is no row is
//! answered `not a row`. Empty lines and lines that begin with `#` are printed as they are. `README.md` has the rows.
#![tactic(auto)]

mod bitmaps;
mod hashing;
mod keeping;
mod naming;
mod placing;
mod plain_bitmap;
mod recording;
mod scripting;
mod values;

use row_words::{Answer, RowFault, Table, Words, print};
use std::alloc::Global;
use std::io;

fn main(rt: HostRuntime) -> io::Result<()> {
    print::<Calls>(rt)
}

/// The calls on words and bytes.
struct Calls;

impl Table for Calls {
    fn answer(alloc: Global, mut words: Words<'_>) -> Answer {
        match words.word()? {
            "name_hash" => hashing::answer(alloc, words),
            "bitmap" => bitmaps::answer(alloc, words),
            "placement" => placing::answer(alloc, words),
            "mds_base" => naming::answer(alloc, words),
            "sessions" => keeping::answer(alloc, words),
            "records" => recording::answer(alloc, words),
            "script" => scripting::answer(alloc, words),
            _ => Err(RowFault::NotARow),
        }
    }
}
