//! The lines of a script: which bytes say which line, and the reader of one line.
//!
//! It stands on `mds_base` and the kit's `itoa`. `specs/` has the grammar as a relation that knows no reader: `Words`
//! (what stands between blanks), `Names` (how a name is spelled), `Grammar` (the parts of each line and the ranges of
//! its numbers) and `Text` (the one printed form). In plain words it is in `docs/FORMATS.md`, "Lines of a script".
//! `words` splits a line, `number` and `escape` read a word, `unread` is what is left of a line, `reading` reads it,
//! `line_text` prints a call. Its one contract is that of `read_line`: what is read is what the bytes say, bytes are
//! refused exactly where they say no line, and memory is wanted only for what a line keeps; `laws_of_lines` adds that
//! bytes say one line, and that a printed line is read back.
#![tactic(auto)]

mod asking;
mod byte_list;
mod escape;
mod fault;
mod line;
mod line_text;
mod number;
mod reading;
mod unread;
mod verb;
mod words;

pub use byte_list::ByteList;
pub use escape::name_of;
pub use fault::LineFault;
pub use line::Line;
pub use line_text::LineText;
pub use reading::{laws_of_lines, read_line};
