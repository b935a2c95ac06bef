//! What the programs of rows share: how a row is read, answered and printed, and the actions on a disk in memory.
//!
//! A row is a line: the words of a call and its arguments. `Words` reads them, `Answer` is what the call answered as
//! text, `RowFault` why there is no answer but this, and `reply` what is printed for a line. Nothing is promised of the
//! texts: they are compared with tables.
#![tactic(auto)]

mod disks;
mod row_fault;
mod table;
mod values;
mod words;

pub use disks::{RUNS, act, arm, bytes_of, disk_row, mend, new_disk, push_run};
pub use row_fault::{Answer, RowFault};
pub use table::{Table, print};
pub use values::{attr_text, push_call, push_final, read_call, read_file, read_final};
pub use words::{BETWEEN, Words, hex_text, list_text, push_answer, push_name, text, yes_or_no};
