//! The command line of the service: words, a script and disks in, its text and the disks out, and how the run ended.
//!
//! It stands on `interpreter` for the lines, on `simulation` for the servers on their disks, on `script` for the
//! grammar of lines, on `mds_out` for its streams and disks, and on `world` for the theorem. `words` reads the command
//! line; bytes come in by `reader`, become a line in `line`, are carried out in `session`, and `run` goes from the
//! disks that are handed in to those that are handed back; `solo` is the program's call. The definitions of lines, runs
//! and texts are in `specs/` and in plain words in `crates/mds_cli/README.md`. Its one contract is the clauses of
//! `giga_solo`.
#![tactic(auto)]

mod law;
mod line;
mod reader;
mod run;
mod session;
mod solo;
mod status;
mod words;

pub use law::laws_of_new_disks;
pub use mds_base::{Damage, Head, Which};
pub use run::Ended;
pub use solo::giga_solo;
pub use status::{Status, code};
pub use words::{disks_of, laws_of_words, setup_of};
