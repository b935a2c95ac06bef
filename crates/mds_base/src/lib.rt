//! Floor 1, words: what every crate of the service speaks of. Names, attributes, calls, replies, the plain rules, legal
//! histories, rows in their order, sessions, and every limit.
//!
//! It stands on nothing but std; `crates/mds_base/README.md` is its page. The contract for the layers above: a `Name`
//! is a list of bytes that is a name, `Name::read` answers `BadName` exactly for other bytes, and each `copy` equals
//! its source. The plain rules (`specs/PlainRules.antt`) say which reply a call may get on a map of entries and what
//! map it leaves, and `laws_of_histories` has the laws that later theorems take. `Rows` is a finite map whose page is
//! the first rows past the cursor.
#![tactic(auto)]

mod ask;
mod attr;
mod call;
mod cursor;
mod edit;
mod entry;
mod history;
pub mod limits;
mod map_rows;
mod name;
mod place;
mod reply;
mod row;
mod row_key;
mod rows;
mod seal;
mod session;
mod setup;
mod split_state;
mod store_fault;
mod walked;

pub use ask::Ask;
pub use attr::{Attr, Stamp};
pub use call::{Asked, Call, is_directory_number};
pub use cursor::Cursor;
pub use edit::Edit;
pub use entry::Entry;
pub use history::laws_of_histories;
pub use limits::{
    DIRECTORIES, DIRECTORY_MODE, EPOCHS, FILE_MODE, GRAB_MOST, LOAD_MOST, MODE_MOST, SHORT_NAME,
};
pub use map_rows::MapRows;
pub use name::{Name, NameFault, is_name};
pub use place::PlaceList;
pub use reply::{Final, Reply};
pub use row::{Row, RowList};
pub use row_key::{RowKey, laws_of_row_keys};
pub use rows::{Rows, RowsFault, edit_row};
pub use seal::{SealMode, SealState};
pub use session::{Session, SessionList};
pub use setup::{Setup, Which};
pub use split_state::SplitState;
pub use store_fault::{Damage, Head, StoreFault};
pub use walked::Walked;

/// The radix: a directory has at most 2 ^ `RADIX` partitions. Definitions and laws take the radix as an argument
/// (`crates/chains/README.md`); contracts cite them at this value.
pub const RADIX: u32 = 10;
