//! Floor 4: every message that a run sent, with the calls in them, and the entries that its servers made, kept
//! densely (`crates/message_store/README.md`). Contracts see two lists.
#![tactic(auto)]

mod calls;
mod made;
mod messages;
mod pairs;
mod sent;
mod sides;
mod store;

pub use made::{Kind, Made};
pub use sent::Among;
pub use store::MessageStore;
