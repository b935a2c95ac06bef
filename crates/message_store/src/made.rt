ghost use Rattle.std.specs.Prelude.{◌≡◌, IfOk};

use mds_base::Entry;
use std::alloc::{AllocError, Global};

/// What an entry that was made is.
#[derive(Clone, Copy, Debug, PartialEq, Eq)]
pub enum Kind {
    /// A change that was carried out.
    Change,
    /// The answer to a lookup, which was sent to stand at this place among all messages. It is an effect where the
    /// client took it.
    Lookup {
        /// The number.
        message: u64,
    },
}

/// An entry that a server made, in the order of the events.
#[derive(Debug, Drop)]
pub struct Made {
    /// The entry.
    pub entry: Entry,
    /// What it is.
    pub kind: Kind,
}

impl Made {
    /// A copy; it is refused only where there is no memory for it.
    pub fn copy(&self, alloc: Global) -> Result<Made, AllocError>
        ensures { IfOk result (λ made. made ≡ self.now) }
    {
        Ok(Made {
            entry: Entry {
                client: self.entry.client,
                seq: self.entry.seq,
                call: self.entry.call.copy(alloc)?,
                reply: self.entry.reply.copy(alloc)?,
            },
            kind: self.kind,
        })
    }
}
