ghost use Rattle.std.specs.Prelude.{◌≡◌, IfOk};

use crate::call::Call;
use std::alloc::{AllocError, Global};

/// A call as a client sends it.
#[derive(Debug, Drop)]
pub struct Ask {
    /// The number of the call among the client's calls, from 1.
    pub seq: u64,
    /// The client, from 1.
    pub client: u32,
    /// The number of this sending among the call's sendings, from 1.
    pub attempt: u32,
    /// The call.
    pub call: Call,
}

impl Ask {
    /// A copy of the ask; it is refused only where there is no memory for it.
    pub fn copy(&self, alloc: Global) -> Result<Ask, AllocError>
        ensures { IfOk result (λ ask. ask ≡ self.now) }
    {
        Ok(Ask {
            client: self.client,
            seq: self.seq,
            attempt: self.attempt,
            call: self.call.copy(alloc)?,
        })
    }
}
