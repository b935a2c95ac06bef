ghost use Rattle.std.specs.Prelude.{◌≡◌, IfOk};

use crate::name::Name;
use std::alloc::{AllocError, Global};

/// A place between the rows of a directory, from which a scan goes on (`crates/mds_base/README.md`, "Past the cursor").
#[derive(Debug, Drop)]
pub struct Cursor {
    /// The reversed hash at which the cursor stands.
    pub at: u64,
    /// The name at this reversed hash behind which the cursor stands; `None` is before all of its names.
    pub after: Option<Name>,
}

impl Cursor {
    /// A copy of the cursor; it is refused only where there is no memory for it.
    pub fn copy(&self, alloc: Global) -> Result<Cursor, AllocError>
        ensures { IfOk result (λ cursor. cursor ≡ self.now) }
    {
        let after = match &self.after {
            None => None,
            Some(name) => Some(name.copy(alloc)?),
        };
        Ok(Cursor { at: self.at, after })
    }
}
