ghost use Rattle.std.specs.Prelude.{◌≡◌, ◌∷◌, ◌++◌, [], List, IfOk, OnErr};

use mds_base::{Attr, Name};
use std::alloc::{AllocError, Global};

/// How a name was looked up.
#[derive(Clone, Copy, Debug, PartialEq, Eq)]
pub enum Asked {
    /// The name has these attributes.
    Found(Attr),
    /// The directory has no such name.
    Missing,
    /// There was no answer.
    Unanswered,
}

/// A name that was looked up in a directory, and how.
#[derive(Debug, Drop)]
pub struct Lookup {
    /// The number of the directory.
    pub dir: u64,
    /// The name.
    pub name: Name,
    /// The answer.
    pub answer: Asked,
}

/// Who looks names up, however it is done.
pub trait Asker {
    ghost use Rattle.path_walk.specs.declared.asker.Lookup.{Lookup};

    /// All that was asked and answered so far, in its order.
    ghost asks: { Self → List Lookup };

    /// Looks a name up in the directory of this number. A refused ask, for want of memory, does not count.
    fn ask(&mut self, alloc: Global, dir: u64, name: &Name) -> Result<Asked, AllocError>
        ensures ok { IfOk result (λ answer. asks self.new
            ≡ asks self.old ++ record { dir = dir; name = name.now; answer = answer } ∷ []) }
        ensures err { OnErr result (asks self.new ≡ asks self.old) };
}
