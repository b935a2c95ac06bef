//! Floor 2, parts: a walk along a path, with one lookup for each component.
//!
//! It stands on `mds_base` and on `script`, whose spelling of names the components have. `specs/Paths` says which names
//! a path has, `specs/Walks` which asks a walk makes and what it comes to. Its one contract is that of `walk`: the asks
//! that it added to the asker's list are those of the path in their order, and the verdict is the one of their answers;
//! a bad path is told before anything is asked. `laws_of_walks` adds that a path and answers have one walk.
#![tactic(auto)]

mod asker;
mod fault;
mod laws;
mod names;
mod walking;

pub use asker::{Asked, Asker, Lookup};
pub use laws::laws_of_walks;
pub use walking::walk;
