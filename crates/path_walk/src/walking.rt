ghost use Rattle.std.specs.Prelude.{◌≡◌, ◌≤◌, ◌<◌, ◌^◌, ◌++◌, List, length, IfOk, OnErr};
ghost use Rattle.mds_base.specs.declared.walked.Walked.{Walked};
ghost use Rattle.path_walk.specs.declared.asker.Lookup.{Lookup};
ghost use Rattle.path_walk.specs.Walks.{Walks, IsWalk, BeginsWalk, BeginsAlong, root};

use crate::asker::{Asked, Asker};
use crate::fault::PathFault;
use crate::names::names_along;
use mds_base::{Attr, Name, Walked};
use std::alloc::{AllocError, Global};

/// The number of the directory at which each path begins.
const ROOT: u64 = 1;

/// Walks along a path: looks up each component in the directory found so far, from the root on, until the verdict is
/// known. `BadPath` comes before anything is asked. Where it is refused for want of memory, what was answered so far
/// stays asked.
pub fn walk<A: Asker>(alloc: Global, asker: &mut A, path: &[u8]) -> Result<Walked, AllocError>
    ensures ok { IfOk result (λ verdict. (asks : List Lookup)
        × (A.asks asker.new ≡ A.asks asker.old ++ asks) × IsWalk path.now asks verdict) }
    ensures err { OnErr result ((asks : List Lookup)
        × (A.asks asker.new ≡ A.asks asker.old ++ asks) × BeginsWalk path.now asks) }
{
    match names_along(alloc, path) {
        Ok(names) => walk_names(alloc, asker, names.as_slice()),
        Err(PathFault::BadPath { at }) => Ok(Walked::BadPath { at }),
        Err(PathFault::OutOfMemory) => Err(AllocError),
    }
}

/// Walks along names from the root on.
fn walk_names<A: Asker>(alloc: Global, asker: &mut A, names: &[Name]) -> Result<Walked, AllocError>
    requires { length names.now ≤ 2 ^ 32 }
    ensures ok { IfOk result (λ verdict. (asks : List Lookup)
        × (A.asks asker.new ≡ A.asks asker.old ++ asks) × Walks 0 root names.now asks verdict) }
    ensures err { OnErr result ((asks : List Lookup)
        × (A.asks asker.new ≡ A.asks asker.old ++ asks) × BeginsAlong (Ok names.now) asks) }
{
    let mut here = Attr::new_directory(ROOT);
    for (at, name) in names.iter().enumerate() {
        let place = at as u32;
        match asker.ask(alloc, here.dir, name)? {
            Asked::Found(attr) => {
                if attr.is_file() && at + 1 < names.len() {
                    return Ok(Walked::NotDir { at: place });
                }
                here = attr;
            }
            Asked::Missing => return Ok(Walked::Missing { at: place }),
            Asked::Unanswered => return Ok(Walked::Open { at: place }),
        }
    }
    Ok(Walked::Found(here))
}
