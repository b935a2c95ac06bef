//! Reads a path: the names of its components.
ghost use Rattle.std.specs.Prelude.{◌≡◌, ◌<◌, ◌≤◌, ◌^◌, ◌==◌, length, slice_index, IfOk};
ghost use Rattle.path_walk.specs.Paths.{names_along, Reads, ReadsOne};
ghost use Rattle.script.specs.Reading.{name_of};

use crate::fault::PathFault;
use mds_base::Name;
use script::{LineFault, name_of};
use std::alloc::Global;

/// The names along a path, in their order. `BadPath` has the place of the first component that spells none.
pub(crate) fn names_along(alloc: Global, path: &[u8]) -> Result<Vec<Name>, PathFault>
    ensures names { Reads (λ names. names.items) result (names_along path.now) }
    ensures few { IfOk result (λ names. length names.items ≤ 2 ^ 32) }
{
    if !begins_with_slash(path) {
        return Err(PathFault::BadPath { at: 0 });
    }
    let mut names = Vec::new(alloc);
    for component in path
        .split(|byte| *byte == b'/')
        .filter(|piece| !piece.is_empty())
    {
        let name = name_at(alloc, names.len(), component)?;
        names.push(name)?;
    }
    Ok(names)
}

fn begins_with_slash(path: &[u8]) -> bool
    ensures { result ≡ (slice_index path.now 0 == 47) }
{
    match path {
        [] => false,
        [first, ..] => *first == b'/',
    }
}

/// The name that the component at this place spells. Places past those of a verdict are more than memory has.
fn name_at(alloc: Global, at: usize, component: &[u8]) -> Result<Name, PathFault>
    ensures name { ReadsOne result at (name_of component.now) }
    ensures few { IfOk result (λ _. at < 2 ^ 32) }
{
    let Ok(at) = u32::try_from(at) else {
        return Err(PathFault::OutOfMemory);
    };
    match name_of(alloc, component) {
        Ok(name) => Ok(name),
        Err(LineFault::NotALine) => Err(PathFault::BadPath { at }),
        Err(LineFault::OutOfMemory) => Err(PathFault::OutOfMemory),
    }
}
