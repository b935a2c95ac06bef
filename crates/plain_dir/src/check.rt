//! Whether a list of calls with their replies is a legal history.
ghost use Rattle.std.specs.Prelude.{IfOk};
ghost use Rattle.plain_dir.specs.Checks.{IsCheckOf};

use crate::directory::PlainDir;
use crate::numbers::Numbers;
use mds_base::Entry;
use std::alloc::{AllocError, Global};

/// What a list of entries is as a history that begins with no entry of any directory.
#[derive(Clone, Copy, Debug, PartialEq, Eq)]
pub enum Check {
    /// It is legal.
    Legal,
    /// The entry at this place, counted from 0, is the first that may not follow those before it: a scan, a reply
    /// that the plain rules do not allow, or a directory number that is below 2 or was given before.
    Breaks { place: u64 },
}

/// Tests whether the entries are a legal history (`crates/mds_base/README.md`, "Legal history"). The ends of leases are
/// not compared. It is refused only where there is no memory for the plain directory.
pub fn check_history(alloc: Global, history: &[Entry]) -> Result<Check, AllocError>
    ensures { IfOk result (IsCheckOf history.now) }
{
    let mut dir = PlainDir::new(alloc);
    let mut numbers = Numbers::new(alloc);
    for (place, entry) in history.iter().enumerate() {
        if !dir.takes(alloc, &entry.call, &entry.reply)? {
            return Ok(Check::Breaks {
                place: place as u64,
            });
        }
        if !numbers.give(&entry.call, &entry.reply)? {
            return Ok(Check::Breaks {
                place: place as u64,
            });
        }
    }
    Ok(Check::Legal)
}
