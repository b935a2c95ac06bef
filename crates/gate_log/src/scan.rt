//! Reading a log from gate to gate.
ghost use Rattle.std.specs.Prelude.{◌≡◌, ◌+◌, ◌^◌, ◌<◌, ◌≤◌, Some, IfOk, IsErrOf};
ghost use Rattle.mds_out.specs.Known.{OnTold};
ghost use Rattle.mds_out.specs.Disk.{IsReading};
ghost use Rattle.gate_log.specs.Found.{IsFound, EndsWithin, AsksToFind};
ghost use Rattle.gate_log.specs.declared.scan.Step.TheVariants as Step;
ghost use Rattle.gate_log.specs.Steps.{IsStep, IsOnward};

use crate::frame::length_at;
use mds_out::{Disk, DiskFault};

/// What stands at the place of a gate.
#[derive(Clone, Copy, Debug, PartialEq, Eq)]
pub(crate) enum Step {
    /// A closed gate, where the log ends.
    Closed,
    /// An open gate and a body; the next gate stands here.
    Body { next: u64 },
    /// An open gate with too few bytes behind it.
    Lacking,
}

/// Where a log ends, or the place at which the file is none.
#[derive(Clone, Copy, Debug, PartialEq, Eq)]
pub(crate) enum Found {
    /// A log of this length.
    End { length: u64 },
    /// An empty file, or an open gate at this place with too few bytes behind it.
    Bad { offset: u64 },
}

/// Goes from gate to gate to the log's end.
pub(crate) fn end_of<D: Disk>(disk: &mut D, file: u32, size: u64) -> Result<Found, DiskFault>
    requires short { size < 2 ^ 63 }
    requires known { D.sizes disk.old file ≡ Some size }
    ensures found { IfOk result (λ found. OnTold (D.seen disk.old file) (IsFound found)) }
    ensures within { IfOk result (EndsWithin size) }
    ensures call { IsReading D.seen D.sizes D.images D.moment D.images_since D.faults D.changes_asked D.lasts D.fails
        disk.old disk.new result }
    ensures asked { IfOk result (AsksToFind (D.asked disk.old) (D.asked disk.new)) }
{
    if size == 0 {
        return Ok(Found::Bad { offset: 0 });
    }
    let mut offset = 0;
    'gates: loop {
        match step_at(disk, file, size, offset)? {
            Step::Closed => return Ok(Found::End { length: offset + 1 }),
            Step::Body { next } => offset = next,
            Step::Lacking => return Ok(Found::Bad { offset }),
        }
    }
}

/// Reads the gate at a place within the file, and the length of its body where it is open.
pub(crate) fn step_at<D: Disk>(
    disk: &mut D,
    file: u32,
    size: u64,
    offset: u64,
) -> Result<Step, DiskFault>
    requires within { offset < size }
    requires short { size < 2 ^ 63 }
    requires known { D.sizes disk.old file ≡ Some size }
    ensures step { IfOk result (λ step. OnTold (D.seen disk.old file) (IsStep offset step)) }
    ensures onward { IfOk result (IsOnward offset size) }
    ensures call { IsReading D.seen D.sizes D.images D.moment D.images_since D.faults D.changes_asked D.lasts D.fails
        disk.old disk.new result }
    ensures asked { D.asked disk.new ≤ D.asked disk.old + 2 }
    ensures asked_once { IfOk result (λ step. step ≡ Step.Closed → D.asked disk.new ≤ D.asked disk.old + 1) }
{
    let mut gate = [0; 1];
    disk.read(file, offset, &mut gate)?;
    if gate[0] != 1 {
        return Ok(Step::Closed);
    }
    match length_at(disk, file, size, offset)? {
        Some(count) => Ok(Step::Body {
            next: offset + 5 + count,
        }),
        None => Ok(Step::Lacking),
    }
}
