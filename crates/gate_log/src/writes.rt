//! The writes of a log, each synced before the next.
ghost use Rattle.std.specs.Prelude.{◌≡◌, ◌+◌, ◌-◌, ◌^◌, ◌<◌, ◌≤◌, ◌++◌, ◌∷◌, [], List, ℕ, max, false, length, OnOk};
ghost use Rattle.std.specs.Prelude.{OnErr, IsErrOf, Some};
ghost use Rattle.mds_out.specs.Known.{OnKnown, OnTold};
ghost use Rattle.mds_out.specs.Disk.{Image, Tells, put, LeavesOnly, IsElsewhereUnchanged, StaysTold, IsChanging};
ghost use Rattle.mds_out.specs.Calls.{next_number};
ghost use Rattle.gate_log.specs.Calls.{Asks};
ghost use Rattle.gate_log.specs.Log.{IsBeforeOrAfter};
ghost use Rattle.gate_log.specs.LogState.{IsWrittenOver, IsElsewhereOld, IsReady, HasBodies, open_log};

use crate::Piece;
use mds_out::{Disk, DiskFault};

/// Writes bytes and syncs the file. A crash at any moment leaves an image from before, with the write or a part of it.
pub(crate) fn write_synced<D: Disk>(
    disk: &mut D,
    file: u32,
    at: u64,
    bytes: &[u8],
) -> Result<(), DiskFault>
    requires short { at + length bytes.now < 2 ^ 63 }
    requires within { OnTold (D.sizes disk.old file) (λ size. at ≤ size) }
    ensures written { OnOk result
        (Tells (D.seen disk.old file) (D.seen disk.new file) (λ old new. new ≡ put old at bytes.now)) }
    ensures size { OnOk result
        (OnKnown (D.sizes disk.old file) (D.sizes disk.new file) (λ old new. new ≡ max old (at + length bytes.now))) }
    ensures told { StaysTold (D.seen disk.old file) (D.seen disk.new file) }
    ensures durable { OnOk result
        (OnTold (D.seen disk.new file) (λ now. (image : Image) → D.images disk.new image → image file ≡ now)) }
    ensures elsewhere { IsElsewhereUnchanged file (D.seen disk.old) (D.seen disk.new) (D.sizes disk.old)
        (D.sizes disk.new) }
    ensures any_moment { LeavesOnly D.moment D.images_since disk.old disk.new
        (IsWrittenOver file at (length bytes.now) (D.images disk.old)) }
    ensures crash { (image : Image) → D.images disk.new image
        → IsWrittenOver file at (length bytes.now) (D.images disk.old) image }
    ensures call { IsChanging D.faults D.lasts D.fails disk.old disk.new result }
    ensures asked { Asks 2 (D.asked disk.old) (D.asked disk.new) result }
    ensures changes { D.changes_asked disk.new ≡ next_number (D.changes_asked disk.old) }
{
    disk.write_at(file, at, bytes)?;
    disk.sync(file)
}

/// Appends a piece at the end of a log: four calls of the disk.
pub(crate) fn append_at<D: Disk>(
    disk: &mut D,
    file: u32,
    end: u64,
    piece: &Piece,
) -> Result<(), DiskFault>
    requires short { end ≤ 2 ^ 62 }
    requires ready { IsReady (open_log file end) (D.seen disk.old) (D.sizes disk.old) (D.images disk.old) }
    ensures ready { OnOk result
        (IsReady (open_log file (end + 5 + length piece.now)) (D.seen disk.new) (D.sizes disk.new)
        (D.images disk.new)) }
    ensures appended { OnOk result ((bodies : List (List ℕ)) → HasBodies (open_log file end) (D.seen disk.old) bodies
        → HasBodies (open_log file (end + 5 + length piece.now)) (D.seen disk.new) (bodies ++ piece.now ∷ [])) }
    ensures any_moment { (bodies : List (List ℕ)) → HasBodies (open_log file end) (D.seen disk.old) bodies
        → OnTold (D.seen disk.old file) (λ _. LeavesOnly D.moment D.images_since disk.old disk.new
        (λ image. IsBeforeOrAfter bodies piece.now (image file))) }
    ensures told { StaysTold (D.seen disk.old file) (D.seen disk.new file) }
    ensures elsewhere { IsElsewhereUnchanged file (D.seen disk.old) (D.seen disk.new) (D.sizes disk.old)
        (D.sizes disk.new) }
    ensures images_elsewhere { LeavesOnly D.moment D.images_since disk.old disk.new
        (IsElsewhereOld file (D.images disk.old)) }
    ensures call { IsChanging D.faults D.lasts D.fails disk.old disk.new result }
    ensures asked { Asks 4 (D.asked disk.old) (D.asked disk.new) result }
    ensures changes { Asks 2 (D.changes_asked disk.old) (D.changes_asked disk.new) result }
{
    write_synced(disk, file, end, piece.bytes())?;
    write_synced(disk, file, end - 1, &[1])
}
