//! From which disks the first run starts.
ghost use Rattle.mds_cli.specs.Fresh.{NewDisksAreReached, NewMemoriesAreReached};

use mds_out::Disk;

/// Disks that nobody has written yet, one for each server, are disks to which the empty past leads. So the theorem of
/// `giga_solo` holds of the first run over them, and then of each run over what the one before it left. Disks in memory
/// to which nothing was done are such disks.
pub fn laws_of_new_disks<D: Disk>()
    ensures any { NewDisksAreReached D.seen D.images }
    ensures memory { NewMemoriesAreReached }
{}
