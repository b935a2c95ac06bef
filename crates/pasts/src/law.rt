//! How runs over the same disks follow one another.
ghost use Rattle.pasts.specs.Openings.{RunsAreReached, TermsMayChange};

use mds_out::Disk;

/// Disks that a run left are disks to which a past leads: what the past of the run was, and then the run. So each run
/// over disks may begin where the one before it ended, with other clients and another lease too: only how many servers
/// there are and the threshold stay (`crates/pasts/README.md`).
pub fn laws_of_pasts<D: Disk>()
    ensures runs { RunsAreReached D.seen D.images }
    ensures terms { TermsMayChange D.seen D.images }
{}
