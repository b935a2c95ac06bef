//! What a restart of a disk in memory leaves.

/// What a crash does to what was written and not synced.
#[derive(Clone, Copy, Debug, PartialEq, Eq)]
pub enum Outcome {
    /// It is gone: each file is as its last sync left it.
    Old,
    /// It is all there.
    New,
    /// Of each written range the first half is there, and each other byte of it is a5. Of an odd number of bytes
    /// the first half is the shorter one.
    Mixed,
}
