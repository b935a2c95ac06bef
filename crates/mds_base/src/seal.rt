/// What a partition allows of its directory's removal.
#[derive(Clone, Copy, Debug, PartialEq, Eq)]
pub enum SealMode {
    /// Entries may be made.
    Free,
    /// No entry may be made until the seal is taken off.
    Sealed,
    /// The directory is removed: no entry is ever made again.
    Dead,
}

/// The seal of a partition.
#[derive(Clone, Copy, Debug, PartialEq, Eq)]
pub struct SealState {
    /// The number of the last seal, at most 2^48 - 1; 0 before the first.
    pub epoch: u64,
    /// What it allows.
    pub mode: SealMode,
}
