/// Whether a partition's moving half is on its way to another partition.
#[derive(Clone, Copy, Debug, PartialEq, Eq)]
pub enum SplitState {
    /// The partition serves all its names.
    Quiet,
    /// The half of the partition whose names have this bit of their hashes set is frozen, and moves.
    Moving { depth: u32 },
}
