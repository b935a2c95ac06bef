/// A range of partitions' hashes, reversed: all places from `first` to `last` (`crates/chains/README.md`, "Reversed
/// hash").
#[derive(Debug, Clone, Copy, PartialEq, Eq)]
pub struct Span {
    /// The least reversed hash of the range.
    pub first: u64,
    /// The greatest reversed hash of the range.
    pub last: u64,
}
