/// The place of a block: its file's number, and its own in the file.
#[derive(Clone, Copy, Debug, PartialEq, Eq, Hash)]
pub struct Place {
    /// The number of the file.
    pub file: u32,
    /// The number of the block in it, from 0 up.
    pub block: u64,
}
