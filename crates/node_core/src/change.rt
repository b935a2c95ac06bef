use mds_base::Session;
use partition::EditList;

/// A change of one partition that is still to be made: a change of a client is noted in it, and its rows are edited.
#[derive(Debug, Drop)]
pub struct Change {
    /// The partition's directory.
    pub dir: u64,
    /// The partition.
    pub part: u32,
    /// What becomes of its rows, in this order.
    pub edits: EditList,
    /// What is noted of a client.
    pub session: Session,
    /// How many rows the partition then has.
    pub count: u64,
}
