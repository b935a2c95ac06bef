use crate::msg::MsgList;
use crate::record::RecordList;

/// What serving messages gave: the records that were kept, and the messages to send, in their order.
#[derive(Debug, Drop)]
pub struct Handled {
    /// The records of the changes, in their order.
    pub records: RecordList,
    /// The messages to send, in their order.
    pub outputs: MsgList,
}
