use mds_base::{Attr, RowKey};

/// A change of one key.
#[derive(Debug, Drop)]
pub struct Change {
    /// The key.
    pub key: RowKey,
    /// The row that it then has, or `None` where it has none.
    pub attr: Option<Attr>,
}
