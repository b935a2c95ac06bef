use mds_base::{Attr, RowKey};

/// A row of a table: a key, and the attributes that it has, or none where the row is a tombstone, which says that the
/// key has none any more.
#[derive(Debug, Drop)]
pub struct TableRow {
    /// Where the row stands.
    pub key: RowKey,
    /// Its attributes; `None` for a tombstone.
    pub attr: Option<Attr>,
}

/// What a table says of a key.
#[derive(Clone, Copy, Debug, PartialEq, Eq)]
pub enum Held {
    /// It has no row of this key.
    Absent,
    /// It has a tombstone.
    Tomb,
    /// It has a row with these attributes.
    Row(Attr),
}
