use mds_base::Attr;

/// What a lookup found, and until when it may be answered again.
#[derive(Clone, Copy, Debug, PartialEq, Eq)]
pub struct Lease {
    /// The attributes that were found.
    pub attr: Attr,
    /// The moment at which the lease on them ends.
    pub until: u64,
}
