use mds_base::Reply;

/// What a client made of a message.
#[derive(Debug, Drop)]
pub enum Taken {
    /// The open call is answered, with this reply.
    Answer(Reply),
    /// The bitmap of a redirection was merged; this partition is located now.
    Redirected { part: u32 },
    /// The name is in the moving half of this partition; the call stays open.
    Busy { part: u32 },
    /// The change has to wait for this moment; the call stays open.
    Held { until: u64 },
    /// A page of a scan was taken, and it is not the last.
    Paged,
    /// The message is not one of the open call's present sending, or does not fit the call. Nothing changed.
    Ignored,
}
