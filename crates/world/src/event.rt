use bitmap::Bitmap;
use mds_base::{Call, PlaceList, Walked};

/// How a Serve ends.
#[derive(Clone, Copy, Debug, PartialEq, Eq)]
pub enum ServeEnd {
    /// The records are kept, and the messages are sent.
    Done,
    /// The records are in doubt, nothing is sent, and the server is down.
    Stop,
}

/// Why a server stops.
#[derive(Clone, Copy, Debug, PartialEq, Eq)]
pub enum StopCause {
    /// It was asked to.
    Asked,
    /// Its device failed.
    Device,
}

/// What happens in a world, one row of the table of events each (`crates/world/README.md`, "Events").
#[derive(Debug, Drop)]
pub enum Event {
    /// The client's next call is sent for the first time.
    Issue {
        client: u32,
        call: Call,
    },
    /// The client's open call is sent again.
    Resend {
        client: u32,
    },
    /// The server serves these messages in order.
    Serve {
        server: u32,
        places: PlaceList,
        how: ServeEnd,
    },
    /// The message meets a server that is down.
    Miss {
        message: u64,
    },
    /// The client takes the message, or ignores it.
    Take {
        client: u32,
        message: u64,
    },
    /// The client's next call is answered by its cache.
    Cached {
        client: u32,
        call: Call,
    },
    /// The client merges a bitmap that other clients know.
    Hint {
        client: u32,
        dir: u64,
        bitmap: Bitmap,
    },
    /// The server sends the transfer of each of its partitions that moves.
    Remind {
        server: u32,
    },
    /// The server stops.
    Stop {
        server: u32,
        cause: StopCause,
    },
    /// The server is up again, with so many of the records in doubt.
    Restart {
        server: u32,
        kept: u32,
    },
    /// The moment rises.
    Tick {
        by: u64,
    },
    /// The client's open call stays unanswered, and it makes no further call.
    GiveUp {
        client: u32,
    },
    /// The verdict of a walk.
    Verdict {
        client: u32,
        verdict: Walked,
    },
}
