use crate::byte_list::ByteList;
use mds_base::{Call, Name, PlaceList};

/// What a line of a script says.
#[derive(Debug, Drop)]
pub enum Line {
    /// Nothing: the line has no word, or is a comment.
    Skipped,
    /// The client makes a call, which is followed to its answer.
    Call {
        /// From 1 to the number of clients.
        client: u32,
        call: Call,
    },
    /// The client makes a call, which is sent.
    Issue {
        /// From 1 to the number of clients.
        client: u32,
        call: Call,
    },
    /// The client sends its open call again.
    Retry {
        /// From 1 to the number of clients.
        client: u32,
    },
    /// A message is served.
    Deliver {
        /// Its number in the list of all sent messages, counted from 0.
        message: u64,
    },
    /// Messages are served together, in this order.
    Batch {
        /// Below the number of servers.
        server: u32,
        /// From 1 to 64 places in the list of all sent messages, counted from 0; one may stand more than once.
        places: PlaceList,
    },
    /// The client takes a message.
    Take {
        /// From 1 to the number of clients.
        client: u32,
        /// The message's number in the list of all sent messages, counted from 0.
        message: u64,
    },
    /// All messages that may be served are served, the first one first.
    Settle,
    /// The server sends the transfers of its open splits again.
    Remind {
        /// Below the number of servers.
        server: u32,
    },
    /// Time passes.
    Tick {
        /// By so many moments, from 1 to 2^32.
        by: u64,
    },
    /// The disk of a server is to fail.
    Fuse {
        /// Below the number of servers.
        server: u32,
        /// After so many calls, at most 2^32.
        calls: u64,
    },
    /// A server is stopped.
    Stop {
        /// Below the number of servers.
        server: u32,
    },
    /// A server is started again.
    Restart {
        /// Below the number of servers.
        server: u32,
    },
    /// The client walks a path.
    Walk {
        /// From 1 to the number of clients.
        client: u32,
        /// One word, as it stands. Whether its components are names is not tested here.
        path: ByteList,
    },
    /// The client builds a tree, which it loads and then links under a name.
    Bulk {
        /// From 1 to the number of clients.
        client: u32,
        /// From 1 to 2^48 - 1.
        dir: u64,
        name: Name,
        /// The rest of the line, as it stands. Whether it is a tree is not tested here.
        json: ByteList,
    },
    /// The client removes a directory that has no entry.
    Rmdir {
        /// From 1 to the number of clients.
        client: u32,
        /// The directory in which the entry stands, from 1 to 2^48 - 1.
        dir: u64,
        name: Name,
    },
    /// The standby of a server takes the server's records.
    Feed {
        /// Below the number of servers.
        server: u32,
    },
    /// The standby of a server takes the server's place.
    Promote {
        /// Below the number of servers.
        server: u32,
    },
}
