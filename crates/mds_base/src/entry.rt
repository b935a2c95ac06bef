use crate::call::Call;
use crate::reply::Reply;

/// An entry of a history: a call of a client, and the reply that it got.
#[derive(Debug, Drop)]
pub struct Entry {
    /// The client, from 1.
    pub client: u32,
    /// The number of the call among the client's calls, from 1.
    pub seq: u64,
    /// The call.
    pub call: Call,
    /// Its reply.
    pub reply: Reply,
}
