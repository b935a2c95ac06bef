//! A place where a caller can be held.

/// Lets calls pass. It promises nothing; a test holds a call there.
///
/// It is called once for each request that a caller hands to a server, by the thread that holds that server's lock and
/// no other lock.
pub trait Gate {
    /// Returns when this call may go on.
    fn pass(&self, client: u32, seq: u64);
}
