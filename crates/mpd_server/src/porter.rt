//! Who is told that clients come and leave.

/// Who is told that clients come and leave. No contract speaks of these calls, and nothing depends
/// on them.
pub trait Porter: Sync {
    /// The client of this number, from 0, was accepted; `clients` are to come in all. Called before
    /// the client is served.
    fn has_come(&self, client: usize, clients: usize);

    /// The client of this number has left, after `requests` requests. Called on its own thread.
    fn has_left(&self, client: usize, requests: usize);
}
