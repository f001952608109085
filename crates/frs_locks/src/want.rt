//! What a client that wants a lock is told.

/// The answer to a client that wants a lock.
#[derive(Clone, Copy, Debug, PartialEq, Eq)]
pub enum Want {
    /// It holds the lock.
    Held,
    /// It waits. `holder` is the least client that hinders it.
    Waits {
        /// The client.
        holder: u32,
    },
    /// Its wait would close a ring. `via` is the least client that hinders it and from which the ring comes back.
    Ring {
        /// The client.
        via: u32,
    },
}
