//! Who holds which lock, who waits for whom, and when a wait would close a ring. Contracts see the locks as the
//! clients' holders, of which each has the locks that a client holds and the one that it waits for.
#![tactic(auto)]

mod client_locks;
mod index;
mod locks;
mod map_locks;
mod round;
mod want;

pub use locks::Locks;
pub use want::Want;

#[cfg(test)]
mod tests;
