//! What was read back of a store.
use frs_segment::Found;
use frs_types::{Entry, Sequence};

/// A store as it was read back.
#[derive(Debug, Drop)]
pub struct Recovered {
    /// The entries of its maps, by rising LSN.
    pub entries: Sequence<Entry>,
    /// What was found in its files.
    pub found: Found,
    /// The lowest LSN that is still needed: the least of the entries' LSNs, of the begins that no later commit,
    /// abandon or mark ends, and of the next LSN.
    pub lowest: u64,
}
