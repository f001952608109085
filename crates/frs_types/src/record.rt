//! What a record of the log says, and an entry of the maps.
use crate::word::{Key, MapId, Value};

/// What a record says.
#[derive(Debug, Drop)]
pub enum Action {
    /// Sets the value of a key.
    Put { id: MapId, key: Key, value: Value },
    /// Takes a key out of its map.
    Remove { id: MapId, key: Key },
    /// Takes every key of a map out.
    Delete { id: MapId },
    /// Begins a transaction, whose name is the LSN of this record.
    Begin,
    /// Makes the changes of a transaction, and ends it.
    Commit,
    /// Repeats an entry whose record is old, so that the log can be dropped up to there.
    Compaction { id: MapId, key: Key, value: Value },
    /// Stands at each opening and each clean close, and ends every transaction that is open.
    Mark,
    /// Ends a transaction without its changes.
    Abandon,
}

/// A record of the log. Its LSN follows from its place.
#[derive(Debug, Drop)]
pub struct Record {
    /// The name of the transaction, or 0 for a change that is a commit of its own.
    pub tx: u64,
    /// The lowest LSN that was still needed when the record was written.
    pub lowest: u64,
    /// The LSN of the record that this one replaces, or 0.
    pub named: u64,
    /// What it says.
    pub action: Action,
}

/// A value of the maps, and the LSN of the record from which it comes.
#[derive(Debug, Drop)]
pub struct Entry {
    /// The map.
    pub id: MapId,
    /// The key in it.
    pub key: Key,
    /// Its value.
    pub value: Value,
    /// The LSN of the put or compaction record from which the value comes.
    pub lsn: u64,
}
