//! The commands of the script language.
use frs_types::{Key, MapId, Value};

/// A command of a client.
#[derive(Debug, Drop)]
pub enum Command {
    /// Begins a transaction. A synchronous one is acknowledged once its commit is durable.
    Begin { sync: bool },
    /// Sets the value of a key.
    Put { id: MapId, key: Key, value: Value },
    /// Takes a key out of its map.
    Remove { id: MapId, key: Key },
    /// Takes every key of a map out.
    Delete { id: MapId },
    /// Asks for the value of a key.
    Get { id: MapId, key: Key },
    /// Makes the changes of the transaction, and ends it.
    Commit,
    /// Asks for a copy of the store as it is at this place.
    Snapshot,
}

/// A command, and where it stands.
#[derive(Debug, Drop)]
pub struct Line {
    /// The number of the line in its file, from 1.
    pub number: u32,
    /// The command.
    pub command: Command,
}
