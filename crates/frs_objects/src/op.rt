//! What changes the maps.
use frs_types::{Key, MapId, Value};

/// One change of the maps.
#[derive(Debug, Drop)]
pub enum Op {
    /// Sets the value of a key. The entry bears this LSN.
    Put {
        id: MapId,
        key: Key,
        value: Value,
        lsn: u64,
    },
    /// Takes a key out of its map.
    Remove {
        id: MapId,
        key: Key,
    },
    /// Takes every key of a map out.
    Delete {
        id: MapId,
    },
}
