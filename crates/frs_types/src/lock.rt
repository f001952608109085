//! What a client can lock.
use crate::word::{Key, MapId};

/// An exclusive lock: on one key of one map, or on a whole map.
#[derive(Debug, Drop)]
pub enum Lock {
    /// On one key.
    OnKey { id: MapId, key: Key },
    /// On every key of a map.
    OnMap { id: MapId },
}
