//! Who holds which locks of one map.
ghost use Rattle.std.specs.Prelude.{◌≡◌, ◌<◌, ◌==◌, ◌||◌, ℕ, List, false, None, Some, OnOk, OnErr, if◌then◌else◌};
ghost use Rattle.std.specs.Str.{bytes_eq};
ghost use Rattle.frs_locks.specs.Index.{SaysSame, holds_key, holds_some_key};

use frs_types::{CLIENT_LIMIT, Key, NoMemory};
use std::alloc::Global;
use std::collections::BTreeMap;

/// One more than the most clients: client 0 has a place of its own.
pub const PLACES: usize = CLIENT_LIMIT as usize + 1;

/// Who holds the map, which clients hold keys of it, and who holds each key.
#[derive(Drop)]
pub struct MapLocks {
    pub whole: Option<u32>,
    pub clients: [bool; PLACES],
    pub keys: BTreeMap<Key, u32>,
}

impl MapLocks {
    /// Nobody holds anything. Takes no memory.
    pub fn new(alloc: Global) -> MapLocks
        ensures { SaysSame None (Some result) }
    {
        MapLocks {
            whole: None,
            clients: [false; PLACES],
            keys: BTreeMap::new(alloc),
        }
    }

    /// The client takes the key.
    pub fn take_key(&mut self, client: u32, key: Key) -> Result<(), NoMemory>
        requires { client < PLACES }
        ensures whole { self.new.whole ≡ self.old.whole }
        ensures clients { OnOk result ((d : ℕ) → holds_some_key (Some self.new) d
            ≡ ((client == d) || holds_some_key (Some self.old) d)) }
        ensures keys { OnOk result ((k : List ℕ) (d : ℕ) → holds_key (Some self.new) k d
            ≡ if bytes_eq k key then client == d else holds_key (Some self.old) k d) }
        ensures refused { OnErr result (SaysSame (Some self.old) (Some self.new)) }
    {
        self.keys.insert(key, client)?;
        self.clients[client as usize] = true;
        Ok(())
    }

    /// The client gives the key back, and is no longer one of those that hold keys.
    pub fn drop_key(&mut self, client: u32, key: &Key)
        requires { client < PLACES }
        ensures whole { self.new.whole ≡ self.old.whole }
        ensures clients { (d : ℕ) → holds_some_key (Some self.new) d
            ≡ if client == d then false else holds_some_key (Some self.old) d }
        ensures keys { (k : List ℕ) (d : ℕ) → holds_key (Some self.new) k d
            ≡ if bytes_eq k key.now then false else holds_key (Some self.old) k d }
    {
        self.clients[client as usize] = false;
        self.keys.remove(key);
    }

    /// Whether the client holds the key.
    pub fn has_key(&self, client: u32, key: &Key) -> bool
        ensures { result ≡ holds_key (Some self.now) key.now client }
    {
        match self.keys.get(key) {
            Some(owner) => *owner == client,
            None => false,
        }
    }
}
