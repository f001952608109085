//! The index of the locks by their maps.
ghost use Rattle.std.specs.Prelude.{◌≡◌, ◌<◌, ◌==◌, ◌&&◌, ◌||◌, ◌∷◌, ℕ, List, Option, false, length, reverse, slice_set, IsSome, OnOk, OnErr, if◌then◌else◌};
ghost use Rattle.std.specs.Str.{bytes_eq};
ghost use Rattle.frs_types.specs.declared.lock.Lock.{Lock};
ghost use Rattle.frs_types.specs.Locks.{Holders, holder_at, nobody};
ghost use Rattle.frs_locks.specs.Index.{IsIndexOf, LeavesTo, NoOther, SaysSame, map_at, holds_map, holds_key, holds_some_key};

use crate::map_locks::{MapLocks, PLACES};
use frs_types::{Key, Lock, MapId, NoMemory};
use std::alloc::Global;
use std::collections::BTreeMap;

/// Has something of the map.
pub fn make_map(
    maps: &mut BTreeMap<MapId, MapLocks>,
    alloc: Global,
    id: &MapId,
) -> Result<(), NoMemory>
    ensures same { (q : List ℕ) → SaysSame (map_at maps.old q) (map_at maps.new q) }
    ensures there { OnOk result (IsSome (map_at maps.new id.now)) }
{
    if !maps.contains_key(id) {
        maps.insert(id.copy(alloc)?, MapLocks::new(alloc))?;
    }
    Ok(())
}

/// The client takes the map's key, of which something is had.
pub fn take_key(
    maps: &mut BTreeMap<MapId, MapLocks>,
    client: u32,
    id: &MapId,
    key: Key,
) -> Result<(), NoMemory>
    requires in_range { client < PLACES }
    requires there { IsSome (map_at maps.old id.now) }
    ensures map { OnOk result ((q : List ℕ) (d : ℕ) → holds_map (map_at maps.new q) d
        ≡ holds_map (map_at maps.old q) d) }
    ensures key { OnOk result ((q k : List ℕ) (d : ℕ) → holds_key (map_at maps.new q) k d
        ≡ if bytes_eq q id.now && bytes_eq k key then client == d
        else holds_key (map_at maps.old q) k d) }
    ensures some_key { OnOk result ((q : List ℕ) (d : ℕ) → holds_some_key (map_at maps.new q) d
        ≡ ((bytes_eq q id.now && (client == d)) || holds_some_key (map_at maps.old q) d)) }
    ensures refused { OnErr result ((q : List ℕ)
        → SaysSame (map_at maps.old q) (map_at maps.new q)) }
{
    if let Some(m) = maps.get_mut(id) {
        m.take_key(client, key)?;
    }
    Ok(())
}

/// The client takes the map, of which something is had.
pub fn take_map(maps: &mut BTreeMap<MapId, MapLocks>, client: u32, id: &MapId)
    requires there { IsSome (map_at maps.old id.now) }
    ensures map { (q : List ℕ) (d : ℕ) → holds_map (map_at maps.new q) d
        ≡ if bytes_eq q id.now then client == d else holds_map (map_at maps.old q) d }
    ensures key { (q k : List ℕ) (d : ℕ) → holds_key (map_at maps.new q) k d
        ≡ holds_key (map_at maps.old q) k d }
    ensures some_key { (q : List ℕ) (d : ℕ) → holds_some_key (map_at maps.new q) d
        ≡ holds_some_key (map_at maps.old q) d }
{
    if let Some(m) = maps.get_mut(id) {
        m.whole = Some(client);
    }
}

/// The client gives the map's key back, and is no longer one of those that hold keys of it.
pub fn drop_key(maps: &mut BTreeMap<MapId, MapLocks>, client: u32, id: &MapId, key: &Key)
    requires { client < PLACES }
    ensures map { (q : List ℕ) (d : ℕ) → holds_map (map_at maps.new q) d
        ≡ holds_map (map_at maps.old q) d }
    ensures key { (q k : List ℕ) (d : ℕ) → holds_key (map_at maps.new q) k d
        ≡ if bytes_eq q id.now && bytes_eq k key.now then false
        else holds_key (map_at maps.old q) k d }
    ensures some_key { (q : List ℕ) (d : ℕ) → holds_some_key (map_at maps.new q) d
        ≡ if bytes_eq q id.now && (client == d) then false
        else holds_some_key (map_at maps.old q) d }
{
    if let Some(m) = maps.get_mut(id) {
        m.drop_key(client, key);
    }
}

/// Nobody holds the map as a whole any more.
pub fn drop_map(maps: &mut BTreeMap<MapId, MapLocks>, id: &MapId)
    ensures map { (q : List ℕ) (d : ℕ) → holds_map (map_at maps.new q) d
        ≡ if bytes_eq q id.now then false else holds_map (map_at maps.old q) d }
    ensures key { (q k : List ℕ) (d : ℕ) → holds_key (map_at maps.new q) k d
        ≡ holds_key (map_at maps.old q) k d }
    ensures some_key { (q : List ℕ) (d : ℕ) → holds_some_key (map_at maps.new q) d
        ≡ holds_some_key (map_at maps.old q) d }
{
    if let Some(m) = maps.get_mut(id) {
        m.whole = None;
    }
}

/// The client takes a lock that nobody else holds.
pub fn take_lock(
    maps: &mut BTreeMap<MapId, MapLocks>,
    alloc: Global,
    client: u32,
    lock: &Lock,
) -> Result<(), NoMemory>
    requires { client < PLACES }
    ensures taken { OnOk result ((hs : Holders) (waits : Option Lock) → IsIndexOf maps.old hs
        → client < length hs → NoOther hs client lock.now → IsIndexOf maps.new (slice_set hs client
        (record { locks = lock.now ∷ (holder_at hs client).locks; waits = waits }))) }
    ensures refused { OnErr result ((hs : Holders) → IsIndexOf maps.old hs
        → IsIndexOf maps.new hs) }
{
    match lock {
        Lock::OnKey { id, key } => {
            let key = key.copy(alloc)?;
            make_map(maps, alloc, id)?;
            take_key(maps, client, id, key)?;
            Ok(())
        }
        Lock::OnMap { id } => {
            make_map(maps, alloc, id)?;
            take_map(maps, client, id);
            Ok(())
        }
    }
}

// The client gives back one lock more.
fn drop_lock(maps: &mut BTreeMap<MapId, MapLocks>, client: u32, lock: &Lock)
    requires { client < PLACES }
    ensures { (hs : Holders) (rest : List Lock) → LeavesTo maps.old hs client (lock.now ∷ rest)
        → NoOther hs client lock.now → LeavesTo maps.new hs client rest }
{
    match lock {
        Lock::OnKey { id, key } => drop_key(maps, client, id, key),
        Lock::OnMap { id } => drop_map(maps, id),
    }
}

/// The client gives back all its locks.
pub fn drop_all(maps: &mut BTreeMap<MapId, MapLocks>, client: u32, locks: &[Lock])
    requires { client < PLACES }
    ensures { (hs : Holders) → IsIndexOf maps.old hs → client < length hs
        → reverse locks.now ≡ (holder_at hs client).locks
        → IsIndexOf maps.new (slice_set hs client nobody) }
{
    for lock in locks {
        drop_lock(maps, client, lock);
    }
}
