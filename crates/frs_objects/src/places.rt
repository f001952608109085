//! Which entry stands at a place, a place being the id of a map and a key of it.
ghost use Rattle.std.specs.Prelude.{◌≡◌, List, ℕ, cond, None, Some, OnOk, OnErr, IsSome, ◌+◌, ◌<◌, ◌^◌};
ghost use Rattle.std.specs.Str.{bytes_eq};
ghost use Rattle.std.specs.BTreeMap.{get};
ghost use Rattle.std.specs.Ordering.{nat_cmp};
ghost use Rattle.std.specs.Cmp.Lexicographic.{slice_cmp};
ghost use Rattle.frs_types.specs.Maps.{Place, same_place};
ghost use Rattle.frs_objects.specs.Slots.{slot_at, slot_if_used, slot_without_entry};
ghost use Rattle.frs_objects.specs.Index.{wanted_in, wanted_more};

use frs_types::{Key, MapId, NoMemory};
use std::alloc::Global;
use std::collections::BTreeMap;

/// What is known of a place: the LSN of its entry, where it has one, and how many puts that are still to be made need
/// the place.
#[derive(Clone, Copy)]
pub struct Slot {
    pub lsn: Option<u64>,
    pub wanted: u64,
}

/// The places, map by map.
#[derive(Drop)]
pub struct Places {
    pub maps: BTreeMap<MapId, BTreeMap<Key, Slot>>,
}

impl Places {
    /// No places.
    pub fn new(alloc: Global) -> Places
        ensures { (p : Place) → slot_at result.maps p ≡ None }
    {
        Places {
            maps: BTreeMap::new(alloc),
        }
    }

    /// What is known of a place.
    pub fn slot(&self, id: &MapId, key: &Key) -> Option<Slot>
        ensures { result ≡ slot_at self.now.maps (id.now, key.now) }
    {
        match self.maps.get(id) {
            Some(map) => map.get(key).copied(),
            None => None,
        }
    }

    /// Adds a place that isn't there.
    pub fn add(&mut self, alloc: Global, id: &MapId, key: &Key, slot: Slot) -> Result<(), NoMemory>
        requires { slot_at self.old.maps (id.now, key.now) ≡ None }
        ensures added { OnOk result ((q : Place) → slot_at self.new.maps q
            ≡ cond (same_place (id.now, key.now) q) (Some slot) (slot_at self.old.maps q)) }
        ensures refused { OnErr result ((q : Place) → slot_at self.new.maps q
            ≡ slot_at self.old.maps q) }
    {
        let key = key.copy(alloc)?;
        if let Some(map) = self.maps.get_mut(id) {
            map.insert(key, slot)?;
            return Ok(());
        }
        let mut map = BTreeMap::new(alloc);
        map.insert(key, slot)?;
        self.maps.insert(id.copy(alloc)?, map)?;
        Ok(())
    }

    /// Notes that one more put needs a place.
    pub fn want(&mut self, alloc: Global, id: &MapId, key: &Key) -> Result<(), NoMemory>
        requires { wanted_in (slot_at self.old.maps (id.now, key.now)) + 1 < 2 ^ 64 }
        ensures wanted { OnOk result ((q : Place) → slot_at self.new.maps q
            ≡ cond (same_place (id.now, key.now) q)
            (Some (wanted_more (slot_at self.old.maps (id.now, key.now))))
            (slot_at self.old.maps q)) }
        ensures refused { OnErr result ((q : Place) → slot_at self.new.maps q
            ≡ slot_at self.old.maps q) }
    {
        let Some(slot) = self.slot(id, key) else {
            return self.add(
                alloc,
                id,
                key,
                Slot {
                    lsn: None,
                    wanted: 1,
                },
            );
        };
        let wanted = slot.wanted + 1;
        self.settle(
            id,
            key,
            Slot {
                lsn: slot.lsn,
                wanted,
            },
        );
        Ok(())
    }

    /// Writes what is known of a place that is there, and takes the place out where nothing needs it.
    pub fn settle(&mut self, id: &MapId, key: &Key, slot: Slot)
        requires { IsSome (slot_at self.old.maps (id.now, key.now)) }
        ensures { (q : Place) → slot_at self.new.maps q
            ≡ cond (same_place (id.now, key.now) q) (slot_if_used slot) (slot_at self.old.maps q) }
    {
        let Some(map) = self.maps.get_mut(id) else {
            return;
        };
        settle_key(map, key, slot);
        if map.is_empty() {
            self.maps.remove(id);
        }
    }

    /// Takes the entries of a map out, and the places that nothing needs.
    pub fn empty(&mut self, id: &MapId)
        ensures { (q : Place) → slot_at self.new.maps q
            ≡ cond (bytes_eq id.now q.0) (slot_without_entry (slot_at self.old.maps q))
            (slot_at self.old.maps q) }
    {
        let Some(map) = self.maps.get_mut(id) else {
            return;
        };
        empty_keys(map);
        if map.is_empty() {
            self.maps.remove(id);
        }
    }
}

// Writes what is known of a key that is there, and takes the key out where nothing needs it.
fn settle_key(map: &mut BTreeMap<Key, Slot>, key: &Key, slot: Slot)
    requires { IsSome (get (slice_cmp nat_cmp) map.old key.now) }
    ensures { (k : List ℕ) → get (slice_cmp nat_cmp) map.new k
        ≡ cond (bytes_eq key.now k) (slot_if_used slot) (get (slice_cmp nat_cmp) map.old k) }
{
    if slot.lsn.is_none() && slot.wanted == 0 {
        map.remove(key);
        return;
    }
    if let Some(held) = map.get_mut(key) {
        *held = slot;
    }
}

// Takes the entries of all keys out, and the keys that nothing needs.
fn empty_keys(map: &mut BTreeMap<Key, Slot>)
    ensures { (k : List ℕ) → get (slice_cmp nat_cmp) map.new k
        ≡ slot_without_entry (get (slice_cmp nat_cmp) map.old k) }
{
    map.retain(|_, slot| {
        slot.lsn = None;
        slot.wanted > 0
    });
}
