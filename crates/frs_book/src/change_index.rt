//! Where the newest change of each key stands among the changes of a transaction.
ghost use Rattle.std.specs.Prelude.{◌≡◌, ℕ, List, Some, None, true, is_some, cond, OnOk};
ghost use Rattle.std.specs.BTreeMap.{get};
ghost use Rattle.std.specs.Ordering.{nat_cmp};
ghost use Rattle.std.specs.Cmp.Lexicographic.{slice_cmp};
ghost use Rattle.std.specs.Str.{bytes_eq};
ghost use Rattle.frs_types.specs.Maps.{Place, same_place};
ghost use Rattle.frs_book.specs.Changes.{touches, position_at, position_in, has_key, has_place};

use frs_objects::Op;
use frs_types::{Key, MapId, NoMemory};
use std::alloc::Global;
use std::collections::BTreeMap;

/// The changes of one map, each as its position: its last delete, and for each key the last put or remove behind that.
/// A key may have a place before it has a position.
#[derive(Drop)]
pub struct MapChanges {
    pub deleted: Option<usize>,
    pub keys: BTreeMap<Key, Option<usize>>,
}

/// The position of the newest change of each key, map by map.
#[derive(Drop)]
pub struct ChangeIndex {
    pub maps: BTreeMap<MapId, MapChanges>,
}

impl MapChanges {
    // No changes.
    fn new(alloc: Global) -> MapChanges
        ensures { (k : List ℕ) → position_in result k ≡ None }
    {
        MapChanges {
            deleted: None,
            keys: BTreeMap::new(alloc),
        }
    }

    // Makes a place for a key. The positions stay, whatever it answers.
    fn make_place(&mut self, alloc: Global, key: &Key) -> Result<(), NoMemory>
        ensures made { OnOk result (has_key (Some self.new) key.now ≡ true) }
        ensures stay { (k : List ℕ) → position_in self.new k ≡ position_in self.old k }
    {
        if self.keys.contains_key(key) {
            return Ok(());
        }
        self.keys.insert(key.copy(alloc)?, None)?;
        Ok(())
    }

    // Notes the newest change of a key, which has a place.
    fn note_key(&mut self, key: &Key, position: usize)
        requires { has_key (Some self.old) key.now ≡ true }
        ensures { (k : List ℕ) → position_in self.new k
            ≡ cond (bytes_eq key.now k) (Some position) (position_in self.old k) }
    {
        if let Some(newest) = self.keys.get_mut(key) {
            *newest = Some(position);
        }
    }

    // Notes that a delete is the newest change of each key.
    fn note_delete(&mut self, position: usize)
        ensures { (k : List ℕ) → position_in self.new k ≡ Some position }
    {
        self.deleted = Some(position);
        self.keys.clear();
    }
}

impl ChangeIndex {
    /// No changes.
    pub fn new(alloc: Global) -> ChangeIndex
        ensures { (p : Place) → position_at result.maps p ≡ None }
    {
        ChangeIndex {
            maps: BTreeMap::new(alloc),
        }
    }

    /// The position of the newest change of a key.
    pub fn position(&self, id: &MapId, key: &Key) -> Option<usize>
        ensures { result ≡ position_at self.now.maps (id.now, key.now) }
    {
        let Some(map) = self.maps.get(id) else {
            return None;
        };
        match map.keys.get(key) {
            Some(Some(position)) => Some(*position),
            _ => map.deleted,
        }
    }

    /// Makes a place for the position of a change. The positions stay, whatever it answers.
    pub fn make_place(&mut self, alloc: Global, op: &Op) -> Result<(), NoMemory>
        ensures made { OnOk result (has_place self.new.maps op.now ≡ true) }
        ensures stay { (p : Place) → position_at self.new.maps p ≡ position_at self.old.maps p }
    {
        match op {
            Op::Put { id, key, .. } => self.make_key(alloc, id, key),
            Op::Remove { id, key } => self.make_key(alloc, id, key),
            Op::Delete { id } => self.make_map(alloc, id),
        }
    }

    // Makes a place for a key.
    fn make_key(&mut self, alloc: Global, id: &MapId, key: &Key) -> Result<(), NoMemory>
        ensures made { OnOk result
            (has_key (get (slice_cmp nat_cmp) self.new.maps id.now) key.now ≡ true) }
        ensures stay { (p : Place) → position_at self.new.maps p ≡ position_at self.old.maps p }
    {
        if let Some(map) = self.maps.get_mut(id) {
            return map.make_place(alloc, key);
        }
        let mut map = MapChanges::new(alloc);
        map.make_place(alloc, key)?;
        self.maps.insert(id.copy(alloc)?, map)?;
        Ok(())
    }

    // Makes a place for a map.
    fn make_map(&mut self, alloc: Global, id: &MapId) -> Result<(), NoMemory>
        ensures made { OnOk result (is_some (get (slice_cmp nat_cmp) self.new.maps id.now) ≡ true) }
        ensures stay { (p : Place) → position_at self.new.maps p ≡ position_at self.old.maps p }
    {
        if self.maps.contains_key(id) {
            return Ok(());
        }
        let map = MapChanges::new(alloc);
        self.maps.insert(id.copy(alloc)?, map)?;
        Ok(())
    }

    /// Notes that the change at a position is the newest of each key that it touches. It has a place. Takes no memory.
    pub fn note(&mut self, op: &Op, position: usize)
        requires { has_place self.old.maps op.now ≡ true }
        ensures { (p : Place) → position_at self.new.maps p
            ≡ cond (touches p op.now) (Some position) (position_at self.old.maps p) }
    {
        match op {
            Op::Put { id, key, .. } => self.note_key(id, key, position),
            Op::Remove { id, key } => self.note_key(id, key, position),
            Op::Delete { id } => self.note_map(id, position),
        }
    }

    // Notes the newest change of a key.
    fn note_key(&mut self, id: &MapId, key: &Key, position: usize)
        requires { has_key (get (slice_cmp nat_cmp) self.old.maps id.now) key.now ≡ true }
        ensures { (p : Place) → position_at self.new.maps p
            ≡ cond (same_place (id.now, key.now) p) (Some position) (position_at self.old.maps p) }
    {
        if let Some(map) = self.maps.get_mut(id) {
            map.note_key(key, position);
        }
    }

    // Notes the newest change of each key of a map.
    fn note_map(&mut self, id: &MapId, position: usize)
        requires { is_some (get (slice_cmp nat_cmp) self.old.maps id.now) ≡ true }
        ensures { (p : Place) → position_at self.new.maps p
            ≡ cond (bytes_eq id.now p.0) (Some position) (position_at self.old.maps p) }
    {
        if let Some(map) = self.maps.get_mut(id) {
            map.note_delete(position);
        }
    }
}
