//! The index: entries by LSN, and at each place the LSN of its entry.
ghost use Rattle.std.specs.Prelude.{◌≡◌, nat_eq, ◌==◌, ◌+◌, ◌<◌, ◌≤◌, ◌^◌, ℕ, List, [], ◌∷◌, cond, not, None, Some, true, false, IsSome, MatchResult, OnOk, OnErr, option_copied, length, map, ⊤};
ghost use Rattle.std.specs.List.{list_any, IsDistinct};
ghost use Rattle.std.specs.List.Sorted.{IsStrictlySortedBy};
ghost use Rattle.std.specs.Map.{keys_of};
ghost use Rattle.std.specs.Ordering.{nat_cmp};
ghost use Rattle.std.specs.Cmp.Lexicographic.{slice_cmp};
ghost use Rattle.std.specs.Str.{bytes_eq};
ghost use Rattle.std.specs.FinMap.Entries.{put, where_key};
ghost use Rattle.frs_types.specs.Maps.{Place, IsTable, place_cmp, same_place, at, table_after, table_after_all};
ghost use Rattle.frs_types.specs.Lawful.{StoredValue};
ghost use Rattle.frs_objects.specs.Slots.{slot_at};
ghost use Rattle.frs_objects.specs.declared.places.Slot.{Slot as KeySlot};
ghost use Rattle.frs_objects.specs.Objects.{stored_by, table_bytes, entry_at, oldest_entry, least_lsn, table_lsns, lsn_of_place, with_lsn, with_put, puts_among, put_lsns, change_by, AreNew};
ghost use Rattle.frs_objects.specs.Index.{row_at, row_bytes, entry_under, HasRoomFor, is_blank, is_lsn, wanted_in, IsIndex, KeepsFor, table_in};

use crate::op::Op;
use crate::places::{Places, Slot};
use frs_types::{Entry, ID_LIMIT, KEY_LIMIT, Key, MapId, NoMemory, VALUE_LIMIT};
use std::alloc::Global;
use std::collections::BTreeMap;

/// Entries by LSN, where None stands under an LSN that is kept for an entry to come; and the places.
#[derive(Drop)]
pub struct Index {
    pub places: Places,
    pub entries: BTreeMap<u64, Option<Entry>>,
}

impl Index {
    /// No entries.
    pub fn new(alloc: Global) -> Index
        ensures index { IsIndex result [] }
        ensures shown { table_in result ≡ [] }
    {
        Index {
            places: Places::new(alloc),
            entries: BTreeMap::new(alloc),
        }
    }

    /// The entry at a place.
    pub fn get(&self, id: &MapId, key: &Key) -> Option<&Entry>
        ensures { (puts : List (Place × ℕ)) → IsIndex self.now puts
            → option_copied result ≡ entry_at (table_in self.now) (id.now, key.now) }
    {
        let Some(slot) = self.places.slot(id, key) else {
            return None;
        };
        let Some(lsn) = slot.lsn else {
            return None;
        };
        match self.entries.get(&lsn) {
            Some(row) => row.as_ref(),
            None => None,
        }
    }

    /// The entry of the least LSN. Takes no memory.
    pub fn oldest(&self) -> Option<&Entry>
        ensures { IsIndex self.now [] → option_copied result ≡ oldest_entry (table_in self.now) }
    {
        let Some((_, row)) = self.entries.first_key_value() else {
            return None;
        };
        row.as_ref()
    }

    /// The least LSN. Takes no memory.
    pub fn lowest(&self) -> Option<u64>
        ensures { IsIndex self.now [] → result ≡ least_lsn (table_in self.now) }
    {
        match self.entries.first_key_value() {
            Some((lsn, _)) => Some(*lsn),
            None => None,
        }
    }

    /// Whether an entry has this LSN. Takes no memory.
    pub fn has_lsn(&self, lsn: u64) -> bool
        ensures { IsIndex self.now []
            → result ≡ list_any (λ m. m == lsn) (table_lsns (table_in self.now)) }
    {
        self.entries.contains_key(&lsn)
    }

    /// The number of entries. Takes no memory.
    pub fn live(&self) -> u64
        ensures live { IsIndex self.now [] → result ≡ length (table_in self.now) }
        ensures places { IsTable (table_in self.now) }
        ensures lsns { IsIndex self.now [] → IsDistinct nat_eq (table_lsns (table_in self.now)) }
    {
        self.entries.len() as u64
    }

    /// The sum of the lengths of the ids, keys and values of all entries. It goes over them. Takes no memory.
    pub fn bytes(&self) -> u128
        ensures { IsIndex self.now [] → result ≡ table_bytes (table_in self.now) }
    {
        let _count = self.entries.len();
        let mut bytes = 0;
        for (_, row) in &self.entries {
            bytes += bytes_of(row);
        }
        bytes
    }

    /// Puts an entry in. After want of memory all is as it was.
    pub fn insert(&mut self, alloc: Global, entry: Entry) -> Result<(), NoMemory>
        requires index { IsIndex self.old [] }
        requires new { row_at self.old.entries.entries entry.lsn ≡ None }
        ensures others { (n : ℕ) → (entry.lsn == n) ≡ false
            → row_at self.old.entries.entries n ≡ None
            → row_at self.new.entries.entries n ≡ None }
        ensures index { IsIndex self.new [] }
        ensures shown { OnOk result (table_in self.new
            ≡ put place_cmp (entry.id, entry.key) (stored_by entry) (table_in self.old)) }
    {
        self.reserve(alloc, &entry.id, &entry.key, entry.lsn)?;
        self.commit(entry);
        Ok(())
    }

    /// Keeps an LSN and a place for a put. Changes nothing that is shown.
    pub fn reserve(
        &mut self,
        alloc: Global,
        id: &MapId,
        key: &Key,
        lsn: u64,
    ) -> Result<(), NoMemory>
        requires new { row_at self.old.entries.entries lsn ≡ None }
        requires room { wanted_in (slot_at self.old.places.maps (id.now, key.now)) + 1 < 2 ^ 64 }
        ensures others { (n : ℕ) → (lsn == n) ≡ false → row_at self.old.entries.entries n ≡ None
            → row_at self.new.entries.entries n ≡ None }
        ensures kept { (puts : List (Place × ℕ)) → IsIndex self.old puts → MatchResult result
            (λ _. IsIndex self.new (((id.now, key.now), lsn) ∷ puts)) (λ _. IsIndex self.new puts) }
        ensures shown { (puts : List (Place × ℕ)) → IsIndex self.old puts
            → table_in self.new ≡ table_in self.old }
    {
        self.entries.insert(lsn, None)?;
        if self.places.want(alloc, id, key).is_err() {
            self.entries.remove(&lsn);
            return Err(NoMemory);
        }
        Ok(())
    }

    /// Keeps an LSN and a place no more. Changes nothing that is shown.
    pub fn release(&mut self, id: &MapId, key: &Key, lsn: u64)
        requires { KeepsFor self.old (id.now, key.now) lsn }
        ensures kept { (puts : List (Place × ℕ))
            → IsIndex self.old (((id.now, key.now), lsn) ∷ puts)
            → IsIndex self.new puts }
        ensures shown { (puts : List (Place × ℕ))
            → IsIndex self.old (((id.now, key.now), lsn) ∷ puts)
            → table_in self.new ≡ table_in self.old }
    {
        let Some(slot) = self.places.slot(id, key) else {
            return;
        };
        self.entries.remove(&lsn);
        let wanted = slot.wanted - 1;
        self.places.settle(
            id,
            key,
            Slot {
                lsn: slot.lsn,
                wanted,
            },
        );
    }

    // Puts an entry in its place and under its LSN, which are kept for it.
    fn fill(&mut self, wanted: u64, entry: Entry)
        requires place { IsSome (slot_at self.old.places.maps (entry.id, entry.key)) }
        requires lsn { is_blank (row_at self.old.entries.entries entry.lsn) ≡ true }
        ensures slots { (q : Place) → slot_at self.new.places.maps q
            ≡ cond (same_place (entry.id, entry.key) q)
            (Some (record { lsn = Some entry.lsn; wanted = wanted }))
            (slot_at self.old.places.maps q) }
        ensures rows { (n : ℕ) → row_at self.new.entries.entries n
            ≡ cond (entry.lsn == n) (Some (Some entry)) (row_at self.old.entries.entries n) }
        ensures ordered { IsStrictlySortedBy nat_cmp (keys_of self.new.entries.entries) }
    {
        let slot = Slot {
            lsn: Some(entry.lsn),
            wanted,
        };
        self.places.settle(&entry.id, &entry.key, slot);
        // Takes no memory, since the LSN is kept.
        let _ = self.entries.insert(entry.lsn, Some(entry));
    }

    /// Makes a put, for which its LSN and its place are kept. Takes no memory.
    pub fn commit(&mut self, entry: Entry)
        requires { KeepsFor self.old (entry.id, entry.key) entry.lsn }
        ensures others { (n : ℕ) → (entry.lsn == n) ≡ false
            → row_at self.old.entries.entries n ≡ None
            → row_at self.new.entries.entries n ≡ None }
        ensures made { (puts : List (Place × ℕ))
            → IsIndex self.old (((entry.id, entry.key), entry.lsn) ∷ puts)
            → IsIndex self.new puts }
        ensures shown { (puts : List (Place × ℕ))
            → IsIndex self.old (((entry.id, entry.key), entry.lsn) ∷ puts)
            → table_in self.new
            ≡ put place_cmp (entry.id, entry.key) (stored_by entry) (table_in self.old) }
    {
        let Some(slot) = self.places.slot(&entry.id, &entry.key) else {
            return;
        };
        take_row(&mut self.entries, slot.lsn);
        let wanted = slot.wanted - 1;
        self.fill(wanted, entry);
    }

    /// Puts an entry back under another LSN, which is kept for it with its place. Takes no memory.
    pub fn relabel(&mut self, id: &MapId, key: &Key, to: u64)
        requires { KeepsFor self.old (id.now, key.now) to }
        ensures made { (puts : List (Place × ℕ)) (h : StoredValue)
            → IsIndex self.old (((id.now, key.now), to) ∷ puts)
            → at (table_in self.old) (id.now, key.now) ≡ Some h → IsIndex self.new puts }
        ensures shown { (puts : List (Place × ℕ)) (h : StoredValue)
            → IsIndex self.old (((id.now, key.now), to) ∷ puts)
            → at (table_in self.old) (id.now, key.now) ≡ Some h
            → table_in self.new ≡ put place_cmp (id.now, key.now)
            (record { value = h.value; lsn = to }) (table_in self.old) }
    {
        let Some(slot) = self.places.slot(id, key) else {
            return;
        };
        let Some(entry) = take_row(&mut self.entries, slot.lsn) else {
            return;
        };
        let wanted = slot.wanted - 1;
        self.fill(wanted, Entry { lsn: to, ..entry });
    }

    /// The LSN of the entry at a place, or 0.
    pub fn lsn(&self, id: &MapId, key: &Key) -> u64
        ensures { IsIndex self.now []
            → result ≡ lsn_of_place (table_in self.now) (id.now, key.now) }
    {
        match self.get(id, key) {
            Some(entry) => entry.lsn,
            None => 0,
        }
    }

    /// Puts the entry at a place, where there is one, under another LSN. After want of memory all is as it was.
    pub fn move_lsn(
        &mut self,
        alloc: Global,
        id: &MapId,
        key: &Key,
        to: u64,
    ) -> Result<(), NoMemory>
        requires index { IsIndex self.old [] }
        requires entry { IsSome (at (table_in self.old) (id.now, key.now)) }
        requires new { AreNew (table_in self.old) (to ∷ []) }
        ensures index { IsIndex self.new [] }
        ensures moved { OnOk result (table_in self.new
            ≡ with_lsn (table_in self.old) (id.now, key.now) to) }
        ensures refused { OnErr result (table_in self.new ≡ table_in self.old) }
    {
        self.reserve(alloc, id, key, to)?;
        self.relabel(id, key, to);
        Ok(())
    }

    /// Takes the entry at a place out. Takes no memory.
    pub fn take(&mut self, id: &MapId, key: &Key)
        ensures taken { (puts : List (Place × ℕ)) → IsIndex self.old puts → IsIndex self.new puts }
        ensures shown { (puts : List (Place × ℕ)) → IsIndex self.old puts → table_in self.new
            ≡ where_key place_cmp (λ q. not (same_place (id.now, key.now) q)) (table_in self.old) }
    {
        let Some(held) = self.places.slot(id, key) else {
            return;
        };
        take_row(&mut self.entries, held.lsn);
        self.places.settle(
            id,
            key,
            Slot {
                lsn: None,
                wanted: held.wanted,
            },
        );
    }

    /// Takes the entries of a map out. Takes no memory.
    pub fn clear(&mut self, id: &MapId)
        ensures taken { (puts : List (Place × ℕ)) → IsIndex self.old puts → IsIndex self.new puts }
        ensures shown { (puts : List (Place × ℕ)) → IsIndex self.old puts → table_in self.new
            ≡ where_key place_cmp (λ q. not (bytes_eq id.now q.0)) (table_in self.old) }
    {
        let Some(map) = self.places.maps.get(id) else {
            return;
        };
        remove_all(&mut self.entries, map);
        self.places.empty(id);
    }
}

impl Index {
    // Keeps what a change needs, where it is a put.
    fn reserve_op(&mut self, alloc: Global, op: &Op) -> Result<(), NoMemory>
        requires { HasRoomFor self.old op.now }
        ensures kept { (puts : List (Place × ℕ)) → IsIndex self.old puts → MatchResult result
            (λ _. IsIndex self.new (with_put op.now puts)) (λ _. IsIndex self.new puts) }
        ensures shown { (puts : List (Place × ℕ)) → IsIndex self.old puts
            → table_in self.new ≡ table_in self.old }
    {
        match op {
            Op::Put { id, key, lsn, .. } => self.reserve(alloc, id, key, *lsn),
            _ => Ok(()),
        }
    }

    // Keeps what a change needs no more.
    fn release_op(&mut self, op: &Op)
        requires { (puts : List (Place × ℕ)) × IsIndex self.old (with_put op.now puts) }
        ensures kept { (puts : List (Place × ℕ)) → IsIndex self.old (with_put op.now puts)
            → IsIndex self.new puts }
        ensures shown { (puts : List (Place × ℕ)) → IsIndex self.old (with_put op.now puts)
            → table_in self.new ≡ table_in self.old }
    {
        if let Op::Put { id, key, lsn, .. } = op {
            self.release(id, key, *lsn);
        }
    }

    // Makes a change, for which all is kept that it needs.
    fn commit_op(&mut self, op: Op)
        requires { (puts : List (Place × ℕ)) × IsIndex self.old (with_put op puts) }
        ensures made { (puts : List (Place × ℕ)) → IsIndex self.old (with_put op puts)
            → IsIndex self.new puts }
        ensures shown { (puts : List (Place × ℕ)) → IsIndex self.old (with_put op puts)
            → table_in self.new ≡ table_after (table_in self.old) (change_by op) }
    {
        match op {
            Op::Put {
                id,
                key,
                value,
                lsn,
            } => self.commit(Entry {
                id,
                key,
                value,
                lsn,
            }),
            Op::Remove { id, key } => self.take(&id, &key),
            Op::Delete { id } => self.clear(&id),
        }
    }

    /// Keeps what changes need, from the last one to the first. After want of memory nothing is kept.
    pub fn reserve_all(&mut self, alloc: Global, ops: &[Op]) -> Result<(), NoMemory>
        requires index { IsIndex self.old [] }
        requires new { AreNew (table_in self.old) (put_lsns (puts_among ops.now)) }
        ensures kept { MatchResult result (λ _. IsIndex self.new (puts_among ops.now))
            (λ _. IsIndex self.new []) }
        ensures shown { table_in self.new ≡ table_in self.old }
    {
        let mut left = ops.len();
        while left > 0 {
            if self.reserve_op(alloc, &ops[left - 1]).is_err() {
                self.release_all(&ops[left..]);
                return Err(NoMemory);
            }
            left -= 1;
        }
        Ok(())
    }

    // Keeps what changes need no more.
    fn release_all(&mut self, ops: &[Op])
        requires { IsIndex self.old (puts_among ops.now) }
        ensures kept { IsIndex self.new [] }
        ensures shown { table_in self.new ≡ table_in self.old }
    {
        for op in ops {
            self.release_op(op);
        }
    }

    /// Makes changes in order, for which all is kept that they need. Takes no memory.
    pub fn commit_all(&mut self, ops: Vec<Op>)
        requires { IsIndex self.old (puts_among ops.items) }
        ensures made { IsIndex self.new [] }
        ensures shown { table_in self.new
            ≡ table_after_all (table_in self.old) (map change_by ops.items) }
    {
        for op in ops {
            self.commit_op(op);
        }
    }
}

// How many bytes the entry has that stands in a row.
fn bytes_of(row: &Option<Entry>) -> u128
    ensures bytes { result ≡ row_bytes row.now }
    ensures most { result ≤ ID_LIMIT + (KEY_LIMIT + VALUE_LIMIT) }
{
    let Some(entry) = row else {
        return 0;
    };
    let id = entry.id.bytes().len() as u128;
    let key = entry.key.bytes().len() as u128;
    let value = entry.value.bytes().len() as u128;
    id + (key + value)
}

// Takes the entries of the keys of a map out.
fn remove_all(entries: &mut BTreeMap<u64, Option<Entry>>, map: &BTreeMap<Key, Slot>)
    ensures rows { (n : ℕ) → row_at entries.new.entries n
        ≡ cond (list_any (λ (e : List ℕ × KeySlot). is_lsn e.1.lsn n) map.now.entries) None
        (row_at entries.old.entries n) }
    ensures ordered { IsStrictlySortedBy nat_cmp (keys_of entries.old.entries)
        → IsStrictlySortedBy nat_cmp (keys_of entries.new.entries) }
    ensures keys { IsStrictlySortedBy (slice_cmp nat_cmp) (keys_of map.now.entries) }
{
    for (_, slot) in map {
        take_row(entries, slot.lsn);
    }
}

// Takes the entry under this LSN out, where there is one.
fn take_row(entries: &mut BTreeMap<u64, Option<Entry>>, lsn: Option<u64>) -> Option<Entry>
    ensures entry { result ≡ entry_under entries.old.entries lsn }
    ensures rows { (n : ℕ) → row_at entries.new.entries n
        ≡ cond (is_lsn lsn n) None (row_at entries.old.entries n) }
    ensures ordered { IsStrictlySortedBy nat_cmp (keys_of entries.old.entries)
        → IsStrictlySortedBy nat_cmp (keys_of entries.new.entries) }
{
    let Some(lsn) = lsn else {
        return None;
    };
    match entries.remove(&lsn) {
        Some(row) => row,
        None => None,
    }
}
