//! The committed maps.
ghost use Rattle.std.specs.Prelude.{◌≡◌, ◌≢◌, nat_eq, ◌==◌, ◌<◌, [], ◌∷◌, map, length, option_copied, Err, OnOk, OnErr, IfOk, MatchResult};
ghost use Rattle.frs_types.specs.Maps.{IsTable, table_after_all};
ghost use Rattle.std.specs.List.{list_any, IsDistinct};
ghost use Rattle.frs_types.specs.Lawful.{table_of};
ghost use Rattle.frs_objects.specs.declared.fault.MoveFault.TheVariants.{Changed, Memory};
ghost use Rattle.frs_objects.specs.Objects.{table_bytes, entry_at, oldest_entry, least_lsn, puts_among, put_lsns, change_by, AreNew, HaveOwnNumbers, table_lsns, lsn_of_place, with_lsn};

use crate::fault::MoveFault;
use crate::index::Index;
use crate::op::Op;
use frs_types::{Entry, Key, MapId, NoMemory};
use std::alloc::Global;
use std::marker::Model;
use std::mem;

/// The committed maps. Contracts see them as the table of entries: at each place, the id of a map and a key of it, at
/// most one value with the LSN of the record from which it comes.
#[derive(Drop)]
pub struct Objects {
    index: Index,
}

impl Model for Objects {
    ghost use Rattle.std.specs.Prelude.{[]};
    ghost use Rattle.frs_types.specs.Maps.{Table};
    ghost use Rattle.frs_types.specs.Lawful.{StoredValue};
    ghost use Rattle.frs_objects.specs.Index.{IsIndex, table_in};

    ghost Value = { Table StoredValue };

    ghost view = { λ a. table_in a.index };

    ghost invariant = { λ a. IsIndex a.index [] };
}

impl Objects {
    /// The maps with these entries, of which no two have one LSN. Of two with one id and key the later one counts.
    pub fn of(alloc: Global, entries: Vec<Entry>) -> Result<Objects, NoMemory>
        requires { HaveOwnNumbers entries.items }
        ensures { IfOk result (λ objects. objects ≡ table_of entries.items) }
    {
        let mut index = Index::new(alloc);
        for entry in entries {
            index.insert(alloc, entry)?;
        }
        Ok(Objects { index })
    }

    /// The entry of a key.
    pub fn get(&self, id: &MapId, key: &Key) -> Option<&Entry>
        ensures { option_copied result ≡ entry_at self.now (id.now, key.now) }
    {
        self.index.get(id, key)
    }

    /// The entry of the least LSN. Takes no memory.
    pub fn oldest(&self) -> Option<&Entry>
        ensures { option_copied result ≡ oldest_entry self.now }
    {
        self.index.oldest()
    }

    /// The least LSN of an entry. Takes no memory.
    pub fn lowest(&self) -> Option<u64>
        ensures { result ≡ least_lsn self.now }
    {
        self.index.lowest()
    }

    /// Whether an entry has this LSN. Takes no memory.
    pub fn has_lsn(&self, lsn: u64) -> bool
        ensures { result ≡ list_any (λ m. m == lsn) (table_lsns self.now) }
    {
        self.index.has_lsn(lsn)
    }

    /// The number of entries, of which no two have one place or one LSN. Takes no memory.
    pub fn live(&self) -> u64
        ensures live { result ≡ length self.now }
        ensures places { IsTable self.now }
        ensures lsns { IsDistinct nat_eq (table_lsns self.now) }
    {
        self.index.live()
    }

    /// The number of entries, and the sum of the lengths of their ids, keys and values. It goes over all entries, so
    /// it is for what is asked once. Takes no memory.
    pub fn totals(&self) -> (u64, u128)
        ensures live { result.0 ≡ length self.now }
        ensures bytes { result.1 ≡ table_bytes self.now }
    {
        (self.index.live(), self.index.bytes())
    }

    /// Makes these changes in order, and leaves `ops` empty. Of puts, removes and deletes of one key the last one
    /// counts. After want of memory both are as they were. Its LSNs are new and rising.
    pub fn apply(&mut self, alloc: Global, ops: &mut Vec<Op>) -> Result<(), NoMemory>
        requires { AreNew self.old (put_lsns (puts_among ops.old.items)) }
        ensures applied { OnOk result (self.new
            ≡ table_after_all self.old (map change_by ops.old.items)) }
        ensures emptied { OnOk result (ops.new.items ≡ []) }
        ensures refused { OnErr result (self.new ≡ self.old) }
        ensures kept { OnErr result (ops.new.items ≡ ops.old.items) }
    {
        self.index.reserve_all(alloc, ops.as_slice())?;
        let made = mem::replace(ops, Vec::new(alloc));
        self.index.commit_all(made);
        Ok(())
    }

    /// Puts the entry of a key under another LSN, which is new. `Changed` exactly where its LSN isn't `from`, which is
    /// above 0, and `Memory` where there was none; then the maps are as they were.
    pub fn move_lsn(
        &mut self,
        alloc: Global,
        id: &MapId,
        key: &Key,
        from: u64,
        to: u64,
    ) -> Result<(), MoveFault>
        requires from { 0 < from }
        requires new { AreNew self.old (to ∷ []) }
        ensures moved { lsn_of_place self.old (id.now, key.now) ≡ from → MatchResult result
            (λ _. self.new ≡ with_lsn self.old (id.now, key.now) to) (λ fault. fault ≡ Memory) }
        ensures changed { lsn_of_place self.old (id.now, key.now) ≢ from
            → result ≡ Err (Changed (lsn_of_place self.old (id.now, key.now))) }
        ensures refused { OnErr result (self.new ≡ self.old) }
    {
        let found = self.index.lsn(id, key);
        if found != from {
            return Err(MoveFault::Changed { found });
        }
        if self.index.move_lsn(alloc, id, key, to).is_err() {
            return Err(MoveFault::Memory);
        }
        Ok(())
    }
}
