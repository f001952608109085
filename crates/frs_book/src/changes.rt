//! The changes of an active transaction.
ghost use Rattle.std.specs.Prelude.{◌≡◌, ◌≤◌, ◌<◌, [], ◌∷◌, ◌++◌, map, length, option_copied, option_map, OnOk, OnErr};
ghost use Rattle.frs_types.specs.Locks.{hinderers};
ghost use Rattle.frs_types.specs.Maps.{at, table_after_all};
ghost use Rattle.frs_types.specs.Lawful.{StoredValue};
ghost use Rattle.frs_objects.specs.Objects.{AreNew, change_by, lsn_of_place, put_lsns, puts_among};
ghost use Rattle.frs_locks.specs.Answers.{with_held};
ghost use Rattle.frs_book.specs.Changes.{newest_touching};

use crate::change_index::ChangeIndex;
use frs_locks::Locks;
use frs_objects::{Objects, Op};
use frs_types::{Key, Lock, MapId, NoMemory, Value};
use std::alloc::Global;
use std::marker::Model;

/// What a transaction has changed so far, oldest change first. The newest change of a key is found by the key.
#[derive(Drop)]
pub struct Changes {
    ops: Vec<Op>,
    index: ChangeIndex,
}

impl Model for Changes {
    ghost use Rattle.std.specs.Prelude.{List};
    ghost use Rattle.frs_objects.specs.declared.op.Op.{Op};
    ghost use Rattle.frs_book.specs.Changes.{IsIndexed};

    ghost Value = { List Op };

    ghost view = { λ a. a.ops.items };

    ghost invariant = { λ a. IsIndexed a.ops.items a.index.maps };
}

impl Changes {
    /// No changes.
    pub fn new(alloc: Global) -> Changes
        ensures { result ≡ [] }
    {
        Changes {
            ops: Vec::new(alloc),
            index: ChangeIndex::new(alloc),
        }
    }

    /// The newest change that touches a key: a put or a remove of it, or a delete of its map.
    pub fn find(&self, id: &MapId, key: &Key) -> Option<&Op>
        ensures { option_copied result ≡ newest_touching self.now (id.now, key.now) }
    {
        match self.index.position(id, key) {
            Some(position) => self.ops.get(position),
            None => None,
        }
    }

    /// The value of a key as the transaction sees it: what its newest change there leaves, or else what the maps have.
    pub fn value_over<'a>(
        &'a self,
        objects: &'a Objects,
        id: &MapId,
        key: &Key,
    ) -> Option<&'a Value>
        ensures { option_copied result ≡ option_map (λ (h : StoredValue). h.value)
            (at (table_after_all objects.now (map change_by self.now)) (id.now, key.now)) }
    {
        match self.find(id, key) {
            Some(Op::Put { value, .. }) => Some(value),
            Some(Op::Remove { .. }) => None,
            Some(Op::Delete { .. }) => None,
            None => match objects.get(id, key) {
                Some(entry) => Some(&entry.value),
                None => None,
            },
        }
    }

    /// The LSN of the record of that value, or 0 where there is none.
    pub fn lsn_over(&self, objects: &Objects, id: &MapId, key: &Key) -> u64
        ensures { result ≡ lsn_of_place (table_after_all objects.now (map change_by self.now))
            (id.now, key.now) }
    {
        match self.find(id, key) {
            Some(Op::Put { lsn, .. }) => *lsn,
            Some(Op::Remove { .. }) => 0,
            Some(Op::Delete { .. }) => 0,
            None => match objects.get(id, key) {
                Some(entry) => entry.lsn,
                None => 0,
            },
        }
    }

    /// Adds a change behind all others, and takes the lock that covers it, at which nobody hinders the client: both, or
    /// after want of memory neither.
    pub fn push_locked(
        &mut self,
        alloc: Global,
        op: Op,
        locks: &mut Locks,
        client: u32,
        lock: &Lock,
    ) -> Result<(), NoMemory>
        requires some { 1 ≤ client }
        requires client { client < length locks.old }
        requires free { hinderers locks.old client lock.now ≡ [] }
        ensures pushed { OnOk result (self.new ≡ self.old ++ op ∷ []) }
        ensures held { OnOk result (locks.new ≡ with_held locks.old client lock.now) }
        ensures refused { OnErr result (self.new ≡ self.old) }
        ensures kept { OnErr result (locks.new ≡ locks.old) }
    {
        self.ops.reserve(1)?;
        self.index.make_place(alloc, &op)?;
        locks.want(client, lock)?;
        self.index.note(&op, self.ops.len());
        self.ops.push_reserved(op);
        Ok(())
    }

    /// Makes all changes in the maps, in order, and has none any more. After want of memory the maps and the changes
    /// are as they were. The LSNs of puts are new and rising.
    pub fn apply_to(&mut self, alloc: Global, objects: &mut Objects) -> Result<(), NoMemory>
        requires { AreNew objects.old (put_lsns (puts_among self.old)) }
        ensures applied { OnOk result (objects.new
            ≡ table_after_all objects.old (map change_by self.old)) }
        ensures emptied { OnOk result (self.new ≡ []) }
        ensures refused { OnErr result (objects.new ≡ objects.old) }
        ensures kept { OnErr result (self.new ≡ self.old) }
    {
        objects.apply(alloc, &mut self.ops)?;
        self.index = ChangeIndex::new(alloc);
        Ok(())
    }
}
