//! What one client holds, and what it waits for.
ghost use Rattle.std.specs.Prelude.{◌≡◌, ◌∷◌, None, reverse, option_copied, OnOk, OnErr, IfOk, Option, ◌<◌, length, slice_set};
ghost use Rattle.frs_types.specs.Locks.{Holders, holder_at, nobody};
ghost use Rattle.frs_types.specs.declared.lock.Lock.{Lock};
ghost use Rattle.frs_locks.specs.Index.{IsIndexOf, NoOther};

use crate::index::take_lock;
use crate::map_locks::{MapLocks, PLACES};
use frs_types::{Lock, MapId, NoMemory};
use std::alloc::Global;
use std::collections::BTreeMap;
use std::marker::Model;

/// The locks that a client holds, in the order in which it took them, and the one that it waits for. Contracts see the
/// newest lock first.
#[derive(Drop)]
pub struct ClientLocks {
    locks: Vec<Lock>,
    waits: Option<Lock>,
}

impl Model for ClientLocks {
    ghost use Rattle.std.specs.Prelude.{reverse};
    ghost use Rattle.frs_types.specs.Locks.{Holder};

    ghost Value = { Holder };

    ghost view = { λ a. record { locks = reverse a.locks.items; waits = a.waits } };
}

impl ClientLocks {
    /// A client that holds nothing and waits for nothing. Takes no memory.
    pub fn new(alloc: Global) -> ClientLocks
        ensures { result ≡ nobody }
    {
        ClientLocks {
            locks: Vec::new(alloc),
            waits: None,
        }
    }

    /// The locks, in the order in which they were taken.
    pub fn locks(&self) -> &[Lock]
        ensures { reverse result.now ≡ self.now.locks }
    {
        self.locks.as_slice()
    }

    /// The lock that the client waits for.
    pub fn waits(&self) -> Option<&Lock>
        ensures { option_copied result ≡ self.now.waits }
    {
        self.waits.as_ref()
    }

    /// The client takes a lock that nobody holds, in the index too, and its wait ends.
    pub fn take(
        &mut self,
        maps: &mut BTreeMap<MapId, MapLocks>,
        alloc: Global,
        client: u32,
        lock: &Lock,
    ) -> Result<(), NoMemory>
        requires { client < PLACES }
        ensures taken { OnOk result (self.new
            ≡ record { locks = lock.now ∷ self.old.locks; waits = None }) }
        ensures refused { OnErr result (self.new ≡ self.old) }
        ensures index { OnOk result ((hs : Holders) (waits : Option Lock) → IsIndexOf maps.old hs
            → client < length hs → NoOther hs client lock.now
            → IsIndexOf maps.new (slice_set hs client
            (record { locks = lock.now ∷ (holder_at hs client).locks; waits = waits }))) }
        ensures same_index { OnErr result ((hs : Holders) → IsIndexOf maps.old hs
            → IsIndexOf maps.new hs) }
    {
        let copy = copy_of(alloc, lock)?;
        self.locks.reserve(1)?;
        take_lock(maps, alloc, client, lock)?;
        self.locks.push_reserved(copy);
        self.waits = None;
        Ok(())
    }

    /// Notes the lock that the client waits for from now on.
    pub fn set_wait(&mut self, waits: Option<Lock>)
        ensures { self.new ≡ record self.old { waits = waits } }
    {
        self.waits = waits;
    }
}

/// An equal lock.
pub fn copy_of(alloc: Global, lock: &Lock) -> Result<Lock, NoMemory>
    ensures { IfOk result (λ copy. copy ≡ lock.now) }
{
    match lock {
        Lock::OnKey { id, key } => Ok(Lock::OnKey {
            id: id.copy(alloc)?,
            key: key.copy(alloc)?,
        }),
        Lock::OnMap { id } => Ok(Lock::OnMap {
            id: id.copy(alloc)?,
        }),
    }
}
