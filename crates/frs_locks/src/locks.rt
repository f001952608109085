//! The locks of all clients.
ghost use Rattle.std.specs.Prelude.{◌≡◌, ◌≤◌, ◌<◌, ◌+◌, ◌==◌, ◌&&◌, ◌∷◌, ◌++◌, ℕ, [], false, not, cond, None, length, map, find, replicate, option_copied, slice_index_or, IfOk, OnOk, OnErr, if◌then◌else◌};
ghost use Rattle.std.specs.List.{list_any, range_with_len};
ghost use Rattle.frs_types.specs.Locks.{nobody, holder_at, same_lock, do_conflict, hinderers, waits_for, with_wait, ring};
ghost use Rattle.frs_locks.specs.Answers.{IsAnswer, IsRingless, IsRing, least_client, with_held, without};
ghost use Rattle.frs_locks.specs.Index.{is_against};

use crate::client_locks::{ClientLocks, copy_of};
use crate::index::drop_all;
use crate::map_locks::{MapLocks, PLACES};
use crate::round::{leading, leads_at};
use crate::want::Want;
use frs_types::{CLIENT_LIMIT, Lock, MapId, NoMemory, Sequence};
use std::alloc::Global;
use std::collections::BTreeMap;
use std::marker::Model;

/// Who holds which lock, and who waits for which. Contracts see it as the clients' holders; that of client 0, which
/// holds nothing, stands first.
#[derive(Drop)]
pub struct Locks {
    alloc: Global,
    maps: BTreeMap<MapId, MapLocks>,
    clients: Vec<ClientLocks>,
}

impl Model for Locks {
    ghost use Rattle.frs_types.specs.Locks.{Holders};
    ghost use Rattle.frs_locks.specs.Index.{AreSoundLocks};

    ghost Value = { Holders };

    ghost view = { λ a. a.clients.items };

    ghost invariant = { λ a. AreSoundLocks a.maps a.clients.items };
}

/// Who hinders a client at a lock.
#[derive(Drop)]
struct Against {
    whole: Option<u32>,
    key: Option<u32>,
    clients: [bool; PLACES],
}

impl Against {
    // Nobody does.
    fn none() -> Against
        ensures { (d : ℕ) → is_against result.whole result.key result.clients d ≡ false }
    {
        Against {
            whole: None,
            key: None,
            clients: [false; PLACES],
        }
    }

    // Whether the other client hinders the client.
    fn hinders(&self, client: u32, other: u32) -> bool
        ensures { result ≡ not (other == client)
            && is_against self.now.whole self.now.key self.now.clients other }
    {
        other != client && self.has(other)
    }

    // Whether this client does.
    fn has(&self, client: u32) -> bool
        ensures { result ≡ is_against self.now.whole self.now.key self.now.clients client }
    {
        self.whole == Some(client)
            || self.key == Some(client)
            || (client as usize) < PLACES && self.clients[client as usize]
    }
}

impl Locks {
    /// Locks of this many clients, which are the clients from 1 on. Nobody holds anything.
    pub fn new(alloc: Global, clients: u32) -> Result<Locks, NoMemory>
        requires some { 1 ≤ clients }
        requires most { clients ≤ CLIENT_LIMIT }
        ensures nobody { IfOk result (λ locks. locks ≡ replicate (clients + 1) nobody) }
        ensures count { IfOk result (λ locks. length locks ≡ clients + 1) }
    {
        let mut held = Vec::new(alloc);
        for _ in 0..clients + 1 {
            held.push(ClientLocks::new(alloc))?;
        }
        Ok(Locks {
            alloc,
            maps: BTreeMap::new(alloc),
            clients: held,
        })
    }

    /// Whether the client holds this very lock.
    pub fn holds(&self, client: u32, lock: &Lock) -> bool
        ensures { result ≡ list_any (same_lock lock.now) (holder_at self.now client).locks }
    {
        match lock {
            Lock::OnKey { id, key } => match self.maps.get(id) {
                Some(m) => m.has_key(client, key),
                None => false,
            },
            Lock::OnMap { id } => match self.maps.get(id) {
                Some(m) => m.whole == Some(client),
                None => false,
            },
        }
    }

    // Who holds a lock that conflicts with this one.
    fn against(&self, lock: &Lock) -> Against
        ensures { (d : ℕ) → is_against result.whole result.key result.clients d
            ≡ list_any (do_conflict lock.now) (holder_at self.now d).locks }
    {
        match lock {
            Lock::OnKey { id, key } => match self.maps.get(id) {
                Some(m) => Against {
                    whole: m.whole,
                    key: m.keys.get(key).copied(),
                    clients: [false; PLACES],
                },
                None => Against::none(),
            },
            Lock::OnMap { id } => match self.maps.get(id) {
                Some(m) => Against {
                    whole: m.whole,
                    key: None,
                    clients: m.clients,
                },
                None => Against::none(),
            },
        }
    }

    /// The least other client that holds a lock which conflicts with this one.
    pub fn holder(&self, lock: &Lock, besides: u32) -> Option<u32>
        ensures { result ≡ least_client (hinderers self.now besides lock.now) }
    {
        let against = self.against(lock);
        for client in 0..self.count() {
            if against.hinders(besides, client) {
                return Some(client);
            }
        }
        None
    }

    /// The lock that the client waits for.
    pub fn waiting(&self, client: u32) -> Option<&Lock>
        requires { client < length self.now }
        ensures { option_copied result ≡ (holder_at self.now client).waits }
    {
        self.clients[client as usize].waits()
    }

    /// The client wants the lock. It is given to it where no other client holds a conflicting one, and its wait ends.
    /// Else its wait is noted, unless it would close a ring: then nothing changes, and so it is where there was no
    /// memory.
    pub fn want(&mut self, client: u32, lock: &Lock) -> Result<Want, NoMemory>
        requires some { 1 ≤ client }
        requires client { client < length self.old }
        ensures answer { IfOk result (λ want. IsAnswer self.old client lock.now want self.new) }
        ensures refused { OnErr result (self.new ≡ self.old) }
        ensures ringless { IsRingless self.new }
        ensures count { length self.new ≡ length self.old }
    {
        let Some(holder) = self.holder(lock, client) else {
            self.take(client, lock)?;
            return Ok(Want::Held);
        };
        if let Some(via) = self.ring(client, lock)? {
            return Ok(Want::Ring { via });
        }
        self.note_wait(client, lock)?;
        Ok(Want::Waits { holder })
    }

    /// The client gives back all its locks and waits for nothing any more. Takes no memory.
    pub fn release_all(&mut self, client: u32)
        requires some { 1 ≤ client }
        requires client { client < length self.old }
        ensures released { self.new ≡ without self.old client }
        ensures ringless { IsRingless self.new }
        ensures count { length self.new ≡ length self.old }
    {
        let held = std::mem::replace(
            &mut self.clients[client as usize],
            ClientLocks::new(self.alloc),
        );
        drop_all(&mut self.maps, client, held.locks());
    }

    // How many holders there are, that of client 0 among them.
    fn count(&self) -> u32
        ensures { result ≡ length self.now }
    {
        self.clients.len() as u32
    }

    // The clients that hinder this one at the lock.
    fn hinderers(&self, client: u32, lock: &Lock) -> Result<Sequence<u32>, NoMemory>
        ensures { IfOk result (λ found. found ≡ hinderers self.now client lock.now) }
    {
        let against = self.against(lock);
        let mut found = Vec::new(self.alloc);
        for other in 0..self.count() {
            push_if(&mut found, other, against.hinders(client, other))?;
        }
        Ok(Sequence::of(found))
    }

    // The clients for which each one would wait if the client waited for the lock.
    fn steps(&self, client: u32, lock: &Lock) -> Result<Vec<Sequence<u32>>, NoMemory>
        requires { client < length self.now }
        ensures { IfOk result (λ steps. steps.items
            ≡ map (waits_for (with_wait self.now client lock.now))
            (range_with_len 0 (length self.now))) }
    {
        let mut steps = Vec::new(self.alloc);
        for other in 0..self.count() {
            steps.push(self.step_of(client, lock, other)?)?;
        }
        Ok(steps)
    }

    // The clients for which the other one would wait if the client waited for the lock.
    fn step_of(&self, client: u32, lock: &Lock, other: u32) -> Result<Sequence<u32>, NoMemory>
        requires client { client < length self.now }
        requires other { other < length self.now }
        ensures { IfOk result (λ found. found
            ≡ waits_for (with_wait self.now client lock.now) other) }
    {
        if other == client {
            return self.hinderers(client, lock);
        }
        match self.waiting(other) {
            Some(wanted) => self.hinderers(other, wanted),
            None => Ok(Sequence::of(Vec::new(self.alloc))),
        }
    }

    // The least hindering client from which a ring would come back, where the client's wait would close one.
    fn ring(&self, client: u32, lock: &Lock) -> Result<Option<u32>, NoMemory>
        requires { client < length self.now }
        ensures via { IfOk result (λ via. IsRing self.now client lock.now via) }
        ensures ringless { IsRingless self.now }
    {
        let alloc = self.alloc;
        let all = self.steps(client, lock)?;
        let steps = all.as_slice();
        let leading = leading(alloc, steps, client)?;
        let own = &steps[client as usize];
        Ok(via_of(own.items(), client, leading.as_slice()))
    }

    // The client takes a lock that no other hinders, unless it has it, and waits for nothing.
    fn take(&mut self, client: u32, lock: &Lock) -> Result<(), NoMemory>
        requires some { 1 ≤ client }
        requires client { client < length self.old }
        requires free { hinderers self.old client lock.now ≡ [] }
        ensures taken { OnOk result (self.new ≡ with_held self.old client lock.now) }
        ensures refused { OnErr result (self.new ≡ self.old) }
        ensures ringless { IsRingless self.new }
        ensures count { length self.new ≡ length self.old }
    {
        if self.holds(client, lock) {
            let held = &mut self.clients[client as usize];
            held.set_wait(None);
            return Ok(());
        }
        let held = &mut self.clients[client as usize];
        held.take(&mut self.maps, self.alloc, client, lock)?;
        Ok(())
    }

    // Notes a wait that closes no ring.
    fn note_wait(&mut self, client: u32, lock: &Lock) -> Result<(), NoMemory>
        requires some { 1 ≤ client }
        requires client { client < length self.old }
        requires no_ring { ring self.old client lock.now ≡ false }
        ensures noted { OnOk result (self.new ≡ with_wait self.old client lock.now) }
        ensures refused { OnErr result (self.new ≡ self.old) }
        ensures ringless { IsRingless self.new }
        ensures count { length self.new ≡ length self.old }
    {
        let copy = copy_of(self.alloc, lock)?;
        let held = &mut self.clients[client as usize];
        held.set_wait(Some(copy));
        Ok(())
    }
}

// One client more, where it counts.
fn push_if(found: &mut Vec<u32>, client: u32, counts: bool) -> Result<(), NoMemory>
    ensures { OnOk result (found.new.items ≡ found.old.items ++ cond counts (client ∷ []) []) }
{
    if counts {
        found.push(client)?;
    }
    Ok(())
}

// The first of the clients that leads to the goal, where the goal itself does.
fn via_of(clients: &[u32], goal: u32, leading: &[bool]) -> Option<u32>
    ensures { result ≡ if slice_index_or leading.now goal false
        then find (λ d. slice_index_or leading.now d false) clients.now else None }
{
    if !leads_at(leading, goal) {
        return None;
    }
    for client in clients {
        if leads_at(leading, *client) {
            return Some(*client);
        }
    }
    None
}
