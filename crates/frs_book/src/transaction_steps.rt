//! The steps of a client inside an active transaction.
ghost use Rattle.std.specs.Prelude.{◌≡◌, ◌≤◌, ◌<◌, ℕ, true, [], Option, None, Some, cond, List, length, map, option_map, slice_set, IfOk, OnOk, OnErr, IsSome};
ghost use Rattle.frs_types.specs.declared.record.Action.TheVariants.{Abandon};
ghost use Rattle.frs_types.specs.Maps.{at, table_after_all};
ghost use Rattle.frs_types.specs.Lawful.{StoredValue};
ghost use Rattle.frs_types.specs.Locks.{hinderers};
ghost use Rattle.frs_frame.specs.Spelling.{spelling, without_numbers};
ghost use Rattle.frs_locks.specs.Answers.{with_held};
ghost use Rattle.frs_objects.specs.Objects.{AreNew, change_by, lsn_of_place, put_lsns, puts_among};
ghost use Rattle.frs_history.specs.Machine.{value_or_none};
ghost use Rattle.frs_book.specs.Books.{IsPrepared};
ghost use Rattle.frs_book.specs.Inside.{IsReadInside, IsChangeInside, IsDeadlock, changes_in, with_change_of, with_no_changes};
ghost use Rattle.frs_book.specs.Ledgers.{TakesStep, IsTurnAt, book_of, client_at, client_in, has_begun};

use crate::client_state::{ClientState, TxState};
use crate::ledger::Ledger;
use crate::room::{draw, draw_prepared, find_room};
use crate::step::Step;
use crate::steps::{key_lock, map_lock, put_op, removal};
use frs_frame::Framed;
use frs_history::{Command, Line, Reply};
use frs_locks::Locks;
use frs_objects::{Objects, Op};
use frs_types::{Key, Lock, MapId, NoMemory, Value};
use std::alloc::Global;
use std::mem;

impl Ledger {
    /// A command inside an active transaction.
    pub fn inside(
        &mut self,
        alloc: Global,
        client: u32,
        line: &Line,
        framed: &mut Option<Framed>,
    ) -> Step
        requires turn { IsTurnAt self.old client line.now }
        requires inside { has_begun (client_at self.old client).tx ≡ true }
        requires framed { IsPrepared (book_of self.old) client framed.old }
        ensures { TakesStep self.old client framed.old result self.new framed.new }
    {
        match &line.command {
            Command::Put { id, key, value } => {
                self.put_inside(alloc, client, line, id, key, value, framed)
            }
            Command::Remove { id, key } => self.remove_inside(alloc, client, line, id, key, framed),
            Command::Delete { id } => self.delete_inside(alloc, client, line, id, framed),
            Command::Get { id, key } => self.get_inside(alloc, client, line, id, key, framed),
            Command::Snapshot => self.snapshot(client, line),
            Command::Commit => self.commit(alloc, client, line, framed),
            Command::Begin { .. } => unreachable!(),
        }
    }

    // Sets the value of a key for the transaction.
    fn put_inside(
        &mut self,
        alloc: Global,
        client: u32,
        line: &Line,
        id: &MapId,
        key: &Key,
        value: &Value,
        framed: &mut Option<Framed>,
    ) -> Step
        requires turn { IsTurnAt self.old client line.now }
        requires inside { has_begun (client_at self.old client).tx ≡ true }
        requires command { line.now.command ≡ Command.Put id.now key.now value.now }
        requires framed { IsPrepared (book_of self.old) client framed.old }
        ensures { TakesStep self.old client framed.old result self.new framed.new }
    {
        let Ok(lock) = key_lock(alloc, id, key) else {
            return Step::Memory;
        };
        if self.locks.holder(&lock, client).is_some() {
            return self.wait(client, line, &lock, framed);
        }
        let Ok(own) = key_lock(alloc, id, key) else {
            return Step::Memory;
        };
        let Ok(op) = put_op(alloc, own, value, self.drawer.next()) else {
            return Step::Memory;
        };
        let named = self.named_inside(client, id, key);
        self.change_inside(alloc, client, line, &lock, op, named, framed)
    }

    // Takes a key out of its map for the transaction, where it is there for it.
    fn remove_inside(
        &mut self,
        alloc: Global,
        client: u32,
        line: &Line,
        id: &MapId,
        key: &Key,
        framed: &mut Option<Framed>,
    ) -> Step
        requires turn { IsTurnAt self.old client line.now }
        requires inside { has_begun (client_at self.old client).tx ≡ true }
        requires command { line.now.command ≡ Command.Remove id.now key.now }
        requires framed { IsPrepared (book_of self.old) client framed.old }
        ensures { TakesStep self.old client framed.old result self.new framed.new }
    {
        let Ok(lock) = key_lock(alloc, id, key) else {
            return Step::Memory;
        };
        if self.locks.holder(&lock, client).is_some() {
            return self.wait(client, line, &lock, framed);
        }
        let named = self.named_inside(client, id, key);
        if named == 0 {
            return self.read_inside(client, line, &lock, Reply::Absent);
        }
        let Ok(own) = key_lock(alloc, id, key) else {
            return Step::Memory;
        };
        self.change_inside(alloc, client, line, &lock, removal(own), named, framed)
    }

    // Takes every key of a map out for the transaction.
    fn delete_inside(
        &mut self,
        alloc: Global,
        client: u32,
        line: &Line,
        id: &MapId,
        framed: &mut Option<Framed>,
    ) -> Step
        requires turn { IsTurnAt self.old client line.now }
        requires inside { has_begun (client_at self.old client).tx ≡ true }
        requires command { line.now.command ≡ Command.Delete id.now }
        requires framed { IsPrepared (book_of self.old) client framed.old }
        ensures { TakesStep self.old client framed.old result self.new framed.new }
    {
        let Ok(lock) = map_lock(alloc, id) else {
            return Step::Memory;
        };
        if self.locks.holder(&lock, client).is_some() {
            return self.wait(client, line, &lock, framed);
        }
        let Ok(own) = map_lock(alloc, id) else {
            return Step::Memory;
        };
        self.change_inside(alloc, client, line, &lock, removal(own), 0, framed)
    }

    // The value of a key as the transaction sees it.
    fn get_inside(
        &mut self,
        alloc: Global,
        client: u32,
        line: &Line,
        id: &MapId,
        key: &Key,
        framed: &mut Option<Framed>,
    ) -> Step
        requires turn { IsTurnAt self.old client line.now }
        requires inside { has_begun (client_at self.old client).tx ≡ true }
        requires command { line.now.command ≡ Command.Get id.now key.now }
        requires framed { IsPrepared (book_of self.old) client framed.old }
        ensures { TakesStep self.old client framed.old result self.new framed.new }
    {
        let Ok(lock) = key_lock(alloc, id, key) else {
            return Step::Memory;
        };
        if self.locks.holder(&lock, client).is_some() {
            return self.wait(client, line, &lock, framed);
        }
        let tx = &self.clients[client as usize].tx;
        match seen_by(alloc, tx, &self.objects, id, key) {
            Ok(reply) => self.read_inside(client, line, &lock, reply),
            Err(NoMemory) => Step::Memory,
        }
    }

    // The LSN that a record of the client names at a key.
    fn named_inside(&self, client: u32, id: &MapId, key: &Key) -> u64
        requires client { client < length self.now.clients.items }
        requires inside { has_begun (client_at self.now client).tx ≡ true }
        ensures { result ≡ lsn_of_place (table_after_all self.now.objects
            (map change_by (changes_in (client_at self.now client).tx))) (id.now, key.now) }
    {
        match &self.clients[client as usize].tx {
            TxState::Active { changes, .. } => changes.lsn_over(&self.objects, id, key),
            TxState::Outside | TxState::Abandoned => unreachable!(),
        }
    }

    // A change that nobody hinders. With it the client holds its lock.
    fn change_inside(
        &mut self,
        alloc: Global,
        client: u32,
        line: &Line,
        lock: &Lock,
        op: Op,
        named: u64,
        framed: &mut Option<Framed>,
    ) -> Step
        requires turn { IsTurnAt self.old client line.now }
        requires change { IsChangeInside self.old client line.now.command lock.now op named }
        requires framed { IsPrepared (book_of self.old) client framed.old }
        ensures { TakesStep self.old client framed.old result self.new framed.new }
    {
        if let Err(full) = find_room(&mut self.drawer) {
            return full.step();
        }
        if self.history.reserve().is_err() {
            return Step::Memory;
        }
        let begin = self.clients[client as usize].begin();
        let lowest = self.lowest();
        if push_change(alloc, &mut self.clients, &mut self.locks, client, lock, op).is_err() {
            return Step::Memory;
        }
        let slip = draw_prepared(&mut self.drawer, framed, begin, lowest, named);
        let place = self.note(client, line.number, Reply::Done, None);
        Step::Done {
            place,
            line: line.number,
            slip: Some(slip),
            ack: None,
            snapshot: None,
        }
    }

    // A command that draws no record, and that nobody hinders. With it the client holds its lock.
    fn read_inside(&mut self, client: u32, line: &Line, lock: &Lock, reply: Reply) -> Step
        requires turn { IsTurnAt self.old client line.now }
        requires read { IsReadInside self.old client line.now.command lock.now reply }
        ensures { (f : Option (List ℕ)) → TakesStep self.old client f result self.new f }
    {
        if self.history.reserve().is_err() {
            return Step::Memory;
        }
        if self.locks.want(client, lock).is_err() {
            return Step::Memory;
        }
        let place = self.note(client, line.number, reply, None);
        Step::Done {
            place,
            line: line.number,
            slip: None,
            ack: None,
            snapshot: None,
        }
    }

    // The commit makes the changes of the transaction in the maps, and ends it.
    fn commit(
        &mut self,
        alloc: Global,
        client: u32,
        line: &Line,
        framed: &mut Option<Framed>,
    ) -> Step
        requires turn { IsTurnAt self.old client line.now }
        requires inside { has_begun (client_at self.old client).tx ≡ true }
        requires command { line.now.command ≡ Command.Commit }
        requires framed { IsPrepared (book_of self.old) client framed.old }
        ensures { TakesStep self.old client framed.old result self.new framed.new }
    {
        if let Err(full) = find_room(&mut self.drawer) {
            return full.step();
        }
        if self.history.reserve().is_err() {
            return Step::Memory;
        }
        let begin = self.clients[client as usize].begin();
        let sync = self.clients[client as usize].is_sync();
        let lowest = self.lowest();
        if apply_changes(alloc, &mut self.clients, client, &mut self.objects).is_err() {
            return Step::Memory;
        }
        let ack = owed_lsn(sync, self.drawer.next());
        let slip = draw_prepared(&mut self.drawer, framed, begin, lowest, 0);
        self.locks.release_all(client);
        self.clients[client as usize].tx = TxState::Outside;
        let place = self.note(client, line.number, Reply::Done, ack);
        Step::Done {
            place,
            line: line.number,
            slip: Some(slip),
            ack,
            snapshot: None,
        }
    }

    /// The client's wait would close a ring: its transaction is abandoned. The abandon record that was kept is drawn, and
    /// what was prepared becomes the next one that is kept.
    pub fn deadlock(&mut self, client: u32, line: &Line, framed: &mut Option<Framed>) -> Step
        requires turn { IsTurnAt self.old client line.now }
        requires closes { IsDeadlock self.old client line.now.command }
        requires room { 1 ≤ self.old.history.room }
        requires framed { IsPrepared (book_of self.old) client framed.old }
        ensures { TakesStep self.old client framed.old result self.new framed.new }
    {
        if let Err(full) = find_room(&mut self.drawer) {
            return full.step();
        }
        let begin = self.clients[client as usize].begin();
        let lowest = self.lowest();
        let abandon = exchange(&mut self.abandon, framed);
        let slip = draw(&mut self.drawer, abandon, begin, lowest, 0);
        self.locks.release_all(client);
        self.clients[client as usize].tx = TxState::Abandoned;
        let place = self.note(client, line.number, Reply::Deadlock, None);
        Step::Done {
            place,
            line: line.number,
            slip: Some(slip),
            ack: None,
            snapshot: None,
        }
    }
}

// Takes the abandon record that was kept, and keeps what was prepared in its place, as an abandon record.
fn exchange(kept: &mut Framed, framed: &mut Option<Framed>) -> Framed
    requires { IsSome framed.old }
    ensures given { result ≡ kept.old }
    ensures kept { kept.new ≡ spelling (without_numbers Abandon) }
    ensures taken { framed.new ≡ None }
{
    match framed.take() {
        Some(mut next) => {
            next.make_abandon();
            mem::replace(kept, next)
        }
        None => unreachable!(),
    }
}

// Adds a change to a client's transaction, with its lock. After want of memory the client has neither.
fn push_change(
    alloc: Global,
    clients: &mut Vec<ClientState>,
    locks: &mut Locks,
    client: u32,
    lock: &Lock,
    op: Op,
) -> Result<(), NoMemory>
    requires some { 1 ≤ client }
    requires client { client < length clients.old.items }
    requires holder { client < length locks.old }
    requires inside { has_begun (client_in clients.old.items client).tx ≡ true }
    requires free { hinderers locks.old client lock.now ≡ [] }
    ensures pushed { OnOk result (clients.new.items ≡ slice_set clients.old.items client
        (with_change_of (client_in clients.old.items client) op)) }
    ensures held { OnOk result (locks.new ≡ with_held locks.old client lock.now) }
    ensures refused { OnErr result (clients.new.items ≡ clients.old.items) }
    ensures kept { OnErr result (locks.new ≡ locks.old) }
{
    match &mut clients[client as usize].tx {
        TxState::Active { changes, .. } => changes.push_locked(alloc, op, locks, client, lock),
        TxState::Outside | TxState::Abandoned => unreachable!(),
    }
}

// Makes the changes of a client's active transaction in the maps; it has none any more then. After want of memory the
// maps and the clients are as they were.
fn apply_changes(
    alloc: Global,
    clients: &mut Vec<ClientState>,
    client: u32,
    objects: &mut Objects,
) -> Result<(), NoMemory>
    requires client { client < length clients.old.items }
    requires inside { has_begun (client_in clients.old.items client).tx ≡ true }
    requires new { AreNew objects.old
        (put_lsns (puts_among (changes_in (client_in clients.old.items client).tx))) }
    ensures applied { OnOk result (objects.new ≡ table_after_all objects.old
        (map change_by (changes_in (client_in clients.old.items client).tx))) }
    ensures emptied { OnOk result (clients.new.items ≡ slice_set clients.old.items client
        (with_no_changes (client_in clients.old.items client))) }
    ensures refused { OnErr result (objects.new ≡ objects.old) }
    ensures kept { OnErr result (clients.new.items ≡ clients.old.items) }
{
    match &mut clients[client as usize].tx {
        TxState::Active { changes, .. } => changes.apply_to(alloc, objects),
        TxState::Outside | TxState::Abandoned => unreachable!(),
    }
}

// The LSN that a commit is to be acknowledged with, if it is.
fn owed_lsn(sync: bool, lsn: u64) -> Option<u64>
    ensures { result ≡ cond sync (Some lsn) None }
{
    if sync { Some(lsn) } else { None }
}

// What a get is answered inside an active transaction.
fn seen_by(
    alloc: Global,
    tx: &TxState,
    objects: &Objects,
    id: &MapId,
    key: &Key,
) -> Result<Reply, NoMemory>
    requires { has_begun tx.now ≡ true }
    ensures { IfOk result (λ reply. reply ≡ value_or_none (option_map (λ (h : StoredValue). h.value)
        (at (table_after_all objects.now (map change_by (changes_in tx.now))) (id.now, key.now)))) }
{
    match tx {
        TxState::Active { changes, .. } => match changes.value_over(objects, id, key) {
            Some(value) => Ok(Reply::Found {
                value: value.copy(alloc)?,
            }),
            None => Ok(Reply::Absent),
        },
        TxState::Outside | TxState::Abandoned => unreachable!(),
    }
}
