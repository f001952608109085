//! The steps of a client: its next command outside a transaction, a wait, and what comes once its transaction is
//! abandoned or its script is at its end.
ghost use Rattle.std.specs.Prelude.{◌≡◌, ◌≢◌, ◌+◌, ◌^◌, ◌<◌, ◌≤◌, ℕ, true, false, List, [], ◌∷◌, ◌++◌, Some, None, Option, option_copied, length, slice_set, IfOk, OnOk, OnErr};
ghost use Rattle.frs_types.specs.declared.record.Action.TheVariants.{Remove, Delete};
ghost use Rattle.frs_types.specs.declared.lock.Lock.TheVariants.{OnKey, OnMap};
ghost use Rattle.frs_types.specs.Maps.{at, table_after};
ghost use Rattle.frs_types.specs.Records.{has_words, is_value};
ghost use Rattle.frs_types.specs.Locks.{hinderers};
ghost use Rattle.frs_types.specs.Lawful.{plain_maps};
ghost use Rattle.frs_objects.specs.Objects.{change_by, lsn_of_place, AreNew, put_lsns, puts_among};
ghost use Rattle.frs_history.specs.declared.event.What.TheVariants.{Answered, Waits, End};
ghost use Rattle.frs_history.specs.Machine.{next_line, lock_needed, value_or_none};
ghost use Rattle.frs_book.specs.Books.{IsPrepared};
ghost use Rattle.frs_book.specs.Ledgers.{TakesStep, IsTurn, IsTurnAt, IsTold, IsFreeChange, book_of, scripts_of, machine_state, client_at, transaction_of, answered_state, removal_of, tx_after_abandoned};

use crate::changes::Changes;
use crate::client_state::TxState;
use crate::ledger::Ledger;
use crate::room::{draw_prepared, find_room};
use crate::step::Step;
use frs_frame::Framed;
use frs_history::{Ack, Command, Event, Line, Reply, What};
use frs_locks::Want;
use frs_objects::{Objects, Op};
use frs_types::{Key, Lock, MapId, NUMBER_LIMIT, NoMemory, Value};
use std::alloc::Global;

impl Ledger {
    /// The next step of a client, where this is its next line, if it has one.
    pub fn step(
        &mut self,
        alloc: Global,
        client: u32,
        line: Option<&Line>,
        framed: &mut Option<Framed>,
    ) -> Step
        requires turn { IsTurn self.old client }
        requires line { option_copied line
            ≡ next_line (scripts_of self.old) (machine_state self.old) client }
        requires framed { IsPrepared (book_of self.old) client framed.old }
        ensures { TakesStep self.old client framed.old result self.new framed.new }
    {
        let Some(line) = line else {
            return self.end(client, framed);
        };
        match &self.clients[client as usize].tx {
            TxState::Outside => self.outside(alloc, client, line, framed),
            TxState::Active { .. } => self.inside(alloc, client, line, framed),
            TxState::Abandoned => self.abandoned(client, line),
        }
    }

    // A command outside a transaction.
    fn outside(
        &mut self,
        alloc: Global,
        client: u32,
        line: &Line,
        framed: &mut Option<Framed>,
    ) -> Step
        requires turn { IsTurnAt self.old client line.now }
        requires outside { (client_at self.old client).tx ≡ TxState.Outside }
        requires framed { IsPrepared (book_of self.old) client framed.old }
        ensures { TakesStep self.old client framed.old result self.new framed.new }
    {
        match &line.command {
            Command::Begin { sync } => self.begin(alloc, client, line, *sync, framed),
            Command::Put { id, key, value } => self.put(
                alloc, client, line, id, key, value, framed,
            ),
            Command::Remove { id, key } => self.remove(alloc, client, line, id, key, framed),
            Command::Delete { id } => self.delete(alloc, client, line, id, framed),
            Command::Get { id, key } => self.get(alloc, client, line, id, key),
            Command::Snapshot => self.snapshot(client, line),
            Command::Commit => unreachable!(),
        }
    }

    // The client's transaction begins.
    fn begin(
        &mut self,
        alloc: Global,
        client: u32,
        line: &Line,
        sync: bool,
        framed: &mut Option<Framed>,
    ) -> Step
        requires turn { IsTurnAt self.old client line.now }
        requires outside { (client_at self.old client).tx ≡ TxState.Outside }
        requires command { line.now.command ≡ Command.Begin sync }
        requires framed { IsPrepared (book_of self.old) client framed.old }
        ensures { TakesStep self.old client framed.old result self.new framed.new }
    {
        if let Err(full) = find_room(&mut self.drawer) {
            return full.step();
        }
        if self.history.reserve().is_err() {
            return Step::Memory;
        }
        let lowest = self.lowest();
        let begin = self.drawer.next();
        let slip = draw_prepared(&mut self.drawer, framed, begin, lowest, 0);
        self.clients[client as usize].tx = TxState::Active {
            begin,
            sync,
            changes: Changes::new(alloc),
        };
        let place = self.note(client, line.number, Reply::Done, None);
        Step::Done {
            place,
            line: line.number,
            slip: Some(slip),
            ack: None,
            snapshot: None,
        }
    }

    // Sets the value of a key in the maps.
    fn put(
        &mut self,
        alloc: Global,
        client: u32,
        line: &Line,
        id: &MapId,
        key: &Key,
        value: &Value,
        framed: &mut Option<Framed>,
    ) -> Step
        requires turn { IsTurnAt self.old client line.now }
        requires outside { (client_at self.old client).tx ≡ TxState.Outside }
        requires command { line.now.command ≡ Command.Put id.now key.now value.now }
        requires framed { IsPrepared (book_of self.old) client framed.old }
        ensures { TakesStep self.old client framed.old result self.new framed.new }
    {
        let Ok(lock) = key_lock(alloc, id, key) else {
            return Step::Memory;
        };
        if self.locks.holder(&lock, client).is_some() {
            return self.wait(client, line, &lock, framed);
        }
        let named = lsn_at(&self.objects, id, key);
        let Ok(op) = put_op(alloc, lock, value, self.drawer.next()) else {
            return Step::Memory;
        };
        self.change(alloc, client, line, op, named, framed)
    }

    // Takes a key out of its map, where it is there.
    fn remove(
        &mut self,
        alloc: Global,
        client: u32,
        line: &Line,
        id: &MapId,
        key: &Key,
        framed: &mut Option<Framed>,
    ) -> Step
        requires turn { IsTurnAt self.old client line.now }
        requires outside { (client_at self.old client).tx ≡ TxState.Outside }
        requires command { line.now.command ≡ Command.Remove id.now key.now }
        requires framed { IsPrepared (book_of self.old) client framed.old }
        ensures { TakesStep self.old client framed.old result self.new framed.new }
    {
        let Ok(lock) = key_lock(alloc, id, key) else {
            return Step::Memory;
        };
        if self.locks.holder(&lock, client).is_some() {
            return self.wait(client, line, &lock, framed);
        }
        let named = lsn_at(&self.objects, id, key);
        if named == 0 {
            return self.tell(client, line, Reply::Absent);
        }
        self.change(alloc, client, line, removal(lock), named, framed)
    }

    // Takes every key of a map out.
    fn delete(
        &mut self,
        alloc: Global,
        client: u32,
        line: &Line,
        id: &MapId,
        framed: &mut Option<Framed>,
    ) -> Step
        requires turn { IsTurnAt self.old client line.now }
        requires outside { (client_at self.old client).tx ≡ TxState.Outside }
        requires command { line.now.command ≡ Command.Delete id.now }
        requires framed { IsPrepared (book_of self.old) client framed.old }
        ensures { TakesStep self.old client framed.old result self.new framed.new }
    {
        let Ok(lock) = map_lock(alloc, id) else {
            return Step::Memory;
        };
        if self.locks.holder(&lock, client).is_some() {
            return self.wait(client, line, &lock, framed);
        }
        self.change(alloc, client, line, removal(lock), 0, framed)
    }

    // Makes a change outside a transaction that nobody hinders, and draws its record.
    fn change(
        &mut self,
        alloc: Global,
        client: u32,
        line: &Line,
        op: Op,
        named: u64,
        framed: &mut Option<Framed>,
    ) -> Step
        requires turn { IsTurnAt self.old client line.now }
        requires outside { (client_at self.old client).tx ≡ TxState.Outside }
        requires change { IsFreeChange self.old client line.now.command op named }
        requires framed { IsPrepared (book_of self.old) client framed.old }
        ensures { TakesStep self.old client framed.old result self.new framed.new }
    {
        if let Err(full) = find_room(&mut self.drawer) {
            return full.step();
        }
        if self.history.reserve().is_err() {
            return Step::Memory;
        }
        let lowest = self.lowest();
        if let Err(NoMemory) = apply_one(alloc, &mut self.objects, op) {
            return Step::Memory;
        }
        let lsn = self.drawer.next();
        let slip = draw_prepared(&mut self.drawer, framed, 0, lowest, named);
        self.locks.release_all(client);
        let place = self.note(client, line.number, Reply::Done, Some(lsn));
        Step::Done {
            place,
            line: line.number,
            slip: Some(slip),
            ack: Some(lsn),
            snapshot: None,
        }
    }

    // The committed value of a key.
    fn get(&mut self, alloc: Global, client: u32, line: &Line, id: &MapId, key: &Key) -> Step
        requires turn { IsTurnAt self.old client line.now }
        requires outside { (client_at self.old client).tx ≡ TxState.Outside }
        requires command { line.now.command ≡ Command.Get id.now key.now }
        ensures { (f : Option (List ℕ)) → TakesStep self.old client f result self.new f }
    {
        match committed(alloc, &self.objects, id, key) {
            Ok(reply) => self.tell(client, line, reply),
            Err(NoMemory) => Step::Memory,
        }
    }

    // A command that draws no record and is not to be acknowledged.
    fn tell(&mut self, client: u32, line: &Line, reply: Reply) -> Step
        requires turn { IsTurnAt self.old client line.now }
        requires told { IsTold self.old client line.now.command reply }
        ensures { (f : Option (List ℕ)) → TakesStep self.old client f result self.new f }
    {
        if self.history.reserve().is_err() {
            return Step::Memory;
        }
        self.locks.release_all(client);
        let place = self.note(client, line.number, reply, None);
        Step::Done {
            place,
            line: line.number,
            slip: None,
            ack: None,
            snapshot: None,
        }
    }

    /// A snapshot, outside a transaction or inside.
    pub fn snapshot(&mut self, client: u32, line: &Line) -> Step
        requires turn { IsTurnAt self.old client line.now }
        requires command { line.now.command ≡ Command.Snapshot }
        requires there { (client_at self.old client).tx ≢ TxState.Abandoned }
        ensures { (f : Option (List ℕ)) → TakesStep self.old client f result self.new f }
    {
        if self.history.reserve().is_err() {
            return Step::Memory;
        }
        let lsn = self.drawer.next() - 1;
        let number = number_after(self.last, self.history.events());
        self.last = number;
        let place = self.note(client, line.number, Reply::Snapshot { number }, Some(lsn));
        Step::Done {
            place,
            line: line.number,
            slip: None,
            ack: Some(lsn),
            snapshot: Some((number, lsn)),
        }
    }

    // A command whose transaction was abandoned. Its commit ends it.
    fn abandoned(&mut self, client: u32, line: &Line) -> Step
        requires turn { IsTurnAt self.old client line.now }
        requires abandoned { (client_at self.old client).tx ≡ TxState.Abandoned }
        ensures { (f : Option (List ℕ)) → TakesStep self.old client f result self.new f }
    {
        if self.history.reserve().is_err() {
            return Step::Memory;
        }
        self.clients[client as usize].tx = after_abandoned(&line.command);
        let place = self.note(client, line.number, Reply::Abandoned, None);
        Step::Done {
            place,
            line: line.number,
            slip: None,
            ack: None,
            snapshot: None,
        }
    }

    // The end of a script: an active transaction is abandoned.
    fn end(&mut self, client: u32, framed: &mut Option<Framed>) -> Step
        requires turn { IsTurn self.old client }
        requires line { next_line (scripts_of self.old) (machine_state self.old) client ≡ None }
        requires framed { IsPrepared (book_of self.old) client framed.old }
        ensures { TakesStep self.old client framed.old result self.new framed.new }
    {
        let begin = self.clients[client as usize].begin();
        if begin == 0 {
            return Step::Finished;
        }
        if let Err(full) = find_room(&mut self.drawer) {
            return full.step();
        }
        if self.history.reserve().is_err() {
            return Step::Memory;
        }
        let lowest = self.lowest();
        let slip = draw_prepared(&mut self.drawer, framed, begin, lowest, 0);
        self.locks.release_all(client);
        let place = self.note_end(client);
        Step::Done {
            place,
            line: 0,
            slip: Some(slip),
            ack: None,
            snapshot: None,
        }
    }

    // Adds the event of the end of a client's script, for which there is room, and gives its place.
    fn note_end(&mut self, client: u32) -> u64
        requires room { 1 ≤ self.old.history.room }
        requires client { client < length self.old.clients.items }
        ensures same { self.new ≡ record self.old {
          history = self.new.history;
          clients = self.new.clients;
        } }
        ensures event { self.new.history.events ≡ self.old.history.events
            ++ record { client = client; line = 0; what = End } ∷ [] }
        ensures client { self.new.clients.items ≡ slice_set self.old.clients.items client
            (record (client_at self.old client) { tx = TxState.Abandoned; due = None }) }
        ensures place { result ≡ length self.old.history.events }
    {
        let place = self.history.events().len() as u64;
        self.history.push(Event {
            client,
            line: 0,
            what: What::End,
        });
        let state = &mut self.clients[client as usize];
        state.tx = TxState::Abandoned;
        state.due = None;
        place
    }

    /// A client that is hindered at the lock of its next command: it waits, unless its wait would close a ring. The first
    /// wait of a command is an event.
    pub fn wait(
        &mut self,
        client: u32,
        line: &Line,
        lock: &Lock,
        framed: &mut Option<Framed>,
    ) -> Step
        requires turn { IsTurnAt self.old client line.now }
        requires lock { lock_needed (transaction_of (client_at self.old client).tx) line.now.command
            ≡ Some lock.now }
        requires hindered { hinderers self.old.locks client lock.now ≢ [] }
        requires framed { IsPrepared (book_of self.old) client framed.old }
        ensures { TakesStep self.old client framed.old result self.new framed.new }
    {
        if self.history.reserve().is_err() {
            return Step::Memory;
        }
        let first = self.locks.waiting(client).is_none();
        match self.locks.want(client, lock) {
            Ok(Want::Waits { holder }) => {
                self.note_wait(client, line.number, first);
                Step::Waits { holder }
            }
            Ok(Want::Ring { .. }) => self.deadlock(client, line, framed),
            Ok(Want::Held) => unreachable!(),
            Err(NoMemory) => Step::Memory,
        }
    }

    // Notes that a command waits, where it does so for the first time. There is room for the event.
    fn note_wait(&mut self, client: u32, line: u32, first: bool)
        requires { 1 ≤ self.old.history.room }
        ensures same { self.new ≡ record self.old { history = self.new.history } }
        ensures noted { first ≡ true → self.new.history.events ≡ self.old.history.events
            ++ record { client = client; line = line; what = Waits } ∷ [] }
        ensures kept { first ≡ false → self.new.history.events ≡ self.old.history.events }
    {
        if first {
            self.history.push(Event {
                client,
                line,
                what: What::Waits,
            });
        }
    }

    /// Adds the event of an answer, for which there is room, and gives its place. The answer may have to be acknowledged
    /// with this LSN.
    pub fn note(&mut self, client: u32, line: u32, reply: Reply, owed: Option<u64>) -> u64
        requires room { 1 ≤ self.old.history.room }
        requires client { client < length self.old.clients.items }
        requires line { (client_at self.old client).done + 1 < 2 ^ 64 }
        ensures same { self.new ≡ record self.old {
          history = self.new.history;
          clients = self.new.clients;
        } }
        ensures event { self.new.history.events ≡ self.old.history.events
            ++ record { client = client; line = line; what = Answered reply } ∷ [] }
        ensures client { self.new.clients.items ≡ slice_set self.old.clients.items client
            (answered_state (client_at self.old client) client line owed) }
        ensures place { result ≡ length self.old.history.events }
    {
        let place = self.history.events().len() as u64;
        self.history.push(Event {
            client,
            line,
            what: What::Answered { reply },
        });
        let state = &mut self.clients[client as usize];
        state.done += 1;
        state.due = match owed {
            Some(lsn) => Some(Ack { client, line, lsn }),
            None => None,
        };
        place
    }
}

/// The lock on a key.
pub fn key_lock(alloc: Global, id: &MapId, key: &Key) -> Result<Lock, NoMemory>
    ensures lock { IfOk result (λ lock. lock ≡ OnKey id.now key.now) }
    ensures words { has_words (Remove id.now key.now) ≡ true }
{
    let _ = id.bytes();
    let _ = key.bytes();
    Ok(Lock::OnKey {
        id: id.copy(alloc)?,
        key: key.copy(alloc)?,
    })
}

/// The lock on a map.
pub fn map_lock(alloc: Global, id: &MapId) -> Result<Lock, NoMemory>
    ensures lock { IfOk result (λ lock. lock ≡ OnMap id.now) }
    ensures words { has_words (Delete id.now) ≡ true }
{
    let _ = id.bytes();
    Ok(Lock::OnMap {
        id: id.copy(alloc)?,
    })
}

/// The put of a value at the key of a lock.
pub fn put_op(alloc: Global, lock: Lock, value: &Value, lsn: u64) -> Result<Op, NoMemory>
    requires { (id key : List ℕ) × (lock ≡ OnKey id key) }
    ensures op { (id key : List ℕ) → lock ≡ OnKey id key
        → IfOk result (λ op. op ≡ Op.Put id key value.now lsn) }
    ensures word { is_value value.now ≡ true }
{
    let _ = value.bytes();
    match lock {
        Lock::OnKey { id, key } => Ok(Op::Put {
            id,
            key,
            value: value.copy(alloc)?,
            lsn,
        }),
        Lock::OnMap { .. } => unreachable!(),
    }
}

// Makes one change in the maps. After want of memory they are as they were.
fn apply_one(alloc: Global, objects: &mut Objects, op: Op) -> Result<(), NoMemory>
    requires { AreNew objects.old (put_lsns (puts_among (op ∷ []))) }
    ensures applied { OnOk result (objects.new ≡ table_after objects.old (change_by op)) }
    ensures refused { OnErr result (objects.new ≡ objects.old) }
{
    let mut ops = Vec::with_capacity(alloc, 1)?;
    ops.push_reserved(op);
    objects.apply(alloc, &mut ops)
}

// The number of the next snapshot. There were no more of them in this session than events, which fit in memory.
fn number_after(last: u64, events: &[Event]) -> u64
    requires { last < NUMBER_LIMIT + length events.now }
    ensures { result ≡ last + 1 }
{
    let _ = events.len();
    last + 1
}

// The LSN of the entry of a key, or 0.
fn lsn_at(objects: &Objects, id: &MapId, key: &Key) -> u64
    ensures { result ≡ lsn_of_place objects.now (id.now, key.now) }
{
    match objects.get(id, key) {
        Some(entry) => entry.lsn,
        None => 0,
    }
}

// What a get is answered: the committed value of the key, if it has one.
fn committed(alloc: Global, objects: &Objects, id: &MapId, key: &Key) -> Result<Reply, NoMemory>
    ensures { IfOk result (λ reply. reply
        ≡ value_or_none (at (plain_maps objects.now) (id.now, key.now))) }
{
    match objects.get(id, key) {
        Some(entry) => Ok(Reply::Found {
            value: entry.value.copy(alloc)?,
        }),
        None => Ok(Reply::Absent),
    }
}

/// What takes out all that a lock is on.
pub fn removal(lock: Lock) -> Op
    ensures { result ≡ removal_of lock }
{
    match lock {
        Lock::OnKey { id, key } => Op::Remove { id, key },
        Lock::OnMap { id } => Op::Delete { id },
    }
}

// The transaction once a command has come behind its abandonment: its commit ends it.
fn after_abandoned(command: &Command) -> TxState
    ensures { result ≡ tx_after_abandoned command.now }
{
    match command {
        Command::Commit => TxState::Outside,
        _ => TxState::Abandoned,
    }
}
