//! What the book of a session keeps beside its scripts.
ghost use Rattle.std.specs.Prelude.{◌≡◌, ◌↔◌, ◌+◌, ◌<◌, ◌≤◌, ◌^◌, None, Some, length, replicate, option_copied, slice_get, sum_by, IsTrue, IfOk, IfSome, OnSome};
ghost use Rattle.std.specs.List.{AllByRecursion};
ghost use Rattle.frs_types.specs.Lawful.{table_of, lowest};
ghost use Rattle.frs_slots.specs.Views.{next_drawn};
ghost use Rattle.frs_objects.specs.Objects.{HaveOwnNumbers};
ghost use Rattle.frs_history.specs.Scripts.{is_script};
ghost use Rattle.frs_book.specs.Books.{AreBefore, IsWhole, IsDue, MarkAnswers, new_book, with_ack};
ghost use Rattle.frs_types.specs.declared.record.Action.TheVariants.{Mark};
ghost use Rattle.frs_frame.specs.Spelling.{spelling, without_numbers};
ghost use Rattle.frs_history.specs.declared.event.Ack.{Ack};
ghost use Rattle.frs_book.specs.Ledgers.{IsLedger, IsLeastBegin, IsLesser, book_of, scripts_of, drawing_in, script_at, client_in, new_client, has_finished, AreFinished};

use crate::client_state::ClientState;
use crate::command_record::prepare;
use crate::room::{draw_prepared, find_room};
use crate::step::Marked;
use frs_frame::Framed;
use frs_history::{Ack, History, Line, Script};
use frs_locks::Locks;
use frs_objects::Objects;
use frs_slots::{Drawer, GhostCopy};
use frs_types::{CLIENT_LIMIT, Entry, NUMBER_LIMIT, NoMemory, Sequence};
use std::alloc::Global;

/// What the session was opened with, for contracts alone.
#[derive(Drop)]
pub struct Opening {
    /// The scripts of the clients from 1 on.
    pub scripts: GhostCopy<Sequence<Script>>,
    /// The entries.
    pub entries: GhostCopy<Objects>,
    /// The drawing end, with the records that it had drawn before.
    pub drawer: GhostCopy<Drawer>,
    /// The number of the last snapshot.
    pub last: GhostCopy<u64>,
}

/// What the book of a session keeps beside its scripts.
#[derive(Drop)]
pub struct Ledger {
    /// What the session was opened with.
    pub opening: Opening,
    /// How many events stand before the closing mark, once it is drawn.
    pub closing: GhostCopy<Option<u64>>,
    /// The clients; the compactor, which has no script, stands first.
    pub clients: Vec<ClientState>,
    /// The committed maps.
    pub objects: Objects,
    /// Who holds which lock, and who waits for which.
    pub locks: Locks,
    /// The events so far. An event's room is made before anything changes.
    pub history: History,
    /// The acknowledgements so far. There is room for one of each command.
    pub acks: Vec<Ack>,
    /// The drawing end of the ring.
    pub drawer: Drawer,
    /// The number of the last snapshot.
    pub last: u64,
    /// An abandon record that is ready to be drawn.
    pub abandon: Framed,
}

impl Ledger {
    /// The ledger of a session that begins on these entries, with the scripts of its clients. The LSNs of the entries
    /// are their own, above 0 and below the next one. There is room for one acknowledgement of each command.
    pub fn open(
        alloc: Global,
        scripts: &Sequence<Script>,
        entries: Vec<Entry>,
        drawer: Drawer,
        last: u64,
    ) -> Result<Ledger, NoMemory>
        requires clients { (1 ≤ length scripts.now) × (length scripts.now ≤ CLIENT_LIMIT) }
        requires numbers { HaveOwnNumbers entries.items }
        requires before { AreBefore (next_drawn drawer) entries.items }
        requires last { last < NUMBER_LIMIT }
        ensures kept { IfOk result (λ a. IsLedger a) }
        ensures scripts { IfOk result (λ a. scripts_of a ≡ scripts.now) }
        ensures book { IfOk result (λ a. book_of a
            ≡ new_book scripts.now (table_of entries.items) last drawer) }
    {
        let Some(commands) = count_lines(scripts.items()) else {
            return Err(NoMemory);
        };
        let mut acks = Vec::new(alloc);
        acks.reserve(commands)?;
        // an LSN is above 0
        let _ = drawer.next();
        let count = scripts.items().len() as u32;
        let objects = Objects::of(alloc, entries)?;
        let locks = Locks::new(alloc, count)?;
        let clients = new_clients(alloc, count)?;
        let abandon = prepare(alloc, None)?;
        let opening = Opening {
            scripts: GhostCopy::of(scripts),
            entries: GhostCopy::of(&objects),
            drawer: GhostCopy::of(&drawer),
            last: GhostCopy::of(&last),
        };
        Ok(Ledger {
            opening,
            closing: GhostCopy::of(&None),
            clients,
            objects,
            locks,
            history: History::new(alloc),
            acks,
            drawer,
            last,
            abandon,
        })
    }

    /// The lowest LSN of the log.
    pub fn lowest(&self) -> u64
        requires { IsLedger self.now }
        ensures { result ≡ lowest (drawing_in self.now).log }
    {
        let least = least_begin(self.clients.as_slice(), self.drawer.next());
        match self.objects.lowest() {
            Some(lsn) => lsn.min(least),
            None => least,
        }
    }

    /// Draws the closing mark, once every client is finished.
    pub fn mark(&mut self, framed: &mut Option<Framed>) -> Marked
        requires kept { IsLedger self.old }
        requires whole { IsWhole (book_of self.old) }
        requires unmarked { self.old.closing.value ≡ None }
        requires framed { framed.old ≡ Some (spelling (without_numbers Mark)) }
        ensures kept { IsLedger self.new }
        ensures opening { self.new.opening ≡ self.old.opening }
        ensures answers { MarkAnswers (book_of self.old) framed.old result (book_of self.new)
            framed.new }
    {
        if let Err(full) = find_room(&mut self.drawer) {
            return full.marked();
        }
        let lowest = self.lowest();
        let slip = draw_prepared(&mut self.drawer, framed, 0, lowest, 0);
        let place = self.history.events().len() as u64;
        self.closing = GhostCopy::of(&Some(place));
        Marked::Done { slip }
    }

    /// Makes the acknowledgement for which the client's last event other than a wait asks.
    pub fn acknowledge(&mut self, client: u32)
        requires kept { IsLedger self.old }
        requires due { (a : Ack) × IsDue (book_of self.old) client a }
        ensures kept { IsLedger self.new }
        ensures opening { self.new.opening ≡ self.old.opening }
        ensures made { (a : Ack) → IsDue (book_of self.old) client a
            → book_of self.new ≡ with_ack (book_of self.old) a }
    {
        match self.clients[client as usize].due {
            Some(ack) => self.acks.push_reserved(ack),
            None => unreachable!(),
        }
    }
}

/// Whether every client is finished, by these scripts. The first of the clients has none.
pub fn are_finished(clients: &[ClientState], scripts: &[Script]) -> bool
    requires { length clients.now ≡ length scripts.now + 1 }
    ensures { IsTrue result ↔ AreFinished scripts.now clients.now }
{
    for client in 1..clients.len() {
        if !is_finished(&clients[client], &scripts[client - 1]) {
            return false;
        }
    }
    true
}

// Whether a client's script is at its end, and no transaction is active.
fn is_finished(client: &ClientState, script: &Script) -> bool
    ensures { result ≡ has_finished script.now client.now }
{
    script.lines().len() <= client.done && !client.is_active()
}

/// The next line of a client, from 1 on, by its script.
pub fn next_of<'a>(clients: &[ClientState], scripts: &'a [Script], client: u32) -> Option<&'a Line>
    requires { (1 ≤ client) × (client ≤ length scripts.now) × (client < length clients.now) }
    ensures { option_copied result
        ≡ slice_get (script_at scripts.now client) (client_in clients.now client).done }
{
    let client = client as usize;
    scripts[client - 1].lines().get(clients[client].done)
}

// How many lines the scripts have together, if that is a number.
fn count_lines(scripts: &[Script]) -> Option<usize>
    ensures count { IfSome result (λ n. n ≡ sum_by length scripts.now) }
    ensures fits { IfSome result (λ n. n < 2 ^ 64) }
    ensures scripts { OnSome result (AllByRecursion (λ lines. IsTrue (is_script lines)) scripts.now) }
{
    let mut count = 0usize;
    for script in scripts {
        count = count.checked_add(script.lines().len())?;
    }
    Some(count)
}

// The clients, each at the begin of its script, with the compactor in front.
fn new_clients(alloc: Global, count: u32) -> Result<Vec<ClientState>, NoMemory>
    requires { count ≤ CLIENT_LIMIT }
    ensures { IfOk result (λ clients. clients.items ≡ replicate (count + 1) new_client) }
{
    let mut clients = Vec::new(alloc);
    for _ in 0..count + 1 {
        clients.push(ClientState::new())?;
    }
    Ok(clients)
}

// The least of the begins of active transactions and this LSN.
fn least_begin(clients: &[ClientState], next: u64) -> u64
    ensures { IsLeastBegin clients.now next result }
{
    let mut least = next;
    for client in clients {
        least = lesser_of(least, client.begin());
    }
    least
}

// The lesser of the two, where a begin 0 stands for none.
fn lesser_of(least: u64, begin: u64) -> u64
    ensures { IsLesser least begin result }
{
    if begin == 0 {
        return least;
    }
    least.min(begin)
}
