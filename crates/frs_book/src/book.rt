//! The book of a session.
ghost use Rattle.std.specs.Prelude.{◌≡◌, ◌↔◌, ◌<◌, ◌≤◌, None, Some, length, option_copied, IsTrue, IfOk};
ghost use Rattle.frs_types.specs.declared.record.Action.TheVariants.{Mark};
ghost use Rattle.frs_types.specs.Lawful.{table_of, lowest};
ghost use Rattle.frs_frame.specs.Spelling.{spelling, without_numbers};
ghost use Rattle.frs_slots.specs.Views.{next_drawn};
ghost use Rattle.frs_objects.specs.Objects.{HaveOwnNumbers};
ghost use Rattle.frs_history.specs.declared.event.Ack.{Ack};
ghost use Rattle.frs_history.specs.Machine.{next_line};
ghost use Rattle.frs_book.specs.Drawn.{drawing_of};
ghost use Rattle.frs_book.specs.Books.{IsBook, IsClientOf, IsWhole, IsPrepared, IsDue, AreBefore, SameSession, StepAnswers, MarkAnswers, new_book, with_ack, bytes_of_maps};

use crate::ledger::{Ledger, are_finished, next_of};
use crate::step::{Marked, Step};
use frs_frame::Framed;
use frs_history::{Ack, Event, Line, Script};
use frs_slots::{DrawEnd, Drawer, Taker};
use frs_types::{CLIENT_LIMIT, Entry, NUMBER_LIMIT, NoMemory, Sequence};
use std::alloc::Global;
use std::marker::Model;

/// The book of a session: the one place where anything happens in it. Each call is one event of the store, or none, and
/// draws one record at most.
///
/// Contracts see it as its session (the scripts, what it was opened with, and its history), the state of the machine at
/// the end of the history, the acknowledgements so far, and the drawing end with what that had drawn before.
#[derive(Drop)]
pub struct Book {
    scripts: Sequence<Script>,
    ledger: Ledger,
}

impl Model for Book {
    ghost use Rattle.frs_book.specs.Books.{BookView};

    ghost Value = { BookView };

    ghost use Rattle.std.specs.Prelude.{◌≡◌};
    ghost use Rattle.frs_book.specs.Ledgers.{IsLedger, book_of, scripts_of};

    ghost view = { λ a. book_of a.ledger };

    ghost invariant = { λ a. (a.scripts ≡ scripts_of a.ledger) × IsLedger a.ledger };
}

impl Book {
    /// The book of a session with these scripts, one of each client from 1 on, on these entries, whose LSNs are their
    /// own, above 0 and below the drawing end's next one. The last snapshot so far has the number `last_snapshot`. It
    /// takes the room for one acknowledgement of each command, and fails only for want of memory.
    pub fn new(
        alloc: Global,
        scripts: Vec<Script>,
        entries: Vec<Entry>,
        drawer: Drawer,
        last_snapshot: u64,
    ) -> Result<Book, NoMemory>
        requires clients { (1 ≤ length scripts.items) × (length scripts.items ≤ CLIENT_LIMIT) }
        requires numbers { HaveOwnNumbers entries.items }
        requires before { AreBefore (next_drawn drawer) entries.items }
        requires last { last_snapshot < NUMBER_LIMIT }
        ensures { IfOk result (λ book. book
            ≡ new_book scripts.items (table_of entries.items) last_snapshot drawer) }
    {
        let scripts = Sequence::of(scripts);
        let ledger = Ledger::open(alloc, &scripts, entries, drawer, last_snapshot)?;
        Ok(Book { scripts, ledger })
    }

    /// The next command of a client, with its line.
    pub fn next_command(&self, client: u32) -> Option<&Line>
        requires { IsClientOf self.now client }
        ensures { option_copied result ≡ next_line self.now.session.scripts self.now.state client }
    {
        next_of(self.ledger.clients.as_slice(), self.scripts.items(), client)
    }

    /// The next step of a client: its next command is answered, or waits, or its script ends. `framed` is what `prepare`
    /// gives for that command, and is taken where a record is drawn. Every answer but `Done` leaves the book and
    /// `framed` as they were, but that the first `Waits` of a command is an event, and that `NoRoom` and `Memory` may
    /// change what the drawing end knows as taken.
    pub fn step(&mut self, alloc: Global, client: u32, framed: &mut Option<Framed>) -> Step
        requires client { IsClientOf self.old client }
        requires framed { IsPrepared self.old client framed.old }
        ensures { StepAnswers self.old client framed.old result self.new framed.new }
    {
        let line = next_of(self.ledger.clients.as_slice(), self.scripts.items(), client);
        self.ledger.step(alloc, client, line, framed)
    }

    /// Draws the closing mark from its payload, which is taken then. Every client is finished, and no mark of this book
    /// was drawn before. Any other answer leaves the book and `framed` as they were, but what the drawing end knows as
    /// taken. Takes no memory.
    pub fn mark(&mut self, framed: &mut Option<Framed>) -> Marked
        requires whole { IsWhole self.old }
        requires unmarked { self.old.session.closing ≡ None }
        requires framed { framed.old ≡ Some (spelling (without_numbers Mark)) }
        ensures { MarkAnswers self.old framed.old result self.new framed.new }
    {
        self.ledger.mark(framed)
    }

    /// Makes the acknowledgement of the client's last event other than a wait, with its line and LSN. That event is to
    /// be acknowledged, and isn't yet. Takes no memory.
    pub fn acknowledge(&mut self, client: u32)
        requires client { IsClientOf self.old client }
        requires due { (a : Ack) × IsDue self.old client a }
        ensures { (a : Ack) → IsDue self.old client a → self.new ≡ with_ack self.old a }
    {
        self.ledger.acknowledge(client);
    }

    /// The lowest LSN of the log so far. Takes no memory.
    pub fn lowest(&self) -> u64
        ensures { result ≡ lowest (drawing_of self.now.session).log }
    {
        self.ledger.lowest()
    }

    /// The LSN of the next record. Takes no memory.
    pub fn next(&self) -> u64
        ensures { result ≡ next_drawn self.now.drawer }
    {
        self.ledger.drawer.next()
    }

    /// The number of committed entries. Takes no memory.
    pub fn live(&self) -> u64
        ensures { result ≡ length self.now.state.maps }
    {
        self.ledger.objects.live()
    }

    /// Whether every client is finished: its script is at its end, and its transaction isn't active. Takes no memory.
    pub fn whole(&self) -> bool
        ensures { IsTrue result ↔ IsWhole self.now }
    {
        are_finished(self.ledger.clients.as_slice(), self.scripts.items())
    }

    /// The number of committed entries, and the sum of the lengths of their ids, keys and values. It goes over all
    /// entries. Takes no memory.
    pub fn totals(&self) -> (u64, u128)
        ensures live { result.0 ≡ length self.now.state.maps }
        ensures bytes { result.1 ≡ bytes_of_maps self.now.state.maps }
    {
        self.ledger.objects.totals()
    }

    /// The scripts, as they were handed in. Takes no memory.
    pub fn scripts(&self) -> &[Script]
        ensures { result.now ≡ self.now.session.scripts }
    {
        self.scripts.items()
    }

    /// The events so far, oldest first. They are a legal history of the scripts, what was drawn are its records, and the
    /// acknowledgements are owed. Takes no memory.
    pub fn history(&self) -> &[Event]
        ensures events { result.now ≡ self.now.session.events }
        ensures book { IsBook self.now }
    {
        self.ledger.history.events()
    }

    /// The acknowledgements, in the order in which they were made. Takes no memory.
    pub fn acks(&self) -> &[Ack]
        ensures { result.now ≡ self.now.acks }
    {
        self.ledger.acks.as_slice()
    }
}

impl DrawEnd for Book {
    ghost use Rattle.frs_book.specs.Books.{BookView, SameSession};

    ghost drawer = { λ b. b.drawer };

    ghost is_else_as = { SameSession };

    fn beside(&mut self, taker: &mut Taker) {
        self.ledger.drawer.beside(taker);
    }

    fn renew(&mut self, alloc: Global, taker: &mut Taker) -> Result<(), NoMemory> {
        self.ledger.drawer.renew(alloc, taker)
    }
}
