//! What a session works on: the journal of its store, and its book.
ghost use Rattle.std.specs.Prelude.{◌≡◌, ◌+◌, ◌<◌, ◌≤◌, ◌≢◌, ◌++◌, ◌∷◌, ◌⊎◌, [], ℕ, List, None, Some, length, Option, option_copied, IsTrue, IfOk, IfErr, IfSome, OnOk, OnErr};
ghost use Rattle.frs_types.specs.declared.record.Action.TheVariants.{Mark};
ghost use Rattle.frs_frame.specs.Spelling.{spelling, without_numbers};
ghost use Rattle.frs_slots.specs.Views.{SlotView, next_drawn, HasRoom, IsTakenUp, next_taken};
ghost use Rattle.frs_history.specs.declared.event.Ack.{Ack};
ghost use Rattle.frs_book.specs.Books.{BookView, IsClientOf, IsPrepared, IsDue, StepAnswers, SameBook, with_ack};
ghost use Rattle.frs_book.specs.Books.{IsWhole, closed_session};
ghost use Rattle.frs_book.specs.Drawn.{acks_owed};
ghost use Rattle.frs_store.specs.Session.{IsOfSession, IsFilled, IsGoing, SameStart, GoesFurther, HasStopCause, TakesStep, HasSlip, HasMarked, StoreAnswers, IsSettled, MissesAtMostOne};

use crate::call::Call;
use crate::journal::Journal;
use crate::stop::Stop;
use frs_book::{Book, Marked, Step, alone_is_free, asked_by_events, prepare};
use frs_disk::Disk;
use frs_frame::{Framed, encode_payload};
use frs_slots::Slip;
use frs_types::Action;
use std::alloc::Global;

/// The journal of a store, and the book of a session on it.
#[derive(Drop)]
pub struct Store<D: Disk> {
    /// The writer of its log.
    pub journal: Journal<D>,
    /// What happens in the session.
    pub book: Book,
}

impl<D: Disk> Store<D> {
    /// Fills the slot of the record that was drawn last, so that the writer knows of it.
    pub fn publish(&mut self, slip: Slip)
        requires session { IsOfSession D.Disk self.old }
        requires last { (slip.ring ≡ self.old.book.drawer.ring)
            × (slip.lsn + 1 ≡ next_drawn self.old.book.drawer) }
        requires others { (count : ℕ) × IsFilled self.old count
            × (count + 1 ≡ length self.old.book.drawer.drawn) }
        ensures going { IsGoing D.Disk self.new }
        ensures book { self.new.book ≡ self.old.book }
        ensures journal { self.new.journal ≡ record self.old.journal {
          writer = record self.old.journal.writer { taker = self.new.journal.writer.taker };
        } }
    {
        self.journal.learn(slip.fill());
    }

    /// Writes groups until this LSN, which was drawn, is durable.
    pub fn sync(&mut self, alloc: Global, lsn: u64) -> Result<(), Stop>
        requires going { IsGoing D.Disk self.old }
        requires drawn { lsn < next_drawn self.old.book.drawer }
        ensures session { IsOfSession D.Disk self.new }
        ensures going { OnOk result (IsGoing D.Disk self.new) }
        ensures durable { OnOk result (lsn ≤ self.new.journal.writer.synced) }
        ensures taken { OnOk result (self.new.journal.writer.synced
            < next_taken self.new.journal.writer.taker) }
        ensures book { self.new.book ≡ self.old.book }
        ensures same { SameStart D.Disk self.old self.new }
        ensures noted { self.new.journal.writer.noted ≡ self.old.journal.writer.noted }
        ensures rises { self.old.journal.writer.synced ≤ self.new.journal.writer.synced }
        ensures cause { HasStopCause D.Disk self.old self.new result }
    {
        self.journal.meet(&mut self.book);
        while self.journal.synced() < lsn {
            let written = self.journal.write_group(alloc);
            // What was taken is a part of what was drawn.
            self.journal.meet(&mut self.book);
            written?;
        }
        Ok(())
    }

    /// Makes all that was drawn durable.
    pub fn sync_all(&mut self, alloc: Global) -> Result<(), Stop>
        requires going { IsGoing D.Disk self.old }
        ensures session { IsOfSession D.Disk self.new }
        ensures going { OnOk result (IsGoing D.Disk self.new) }
        ensures durable { OnOk result (self.new.journal.writer.synced + 1
            ≡ next_drawn self.new.book.drawer) }
        ensures taken { OnOk result (IsTakenUp self.new.book.drawer self.new.journal.writer.taker) }
        ensures book { self.new.book ≡ self.old.book }
        ensures same { SameStart D.Disk self.old self.new }
        ensures cause { HasStopCause D.Disk self.old self.new result }
    {
        // The first LSN is above what was durable at the start.
        let _ = self.journal.synced();
        let last = self.book.next() - 1;
        self.sync(alloc, last)
    }

    /// Writes all that was drawn, so that the whole ring is free again.
    pub fn make_room(&mut self, alloc: Global) -> Result<(), Stop>
        requires going { IsGoing D.Disk self.old }
        ensures session { IsOfSession D.Disk self.new }
        ensures going { OnOk result (IsGoing D.Disk self.new) }
        ensures room { OnOk result (HasRoom self.new.book.drawer) }
        ensures book { self.new.book ≡ record self.old.book { drawer = self.new.book.drawer } }
        ensures drawn { (self.new.book.drawer.drawn ≡ self.old.book.drawer.drawn)
            × (self.new.book.drawer.first ≡ self.old.book.drawer.first) }
        ensures same { SameStart D.Disk self.old self.new }
        ensures cause { HasStopCause D.Disk self.old self.new result }
    {
        self.sync_all(alloc)?;
        self.journal.renew(alloc, &mut self.book)?;
        Ok(())
    }

    /// Takes the client's next step in the book. Where its ring is full, what was drawn is written first.
    fn step(
        &mut self,
        alloc: Global,
        client: u32,
        framed: &mut Option<Framed>,
    ) -> Result<Step, Stop>
        requires going { IsGoing D.Disk self.old }
        requires client { IsClientOf self.old.book client }
        requires framed { IsPrepared self.old.book client framed.old }
        ensures stepped { IfOk result (λ step. TakesStep D.Disk self.old client framed.old step
            self.new framed.new) }
        ensures refused { OnErr result (IsOfSession D.Disk self.new
            × (self.new.book ≡ record self.old.book { drawer = self.new.book.drawer })) }
        ensures same { SameStart D.Disk self.old self.new }
        ensures cause { HasStopCause D.Disk self.old self.new result }
    {
        match self.book.step(alloc, client, framed) {
            Step::NoRoom {
                drawn: _drawn,
                known_taken: _known_taken,
            } => {}
            step => return Ok(step),
        }
        self.make_room(alloc)?;
        Ok(self.book.step(alloc, client, framed))
    }

    // Makes the acknowledgement of the client's last event, once its LSN, the last so far, is durable.
    fn acknowledge(&mut self, alloc: Global, client: u32, lsn: u64) -> Result<(), Stop>
        requires going { IsGoing D.Disk self.old }
        requires client { IsClientOf self.old.book client }
        requires last { lsn + 1 ≡ next_drawn self.old.book.drawer }
        requires due { (a : Ack) × IsDue self.old.book client a × (a.lsn ≡ lsn) }
        ensures session { IsOfSession D.Disk self.new }
        ensures going { OnOk result (IsGoing D.Disk self.new) }
        ensures made { OnOk result ((a : Ack) → IsDue self.old.book client a
            → self.new.book ≡ with_ack self.old.book a) }
        ensures refused { OnErr result (self.new.book ≡ self.old.book) }
        ensures same { SameStart D.Disk self.old self.new }
        ensures cause { HasStopCause D.Disk self.old self.new result }
    {
        let _ = self.journal.noted(client);
        self.sync(alloc, lsn)?;
        self.journal.acknowledge(client, lsn);
        self.book.acknowledge(client);
        Ok(())
    }

    // Publishes the record that a step drew, if it drew one, and acknowledges its event, if it is to be.
    fn settle(
        &mut self,
        alloc: Global,
        client: u32,
        slip: Option<Slip>,
        ack: Option<u64>,
    ) -> Result<(), Stop>
        requires session { IsOfSession D.Disk self.old }
        requires client { IsClientOf self.old.book client }
        requires drawn { HasSlip self.old slip }
        requires due { IfSome ack (λ lsn. (lsn + 1 ≡ next_drawn self.old.book.drawer)
            × ((a : Ack) × IsDue self.old.book client a × (a.lsn ≡ lsn))) }
        ensures session { IsOfSession D.Disk self.new }
        ensures going { OnOk result (IsGoing D.Disk self.new) }
        ensures none { OnOk result (ack ≡ None → self.new.book ≡ self.old.book) }
        ensures made { OnOk result ((lsn : ℕ) (a : Ack) → ack ≡ Some lsn
            → IsDue self.old.book client a → self.new.book ≡ with_ack self.old.book a) }
        ensures refused { OnErr result (self.new.book ≡ self.old.book) }
        ensures same { SameStart D.Disk self.old self.new }
        ensures cause { HasStopCause D.Disk self.old self.new result }
    {
        if let Some(slip) = slip {
            self.publish(slip);
        }
        match ack {
            Some(lsn) => self.acknowledge(alloc, client, lsn),
            None => Ok(()),
        }
    }

    /// The next step of the client, with all that its event asks for.
    pub fn call(&mut self, alloc: Global, client: u32) -> Result<Call, Stop>
        requires going { IsGoing D.Disk self.old }
        requires client { IsClientOf self.old.book client }
        requires settled { IsSettled self.old.book }
        ensures session { IsOfSession D.Disk self.new }
        ensures going { OnOk result (IsGoing D.Disk self.new) }
        ensures settled { OnOk result (IsSettled self.new.book) }
        ensures owed { MissesAtMostOne (acks_owed self.new.book.session) self.new.book.acks }
        ensures answered { IfOk result (λ call. StoreAnswers D.Disk self.old client call self.new) }
        ensures further { GoesFurther D.Disk client self.old self.new }
        ensures cause { HasStopCause D.Disk self.old self.new result }
    {
        // What an event asks for is owed and due, the client is hindered by nobody, and the book is one.
        asked_by_events();
        alone_is_free();
        let _ = self.book.history();
        let command = match self.book.next_command(client) {
            Some(line) => Some(&line.command),
            None => None,
        };
        let mut framed = Some(prepare(alloc, command)?);
        match self.step(alloc, client, &mut framed)? {
            Step::Done {
                place,
                line: _line,
                slip,
                ack,
                snapshot: _snapshot,
            } => {
                self.settle(alloc, client, slip, ack)?;
                Ok(Call::Done { place })
            }
            Step::Finished => Ok(Call::Finished),
            Step::LogFull { next: _next } => Err(Stop::Limit),
            Step::Memory => Err(Stop::Memory),
            // The client is alone, and there was room.
            Step::Waits { holder: _holder } => unreachable!(),
            Step::NoRoom {
                drawn: _drawn,
                known_taken: _known_taken,
            } => unreachable!(),
        }
    }

    // Draws the closing mark. Where the ring is full, what was drawn is written first.
    fn draw_mark(&mut self, alloc: Global, framed: &mut Option<Framed>) -> Result<Slip, Stop>
        requires going { IsGoing D.Disk self.old }
        requires whole { IsWhole self.old.book }
        requires unmarked { self.old.book.session.closing ≡ None }
        requires framed { framed.old ≡ Some (spelling (without_numbers Mark)) }
        ensures session { IsOfSession D.Disk self.new }
        ensures marked { IfOk result (λ slip. HasMarked self.old slip self.new) }
        ensures refused { OnErr result (self.new.book
            ≡ record self.old.book { drawer = self.new.book.drawer }) }
        ensures same { SameStart D.Disk self.old self.new }
        ensures cause { HasStopCause D.Disk self.old self.new result }
    {
        match self.book.mark(framed) {
            Marked::Done { slip } => return Ok(slip),
            Marked::LogFull { next: _next } => return Err(Stop::Limit),
            Marked::NoRoom {
                drawn: _drawn,
                known_taken: _known_taken,
            } => {}
        }
        self.make_room(alloc)?;
        match self.book.mark(framed) {
            Marked::Done { slip } => Ok(slip),
            Marked::LogFull { next: _next } => Err(Stop::Limit),
            // Room was made.
            Marked::NoRoom {
                drawn: _drawn,
                known_taken: _known_taken,
            } => unreachable!(),
        }
    }

    /// Makes all that was drawn durable, and then the closing mark. The client is finished.
    pub fn close(&mut self, alloc: Global) -> Result<(), Stop>
        requires going { IsGoing D.Disk self.old }
        requires whole { IsWhole self.old.book }
        requires unmarked { self.old.book.session.closing ≡ None }
        ensures session { IsOfSession D.Disk self.new }
        ensures going { OnOk result (IsGoing D.Disk self.new) }
        ensures durable { OnOk result (self.new.journal.writer.synced + 1
            ≡ next_drawn self.new.book.drawer) }
        ensures closed { OnOk result (self.new.book.session ≡ closed_session self.old.book.session) }
        ensures state { self.new.book.state ≡ self.old.book.state }
        ensures acks { self.new.book.acks ≡ self.old.book.acks }
        ensures refused { OnErr result ((self.new.book.session ≡ self.old.book.session)
            ⊎ (self.new.book.session ≡ closed_session self.old.book.session)) }
        ensures same { SameStart D.Disk self.old self.new }
        ensures cause { HasStopCause D.Disk self.old self.new result }
    {
        self.sync_all(alloc)?;
        let mut framed = Some(encode_payload(alloc, &Action::Mark)?);
        let slip = self.draw_mark(alloc, &mut framed)?;
        self.publish(slip);
        self.sync_all(alloc)
    }
}
