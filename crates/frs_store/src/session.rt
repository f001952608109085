//! A session of one client: it answers the client's commands, and closes.
ghost use Rattle.std.specs.Prelude.{◌≡◌, None, IsTrue, IfOk, IfErr};
ghost use Rattle.frs_disk.specs.Frames.{NoneRemovedAbove};
ghost use Rattle.frs_book.specs.Books.{IsClientOf, IsWhole};
ghost use Rattle.frs_store.specs.Session.{GoesFurther, CallAnswers, IsUnderWay};
ghost use Rattle.frs_store.specs.Start.{IsOpened, IsUnopened};
ghost use Rattle.frs_store.specs.Closed.{IsClosed, IsStoreAtEnd};

use crate::call::Call;
use crate::start::open_store;
use crate::stop::{Stop, Unopened};
use crate::store::Store;
use frs_book::{Book, asked_by_events};
use frs_disk::Disk;
use frs_history::Script;
use std::alloc::Global;
use std::marker::Model;

/// A session on a store. Contracts see its journal and its book (`store`), and what has stopped it, if anything has.
#[derive(Drop)]
pub struct Session<D: Disk> {
    store: Store<D>,
    stop: Option<Stop>,
}

impl<D: Disk> Model for Session<D> {
    ghost use Rattle.frs_store.specs.Session.{SessionView, IsUnderWay};

    ghost Value = { SessionView D };

    ghost view = { λ a. record { store = a.store; stop = a.stop } };

    ghost invariant = { λ a. IsUnderWay D.Disk (record { store = a.store; stop = a.stop }) };
}

/// A session that was closed.
#[derive(Drop)]
pub struct Closed<D> {
    /// What happened in it.
    pub book: Book,
    /// The disk, as it was left.
    pub disk: D,
    /// What has stopped it, if anything has.
    pub stop: Option<Stop>,
}

impl<D: Disk> Session<D> {
    /// Starts a session of one client with this script: recovers the store, makes the segment behind its greatest
    /// number, and writes the opening mark.
    ///
    /// What is refused is, in this order: what the files spell; the next LSN, where it is 2^62; the new segment's
    /// number. The disk is only read before. No removal is pending above the files that are there.
    pub fn start(alloc: Global, disk: D, script: Script) -> Result<Session<D>, Unopened<D>>
        requires { IsTrue (D.tells disk) → NoneRemovedAbove D.Disk disk }
        ensures going { IfOk result (λ s. s.stop ≡ None) }
        ensures opened { IfOk result (λ s. IsOpened D.Disk disk script s.store) }
        ensures refused { IfErr result (IsUnopened D.Disk disk) }
    {
        let store = open_store(alloc, disk, script)?;
        Ok(Session { store, stop: None })
    }

    /// The next step of a client: its next command is answered, or its script ends, and what is to be acknowledged is
    /// durable and acknowledged then. Once the session has stopped it answers so, and changes nothing.
    pub fn call(&mut self, alloc: Global, client: u32) -> Call
        requires client { IsClientOf self.old.store.book client }
        ensures answers { CallAnswers D.Disk self.old client result self.new }
        ensures further { GoesFurther D.Disk client self.old.store self.new.store }
    {
        if let Some(stop) = self.stop {
            return Call::Stopped { stop };
        }
        match self.store.call(alloc, client) {
            Ok(call) => call,
            Err(stop) => {
                // A limit shows in what the session drew.
                let _ = self.store.journal.synced();
                let _ = self.store.book.history();
                self.stop = Some(stop);
                Call::Stopped { stop }
            }
        }
    }

    /// Closes the session. Where nothing has stopped it, its client is finished, and all that was drawn is made
    /// durable, and then the closing mark.
    pub fn close(self, alloc: Global) -> Closed<D>
        requires whole { self.stop ≡ None → IsWhole self.store.book }
        ensures { IsClosed D.Disk self result }
    {
        let Session { store, stop } = self;
        let mut store = store;
        let stop = close_store(alloc, &mut store, stop);
        // What was taken is a part of what was drawn.
        store.journal.meet(&mut store.book);
        let _ = store.journal.synced();
        let _ = store.book.history();
        let Store { journal, book } = store;
        Closed {
            book,
            disk: journal.into_writer().into_disk(),
            stop,
        }
    }
}

// Closes the store of a session, unless something has stopped it, and answers what has stopped it by then.
fn close_store<D: Disk>(alloc: Global, store: &mut Store<D>, stop: Option<Stop>) -> Option<Stop>
    requires under_way { IsUnderWay D.Disk (record { store = store.old; stop = stop }) }
    requires whole { stop ≡ None → IsWhole store.old.book }
    ensures { IsStoreAtEnd D.Disk (record { store = store.old; stop = stop }) store.new result }
{
    asked_by_events();
    match stop {
        Some(stop) => Some(stop),
        None => {
            let stop = store.close(alloc).err();
            // A limit shows in what the session drew.
            let _ = store.journal.synced();
            let _ = store.book.history();
            stop
        }
    }
}
