//! What a run did, and the disk as it left it.
ghost use Rattle.std.specs.Prelude.{◌≡◌, None};
ghost use Rattle.frs_engine.specs.Endings.{scripts_of, events_of, acks_of};

use crate::ending::Ending;
use frs_book::Book;
use frs_history::{Ack, Event, Script};

/// What a run did.
#[derive(Drop)]
pub(crate) struct Outcome<D> {
    /// The disk, as the run left it.
    pub(crate) disk: D,
    /// What happened in its session, if one was opened.
    pub(crate) book: Option<Book>,
    /// How it ended.
    pub(crate) ending: Ending,
}

impl<D> Outcome<D> {
    /// No session was opened.
    pub(crate) fn nothing(disk: D, ending: Ending) -> Outcome<D>
        ensures { result ≡ record { disk = disk; book = None; ending = ending } }
    {
        Outcome {
            disk,
            book: None,
            ending,
        }
    }

    /// The scripts that were run.
    pub(crate) fn scripts(&self) -> &[Script]
        ensures { result.now ≡ scripts_of self.now.book }
    {
        match &self.book {
            Some(book) => book.scripts(),
            None => &[],
        }
    }

    /// What was answered, in order.
    pub(crate) fn events(&self) -> &[Event]
        ensures { result.now ≡ events_of self.now.book }
    {
        match &self.book {
            Some(book) => book.history(),
            None => &[],
        }
    }

    /// Which changes are durable, in order.
    pub(crate) fn acks(&self) -> &[Ack]
        ensures { result.now ≡ acks_of self.now.book }
    {
        match &self.book {
            Some(book) => book.acks(),
            None => &[],
        }
    }
}
