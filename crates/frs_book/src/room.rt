//! Whether a record can be drawn, and the draw.
ghost use Rattle.std.specs.Prelude.{◌≡◌, ◌⊎◌, ◌<◌, None, OnOk, IfErr, IsSome, IfSome};
ghost use Rattle.frs_types.specs.declared.record.Record.{Record};
ghost use Rattle.frs_frame.specs.Spelling.{spelling};
ghost use Rattle.frs_slots.specs.Views.{next_drawn, HasRoom, HasLooked};
ghost use Rattle.frs_book.specs.Room.{IsFull, HasDrawnOne, step_if_full, mark_if_full};

use crate::step::{Marked, Step};
use frs_frame::Framed;
use frs_slots::{Drawer, Slip};
use frs_types::NUMBER_LIMIT;

/// Why no record can be drawn.
#[derive(Clone, Copy, Debug, PartialEq, Eq)]
pub enum Full {
    /// No LSN is left.
    OfLsns {
        /// The next LSN, 2^62.
        next: u64,
    },
    /// The ring is full by what its drawing end knows.
    OfRecords {
        /// How many records were drawn.
        drawn: u64,
        /// How many of them are known to be taken.
        known_taken: u64,
    },
}

impl Full {
    /// What a step is answered then.
    pub fn step(self) -> Step
        ensures { result ≡ step_if_full self }
    {
        match self {
            Full::OfLsns { next } => Step::LogFull { next },
            Full::OfRecords { drawn, known_taken } => Step::NoRoom { drawn, known_taken },
        }
    }

    /// What the closing mark is answered then.
    pub fn marked(self) -> Marked
        ensures { result ≡ mark_if_full self }
    {
        match self {
            Full::OfLsns { next } => Marked::LogFull { next },
            Full::OfRecords { drawn, known_taken } => Marked::NoRoom { drawn, known_taken },
        }
    }
}

/// Whether a record can be drawn. Nothing changes but what is known as taken.
pub fn find_room(drawer: &mut Drawer) -> Result<(), Full>
    ensures looked { (drawer.new ≡ drawer.old) ⊎ HasLooked drawer.old drawer.new }
    ensures room { OnOk result (HasRoom drawer.new) }
    ensures lsn { OnOk result (next_drawn drawer.new < NUMBER_LIMIT) }
    ensures full { IfErr result (λ full. IsFull drawer.old full drawer.new) }
{
    let next = drawer.next();
    if next == NUMBER_LIMIT {
        return Err(Full::OfLsns { next });
    }
    match drawer.room() {
        Some((drawn, known_taken)) => Err(Full::OfRecords { drawn, known_taken }),
        None => Ok(()),
    }
}

/// Draws the record with these numbers. There is room for it.
pub fn draw(drawer: &mut Drawer, framed: Framed, tx: u64, lowest: u64, named: u64) -> Slip
    requires room { HasRoom drawer.old }
    requires lsn { next_drawn drawer.old < NUMBER_LIMIT }
    ensures slip { (result.ring ≡ drawer.old.ring) × (result.lsn ≡ next_drawn drawer.old) }
    ensures drawn { (r : Record) → framed ≡ spelling r → HasDrawnOne drawer.old
        (spelling (record r { tx = tx; lowest = lowest; named = named })) drawer.new }
{
    let mut record = framed;
    record.patch(tx, lowest, named);
    match drawer.draw(record) {
        Ok(slip) => slip,
        Err(_) => unreachable!(),
    }
}

/// Draws what was prepared, with these numbers. There is room for it.
pub fn draw_prepared(
    drawer: &mut Drawer,
    framed: &mut Option<Framed>,
    tx: u64,
    lowest: u64,
    named: u64,
) -> Slip
    requires room { HasRoom drawer.old }
    requires lsn { next_drawn drawer.old < NUMBER_LIMIT }
    requires prepared { IsSome framed.old }
    ensures slip { (result.ring ≡ drawer.old.ring) × (result.lsn ≡ next_drawn drawer.old) }
    ensures drawn { IfSome framed.old (λ bytes. (r : Record) → bytes ≡ spelling r → HasDrawnOne drawer.old
        (spelling (record r { tx = tx; lowest = lowest; named = named })) drawer.new) }
    ensures taken { framed.new ≡ None }
{
    match framed.take() {
        Some(record) => draw(drawer, record, tx, lowest, named),
        None => unreachable!(),
    }
}
