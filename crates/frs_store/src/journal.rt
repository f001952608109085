//! The journal of a session: the writer of its log, and what a crash has left of it since the session's start.
ghost use Rattle.std.specs.Prelude.{◌≡◌, ◌≢◌, ◌+◌, ◌-◌, ◌<◌, ◌≤◌, ◌++◌, ◌∷◌, [], List, None, replicate, min, length, slice_index, slice_set, IsTrue, IsOk, ◌↔◌, IfOk, IfErr, OnOk, OnErr};
ghost use Rattle.std.specs.FinMap.{entries};
ghost use mathlib.Core.List.{IsPrefix};
ghost use Rattle.frs_types.specs.Records.{Log};
ghost use Rattle.frs_disk.specs.Frames.{GoesOn, NoneRemovedAbove, OnlyReads, Within};
ghost use Rattle.frs_segment.specs.Segments.{WholeSegment, Spells};
ghost use Rattle.frs_segment.specs.Scanning.{places_of_segment};
ghost use Rattle.frs_segment.specs.Stores.{IsFound, LeavesAlike};
ghost use Rattle.frs_slots.specs.Views.{AreOfOneRing, IsTakenUp, HasRoom};
ghost use Rattle.frs_segment.specs.declared.format.TheConstants.{MOST_RECORDS};
ghost use Rattle.frs_writer.specs.LogImages.{new_segment};
ghost use Rattle.frs_store.specs.Journal.{HasMore, IsJournal};
ghost use Rattle.frs_writer.specs.Writing.{WritesGroup, TakesMore, IsLeftRefused, IsDurable, HasRefusalCause, HasWriteCause};

use frs_disk::Disk;
use frs_segment::{Found, MOST_RECORDS, one_log};
use frs_slots::{DrawEnd, Filled, GhostCopy, Taker};
use frs_types::{CLIENT_LIMIT, NUMBER_LIMIT, NoMemory};
use frs_writer::{NotYet, Refused, WriteFault, Writer};
use std::alloc::Global;
use std::marker::Model;

/// The writer of a session's log. Contracts see the disk at the session's start beside it, and the last LSN that was
/// durable then, and the number of the segment that was made at the opening.
#[derive(Drop)]
pub struct Journal<D: Disk> {
    start: GhostCopy<D>,
    durable: GhostCopy<u64>,
    number: GhostCopy<u64>,
    writer: Writer<D>,
}

impl<D: Disk> Model for Journal<D> {
    ghost use Rattle.frs_store.specs.Journal.{JournalView};

    ghost Value = { JournalView D };

    ghost use Rattle.frs_store.specs.Journal.{IsJournal};
    ghost use Rattle.frs_store.specs.InsideJournal.{view_of};

    ghost view = { λ a. view_of a };

    ghost invariant = { λ a. IsJournal D.Disk (view_of a) };
}

impl<D: Disk> Journal<D> {
    /// Opens the writer on the files that were found since the start, as `Writer::new` does.
    pub fn open(
        alloc: Global,
        start: GhostCopy<D>,
        disk: D,
        taker: Taker,
        found: &Found,
        clients: u32,
    ) -> Result<Journal<D>, Refused<D>>
        requires clients { (1 ≤ clients) × (clients ≤ CLIENT_LIMIT) }
        requires looked { OnlyReads D.Disk start.value disk }
        requires found { IsTrue (D.tells disk) → (segments : List WholeSegment) × (log : Log)
            × IsFound (entries (D.reads disk)) segments log found.now }
        requires pending { IsTrue (D.tells disk) → NoneRemovedAbove D.Disk disk }
        requires greatest { found.now.greatest < NUMBER_LIMIT }
        requires taker { (taker.taken ≡ []) × (taker.first ≡ found.now.next) }
        ensures start { IfOk result (λ j. (j.start ≡ start.value)
            × (j.durable + 1 ≡ found.now.next) × (j.number ≡ found.now.greatest + 1)) }
        ensures writer { IfOk result (λ j. (j.writer.opened ≡ disk) × (j.writer.taker ≡ taker)
            × (j.writer.kept ≡ None) × (j.writer.noted ≡ replicate clients 0)
            × (j.writer.synced + 1 ≡ found.now.next) × (j.writer.ended ≡ None)
            × (j.writer.segments ≡ found.now.segments
            ++ places_of_segment (new_segment (found.now.greatest + 1) found.now.next) ∷ [])) }
        ensures refused { IfErr result (λ e. IsTrue (D.tells disk) → LeavesAlike D.Disk start.value
            → (log : Log) → Spells (entries (D.reads disk)) log
            → Within D.Disk start.value e.disk (λ c. Spells (entries c) log)) }
        ensures frame { (IfOk result (λ j. GoesOn D.Disk disk j.writer.disk))
            × IfErr result (λ e. GoesOn D.Disk disk e.disk) }
        ensures cause { (IfOk result (λ j. (D.faults j.writer.disk ≡ D.faults disk)
            × (found.now.greatest + 1 < NUMBER_LIMIT)))
            × IfErr result (λ e. HasRefusalCause D.Disk disk (found.now.greatest + 1) e.disk
            e.fault) }
    {
        // The log that was found is the one that the files spell.
        one_log();
        let first = taker.next();
        let durable = GhostCopy::of(&(first - 1));
        let number = GhostCopy::of(&(found.greatest + 1));
        match Writer::new(alloc, disk, taker, found, clients) {
            Ok(writer) => Ok(Journal {
                start,
                durable,
                number,
                writer,
            }),
            Err(refused) => Err(refused),
        }
    }

    /// Notes a receipt of the ring, as `Writer::learn` does.
    pub fn learn(&mut self, filled: Filled)
        requires { filled.ring ≡ self.old.writer.taker.ring }
        ensures in_order { filled.lsn ≡ self.old.writer.taker.first + self.old.writer.taker.sure
            → self.new ≡ record self.old {
              writer = record self.old.writer {
                taker = record self.old.writer.taker { sure = self.old.writer.taker.sure + 1 };
              };
            } }
        ensures other { filled.lsn ≢ self.old.writer.taker.first + self.old.writer.taker.sure
            → self.new ≡ self.old }
    {
        self.writer.learn(filled);
    }

    /// Brings the drawing end of the ring together with the writer's taker, as `Writer::meet` does.
    pub fn meet<E: DrawEnd>(&mut self, end: &mut E)
        requires { AreOfOneRing (E.drawer end.old) self.old.writer.taker }
        ensures one_ring { AreOfOneRing (E.drawer end.new) self.new.writer.taker }
        ensures prefix { IsPrefix self.new.writer.taker.taken (E.drawer end.new).drawn }
        ensures known { min self.new.writer.taker.sure (length (E.drawer end.new).drawn)
            ≤ self.new.writer.taker.known }
        ensures same { self.new ≡ record self.old {
          writer = record self.old.writer {
            taker = record self.old.writer.taker { known = self.new.writer.taker.known };
          };
        } }
        ensures drawer { E.drawer end.new ≡ E.drawer end.old }
        ensures others { E.is_else_as end.old end.new }
    {
        self.writer.meet(end);
    }

    /// Makes the whole capacity of the ring free again, where every drawn record was taken, as `Writer::renew` does.
    pub fn renew<E: DrawEnd>(&mut self, alloc: Global, end: &mut E) -> Result<(), NoMemory>
        requires one_ring { AreOfOneRing (E.drawer end.old) self.old.writer.taker }
        requires taken_up { IsTakenUp (E.drawer end.old) self.old.writer.taker }
        ensures one_ring { AreOfOneRing (E.drawer end.new) self.new.writer.taker }
        ensures drawer { OnOk result (E.drawer end.new
            ≡ record (E.drawer end.old) {
              ring = (E.drawer end.new).ring;
              known_taken = length (E.drawer end.old).drawn;
            }) }
        ensures room { OnOk result (HasRoom (E.drawer end.new)) }
        ensures same { OnOk result (self.new ≡ record self.old {
          writer = record self.old.writer {
            taker = record self.old.writer.taker {
              ring = self.new.writer.taker.ring;
              known = self.new.writer.taker.known;
            };
          };
        }) }
        ensures refused { OnErr result ((E.drawer end.new ≡ E.drawer end.old)
            × (self.new ≡ self.old)) }
        ensures others { E.is_else_as end.old end.new }
    {
        self.writer.renew(alloc, end)
    }

    /// Writes the next records as one chunk, as `Writer::write_group` does with the greatest limit. There is one at
    /// least.
    pub fn write_group(&mut self, alloc: Global) -> Result<u32, WriteFault>
        requires { HasMore self.old.writer }
        ensures start { self.new ≡ record self.old { writer = self.new.writer } }
        ensures some { IfOk result (λ count. 1 ≤ count) }
        ensures wrote { IfOk result (λ count. WritesGroup MOST_RECORDS count self.old.writer
            self.new.writer) }
        ensures cause { HasWriteCause D.Disk self.old.writer self.new.writer result }
        ensures refused { OnErr result (IsLeftRefused D.Disk MOST_RECORDS self.old.writer
            self.new.writer) }
        ensures same { TakesMore self.old.writer self.new.writer }
        ensures durable { OnOk result (IsDurable D.Disk self.old.writer self.new.writer) }
        ensures frame { GoesOn D.Disk self.old.writer.disk self.new.writer.disk }
    {
        self.writer.write_group(alloc, MOST_RECORDS)
    }

    /// Notes a durable LSN for a client, as `Writer::acknowledge` does.
    pub fn acknowledge(&mut self, client: u32, lsn: u64)
        requires client { (1 ≤ client) × (client ≤ length self.old.writer.noted) }
        requires rising { slice_index self.old.writer.noted (client - 1) ≤ lsn }
        requires durable { lsn ≤ self.old.writer.synced }
        ensures { self.new ≡ record self.old {
          writer = record self.old.writer {
            noted = slice_set self.old.writer.noted (client - 1) lsn;
          };
        } }
    {
        match self.writer.acknowledge(client, lsn) {
            Ok(()) => {}
            Err(NotYet { .. }) => unreachable!(),
        }
    }

    /// The LSN that was noted as durable for a client, 0 at first.
    pub fn noted(&self, client: u32) -> u64
        requires { (1 ≤ client) × (client ≤ length self.now.writer.noted) }
        ensures noted { result ≡ slice_index self.now.writer.noted (client - 1) }
        ensures durable { result ≤ self.now.writer.synced }
    {
        self.writer.noted(client)
    }

    /// The last LSN that is durable, or 0.
    pub fn synced(&self) -> u64
        ensures synced { result ≡ self.now.writer.synced }
        ensures journal { IsJournal D.Disk self.now }
    {
        self.writer.synced()
    }

    /// The writer.
    pub fn into_writer(self) -> Writer<D>
        ensures { result ≡ self.writer }
    {
        let Journal { writer, .. } = self;
        writer
    }

    /// Gives the disk back, as it is, with what always holds of the journal.
    pub fn into_disk(self) -> D
        ensures disk { result ≡ self.writer.disk }
        ensures journal { IsJournal D.Disk self }
    {
        let Journal { writer, .. } = self;
        writer.into_disk()
    }
}
