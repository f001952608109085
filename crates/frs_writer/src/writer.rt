// The writer of the log.
ghost use Rattle.std.specs.Prelude.{◌≡◌, ◌≢◌, ◌↔◌, ◌+◌, ◌-◌, ◌<◌, ◌≤◌, ◌^◌, ◌++◌, ℕ, List, [], ◌∷◌, true, false, None, IsTrue, IsOk, IsErrOf, IfOk, IfErr, IfSome, OnOk, OnErr, vec_len, vec_capacity, length, take, min, replicate, slice_index, slice_set};
ghost use Rattle.std.specs.FinMap.{entries};
ghost use mathlib.Core.List.{IsPrefix};
ghost use Rattle.frs_types.specs.Records.{Log};
ghost use Rattle.frs_disk.specs.Frames.{ChangesOneFile, GoesOn, NoneRemovedAbove, RemovesBelow};
ghost use Rattle.frs_segment.specs.Segments.{WholeSegment, Spells};
ghost use Rattle.frs_segment.specs.Stores.{IsFound, LeavesAlike};
ghost use Rattle.frs_segment.specs.Scanning.{places_of_segment};
ghost use Rattle.frs_slots.specs.Views.{AreOfOneRing, IsTakenUp, HasRoom};
ghost use Rattle.frs_writer.specs.declared.fault.WriteFault.TheVariants.{NumberLimit};
ghost use Rattle.frs_writer.specs.Places.{number_of_newest, chunks_of_newest};
ghost use Rattle.frs_writer.specs.LogImages.{new_segment};
ghost use Rattle.frs_writer.specs.Setup.{MissesSomeBeside};
ghost use Rattle.frs_writer.specs.Writing.{is_due, number_to_write, IsRolled, WritesGroup, TakesMore, StopsWrite, IsLeftRefused, OfPlacedLog, LeavesFound, IsDurableAtOpening, LeavesLog, LeavesShown, IsDurable, HasOpeningCause, HasWriteCause, HasPutCause};

use crate::chunk::Chunk;
use crate::fault::{NotYet, Refused, WriteFault};
use crate::setup::{Buffers, open_next};
use crate::tail::{put_group, take_places};
use frs_disk::{Disk, Fault};
use frs_frame::Framed;
use frs_segment::{
    ChunkPlace, FILE_LIMIT, Found, HEADER_LENGTH, MOST_RECORDS, Segment, one_log, open_segment,
};
use frs_slots::{DrawEnd, Filled, GhostCopy, Taker};
use frs_types::{CLIENT_LIMIT, NUMBER_LIMIT, NoMemory, Sequence};
use std::alloc::Global;
use std::marker::Model;

// For so many chunks there is room in the list of a new segment at first.
const FIRST_PLACES: usize = 16;

/// The writer of a log: it has the taking end of the ring and the disk.
///
/// Contracts see it as the disk at the opening and now, the taker, a record that was taken and waits for the next
/// chunk, the segments and the files below them, the LSN that is noted for each client and its pin, the last durable
/// LSN and the lowest that the last durable record names, and what has cut a write short, if anything has.
#[derive(Drop)]
pub struct Writer<D: Disk> {
    opened: GhostCopy<D>,
    disk: D,
    taker: Taker,
    kept: Option<Framed>,
    chunk: Chunk,
    segments: Vec<Segment>,
    noted: Vec<u64>,
    pins: Vec<Option<u64>>,
    older: Vec<u64>,
    synced: u64,
    lowest: u64,
    count_at_opening: u64,
    ended: Option<Fault>,
}

impl<D: Disk> Model for Writer<D> {
    ghost use Rattle.frs_writer.specs.Writer.{WriterView};

    ghost Value = { WriterView D };

    ghost use Rattle.frs_writer.specs.Inside.{view_of, IsWriter};

    ghost view = { λ a. view_of a };

    ghost invariant = { λ a. IsWriter D.Disk a };
}

impl<D: Disk> Writer<D> {
    /// Opens a writer on the files that were found: removes the half-made ones, and makes the segment after the
    /// greatest number. The taker has taken nothing yet and comes with the next LSN. There are 1 to `CLIENT_LIMIT`
    /// clients.
    ///
    /// It answers `NumberLimit` exactly where the new segment would have the number 2^62, before anything is changed.
    /// Where it is refused the disk comes back, and half-made files may have been removed and the new one made; all
    /// other files read as before, whatever is answered. Where the log was empty no open file that a crash may leave
    /// has a record; where there was no file a crash leaves at most one.
    pub fn new(
        alloc: Global,
        disk: D,
        taker: Taker,
        found: &Found,
        clients: u32,
    ) -> Result<Writer<D>, Refused<D>>
        requires clients { (1 ≤ clients) × (clients ≤ CLIENT_LIMIT) }
        requires found { IsTrue (D.tells disk) → (segments : List WholeSegment) × (log : Log)
            × IsFound (entries (D.reads disk)) segments log found.now }
        requires pending { IsTrue (D.tells disk) → NoneRemovedAbove D.Disk disk }
        requires greatest { found.now.greatest < NUMBER_LIMIT }
        requires taker { (taker.taken ≡ []) × (taker.first ≡ found.now.next) }

        ensures writer { IfOk result (λ w. (w.opened ≡ disk) × (w.taker ≡ taker) × (w.kept ≡ None)
            × (w.noted ≡ replicate clients 0) × (w.pins ≡ replicate clients None)
            × (w.synced + 1 ≡ found.now.next) × (w.lowest ≡ found.now.named)
            × (w.older ≡ found.now.older) × (w.ended ≡ None)
            × (w.segments ≡ found.now.segments
            ++ places_of_segment (new_segment (found.now.greatest + 1) found.now.next) ∷ [])) }

        // What a crash in the call leaves, and what one after it does.
        ensures crash { (IfOk result (λ w. LeavesFound D.Disk disk w.disk))
            × IfErr result (λ e. LeavesFound D.Disk disk e.disk) }
        ensures durable { IfOk result
            (λ w. IsDurableAtOpening D.Disk disk w.disk found.now.half (found.now.greatest + 1)
            found.now.next w.segments) }

        // Whatever is answered, no file is changed but the half-made ones, which may be gone, and the new one.
        ensures others { IsTrue (D.tells disk) → (IfOk result
            (λ w. MissesSomeBeside (found.now.greatest + 1) found.now.half (D.reads disk)
            (D.reads w.disk))) × IfErr result (λ e. MissesSomeBeside (found.now.greatest + 1)
            found.now.half (D.reads disk) (D.reads e.disk)) }

        ensures frame { (IfOk result (λ w. GoesOn D.Disk disk w.disk))
            × IfErr result (λ e. GoesOn D.Disk disk e.disk) }
        ensures cause { HasOpeningCause D.Disk disk (found.now.greatest + 1) result }
    {
        let first = taker.next();
        let number = found.greatest + 1;
        if number == NUMBER_LIMIT {
            return Err(Refused {
                disk,
                fault: WriteFault::NumberLimit { number },
            });
        }
        let Ok(buffers) = Buffers::new(alloc, found, number, clients) else {
            return Err(Refused {
                disk,
                fault: WriteFault::Memory,
            });
        };
        let mut disk = disk;
        let opened = GhostCopy::of(&disk);
        let count_at_opening = disk.count();
        // The log that was found is the one that the files spell.
        one_log();
        if let Err(fault) = open_next(&mut disk, found.half.items(), number, first) {
            return Err(Refused {
                disk,
                fault: WriteFault::from(fault),
            });
        }
        Ok(Writer {
            opened,
            disk,
            taker,
            kept: None,
            chunk: buffers.chunk,
            segments: buffers.segments,
            noted: buffers.noted,
            pins: buffers.pins,
            older: buffers.older,
            synced: first - 1,
            lowest: found.named,
            count_at_opening,
            ended: None,
        })
    }

    /// Notes a receipt, which has to be of the taker's ring: more records are then sure. Takes no memory.
    pub fn learn(&mut self, filled: Filled)
        requires { filled.ring ≡ self.old.taker.ring }
        ensures in_order { filled.lsn ≡ self.old.taker.first + self.old.taker.sure
            → self.new
            ≡ record self.old { taker = record self.old.taker { sure = self.old.taker.sure + 1 } } }
        ensures other { filled.lsn ≢ self.old.taker.first + self.old.taker.sure
            → self.new ≡ self.old }
    {
        self.taker.learn(filled);
    }

    /// Brings the drawing end of the same ring together with the writer's taker, as `DrawEnd::beside` says. Takes no
    /// memory.
    pub fn meet<E: DrawEnd>(&mut self, end: &mut E)
        requires { AreOfOneRing (E.drawer end.old) self.old.taker }
        ensures one_ring { AreOfOneRing (E.drawer end.new) self.new.taker }
        ensures prefix { IsPrefix self.new.taker.taken (E.drawer end.new).drawn }
        ensures known { (min self.new.taker.sure (length (E.drawer end.new).drawn)
            ≤ self.new.taker.known)
            × (self.new.taker.known ≤ length (E.drawer end.new).drawn) }
        ensures taken { (E.drawer end.new).known_taken ≤ length self.new.taker.taken }
        ensures taker { (self.new
            ≡ record self.old { taker = record self.old.taker { known = self.new.taker.known } })
            × (self.old.taker.known ≤ self.new.taker.known) }
        ensures drawer { E.drawer end.new ≡ E.drawer end.old }
        ensures others { E.is_else_as end.old end.new }
    {
        end.beside(&mut self.taker);
    }

    /// Makes the whole capacity of the ring free again, where every drawn record was taken, as `DrawEnd::renew` says.
    pub fn renew<E: DrawEnd>(&mut self, alloc: Global, end: &mut E) -> Result<(), NoMemory>
        requires one_ring { AreOfOneRing (E.drawer end.old) self.old.taker }
        requires taken_up { IsTakenUp (E.drawer end.old) self.old.taker }
        ensures one_ring { AreOfOneRing (E.drawer end.new) self.new.taker }
        ensures drawer { OnOk result (E.drawer end.new
            ≡ record (E.drawer end.old) {
              ring = (E.drawer end.new).ring;
              known_taken = length
                  (E.drawer end.old).drawn;
            }) }
        ensures room { OnOk result (HasRoom (E.drawer end.new)) }
        ensures taker { OnOk result ((self.new
            ≡ record self.old {
              taker = record self.old.taker
                  { ring = self.new.taker.ring; known = self.new.taker.known };
            })
            × (self.old.taker.known ≤ self.new.taker.known)) }
        ensures refused { OnErr result ((E.drawer end.new ≡ E.drawer end.old)
            × (self.new ≡ self.old)) }
        ensures others { E.is_else_as end.old end.new }
    {
        end.renew(alloc, &mut self.taker)
    }

    /// Gives the disk back, as it is. Where nothing was cut short each image that a crash may leave spells the log by
    /// the same files, and a file whose removal is pending stands below one that is there: a writer may be opened on it
    /// again.
    pub fn into_disk(self) -> D
        ensures disk { result ≡ self.disk }
        ensures alike { self.ended ≡ None → IsTrue (D.tells result)
            → OfPlacedLog D.Disk self (λ log. LeavesAlike D.Disk result) }
        ensures pending { self.ended ≡ None → IsTrue (D.tells result)
            → RemovesBelow D.Disk result }
    {
        let Writer { disk, .. } = self;
        disk
    }

    /// The last LSN that is durable, or 0. Where nothing was cut short every record that was taken and isn't kept is
    /// durable.
    pub fn synced(&self) -> u64
        ensures { result ≡ self.now.synced }
    {
        self.synced
    }

    /// The LSN that was noted as durable for a client, 0 at first. It isn't above `synced`.
    pub fn noted(&self, client: u32) -> u64
        requires { (1 ≤ client) × (client ≤ length self.now.noted) }
        ensures noted { result ≡ slice_index self.now.noted (client - 1) }
        ensures durable { result ≤ self.now.synced }
    {
        self.noted[client as usize - 1]
    }

    /// The open segments, by rising number. The last one is written.
    pub fn segments(&self) -> &[Segment]
        ensures segments { result.now ≡ self.now.segments }
        ensures some { self.now.segments ≢ [] }
    {
        self.segments.as_slice()
    }

    /// Notes an LSN as durable for a client. It isn't below the one that was noted before. `NotYet` comes exactly
    /// where it isn't durable, and changes nothing. Takes no memory.
    pub fn acknowledge(&mut self, client: u32, lsn: u64) -> Result<(), NotYet>
        requires client { (1 ≤ client) × (client ≤ length self.old.noted) }
        requires rising { slice_index self.old.noted (client - 1) ≤ lsn }
        ensures exact { IsOk result ↔ (lsn ≤ self.old.synced) }
        ensures noted { OnOk result (self.new
            ≡ record self.old { noted = slice_set self.old.noted (client - 1) lsn }) }
        ensures not_yet { IfErr result (λ refused. (self.new ≡ self.old)
            × (refused.synced ≡ self.old.synced)) }
    {
        if lsn > self.synced {
            return Err(NotYet {
                synced: self.synced,
            });
        }
        self.noted[client as usize - 1] = lsn;
        Ok(())
    }

    /// Writes the next records as one chunk, and answers how many they are: all that are known, up to the limit,
    /// which is 1 to 256, and up to 1 MiB. A record that doesn't fit is kept, and is the first of the next chunk.
    /// Fewer than the limit that all fit come only where the ring was asked for one more in this call and hadn't it,
    /// and so does 0. Where the newest segment has reached 1 MiB it goes on to a new one first. No file but the one that
    /// is written is changed, whatever is answered, and none is removed.
    ///
    /// Once it answers Ok every record that it counts is durable, the newest open files are its segments, chunk by
    /// chunk, and all images that a crash may leave spell the log by the same files. Where it is refused with `Disk`,
    /// or with `Memory` while it wrote, records may be durable or not, and the writer writes no more. Where the log was
    /// empty at the opening, all open files that a crash may leave are its segments, from LSN 1 on; where there was no
    /// file, their numbers are those from 1 on, at most the newest is half-made, and each but the newest has a record.
    pub fn write_group(&mut self, alloc: Global, limit: u32) -> Result<u32, WriteFault>
        requires { (1 ≤ limit) × (limit ≤ MOST_RECORDS) }

        ensures wrote { IfOk result (λ count. WritesGroup limit count self.old self.new) }
        ensures cause { HasWriteCause D.Disk self.old self.new result }
        ensures limit { self.old.ended ≡ None → is_due self.old ≡ true
            → number_of_newest self.old.segments + 1 ≡ NUMBER_LIMIT
            → IsErrOf result (NumberLimit NUMBER_LIMIT) }
        ensures refused { OnErr result (IsLeftRefused D.Disk limit self.old self.new) }
        ensures same { TakesMore self.old self.new }

        // What a crash in the call leaves, and what one after it does.
        ensures crash { LeavesLog D.Disk self.old self.new }
        ensures durable { OnOk result (IsDurable D.Disk self.old self.new) }

        // Whatever is answered, no file is changed but the one that is written.
        ensures one_file { ChangesOneFile D.Disk (number_to_write self.old)
            self.old.disk self.new.disk }

        ensures frame { GoesOn D.Disk self.old.disk self.new.disk }
    {
        self.check()?;
        let room = self.roll(alloc)?;
        self.write(alloc, room, limit)
    }

    // Whether anything can be written: nothing was cut short so far. A crash at this moment leaves what is durable.
    fn check(&self) -> Result<(), WriteFault>
        ensures cause { HasWriteCause D.Disk self.now self.now result }
        ensures stopped { OnErr result (self.now.ended ≢ None) }
        ensures crash { LeavesLog D.Disk self.now self.now }
    {
        match self.ended {
            None => Ok(()),
            Some(Fault::Failed) => Err(WriteFault::Broken {
                count_at_opening: self.count_at_opening,
                count_now: self.disk.count(),
            }),
            Some(Fault::Memory) => Err(WriteFault::Memory),
        }
    }

    // Whether the newest segment is to be left.
    fn is_due(&self) -> bool
        ensures { result ≡ is_due self.now }
    {
        let newest = &self.segments[self.segments.len() - 1];
        newest.length >= FILE_LIMIT && self.synced + 1 < NUMBER_LIMIT
    }

    // Goes on to a new segment where this is due, and gives room for the places of its chunks. All memory for it is
    // taken before anything is changed.
    fn roll(&mut self, alloc: Global) -> Result<Option<Vec<ChunkPlace>>, WriteFault>
        requires { self.old.ended ≡ None }
        ensures rolled { OnOk result (IsRolled self.old self.new) }
        ensures room { IfOk result (λ room. IfSome room (λ places. (places.items ≡ [])
            × (vec_len places < vec_capacity places) × (chunks_of_newest self.new.segments ≡ []))) }
        ensures none { IfOk result (λ room. room ≡ None → self.new ≡ self.old) }
        ensures cause { HasWriteCause D.Disk self.old self.new result }
        ensures limit { is_due self.old ≡ true
            → number_of_newest self.old.segments + 1 ≡ NUMBER_LIMIT
            → IsErrOf result (NumberLimit NUMBER_LIMIT) }
        ensures refused { OnErr result ((self.new
            ≡ record self.old { disk = self.new.disk; ended = self.new.ended })
            × (is_due self.old ≡ true)) }
        ensures crash { LeavesLog D.Disk self.old self.new }
        ensures shown { LeavesShown D.Disk self.old self.new }
        ensures one_file { ChangesOneFile D.Disk (number_to_write self.old)
            self.old.disk self.new.disk }
        ensures frame { GoesOn D.Disk self.old.disk self.new.disk }
    {
        if !self.is_due() {
            return Ok(None);
        }
        let number = self.segments[self.segments.len() - 1].number + 1;
        if number == NUMBER_LIMIT {
            return Err(WriteFault::NumberLimit { number });
        }
        let Ok(room) = Vec::with_capacity(alloc, FIRST_PLACES) else {
            return Err(WriteFault::Memory);
        };
        if self.segments.reserve(1).is_err() {
            return Err(WriteFault::Memory);
        }
        let first = self.synced + 1;
        if let Err(fault) = open_segment(&mut self.disk, number, first) {
            self.ended = Some(fault);
            return Err(WriteFault::from(fault));
        }
        self.segments.push_reserved(Segment {
            number,
            first,
            end: first,
            length: HEADER_LENGTH as u64,
            chunks: Sequence::of(Vec::new(alloc)),
        });
        Ok(Some(room))
    }

    // Writes a group to the newest segment. Where the segment has no chunk there may be room for the places of its
    // chunks.
    fn write(
        &mut self,
        alloc: Global,
        room: Option<Vec<ChunkPlace>>,
        limit: u32,
    ) -> Result<u32, WriteFault>
        requires limit { (1 ≤ limit) × (limit ≤ MOST_RECORDS) }
        requires fine { (self.old.ended ≡ None) × (is_due self.old ≡ false) }
        requires room { IfSome room (λ places. (places.items ≡ [])
            × (vec_len places < vec_capacity places) × (chunks_of_newest self.old.segments ≡ [])) }
        ensures wrote { IfOk result (λ count. WritesGroup limit count self.old self.new) }
        ensures cause { HasPutCause D.Disk (room ≡ None) self.old self.new result }
        ensures refused { OnErr result (StopsWrite D.Disk limit self.old self.new) }
        ensures same { TakesMore self.old self.new }
        ensures crash { LeavesLog D.Disk self.old self.new }
        ensures durable { OnOk result (IsDurable D.Disk self.old self.new) }
        ensures one_file { ChangesOneFile D.Disk (number_of_newest self.old.segments)
            self.old.disk self.new.disk }
        ensures frame { GoesOn D.Disk self.old.disk self.new.disk }
    {
        let newest = self.segments.len() - 1;
        let places = take_places(alloc, &mut self.segments[newest], room)?;
        let written = put_group(
            &mut self.disk,
            &mut self.segments[newest],
            places,
            &mut self.taker,
            &mut self.kept,
            &mut self.chunk,
            limit,
        );
        match written {
            Ok(count) => {
                self.synced += u64::from(count);
                self.lowest = self.chunk.lowest_or(self.lowest);
                Ok(count)
            }
            Err(fault) => {
                self.ended = Some(fault);
                Err(WriteFault::from(fault))
            }
        }
    }
}
