// The files of a store, from the one with the greatest number down.
ghost use Rattle.std.specs.Prelude.{◌≡◌, ◌+◌, ◌-◌, ◌<◌, ◌≤◌, ◌^◌, ◌++◌, ℕ, List, if◌then◌else◌, [], ◌∷◌, true, false, Ok, Err, Some, not, drop, length, filter, reverse, map, nat_lt, IsTrue, IsSome, IfOk, IfErr, OnOk, OnErr, All};
ghost use Rattle.std.specs.FinMap.{get, entries};
ghost use Rattle.frs_types.specs.declared.record.Record.{Record};
ghost use Rattle.frs_disk.specs.Disk.{bytes_at, IsNumber};
ghost use Rattle.frs_disk.specs.Frames.{IsThere, OnlyReads, ReadsNoWider};
ghost use Rattle.frs_segment.specs.Segments.{WholeSegment, IsSegment, end_of, first_of, all_records, are_enough};
ghost use Rattle.frs_segment.specs.declared.fault.ScanFault.TheVariants.{HalfMade};
ghost use Rattle.frs_segment.specs.Faults.{IsOfText};
ghost use Rattle.frs_segment.specs.Scanning.{places_of_segment, IsChunk, IsRefused};
ghost use Rattle.frs_segment.specs.Heads.{IsInLine, HasHeads};
ghost use Rattle.frs_recovery.specs.Faults.{HasRecoverCause, CountsFault, IsOfFiles};
ghost use Rattle.frs_recovery.specs.Descent.{file_at, HasLookedAt, LooksAt, IsWrongFile, IsFileFault, TellsSegment, ReadsSegment, IsMeant, IsUnreadable, NeedsChunk, store_fault};
ghost use Rattle.frs_recovery.specs.OfferedRecords.{HasRead};
ghost use Rattle.frs_recovery.specs.FirstFault.{goes_further, ends_below, gap_below};

use crate::backward_reader::BackwardReader;
use crate::fault::RecoverFault;
use frs_disk::Disk;
use frs_segment::{ChunkPlace, ScanFault, Segment, WIDEST, heads, read_chunk, scan, segment_heads};
use frs_types::Record;
use std::alloc::Global;

// The LSN of the first record of a log.
const FIRST_LSN: u64 = 1;

// The files that were looked at, from the greatest number down.
#[derive(Drop)]
pub(crate) struct Descent {
    // The newest first.
    segments: Vec<Segment>,
    // The half-made files among and below them, the greatest number first.
    half: Vec<u64>,
    records: BackwardReader,
}

impl Descent {
    // No file was looked at.
    pub(crate) fn new(alloc: Global) -> Descent
        ensures looked { HasLookedAt result [] }
        ensures half { result.half.items ≡ [] }
    {
        Descent {
            segments: Vec::new(alloc),
            half: Vec::new(alloc),
            records: BackwardReader::new(alloc),
        }
    }

    // Whether the log begins in the oldest segment that was looked at.
    pub(crate) fn is_enough(&self) -> bool
        ensures { (segments : List WholeSegment) → HasLookedAt self.now segments
            → result ≡ not (goes_further segments (all_records segments)) }
    {
        match (self.segments.last(), self.records.named()) {
            (Some(oldest), Some(lowest)) => oldest.first <= lowest,
            _ => false,
        }
    }

    // Where no file is left and the log isn't enough: whether it begins here.
    pub(crate) fn at_end(&self) -> Result<(), RecoverFault>
        ensures whole { (segments : List WholeSegment) → HasLookedAt self.now segments
            → IsTrue (goes_further segments (all_records segments))
            → OnOk result (IsTrue (are_enough [] segments (all_records segments))) }
        ensures gap { (segments : List WholeSegment) → HasLookedAt self.now segments
            → IsTrue (goes_further segments (all_records segments))
            → IfErr result (λ fault. IsTrue (not (are_enough [] segments (all_records segments)))
            × (fault ≡ gap_below segments 0)) }
    {
        match self.segments.last() {
            Some(oldest) if oldest.first > FIRST_LSN => Err(RecoverFault::Gap {
                expected: oldest.first - 1,
                found: 0,
            }),
            _ => Ok(()),
        }
    }

    // Whether a segment ends where those above it begin.
    fn meets(&self, segment: &Segment) -> Result<(), RecoverFault>
        ensures told { (segments : List WholeSegment) (s : WholeSegment)
            → HasLookedAt self.now segments → IsMeant s → segment.now ≡ places_of_segment s
            → result ≡ (if ends_below s segments then Ok tt
            else Err (gap_below segments (end_of s - 1))) }
        ensures of_files { IfErr result IsOfFiles }
    {
        match self.segments.last() {
            Some(newer) if newer.first != segment.end => Err(RecoverFault::Gap {
                expected: newer.first.saturating_sub(1),
                found: segment.end.saturating_sub(1),
            }),
            _ => Ok(()),
        }
    }

    // The parts: the segments and the numbers of the half-made files, both as they were looked at, and the records.
    pub(crate) fn into_parts(self) -> (Vec<Segment>, Vec<u64>, BackwardReader)
        ensures { (result.0 ≡ self.segments) × (result.1 ≡ self.half) × (result.2 ≡ self.records) }
    {
        let Descent {
            segments,
            half,
            records,
        } = self;
        (segments, half, records)
    }
}

// Looks at the greatest file that wasn't looked at yet: notes it where it is half-made, and else reads its records.
pub(crate) fn look_at<D: Disk>(
    alloc: Global,
    disk: &mut D,
    number: u64,
    descent: &mut Descent,
) -> Result<(), RecoverFault>
    requires in_range { IsNumber number }
    requires there { IsThere D.Disk disk.old number }
    ensures looks { (segments : List WholeSegment) → HasLookedAt descent.old segments
        → OnOk result (LooksAt (D.tells disk.old) (file_at (D.reads disk.old) number)
        segments descent.old descent.new) }
    ensures why { (segments : List WholeSegment) → HasLookedAt descent.old segments
        → IsTrue (D.tells disk.old)
        → IfErr result (IsWrongFile (file_at (D.reads disk.old) number) segments) }
    ensures frame { OnlyReads D.Disk disk.old disk.new }
    ensures width { ReadsNoWider D.Disk WIDEST disk.old disk.new }
    ensures cause { HasRecoverCause (D.faults disk.old) (D.faults disk.new) result }
{
    let Some(segment) = segment_of(alloc, disk, number)? else {
        descent.half.push(number)?;
        return Ok(());
    };
    segment_heads();
    let met = descent.meets(&segment);
    read_segment(alloc, disk, &segment, &mut descent.records)?;
    met?;
    descent.segments.push(segment)?;
    Ok(())
}

// The segment that a file is by the heads of its chunks, or none where it is half-made.
fn segment_of<D: Disk>(
    alloc: Global,
    disk: &mut D,
    number: u64,
) -> Result<Option<Segment>, RecoverFault>
    requires there { IsThere D.Disk disk.old number }
    ensures found { IfOk result (TellsSegment (D.tells disk.old)
        (file_at (D.reads disk.old) number)) }
    ensures why { IsTrue (D.tells disk.old)
        → IfErr result (IsFileFault (file_at (D.reads disk.old) number)) }
    ensures frame { OnlyReads D.Disk disk.old disk.new }
    ensures width { ReadsNoWider D.Disk WIDEST disk.old disk.new }
    ensures cause { HasRecoverCause (D.faults disk.old) (D.faults disk.new) result }
{
    segment_heads();
    match heads(alloc, disk, number) {
        Ok(segment) => Ok(Some(segment)),
        Err(ScanFault::HalfMade) => Ok(None),
        Err(ScanFault::Disk) => Err(RecoverFault::Disk),
        Err(ScanFault::Memory) => Err(RecoverFault::Memory),
        Err(fault) => Err(first_fault(alloc, disk, number, fault)),
    }
}

// Reads the records of a segment, from the newest chunk to the oldest.
fn read_segment<D: Disk>(
    alloc: Global,
    disk: &mut D,
    segment: &Segment,
    records: &mut BackwardReader,
) -> Result<(), RecoverFault>
    requires line { IsInLine segment.now }
    requires there { IsThere D.Disk disk.old segment.now.number }
    ensures read { OnOk result (ReadsSegment (D.tells disk.old)
        (bytes_at (D.reads disk.old) segment.now.number) segment.now records.old records.new) }
    ensures why { IsTrue (D.tells disk.old)
        → HasHeads (file_at (D.reads disk.old) segment.now.number) segment.now
        → IfErr result (IsFileFault (file_at (D.reads disk.old) segment.now.number)) }
    ensures frame { OnlyReads D.Disk disk.old disk.new }
    ensures width { ReadsNoWider D.Disk WIDEST disk.old disk.new }
    ensures cause { HasRecoverCause (D.faults disk.old) (D.faults disk.new) result }
{
    segment_heads();
    let mut left = segment.chunks.items();
    while let [older @ .., place] = left {
        let chunk = chunk_of(alloc, disk, segment.number, place)?;
        records.read_all(place.first, chunk)?;
        left = older;
    }
    Ok(())
}

// The records of a chunk whose place the heads of a file have told.
fn chunk_of<D: Disk>(
    alloc: Global,
    disk: &mut D,
    number: u64,
    place: &ChunkPlace,
) -> Result<Vec<Record>, RecoverFault>
    requires there { IsThere D.Disk disk.old number }
    ensures found { IfOk result (λ records. IsTrue (D.tells disk.old)
        → IsChunk place.now (drop place.now.offset (bytes_at (D.reads disk.old) number))
        records.items) }
    ensures meant { IfOk result (λ records. (text : List ℕ)
        × IsChunk place.now text records.items) }
    ensures why { IsTrue (D.tells disk.old)
        → NeedsChunk (file_at (D.reads disk.old) number) place.now
        → (IsRefused (file_at (D.reads disk.old) number) HalfMade → ⊥)
        → IfErr result (IsFileFault (file_at (D.reads disk.old) number)) }
    ensures frame { OnlyReads D.Disk disk.old disk.new }
    ensures width { ReadsNoWider D.Disk WIDEST disk.old disk.new }
    ensures cause { HasRecoverCause (D.faults disk.old) (D.faults disk.new) result }
{
    match read_chunk(alloc, disk, number, place) {
        Ok(records) => Ok(records),
        Err(ScanFault::Disk) => Err(RecoverFault::Disk),
        Err(ScanFault::Memory) => Err(RecoverFault::Memory),
        Err(fault) => Err(first_fault(alloc, disk, number, fault)),
    }
}

// What is wrong first with a file of which this was found to be wrong: a scan of the whole file tells it. Where it
// tells nothing, it is what was found.
fn first_fault<D: Disk>(alloc: Global, disk: &mut D, number: u64, found: ScanFault) -> RecoverFault
    requires of_text { IsOfText found }
    requires there { IsThere D.Disk disk.old number }
    ensures why { IsTrue (D.tells disk.old)
        → IsUnreadable (file_at (D.reads disk.old) number)
        → IsFileFault (file_at (D.reads disk.old) number) result }
    ensures frame { OnlyReads D.Disk disk.old disk.new }
    ensures width { ReadsNoWider D.Disk WIDEST disk.old disk.new }
    ensures cause { CountsFault (D.faults disk.old) (D.faults disk.new) result }
{
    match scan(alloc, disk, number) {
        Ok(_) => store_fault(number, found),
        Err(ScanFault::HalfMade) => store_fault(number, found),
        Err(fault) => store_fault(number, fault),
    }
}

// How it is told of a store what is wrong with a file.
fn store_fault(number: u64, fault: ScanFault) -> RecoverFault
    ensures { result ≡ store_fault number fault }
{
    match fault {
        ScanFault::HalfMade => RecoverFault::BadHeader {
            segment: number,
            offset: 0,
        },
        ScanFault::BadHeader { offset } => RecoverFault::BadHeader {
            segment: number,
            offset,
        },
        ScanFault::BadChunk { offset } => RecoverFault::BadChunk {
            segment: number,
            offset,
        },
        ScanFault::NumberLimit { lsn } => RecoverFault::NumberLimit { lsn },
        ScanFault::Disk => RecoverFault::Disk,
        ScanFault::Memory => RecoverFault::Memory,
    }
}
