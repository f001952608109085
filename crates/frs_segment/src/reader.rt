//! Reading a store's disk: a whole segment, one chunk after the other; the heads of its chunks alone; or one chunk of
//! it.
ghost use Rattle.std.specs.Prelude.{◌≡◌, ◌+◌, ◌<◌, ◌≤◌, ◌^◌, ◌↔◌, ℕ, List, Ok, Err, length, drop, slice_index, IsTrue, IfOk, IfErr};
ghost use Rattle.std.specs.Bool.{OnTrue};
ghost use Rattle.frs_types.specs.declared.record.Record.{Record};
ghost use Rattle.frs_disk.specs.Disk.{bytes_at, IsNumber};
ghost use Rattle.frs_disk.specs.Frames.{IsThere, OnlyReads, ReadsNoWider};
ghost use Rattle.frs_segment.specs.declared.fault.ScanFault.{ScanFault};
ghost use Rattle.frs_segment.specs.Segments.{WholeSegment, IsSegment};
ghost use Rattle.frs_segment.specs.declared.layout.Segment.{Segment};
ghost use Rattle.frs_segment.specs.Faults.{HasScanCause, GivesScanned};
ghost use Rattle.frs_segment.specs.Scanning.{head_of, places_of_segment, IsChunk, IsRefused, IsCauseInFile, IsFaultAt, RefusesPlace, TellsFile};
ghost use Rattle.frs_segment.specs.Heads.{HasHeads, HasHeaderBytes, IsInLine, IsRefusedByHeads, IsCauseInHeads, TellsHeads};

use crate::fault::ScanFault;
use crate::format::{BODY_LIMIT, CHUNK_FRONT, HEADER_LENGTH, WIDEST, head_at};
use crate::layout::{ChunkPlace, Segment};
use crate::records::records_of;
use crate::walk::Walk;
use frs_disk::Disk;
use frs_types::{NUMBER_LIMIT, Record};
use std::alloc::Global;

/// Reads a segment from its front to its first closed chunk gate, and gives its number, its LSNs, its length and the
/// places of its chunks. The file has to be there. Nothing on the disk changes.
///
/// The fault is what is wrong first, in this order: `HalfMade`; `BadHeader` with the offset of the letters, the
/// version, the number or the first LSN, which isn't 0; `NumberLimit` with a first LSN of 2^62 or more; then for each
/// chunk from the front whose gate is open `BadChunk` with the offset of that gate, where its bytes and the next gate
/// pass the file's end, its count isn't 1 to 256, its body isn't 1 to 2^20 bytes or its first LSN isn't the one after
/// the chunk before it; `NumberLimit` with 2^62 where its LSNs pass that number; and `BadChunk` again where no records
/// that may stand there fill its body. `Disk` and `Memory` may come instead.
pub fn scan<D: Disk>(alloc: Global, disk: &mut D, number: u64) -> Result<Segment, ScanFault>
    requires there { IsThere D.Disk disk.old number }

    // What is read is the segment that the file is.
    ensures found { IfOk result (λ found. IsTrue (D.tells disk.old)
        → (s : WholeSegment) × IsSegment (number, bytes_at (D.reads disk.old) number) s
        × (found ≡ places_of_segment s)) }

    // It is a segment of this number also where the disk doesn't tell the file.
    ensures meant { IfOk result (λ found. IsNumber number
        → (bytes : List ℕ) × (s : WholeSegment) × IsSegment (number, bytes) s
        × (found ≡ places_of_segment s)) }

    // If the file is a segment, that is read, unless the disk or memory fails.
    ensures only { IsTrue (D.tells disk.old) → (s : WholeSegment)
        → IsSegment (number, bytes_at (D.reads disk.old) number) s
        → GivesScanned (λ found. found) result (Ok (places_of_segment s)) }

    // Which fault it is: that which is first.
    ensures why { IsTrue (D.tells disk.old)
        → IfErr result (IsCauseInFile (number, bytes_at (D.reads disk.old) number)) }
    ensures refused { IsTrue (D.tells disk.old) → (fault : ScanFault)
        → IsRefused (number, bytes_at (D.reads disk.old) number) fault
        → GivesScanned (λ found. found) result (Err fault) }

    ensures frame { OnlyReads D.Disk disk.old disk.new }
    ensures width { ReadsNoWider D.Disk WIDEST disk.old disk.new }
    ensures cause { HasScanCause (D.faults disk.old) (D.faults disk.new) result }
{
    follow_chunks(alloc, disk, number)
}

// The segment that a file is: of each chunk the head is read, and then the records.
fn follow_chunks<D: Disk>(alloc: Global, disk: &mut D, number: u64) -> Result<Segment, ScanFault>
    requires there { IsThere D.Disk disk.old number }
    ensures told { IsTrue (D.tells disk.old)
        → TellsFile (number, bytes_at (D.reads disk.old) number) result }
    ensures meant { IfOk result (λ found. IsNumber number
        → (bytes : List ℕ) × (s : WholeSegment) × IsSegment (number, bytes) s
        × (found ≡ places_of_segment s)) }
    ensures frame { OnlyReads D.Disk disk.old disk.new }
    ensures width { ReadsNoWider D.Disk WIDEST disk.old disk.new }
    ensures cause { HasScanCause (D.faults disk.old) (D.faults disk.new) result }
{
    let mut walk = Walk::begin(alloc, disk, number)?;
    while let Some(place) = walk.head(alloc, disk)? {
        let _records = read_chunk(alloc, disk, number, &place)?;
        walk.pass(place)?;
    }
    Ok(walk.into_segment())
}

/// Reads the heads of a segment's chunks, from its front to its first closed chunk gate, and none of their records:
/// it gives the segment's number, its LSNs, its length and the places of its chunks. The file has to be there.
/// Nothing on the disk changes.
///
/// It makes the tests of `scan`, in their order, but for the last one, which looks at records; the fault is what is
/// wrong first. `Disk` and `Memory` may come instead. A file of any length is read in pieces of at most 23 bytes.
pub fn heads<D: Disk>(alloc: Global, disk: &mut D, number: u64) -> Result<Segment, ScanFault>
    requires there { IsThere D.Disk disk.old number }

    // What is told are the places of the chunks by their heads.
    ensures found { IfOk result (λ found. IsTrue (D.tells disk.old)
        → HasHeads (number, bytes_at (D.reads disk.old) number) found) }
    ensures bytes { IfOk result (λ found. IsTrue (D.tells disk.old)
        → HasHeaderBytes (number, bytes_at (D.reads disk.old) number)) }

    // They stand one behind the other also where the disk doesn't tell the file.
    ensures meant { IfOk result (λ found. (found.number ≡ number) × IsInLine found) }

    // If the file has these heads, they are told, unless the disk or memory fails.
    ensures only { IsTrue (D.tells disk.old) → (found : Segment)
        → HasHeads (number, bytes_at (D.reads disk.old) number) found
        → GivesScanned (λ told. told) result (Ok found) }

    // Which fault it is: that which is first.
    ensures why { IsTrue (D.tells disk.old)
        → IfErr result (IsCauseInHeads (number, bytes_at (D.reads disk.old) number)) }
    ensures refused { IsTrue (D.tells disk.old) → (fault : ScanFault)
        → IsRefusedByHeads (number, bytes_at (D.reads disk.old) number) fault
        → GivesScanned (λ told. told) result (Err fault) }

    ensures frame { OnlyReads D.Disk disk.old disk.new }
    ensures width { ReadsNoWider D.Disk HEADER_LENGTH disk.old disk.new }
    ensures cause { HasScanCause (D.faults disk.old) (D.faults disk.new) result }
{
    follow_heads(alloc, disk, number)
}

// The places of a segment's chunks by their heads.
fn follow_heads<D: Disk>(alloc: Global, disk: &mut D, number: u64) -> Result<Segment, ScanFault>
    requires there { IsThere D.Disk disk.old number }
    ensures told { IsTrue (D.tells disk.old)
        → TellsHeads (number, bytes_at (D.reads disk.old) number) result }
    ensures bytes { IfOk result (λ found. IsTrue (D.tells disk.old)
        → HasHeaderBytes (number, bytes_at (D.reads disk.old) number)) }
    ensures meant { IfOk result (λ found. (found.number ≡ number) × IsInLine found) }
    ensures frame { OnlyReads D.Disk disk.old disk.new }
    ensures width { ReadsNoWider D.Disk HEADER_LENGTH disk.old disk.new }
    ensures cause { HasScanCause (D.faults disk.old) (D.faults disk.new) result }
{
    let mut walk = Walk::begin(alloc, disk, number)?;
    while let Some(place) = walk.head(alloc, disk)? {
        walk.pass(place)?;
    }
    Ok(walk.into_segment())
}

/// Reads the records of a chunk, whose place a scan has told. The file has to be there. Nothing on the disk changes.
///
/// `BadChunk` with the place's offset is told exactly where the file doesn't have this chunk there, with an open gate,
/// that first LSN, that count and that length, records that may stand there, and another gate behind it. `Disk` and
/// `Memory` may come instead.
pub fn read_chunk<D: Disk>(
    alloc: Global,
    disk: &mut D,
    number: u64,
    place: &ChunkPlace,
) -> Result<Vec<Record>, ScanFault>
    requires there { IsThere D.Disk disk.old number }

    // What is read is the chunk that stands there.
    ensures found { IfOk result (λ records. IsTrue (D.tells disk.old)
        → IsChunk place.now (drop place.now.offset (bytes_at (D.reads disk.old) number))
        records.items) }

    // The records are such a chunk also where the disk doesn't tell the file.
    ensures meant { IfOk result (λ records.
        (text : List ℕ) × IsChunk place.now text records.items) }

    // If it stands there, it is read, unless the disk or memory fails.
    ensures only { IsTrue (D.tells disk.old) → (rs : List Record)
        → IsChunk place.now (drop place.now.offset (bytes_at (D.reads disk.old) number)) rs
        → GivesScanned (λ records. records.items) result (Ok rs) }

    // Else it is said that it doesn't stand there, and nothing more.
    ensures why { IfErr result (IsFaultAt place.now) }

    ensures frame { OnlyReads D.Disk disk.old disk.new }
    ensures width { ReadsNoWider D.Disk WIDEST disk.old disk.new }
    ensures cause { HasScanCause (D.faults disk.old) (D.faults disk.new) result }
{
    if place.body as usize > BODY_LIMIT {
        return Err(ScanFault::BadChunk {
            offset: place.offset,
        });
    }
    let room = CHUNK_FRONT as u64 + 1 + u64::from(place.body);
    let text = disk.read(alloc, number, place.offset, room)?;
    chunk_in(alloc, text.as_slice(), place)
}

// The records of the chunk at the front of the bytes, which is the one that the place tells.
fn chunk_in(alloc: Global, text: &[u8], place: &ChunkPlace) -> Result<Vec<Record>, ScanFault>
    ensures found { IfOk result (λ records. IsChunk place.now text.now records.items) }
    ensures why { IfErr result (RefusesPlace place.now text.now) }
{
    if !has_head(text, place) {
        return Err(ScanFault::BadChunk {
            offset: place.offset,
        });
    }
    let body = &text[CHUNK_FRONT..CHUNK_FRONT + place.body as usize];
    records_of(alloc, body, place)
}

// Whether an open gate and the head of the chunk that the place tells stand at the front of the bytes.
fn has_head(text: &[u8], place: &ChunkPlace) -> bool
    ensures told { IsTrue result ↔ ((slice_index text.now 0 ≡ 1)
        × (head_of place.now.offset place.now.first (drop 1 text.now) ≡ Ok place.now)) }
    ensures there { OnTrue result (CHUNK_FRONT + place.now.body < length text.now) }
    ensures within { OnTrue result (place.now.first + place.now.count ≤ NUMBER_LIMIT) }
{
    match text {
        [1, behind @ ..] => match head_at(behind, behind.len() as u64, place.offset, place.first) {
            Ok(told) => told == *place,
            Err(_) => false,
        },
        _ => false,
    }
}
