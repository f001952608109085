//! How a segment file is followed from one chunk gate to the next, by the heads behind the open gates.
ghost use Rattle.std.specs.Prelude.{◌≡◌, ◌+◌, ◌-◌, ◌<◌, ◌≤◌, ◌^◌, List, ℕ, length, drop, take, IsTrue, IfOk, IfErr, OnOk};
ghost use Rattle.frs_disk.specs.Disk.{bytes_at};
ghost use Rattle.frs_disk.specs.Frames.{IsThere, OnlyReads, ReadsNoWider};
ghost use Rattle.frs_segment.specs.declared.layout.Segment.{Segment};
ghost use Rattle.frs_segment.specs.Faults.{HasScanCause, IsOfText};
ghost use Rattle.frs_segment.specs.Heads.{TellsHeader, TellsHead, IsNext, IsNextIfAny, IsBegun, GoesPast};

use crate::fault::ScanFault;
use crate::format::{CHUNK_FRONT, HEADER_LENGTH, head_at, header_at};
use crate::layout::{ChunkPlace, Segment};
use frs_disk::Disk;
use frs_types::{NoMemory, Sequence};
use std::alloc::Global;

// How far the chunks of a file were followed.
#[derive(Drop)]
pub(crate) struct Walk {
    number: u64,
    // The first LSN in the header.
    first: u64,
    // How many bytes the file has.
    file_length: u64,
    // The offset of the gate behind the chunks.
    gate: u64,
    // The LSN after the chunks.
    next: u64,
    places: Vec<ChunkPlace>,
}

impl Walk {
    // At the gate of a file's first chunk, once its header was read.
    pub(crate) fn begin<D: Disk>(
        alloc: Global,
        disk: &mut D,
        number: u64,
    ) -> Result<Walk, ScanFault>
        requires there { IsThere D.Disk disk.old number }
        ensures begun { IfOk result (IsBegun number) }
        ensures told { IsTrue (D.tells disk.old)
            → TellsHeader (number, bytes_at (D.reads disk.old) number) result }
        ensures frame { OnlyReads D.Disk disk.old disk.new }
        ensures width { ReadsNoWider D.Disk HEADER_LENGTH disk.old disk.new }
        ensures cause { HasScanCause (D.faults disk.old) (D.faults disk.new) result }
    {
        let file_length = disk.length(number)?;
        let front = disk.read(alloc, number, 0, HEADER_LENGTH as u64)?;
        let first = header_at(front.as_slice(), number)?;
        Ok(Walk {
            number,
            first,
            file_length,
            gate: HEADER_LENGTH as u64 - 1,
            next: first,
            places: Vec::new(alloc),
        })
    }

    // The chunk behind the gate, by its head; none where the gate isn't open.
    pub(crate) fn head<D: Disk>(
        &self,
        alloc: Global,
        disk: &mut D,
    ) -> Result<Option<ChunkPlace>, ScanFault>
        requires there { IsThere D.Disk disk.old self.now.number }
        requires small { self.now.gate + 1 < 2 ^ 64 }
        ensures told { IsTrue (D.tells disk.old)
            → self.now.file_length ≡ length (bytes_at (D.reads disk.old) self.now.number)
            → TellsHead self.now.gate self.now.next
            (bytes_at (D.reads disk.old) self.now.number) result }
        ensures next { IfOk result
            (IsNextIfAny self.now.file_length self.now.gate self.now.next) }
        ensures frame { OnlyReads D.Disk disk.old disk.new }
        ensures width { ReadsNoWider D.Disk CHUNK_FRONT disk.old disk.new }
        ensures cause { HasScanCause (D.faults disk.old) (D.faults disk.new) result }
    {
        let front = disk.read(alloc, self.number, self.gate, CHUNK_FRONT as u64)?;
        head_behind(front.as_slice(), self.file_length, self.gate, self.next)
    }

    // Goes on to the gate behind a chunk.
    pub(crate) fn pass(&mut self, place: ChunkPlace) -> Result<(), NoMemory>
        requires { IsNext self.old.file_length self.old.gate self.old.next place }
        ensures { OnOk result (GoesPast place self.old self.new) }
    {
        self.places.push(place)?;
        self.gate += CHUNK_FRONT as u64 + u64::from(place.body);
        self.next += u64::from(place.count);
        Ok(())
    }

    // The segment that ends here.
    pub(crate) fn into_segment(self) -> Segment
        requires { self.gate + 1 < 2 ^ 64 }
        ensures { result ≡ record {
          number = self.number;
          first = self.first;
          «end» = self.next;
          length = self.gate + 1;
          chunks = self.places.items;
        } }
    {
        let Walk {
            number,
            first,
            gate,
            next,
            places,
            ..
        } = self;
        Segment {
            number,
            first,
            end: next,
            length: gate + 1,
            chunks: Sequence::of(places),
        }
    }
}

// The chunk behind the gate at an offset of a file, whose first LSN should be the next one; none where the gate isn't
// open. `front` is what the file holds from the gate on, as far as a head goes.
fn head_behind(
    front: &[u8],
    file_length: u64,
    gate: u64,
    next: u64,
) -> Result<Option<ChunkPlace>, ScanFault>
    requires { gate + 1 < 2 ^ 64 }
    ensures told { (text : List ℕ) → front.now ≡ take CHUNK_FRONT (drop gate text)
        → file_length ≡ length text → TellsHead gate next text result }
    ensures next { IfOk result (IsNextIfAny file_length gate next) }
    ensures of_text { IfErr result IsOfText }
{
    if front.is_empty() || front[0] != 1 {
        return Ok(None);
    }
    let behind = file_length.saturating_sub(gate + 1);
    let place = head_at(&front[1..], behind, gate, next)?;
    Ok(Some(place))
}
