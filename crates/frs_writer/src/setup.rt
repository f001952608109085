// What the opening of a writer takes memory for, and what it does to the disk.
ghost use Rattle.std.specs.Prelude.{◌≡◌, ◌⊎◌, ◌+◌, ◌<◌, ◌≤◌, ◌++◌, ℕ, None, [], ◌∷◌, IsSome, IsTrue, Contains, All, replicate, IfOk, OnOk};
ghost use Rattle.std.specs.List.Sorted.{IsStrictlyIncreasing};
ghost use Rattle.std.specs.FinMap.{get};
ghost use Rattle.frs_disk.specs.Disk.{IsNumber, HasCause};
ghost use Rattle.frs_disk.specs.Frames.{CanBeMade, IsSynced, Within, GoesOn};
ghost use Rattle.frs_segment.specs.Scanning.{places_of_segment};
ghost use Rattle.frs_writer.specs.LogImages.{new_segment};
ghost use Rattle.frs_writer.specs.Setup.{MissesSome, MissesSomeBeside, IsMissingSome, IsOpening, OpensNext};

use crate::chunk::Chunk;
use frs_disk::{Disk, Fault};
use frs_segment::{ChunkPlace, Found, HEADER_LENGTH, Segment, open_segment};
use frs_types::{NoMemory, Sequence};
use std::alloc::Global;

/// What a writer has in memory besides its records.
#[derive(Drop)]
pub(crate) struct Buffers {
    /// The chunk that records are gathered in.
    pub(crate) chunk: Chunk,
    /// The segments that were found, and the next one.
    pub(crate) segments: Vec<Segment>,
    /// For each client an LSN, 0 at first.
    pub(crate) noted: Vec<u64>,
    /// For each client none.
    pub(crate) pins: Vec<Option<u64>>,
    /// The older files that were found.
    pub(crate) older: Vec<u64>,
}

impl Buffers {
    /// The buffers for the segments that were found, the next segment and so many clients.
    pub(crate) fn new(
        alloc: Global,
        found: &Found,
        number: u64,
        clients: u32,
    ) -> Result<Buffers, NoMemory>
        ensures { IfOk result (λ buffers. (buffers.segments.items
            ≡ found.now.segments ++ places_of_segment (new_segment number found.now.next) ∷ [])
            × (buffers.noted.items ≡ replicate clients 0)
            × (buffers.pins.items ≡ replicate clients None)
            × (buffers.older.items ≡ found.now.older)) }
    {
        let mut segments = copies(alloc, found.segments.items())?;
        segments.push(Segment {
            number,
            first: found.next,
            end: found.next,
            length: HEADER_LENGTH as u64,
            chunks: Sequence::of(Vec::new(alloc)),
        })?;
        let mut noted = Vec::new(alloc);
        noted.resize(clients as usize, 0)?;
        let mut pins = Vec::new(alloc);
        pins.resize(clients as usize, None)?;
        let mut older = Vec::new(alloc);
        older.extend_from_slice(found.older.items())?;
        Ok(Buffers {
            chunk: Chunk::new(alloc)?,
            segments,
            noted,
            pins,
            older,
        })
    }
}

// The same segments.
fn copies(alloc: Global, segments: &[Segment]) -> Result<Vec<Segment>, NoMemory>
    ensures { IfOk result (λ copies. copies.items ≡ segments.now) }
{
    let mut copies = Vec::with_capacity(alloc, segments.len() + 1)?;
    for segment in segments {
        copies.push(copy(alloc, segment)?)?;
    }
    Ok(copies)
}

// The same segment.
fn copy(alloc: Global, segment: &Segment) -> Result<Segment, NoMemory>
    ensures { IfOk result (λ copy. copy ≡ segment.now) }
{
    let mut places: Vec<ChunkPlace> = Vec::new(alloc);
    places.extend_from_slice(segment.chunks.items())?;
    Ok(Segment {
        number: segment.number,
        first: segment.first,
        end: segment.end,
        length: segment.length,
        chunks: Sequence::of(places),
    })
}

// Removes these files, in this order.
fn remove_all<D: Disk>(disk: &mut D, numbers: &[u64]) -> Result<(), Fault>
    requires there { IsTrue (D.tells disk.old)
        → All (λ n. IsSome (get (D.reads disk.old) n)) numbers.now }
    requires rising { IsTrue (D.tells disk.old) → IsStrictlyIncreasing numbers.now }

    ensures images { Within D.Disk disk.old disk.new
        (IsMissingSome numbers.now (D.may_leave disk.old)) }
    ensures removed { IsTrue (D.tells disk.old)
        → MissesSome numbers.now (D.reads disk.old) (D.reads disk.new) }
    ensures gone { OnOk result (IsTrue (D.tells disk.old)
        → All (λ n. get (D.reads disk.new) n ≡ None) numbers.now) }
    ensures pending { (n : ℕ) → D.removing disk.new n → D.removing disk.old n
        ⊎ Contains numbers.now n }
    ensures frame { GoesOn D.Disk disk.old disk.new }
    ensures cause { HasCause (D.faults disk.old) (D.faults disk.new) result }
{
    for &number in numbers {
        disk.remove(number)?;
    }
    Ok(())
}

/// Removes the half-made files, and makes the next segment.
pub(crate) fn open_next<D: Disk>(
    disk: &mut D,
    half: &[u64],
    number: u64,
    first: u64,
) -> Result<(), Fault>
    requires half { IsTrue (D.tells disk.old) → IsStrictlyIncreasing half.now
        × All (λ n. IsSome (get (D.reads disk.old) n) × (n < number)) half.now }
    requires in_range { IsNumber number × IsNumber first }
    requires new { CanBeMade D.Disk disk.old number }

    ensures images { IsTrue (D.tells disk.old)
        → Within D.Disk disk.old disk.new (IsOpening half.now number first (D.may_leave disk.old)) }
    ensures made { OnOk result (IsTrue (D.tells disk.old)
        → OpensNext half.now number first (D.reads disk.old) (D.reads disk.new)) }
    ensures read { OnOk result (IsTrue (D.tells disk.old)
        → IsOpening half.now number first (λ c. c ≡ D.reads disk.old) (D.reads disk.new)) }
    ensures durable { OnOk result (IsSynced D.Disk disk.new number) }
    ensures others { IsTrue (D.tells disk.old) → (q : ℕ) → number < q
        → get (D.reads disk.old) q ≡ None → get (D.reads disk.new) q ≡ None }
    ensures beside { IsTrue (D.tells disk.old)
        → MissesSomeBeside number half.now (D.reads disk.old) (D.reads disk.new) }
    ensures pending { (n : ℕ) → D.removing disk.new n → D.removing disk.old n
        ⊎ Contains half.now n }
    ensures frame { GoesOn D.Disk disk.old disk.new }
    ensures cause { HasCause (D.faults disk.old) (D.faults disk.new) result }
{
    remove_all(disk, half)?;
    open_segment(disk, number, first)
}
