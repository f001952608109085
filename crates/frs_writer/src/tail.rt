// The end of the newest segment, and the chunk that is written there.
ghost use Rattle.std.specs.Prelude.{◌≡◌, ◌⊎◌, ◌+◌, ◌-◌, ◌<◌, ◌≤◌, ◌^◌, ◌++◌, ℕ, List, [], ◌∷◌, Some, Ok, length, take, IsSome, IsTrue, IsOk, IfOk, IfSome, OnOk, OnErr, vec_len, vec_capacity};
ghost use Rattle.std.specs.FinMap.{get};
ghost use Rattle.frs_disk.specs.Disk.{bytes_at, HasCause};
ghost use Rattle.frs_disk.specs.Frames.{IsSynced, Within, ChangesOneFile};
ghost use Rattle.frs_writer.specs.Gates.{IsAtGate, IsShut};
ghost use Rattle.frs_writer.specs.Groups.{lowest_of_last, GathersGroup, HasGroup, PutsGroup};
ghost use Rattle.frs_writer.specs.Chunk.{IsOpenChunk};
ghost use Rattle.frs_writer.specs.Places.{HasLength};

use crate::chunk::Chunk;
use crate::group::gather;
use frs_disk::{Disk, Fault};
use frs_frame::Framed;
use frs_segment::{CHUNK_FRONT, ChunkPlace, MOST_RECORDS, Segment, open_gate, put_body};
use frs_slots::Taker;
use frs_types::{NUMBER_LIMIT, NoMemory, Sequence};
use std::alloc::Global;
use std::mem;

/// Takes the places of its chunks out of a segment, with room for one more. Where there is no memory for it they stay.
/// A segment without a chunk can be given the room.
pub(crate) fn take_places(
    alloc: Global,
    segment: &mut Segment,
    room: Option<Vec<ChunkPlace>>,
) -> Result<Vec<ChunkPlace>, NoMemory>
    requires { IfSome room (λ places. (places.items ≡ []) × (vec_len places < vec_capacity places)
        × (segment.old.chunks ≡ [])) }
    ensures taken { IfOk result (λ places. (places.items ≡ segment.old.chunks)
        × (vec_len places < vec_capacity places)) }
    ensures rest { OnOk result (segment.new ≡ record segment.old { chunks = [] }) }
    ensures given { IsSome room → IsOk result }
    ensures refused { OnErr result (segment.new ≡ segment.old) }
{
    if let Some(places) = room {
        return Ok(places);
    }
    let none = Sequence::of(Vec::new(alloc));
    let mut places = mem::replace(&mut segment.chunks, none).into_vec();
    if places.reserve(1).is_err() {
        segment.chunks = Sequence::of(places);
        return Err(NoMemory);
    }
    Ok(places)
}

// Writes the bytes of a chunk behind the closed gate at the end of a segment, and opens the gate.
fn append_chunk<D: Disk>(disk: &mut D, number: u64, gate_at: u64, body: &[u8]) -> Result<(), Fault>
    requires gate { IsTrue (D.tells disk.old) → IsAtGate gate_at (get (D.reads disk.old) number) }
    requires synced { IsTrue (D.tells disk.old) → IsSynced D.Disk disk.old number }
    requires fits { gate_at + 1 < 2 ^ 64 }

    ensures written { OnOk result (IsTrue (D.tells disk.old)
        → get (D.reads disk.new) number
        ≡ Some (take gate_at (bytes_at (D.reads disk.old) number) ++ 1 ∷ body.now)) }
    ensures durable { OnOk result (IsSynced D.Disk disk.new number) }

    // A crash in the call leaves the bytes up to the gate and a closed gate, or the whole chunk.
    ensures images { IsTrue (D.tells disk.old) → Within D.Disk disk.old disk.new
        (λ c. IsShut (take gate_at (bytes_at (D.reads disk.old) number)) (get c number)
        ⊎ (get c number
        ≡ Some (take gate_at (bytes_at (D.reads disk.old) number) ++ 1 ∷ body.now))) }
    ensures frame { ChangesOneFile D.Disk number disk.old disk.new }
    ensures cause { HasCause (D.faults disk.old) (D.faults disk.new) result }
{
    put_body(disk, number, gate_at, body)?;
    open_gate(disk, number, gate_at)
}

// Writes the chunk behind the segment, which knows of its chunks by these places.
fn put_chunk<D: Disk>(
    disk: &mut D,
    segment: &mut Segment,
    places: Vec<ChunkPlace>,
    chunk: &mut Chunk,
) -> Result<u32, Fault>
    requires room { vec_len places < vec_capacity places }
    requires gate { IsTrue (D.tells disk.old)
        → IsAtGate (segment.old.length - 1) (get (D.reads disk.old) segment.old.number) }
    requires synced { IsTrue (D.tells disk.old) → IsSynced D.Disk disk.old segment.old.number }
    requires long { HasLength segment.old × (segment.old.«end» ≤ NUMBER_LIMIT) }
    requires fits { IsOpenChunk chunk.old × (chunk.old.count ≤ MOST_RECORDS) }
    ensures put { (group : List (List ℕ)) → HasGroup chunk.old group
        → PutsGroup D.Disk disk.old disk.new
        (record segment.old { chunks = places.items }) segment.new group result }
    ensures chunk { (chunk.new.count ≡ chunk.old.count) × (chunk.new.lowest ≡ chunk.old.lowest) }
    ensures cause { HasCause (D.faults disk.old) (D.faults disk.new) result }
{
    let mut places = places;
    let place = ChunkPlace {
        offset: segment.length - 1,
        first: segment.end,
        count: chunk.count(),
        body: chunk.body_len(),
    };
    chunk.seal(place.first);
    match append_chunk(disk, segment.number, place.offset, chunk.bytes()) {
        Ok(()) => {
            places.push_reserved(place);
            segment.end += u64::from(place.count);
            segment.length += CHUNK_FRONT as u64 + u64::from(place.body);
            segment.chunks = Sequence::of(places);
            Ok(place.count)
        }
        Err(fault) => {
            segment.chunks = Sequence::of(places);
            Err(fault)
        }
    }
}

/// Writes the next records that are known as one chunk behind the segment, which knows of its chunks by these places.
/// Where there are none it writes nothing.
pub(crate) fn put_group<D: Disk>(
    disk: &mut D,
    segment: &mut Segment,
    places: Vec<ChunkPlace>,
    taker: &mut Taker,
    kept: &mut Option<Framed>,
    chunk: &mut Chunk,
    limit: u32,
) -> Result<u32, Fault>
    requires limit { (1 ≤ limit) × (limit ≤ MOST_RECORDS) }
    requires room { vec_len places < vec_capacity places }
    requires gate { IsTrue (D.tells disk.old)
        → IsAtGate (segment.old.length - 1) (get (D.reads disk.old) segment.old.number) }
    requires synced { IsTrue (D.tells disk.old) → IsSynced D.Disk disk.old segment.old.number }
    requires long { HasLength segment.old × (segment.old.«end» ≤ NUMBER_LIMIT) }
    ensures put { (group : List (List ℕ))
        × GathersGroup limit taker.old taker.new kept.old kept.new group
        × (length group ≡ 0 → (result ≡ Ok 0) × (disk.new ≡ disk.old)
        × (segment.new ≡ record segment.old { chunks = places.items }))
        × (1 ≤ length group → PutsGroup D.Disk disk.old disk.new
        (record segment.old { chunks = places.items }) segment.new group result)
        × (chunk.new.count ≡ length group) × (chunk.new.lowest ≡ lowest_of_last 0 group) }
    ensures cause { HasCause (D.faults disk.old) (D.faults disk.new) result }
{
    gather(taker, kept, chunk, limit);
    if chunk.count() == 0 {
        segment.chunks = Sequence::of(places);
        return Ok(0);
    }
    put_chunk(disk, segment, places, chunk)
}
