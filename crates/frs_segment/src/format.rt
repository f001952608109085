//! The fixed parts of a segment file: its header and the head of a chunk, how they are spelled and how they are read,
//! and the lengths and limits of the format.
ghost use Rattle.std.specs.Prelude.{◌≡◌, ◌+◌, ◌<◌, ◌≤◌, ℕ, List, All, IfOk, IfErr, length, take, slice_range, codes};
ghost use Rattle.std.specs.Int.{w32, w64};
ghost use Rattle.std.specs.Str.{bytes_eq};
ghost use Rattle.frs_segment.specs.Faults.{IsOfText};
ghost use Rattle.frs_segment.specs.Front.{closed_header, chunk_head};
ghost use Rattle.frs_segment.specs.Scanning.{field_at, header_of, head_of, head_told_by};

use crate::fault::ScanFault;
use crate::layout::ChunkPlace;
use frs_types::NUMBER_LIMIT;

/// The bytes of a segment's header, with its gate and the gate of its first chunk. A shorter file is half-made.
pub const HEADER_LENGTH: usize = 23;

/// The bytes of a chunk's head, between its gate and its body.
pub const CHUNK_HEAD: usize = 16;

/// The bytes of a chunk in front of its body: its gate and its head.
pub const CHUNK_FRONT: usize = 17;

/// The most records of a chunk.
pub const MOST_RECORDS: u32 = 256;

/// The most bytes of a chunk's body: 1 MiB.
pub const BODY_LIMIT: usize = 1 << 20;

/// The length of a segment file, in bytes, from which on no chunk is added: 1 MiB.
pub const FILE_LIMIT: u64 = 1 << 20;

/// The most bytes that reading a segment asks the disk for at once: the longest body, the gate and the head before
/// it, and the gate behind it.
pub const WIDEST: u64 = 1_048_594;

// The bytes of a segment behind its gate, up to and with the closed gate of its first chunk.
pub(crate) fn header(number: u64, first: u64) -> [u8; HEADER_LENGTH - 1]
    ensures { result ≡ closed_header number first }
{
    let [n0, n1, n2, n3, n4, n5, n6, n7] = number.to_be_bytes();
    let [f0, f1, f2, f3, f4, f5, f6, f7] = first.to_be_bytes();
    [
        b'F', b'R', b'S', b'S', 1, n0, n1, n2, n3, n4, n5, n6, n7, f0, f1, f2, f3, f4, f5, f6, f7,
        0,
    ]
}

/// The bytes of a chunk's head, which stand between its gate and its body: the body's length, the number of its records
/// and the LSN of the first of them, each from the highest byte on.
pub fn chunk_head(body: u32, count: u32, first: u64) -> [u8; CHUNK_HEAD]
    ensures { result ≡ chunk_head body count first }
{
    let [b0, b1, b2, b3] = body.to_be_bytes();
    let [c0, c1, c2, c3] = count.to_be_bytes();
    let [f0, f1, f2, f3, f4, f5, f6, f7] = first.to_be_bytes();
    [
        b0, b1, b2, b3, c0, c1, c2, c3, f0, f1, f2, f3, f4, f5, f6, f7,
    ]
}

// The number of four bytes at an offset.
fn u32_at(bytes: &[u8], at: usize) -> u32
    requires { at + 4 ≤ length bytes.now }
    ensures { result ≡ field_at w32 at bytes.now }
{
    let field = &bytes[at..at + 4];
    u32::from_be_bytes([field[0], field[1], field[2], field[3]])
}

// The number of eight bytes at an offset.
fn u64_at(bytes: &[u8], at: usize) -> u64
    requires { at + 8 ≤ length bytes.now }
    ensures { result ≡ field_at w64 at bytes.now }
{
    let field = &bytes[at..at + 8];
    u64::from_be_bytes([
        field[0], field[1], field[2], field[3], field[4], field[5], field[6], field[7],
    ])
}

// Whether the four letters stand behind the gate of a file.
fn has_letters(bytes: &[u8]) -> bool
    requires { 5 ≤ length bytes.now }
    ensures { result ≡ bytes_eq (slice_range bytes.now 1 5) (codes "FRSS") }
{
    &bytes[1..5] == b"FRSS".as_slice()
}

// The first LSN that the header of a file names, or what is wrong with it first.
#[tactic(auto, unfolding(crate::specs::Scanning::header_of))]
pub(crate) fn header_at(bytes: &[u8], number: u64) -> Result<u64, ScanFault>
    ensures told { result ≡ header_of (number, bytes.now) }
    ensures some { IfOk result (λ first. 1 ≤ first) }
    ensures below { IfOk result (λ first. first < NUMBER_LIMIT) }
    ensures of_text { IfErr result IsOfText }
    ensures bytes { All (λ b. b < 256) bytes.now }
{
    if bytes.len() < HEADER_LENGTH || bytes[0] != 1 {
        return Err(ScanFault::HalfMade);
    }
    if !has_letters(bytes) {
        return Err(ScanFault::BadHeader { offset: 1 });
    }
    if bytes[5] != 1 {
        return Err(ScanFault::BadHeader { offset: 5 });
    }
    if u64_at(bytes, 6) != number {
        return Err(ScanFault::BadHeader { offset: 6 });
    }
    let first = u64_at(bytes, 14);
    if first == 0 {
        return Err(ScanFault::BadHeader { offset: 14 });
    }
    if first >= NUMBER_LIMIT {
        return Err(ScanFault::NumberLimit { lsn: first });
    }
    Ok(first)
}

// What the three fields of a chunk's head tell, whose open gate stands at the offset and whose first LSN should be the
// next one; or what is wrong with it first. The file has so many bytes behind that gate.
fn told_head(
    bytes_behind: u64,
    offset: u64,
    next: u64,
    body: u32,
    count: u32,
    first: u64,
) -> Result<ChunkPlace, ScanFault>
    ensures told { result ≡ head_told_by bytes_behind offset next body count first }
    ensures there { IfOk result (λ place. CHUNK_HEAD + place.body < bytes_behind) }
    ensures offset { IfOk result (λ place. place.offset ≡ offset) }
    ensures first { IfOk result (λ place. place.first ≡ next) }
    ensures within { IfOk result (λ place. next + place.count ≤ NUMBER_LIMIT) }
    ensures of_text { IfErr result IsOfText }
{
    if bytes_behind <= CHUNK_HEAD as u64 {
        return Err(ScanFault::BadChunk { offset });
    }
    if bytes_behind <= CHUNK_HEAD as u64 + u64::from(body) {
        return Err(ScanFault::BadChunk { offset });
    }
    if count == 0 || count > MOST_RECORDS {
        return Err(ScanFault::BadChunk { offset });
    }
    if body == 0 || body as usize > BODY_LIMIT {
        return Err(ScanFault::BadChunk { offset });
    }
    if first != next {
        return Err(ScanFault::BadChunk { offset });
    }
    if next > NUMBER_LIMIT - u64::from(count) {
        return Err(ScanFault::NumberLimit { lsn: NUMBER_LIMIT });
    }
    Ok(ChunkPlace {
        offset,
        first: next,
        count,
        body,
    })
}

// What the head of a chunk tells, whose open gate stands at the offset and whose first LSN should be the next one; or
// what is wrong with it first. `front` begins with what the file holds behind that gate, as far as a head goes, and the
// file has so many bytes behind it.
pub(crate) fn head_at(
    front: &[u8],
    bytes_behind: u64,
    offset: u64,
    next: u64,
) -> Result<ChunkPlace, ScanFault>
    ensures told { (behind : List ℕ) → take CHUNK_HEAD front.now ≡ take CHUNK_HEAD behind
        → bytes_behind ≡ length behind → result ≡ head_of offset next behind }
    ensures there { IfOk result (λ place. CHUNK_HEAD + place.body < bytes_behind) }
    ensures offset { IfOk result (λ place. place.offset ≡ offset) }
    ensures first { IfOk result (λ place. place.first ≡ next) }
    ensures within { IfOk result (λ place. next + place.count ≤ NUMBER_LIMIT) }
    ensures of_text { IfErr result IsOfText }
    ensures bytes { All (λ b. b < 256) front.now }
{
    if front.len() < CHUNK_HEAD {
        return Err(ScanFault::BadChunk { offset });
    }
    told_head(
        bytes_behind,
        offset,
        next,
        u32_at(front, 0),
        u32_at(front, 4),
        u64_at(front, 8),
    )
}
