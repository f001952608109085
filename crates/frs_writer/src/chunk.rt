// The bytes of a chunk, while its records are gathered.
ghost use Rattle.std.specs.Prelude.{◌≡◌, ◌+◌, ◌-◌, ◌<◌, ◌≤◌, ◌++◌, ◌↔◌, [], ◌∷◌, length, drop, replicate, nat_lt, if◌then◌else◌, IsTrue};
ghost use Rattle.frs_segment.specs.Front.{chunk_head};
ghost use Rattle.frs_writer.specs.Chunk.{IsOpenChunk};
ghost use Rattle.frs_writer.specs.Groups.{lowest_in};

use crate::lowest::lowest_in;
use frs_frame::RECORD_HEAD;
use frs_segment::{BODY_LIMIT, CHUNK_HEAD, MOST_RECORDS, chunk_head};
use frs_types::NoMemory;
use std::alloc::Global;
use std::marker::Model;

/// The bytes of a chunk behind its gate: those of its head, and the records. There is always room for 1 MiB of records
/// and for the closed gate of the next chunk.
/// Contracts see it as the number of records, the bytes, and the lowest LSN that the last record names.
#[derive(Drop)]
pub(crate) struct Chunk {
    bytes: Vec<u8>,
    count: u32,
    lowest: u64,
}

impl Model for Chunk {
    ghost use Rattle.frs_writer.specs.Chunk.{ChunkView};

    ghost Value = { ChunkView };

    ghost use Rattle.std.specs.Prelude.{◌≤◌, ◌+◌, vec_capacity};
    ghost use Rattle.frs_segment.specs.declared.format.TheConstants.{BODY_LIMIT, CHUNK_HEAD};

    ghost view = { λ c. record { count = c.count; bytes = c.bytes.items; lowest = c.lowest } };

    ghost invariant = { λ c. CHUNK_HEAD + BODY_LIMIT + 1 ≤ vec_capacity c.bytes };
}

impl Chunk {
    /// A chunk without a record.
    pub(crate) fn new(alloc: Global) -> Result<Chunk, NoMemory> {
        let bytes = Vec::with_capacity(alloc, CHUNK_HEAD + BODY_LIMIT + 1)?;
        Ok(Chunk {
            bytes,
            count: 0,
            lowest: 0,
        })
    }

    /// How many records it has.
    pub(crate) fn count(&self) -> u32
        ensures { result ≡ self.now.count }
    {
        self.count
    }

    /// How many bytes its records have.
    pub(crate) fn body_len(&self) -> u32
        requires { IsOpenChunk self.now }
        ensures { result ≡ length self.now.bytes - CHUNK_HEAD }
    {
        (self.bytes.len() - CHUNK_HEAD) as u32
    }

    /// The lowest LSN that its last record names, or this where it has no record.
    pub(crate) fn lowest_or(&self, other: u64) -> u64
        ensures { result ≡ (if nat_lt 0 self.now.count then self.now.lowest else other) }
    {
        if self.count > 0 { self.lowest } else { other }
    }

    /// Its bytes.
    pub(crate) fn bytes(&self) -> &[u8]
        ensures { result.now ≡ self.now.bytes }
    {
        self.bytes.as_slice()
    }

    /// Takes all records out.
    pub(crate) fn clear(&mut self)
        ensures { self.new ≡ record { count = 0; bytes = replicate CHUNK_HEAD 0; lowest = 0 } }
    {
        self.count = 0;
        self.lowest = 0;
        self.bytes.clear();
        // There is room, so it doesn't fail.
        let _ = self.bytes.extend_from_slice(&[0; CHUNK_HEAD]);
    }

    /// Whether so many bytes more are not too many.
    pub(crate) fn fits(&self, len: usize) -> bool
        requires { IsOpenChunk self.now }
        ensures { IsTrue result ↔ (length self.now.bytes + len ≤ CHUNK_HEAD + BODY_LIMIT) }
    {
        len <= CHUNK_HEAD + BODY_LIMIT - self.bytes.len()
    }

    /// Adds a record that fits.
    pub(crate) fn add(&mut self, bytes: &[u8])
        requires fits { length self.old.bytes + length bytes.now ≤ CHUNK_HEAD + BODY_LIMIT }
        requires count { self.old.count < MOST_RECORDS }
        requires head { RECORD_HEAD ≤ length bytes.now }
        ensures { self.new ≡ record {
          count = self.old.count + 1;
          bytes = self.old.bytes ++ bytes.now;
          lowest = lowest_in bytes.now;
        } }
    {
        // There is room, so it doesn't fail.
        let _ = self.bytes.extend_from_slice(bytes);
        self.count += 1;
        self.lowest = lowest_in(bytes);
    }

    /// Writes the head, and the closed gate of the next chunk behind the records.
    pub(crate) fn seal(&mut self, first: u64)
        requires { IsOpenChunk self.old }
        ensures { self.new ≡ record {
          count = self.old.count;
          bytes = chunk_head (length self.old.bytes - CHUNK_HEAD) self.old.count first
              ++ drop CHUNK_HEAD self.old.bytes ++ 0 ∷ [];
          lowest = self.old.lowest;
        } }
    {
        let head = chunk_head(self.body_len(), self.count, first);
        self.bytes.push_reserved(0);
        write_head(&mut self.bytes, &head);
    }
}

// Writes the head over the first bytes.
fn write_head(bytes: &mut [u8], head: &[u8; CHUNK_HEAD])
    requires { CHUNK_HEAD ≤ length bytes.old }
    ensures { bytes.new ≡ head.now ++ drop CHUNK_HEAD bytes.old }
{
    bytes[..CHUNK_HEAD].copy_from_slice(head);
}
