// The records that one chunk gets.
ghost use Rattle.std.specs.Prelude.{◌≡◌, ◌<◌, ◌≤◌, ◌^◌, ◌+◌, List, ℕ, None, length, IsTrue};
ghost use Rattle.frs_writer.specs.Chunk.{IsOpenChunk};
ghost use Rattle.frs_writer.specs.Groups.{GathersGroup, HasGroup, AddsRecord, StopsGroup};

use crate::chunk::Chunk;
use frs_frame::Framed;
use frs_segment::MOST_RECORDS;
use frs_slots::Taker;

// Takes the next record into the chunk, and answers whether it did. A record that doesn't fit is kept.
fn take_one(taker: &mut Taker, kept: &mut Option<Framed>, chunk: &mut Chunk) -> bool
    requires none { kept.old ≡ None }
    requires chunk { IsOpenChunk chunk.old × (chunk.old.count < MOST_RECORDS) }
    ensures added { IsTrue result → (kept.new ≡ None)
        × AddsRecord taker.old taker.new chunk.old chunk.new }
    ensures stopped { (IsTrue result → ⊥)
        → StopsGroup taker.old taker.new kept.new chunk.old chunk.new }
{
    let Ok(framed) = taker.take() else {
        return false;
    };
    if chunk.fits(framed.bytes().len()) {
        chunk.add(framed.bytes());
        true
    } else {
        *kept = Some(framed);
        false
    }
}

/// Takes records into the chunk, in place of those that it has: first the one that is kept, and then those that the
/// ring gives, until there are as many as the limit says, or the next one doesn't fit and is kept, or no more are
/// known.
pub(crate) fn gather(taker: &mut Taker, kept: &mut Option<Framed>, chunk: &mut Chunk, limit: u32)
    requires { (1 ≤ limit) × (limit ≤ MOST_RECORDS) }
    ensures { (group : List (List ℕ))
        × GathersGroup limit taker.old taker.new kept.old kept.new group
        × HasGroup chunk.new group }
{
    chunk.clear();
    if let Some(framed) = kept.take() {
        chunk.add(framed.bytes());
    }
    for _ in chunk.count()..limit {
        if !take_one(taker, kept, chunk) {
            return;
        }
    }
}
