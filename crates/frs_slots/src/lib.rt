//! The ring of log slots: records get their LSNs at one end, and are taken at the other in the order of the LSNs.
#![tactic(auto)]

ghost use Rattle.std.specs.Prelude.{◌≡◌, ◌<◌, ◌≤◌, [], IfOk};
ghost use Rattle.frs_slots.specs.Views.{AreOfOneRing};

mod draw_end;
mod drawer;
mod ghost_copy;
mod slot;
mod taker;

pub use draw_end::DrawEnd;
pub use drawer::{Drawer, NoRoom};
use frs_types::{NUMBER_LIMIT, NoMemory};
pub use ghost_copy::GhostCopy;
use rtrb::RingBuffer;
pub use slot::{Filled, Slip};
use std::alloc::Global;
pub use taker::{NotYet, Taker};

/// The most records that a ring has room for.
pub const CAPACITY_LIMIT: u32 = 4_096;

/// The two ends of a new ring for 1 to 4,096 records that are drawn and not yet taken. The first of them gets the LSN
/// `first`, from 1 to 2^62 - 1. It fails only for want of memory.
pub fn ring(alloc: Global, capacity: u32, first: u64) -> Result<(Drawer, Taker), NoMemory>
    requires capacity { (1 ≤ capacity) × (capacity ≤ CAPACITY_LIMIT) }
    requires first { (1 ≤ first) × (first < NUMBER_LIMIT) }
    ensures one_ring { IfOk result (λ ends. AreOfOneRing ends.0 ends.1) }
    ensures drawer { IfOk result (λ ends. ends.0
        ≡ record {
          ring = ends.0.ring;
          first = first;
          capacity = capacity;
          drawn =
              [];
          known_taken = 0;
          loads = 0;
        }) }
    ensures taker { IfOk result (λ ends. ends.1
        ≡ record { ring = ends.1.ring; first = first; taken = []; sure = 0; known = 0; misses = 0 }) }
{
    let (producer, consumer) = RingBuffer::new(alloc, capacity as usize)?;
    Ok((
        Drawer::new(producer, capacity, first),
        Taker::new(consumer, first),
    ))
}

#[cfg(test)]
mod tests;
#[cfg(test)]
mod thread_tests;
