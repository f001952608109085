// The end of the ring that draws LSNs.
ghost use Rattle.std.specs.Prelude.{◌≡◌, ◌⊎◌, ◌+◌, ◌<◌, ◌≤◌, ◌↔◌, [], length, Some, IsNone, IsOk, IsTrue, IfOk, IfErr, IfSome};
ghost use Rattle.rtrb.specs.Ring.{sent, known_free, producer_capacity};
ghost use Rattle.frs_slots.specs.Views.{next_drawn, outstanding, HasRoom, HasLooked, DrewRecord};
ghost use Rattle.frs_slots.specs.Names.{pushes_on};
ghost use Rattle.frs_slots.specs.Refusals.{no_room_text};

use crate::CAPACITY_LIMIT;
use crate::slot::{OfRing, Slip};
use frs_frame::Framed;
use frs_types::NUMBER_LIMIT;
use rtrb::Producer;
use std::fmt;
use std::marker::Model;

/// The end of the ring that draws: it gives each record the next LSN.
/// Contracts see it as the name of its ring, its first LSN, its capacity, the bytes of the records that were drawn, how
/// many of these it knows as taken, and how often it has looked how many were taken, which stands still at 2^64 - 1.
#[derive(Drop)]
pub struct Drawer {
    pub(crate) producer: Producer<Framed>,
    pub(crate) first: u64,
    pub(crate) next: u64,
    capacity: u32,
    pub(crate) known_taken: u64,
    loads: u64,
}

impl Model for Drawer {
    ghost use Rattle.frs_slots.specs.Views.{DrawerView};

    ghost Value = { DrawerView };

    ghost use Rattle.frs_slots.specs.Ends.{drawer_seen, DrawerCounts};

    ghost view = { drawer_seen };

    ghost invariant = { DrawerCounts };
}

/// The ring is full: by what the drawer knows, as many records are drawn and not taken as the ring holds.
#[derive(Debug, Drop)]
pub struct NoRoom {
    /// The record that has found no room.
    pub framed: Framed,
    /// How many records were drawn.
    pub drawn: u64,
    /// How many of them are known to be taken.
    pub known_taken: u64,
}

impl fmt::Display for NoRoom {
    ghost output = { λ refused. Some (no_room_text refused) };

    fn fmt<W: fmt::Write>(&self, f: &mut fmt::Formatter<W>) -> fmt::Result {
        write!(
            f,
            "no room: {} drawn, {} known as taken",
            self.drawn, self.known_taken
        )
    }
}

impl std::error::Error for NoRoom {}

impl Drawer {
    // The end of a ring on which nothing was pushed.
    pub(crate) fn new(producer: Producer<Framed>, capacity: u32, first: u64) -> Drawer
        requires empty { (sent producer ≡ []) × (known_free producer ≡ capacity)
            × (producer_capacity producer ≡ capacity) }
        requires in_range { (1 ≤ capacity) × (capacity ≤ CAPACITY_LIMIT)
            × (1 ≤ first) × (first ≤ NUMBER_LIMIT) }
        ensures { result ≡ record {
          ring = pushes_on producer;
          first = first;
          capacity = capacity;
          drawn =
              [];
          known_taken = 0;
          loads = 0;
        } }
    {
        Drawer {
            producer,
            first,
            next: first,
            capacity,
            known_taken: 0,
            loads: 0,
        }
    }

    /// The LSN of the next record to be drawn, from 1 to 2^62.
    pub fn next(&self) -> u64
        ensures next { result ≡ next_drawn self.now }
        ensures in_range { (1 ≤ result) × (result ≤ NUMBER_LIMIT) }
        ensures counts { (self.now.known_taken ≤ length self.now.drawn)
            × (outstanding self.now ≤ self.now.capacity) }
        ensures capacity { (1 ≤ self.now.capacity) × (self.now.capacity ≤ CAPACITY_LIMIT) }
    {
        self.next
    }

    /// Draws the next LSN for a record, which has to be below 2^62. Wherever there is room by what the drawer knows,
    /// it answers the slip for it. `NoRoom` comes only where the drawer has looked in this call and the ring is full
    /// by what it then knows; nothing is drawn. Where there is room it doesn't look. Takes no memory.
    pub fn draw(&mut self, framed: Framed) -> Result<Slip, NoRoom>
        requires { next_drawn self.old < NUMBER_LIMIT }
        ensures drawn { IfOk result (λ slip. DrewRecord self.old framed self.new
            × (slip.lsn ≡ next_drawn self.old) × (slip.ring ≡ self.old.ring)) }
        ensures full { IfErr result (λ refused. HasLooked self.old self.new
            × (outstanding self.new ≡ self.new.capacity)
            × (refused ≡ record {
              framed = framed;
              drawn = length self.old.drawn;
              known_taken = self.new.known_taken;
            })) }
        ensures room { HasRoom self.old → IsOk result }
        ensures unlooked { HasRoom self.old → (self.new.known_taken ≡ self.old.known_taken)
            × (self.new.loads ≡ self.old.loads) }
    {
        if let Some((drawn, known_taken)) = self.room() {
            return Err(NoRoom {
                framed,
                drawn,
                known_taken,
            });
        }
        let lsn = self.next;
        self.producer.push_reserved(framed);
        self.next += 1;
        Ok(Slip::new(lsn, OfRing::of(&self.producer)))
    }

    /// Whether the next `draw` finds room: None exactly where there is room by what the drawer then knows, and that
    /// `draw` then answers a slip. Otherwise the number of records drawn and the number known as taken, as `NoRoom`
    /// has them. It looks how many were taken exactly where there was no room by what it knew, and changes nothing
    /// else. Takes no memory.
    pub fn room(&mut self) -> Option<(u64, u64)>
        ensures looked { (self.new ≡ self.old) ⊎ HasLooked self.old self.new }
        ensures unlooked { HasRoom self.old → self.new ≡ self.old }
        ensures room { IsNone result ↔ HasRoom self.new }
        ensures full { IfSome result (λ numbers. HasLooked self.old self.new
            × (numbers.0 ≡ length self.new.drawn) × (numbers.1 ≡ self.new.known_taken)
            × (outstanding self.new ≡ self.new.capacity)) }
    {
        if self.is_full() {
            self.look();
        }
        if self.is_full() {
            Some((self.next - self.first, self.known_taken))
        } else {
            None
        }
    }

    // Whether there is no room by what the drawer knows.
    fn is_full(&self) -> bool
        ensures { IsTrue result ↔ (outstanding self.now ≡ self.now.capacity) }
    {
        self.next - self.first - self.known_taken == u64::from(self.capacity)
    }

    // Looks how much was taken.
    fn look(&mut self)
        ensures { HasLooked self.old self.new }
    {
        let free = self.producer.slots() as u64;
        self.known_taken = self.next - self.first + free - u64::from(self.capacity);
        self.loads = self.loads.saturating_add(1);
    }
}
