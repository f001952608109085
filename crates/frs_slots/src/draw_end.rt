// What has the drawing end of a ring, and what it does together with the taking end.
ghost use Rattle.std.specs.Prelude.{◌≡◌, ◌≤◌, min, length, OnOk, OnErr};
ghost use mathlib.Core.List.{IsPrefix};
ghost use Rattle.frs_slots.specs.Views.{AreOfOneRing, HasRoom, IsTakenUp};

use crate::drawer::Drawer;
use crate::taker::Taker;
use frs_types::NoMemory;
use std::alloc::Global;

/// A drawer, or what has one in it, in a thread that has the taker too.
pub trait DrawEnd {
    ghost use Rattle.frs_slots.specs.Views.{DrawerView};

    /// The drawer in it.
    ghost drawer: { Self → DrawerView };

    /// All else of it is as it was.
    ghost is_else_as: { Self → Self → Type 0 };

    /// Brings the two ends of one ring together. What was taken is then known to be the first part of what was drawn,
    /// all of it that is sure is known to be there, and the drawer knows no more as taken than was taken. `known` may
    /// rise, and nothing else changes. Takes no memory.
    fn beside(&mut self, taker: &mut Taker)
        requires { AreOfOneRing (drawer self.old) taker.old }
        ensures one_ring { AreOfOneRing (drawer self.new) taker.new }
        ensures prefix { IsPrefix taker.new.taken (drawer self.new).drawn }
        ensures known { (min taker.new.sure (length (drawer self.new).drawn) ≤ taker.new.known)
            × (taker.new.known ≤ length (drawer self.new).drawn) }
        ensures taken { (drawer self.new).known_taken ≤ length taker.new.taken }
        ensures taker { (taker.new ≡ record taker.old { known = taker.new.known })
            × (taker.old.known ≤ taker.new.known) }
        ensures drawer { drawer self.new ≡ drawer self.old }
        ensures others { is_else_as self.old self.new };

    /// Makes the whole capacity free again, where every drawn record was taken. The two ends are of one ring
    /// afterwards, which may be a new one; the records and `sure` stay. Where there is no memory for it, nothing has
    /// changed. A receipt from before counts no longer.
    fn renew(&mut self, alloc: Global, taker: &mut Taker) -> Result<(), NoMemory>
        requires one_ring { AreOfOneRing (drawer self.old) taker.old }
        requires taken_up { IsTakenUp (drawer self.old) taker.old }
        ensures one_ring { AreOfOneRing (drawer self.new) taker.new }
        ensures drawer { OnOk result (drawer self.new
            ≡ record (drawer self.old) {
              ring = (drawer self.new).ring;
              known_taken = length
                  (drawer self.old).drawn;
            }) }
        ensures room { OnOk result (HasRoom (drawer self.new)) }
        ensures taker { OnOk result ((taker.new
            ≡ record taker.old { ring = taker.new.ring; known = taker.new.known })
            × (taker.old.known ≤ taker.new.known)) }
        ensures refused { OnErr result ((drawer self.new ≡ drawer self.old)
            × (taker.new ≡ taker.old)) }
        ensures others { is_else_as self.old self.new };
}

impl DrawEnd for Drawer {
    ghost drawer = { λ d. d };

    ghost is_else_as = { λ _ _. Unit {0} };

    fn beside(&mut self, taker: &mut Taker) {
        self.producer.slots_beside(&mut taker.consumer);
        taker.consumer.slots_beside(&mut self.producer);
        taker.known = self.next - self.first;
    }

    fn renew(&mut self, alloc: Global, taker: &mut Taker) -> Result<(), NoMemory> {
        let _ = alloc;
        self.producer.slots_beside(&mut taker.consumer);
        self.known_taken = taker.next - taker.first;
        Ok(())
    }
}
