// The end of the ring that takes records in the order of their LSNs.
ghost use Rattle.std.specs.Prelude.{◌≡◌, ◌≢◌, ◌+◌, ◌<◌, ◌≤◌, [], length, Some, IsOk, IfOk, IfErr};
ghost use Rattle.rtrb.specs.Ring.{received, known_items};
ghost use Rattle.frs_slots.specs.Views.{next_taken, TookRecord, MissedRecord};
ghost use Rattle.frs_slots.specs.Names.{pops_from};
ghost use Rattle.frs_slots.specs.Refusals.{not_yet_text};

use crate::slot::Filled;
use frs_frame::Framed;
use frs_types::NUMBER_LIMIT;
use rtrb::Consumer;
use std::fmt;
use std::marker::Model;

/// The end of the ring that takes. Contracts see it as the name of its ring, its first LSN, the bytes of the records
/// that were taken, and two numbers that are never below the number taken and never fall: `sure` counts the first
/// records that were taken or whose receipts it was given in order, `known` counts the first records that it can
/// take. `misses` counts how often the next record wasn't there; it stands still at 2^64 - 1.
#[derive(Drop)]
pub struct Taker {
    pub(crate) consumer: Consumer<Framed>,
    pub(crate) first: u64,
    pub(crate) next: u64,
    sure: u64,
    pub(crate) known: u64,
    misses: u64,
}

impl Model for Taker {
    ghost use Rattle.frs_slots.specs.Views.{TakerView};

    ghost Value = { TakerView };

    ghost use Rattle.frs_slots.specs.Ends.{taker_seen, TakerCounts};

    ghost view = { taker_seen };

    ghost invariant = { TakerCounts };
}

/// The next record isn't there yet.
#[derive(Clone, Copy, Debug, PartialEq, Eq)]
pub struct NotYet {
    /// How many records are known, all of which were taken.
    pub known: u64,
}

impl fmt::Display for NotYet {
    ghost output = { λ refused. Some (not_yet_text refused) };

    fn fmt<W: fmt::Write>(&self, f: &mut fmt::Formatter<W>) -> fmt::Result {
        write!(f, "all {} known records were taken", self.known)
    }
}

impl std::error::Error for NotYet {}

impl Taker {
    // The end of a ring from which nothing was popped.
    pub(crate) fn new(consumer: Consumer<Framed>, first: u64) -> Taker
        requires empty { received consumer ≡ [] }
        requires in_range { (1 ≤ first) × (first < NUMBER_LIMIT) }
        ensures { result
            ≡ record { ring = pops_from consumer; first = first; taken = []; sure = 0; known = 0; misses = 0 } }
    {
        Taker {
            consumer,
            first,
            next: first,
            sure: 0,
            known: 0,
            misses: 0,
        }
    }

    /// The LSN of the next record to be taken, from 1 to 2^62.
    pub fn next(&self) -> u64
        ensures next { result ≡ next_taken self.now }
        ensures in_range { (1 ≤ result) × (result ≤ NUMBER_LIMIT) }
        ensures first { (1 ≤ self.now.first) × (self.now.first < NUMBER_LIMIT) }
        ensures counts { (length self.now.taken ≤ self.now.sure)
            × (length self.now.taken ≤ self.now.known) }
    {
        self.next
    }

    /// Notes a receipt, which has to be of this ring. `sure` rises by one where the receipt is for the LSN
    /// `first + sure`, and nothing else changes. Takes no memory.
    pub fn learn(&mut self, filled: Filled)
        requires { filled.ring ≡ self.old.ring }
        ensures in_order { filled.lsn ≡ self.old.first + self.old.sure
            → self.new ≡ record self.old { sure = self.old.sure + 1 } }
        ensures other { filled.lsn ≢ self.old.first + self.old.sure → self.new ≡ self.old }
    {
        if filled.lsn() == self.first + self.sure {
            self.sure += 1;
        }
    }

    /// Takes the record with the next LSN, which is below 2^62. It does so wherever more records are known than were
    /// taken. `NotYet` comes only where all that are known were taken; it raises `misses` by one, and nothing else is
    /// changed then. Takes no memory.
    pub fn take(&mut self) -> Result<Framed, NotYet>
        ensures taken { IfOk result (λ framed.
            TookRecord self.old framed self.new × (next_taken self.old < NUMBER_LIMIT)) }
        ensures not_yet { IfErr result (λ refused. MissedRecord self.old self.new
            × (refused.known ≡ self.old.known) × (self.old.known ≡ length self.old.taken)) }
        ensures known { length self.old.taken < self.old.known → IsOk result }
    {
        if self.next == NUMBER_LIMIT {
            self.misses = self.misses.saturating_add(1);
            return Err(NotYet { known: self.known });
        }
        match self.consumer.pop() {
            Ok(framed) => {
                self.next += 1;
                let taken = self.next - self.first;
                self.sure = self.sure.max(taken);
                self.known = self.known.max(taken);
                Ok(framed)
            }
            Err(_) => {
                self.misses = self.misses.saturating_add(1);
                Err(NotYet { known: self.known })
            }
        }
    }
}
