// A slot of the ring, as a slip that is to be filled and as the receipt for it.
ghost use Rattle.std.specs.Prelude.{◌≡◌, ◌<◌};
ghost use Rattle.frs_slots.specs.Names.{pushes_on};

use crate::ghost_copy::GhostCopy;
use frs_frame::Framed;
use frs_types::NUMBER_LIMIT;
use rtrb::Producer;
use std::marker::Model;

// Tells, for proofs alone, of which ring a slot is. It takes no bytes.
pub(crate) type OfRing = GhostCopy<Producer<Framed>>;

/// The right to publish the record that was drawn with one LSN, and the duty: it can only be spent by `fill`.
/// Contracts see it as the name of its ring and the LSN.
pub struct Slip {
    lsn: u64,
    of: OfRing,
}

/// The receipt for a record that was published. It may be dropped.
/// Contracts see it as the name of its ring and the LSN.
#[derive(Drop)]
pub struct Filled {
    lsn: u64,
    of: OfRing,
}

impl Model for Slip {
    ghost use Rattle.std.specs.Prelude.{◌<◌};
    ghost use Rattle.frs_types.specs.declared.limits.TheConstants.{NUMBER_LIMIT};
    ghost use Rattle.frs_slots.specs.Views.{SlotView};
    ghost use Rattle.frs_slots.specs.Names.{pushes_on};

    ghost Value = { SlotView };

    ghost view = { λ a. record { ring = pushes_on a.of.value; lsn = a.lsn } };

    ghost invariant = { λ a. a.lsn < NUMBER_LIMIT };
}

impl Model for Filled {
    ghost use Rattle.std.specs.Prelude.{◌<◌};
    ghost use Rattle.frs_types.specs.declared.limits.TheConstants.{NUMBER_LIMIT};
    ghost use Rattle.frs_slots.specs.Views.{SlotView};
    ghost use Rattle.frs_slots.specs.Names.{pushes_on};

    ghost Value = { SlotView };

    ghost view = { λ a. record { ring = pushes_on a.of.value; lsn = a.lsn } };

    ghost invariant = { λ a. a.lsn < NUMBER_LIMIT };
}

impl Slip {
    // The slip for an LSN, of the ring.
    pub(crate) fn new(lsn: u64, of: OfRing) -> Slip
        requires { lsn < NUMBER_LIMIT }
        ensures { (result.ring ≡ pushes_on of.value) × (result.lsn ≡ lsn) }
    {
        Slip { lsn, of }
    }

    /// Publishes the record, and gives the receipt for it. Takes no memory and waits for nobody.
    pub fn fill(self) -> Filled
        ensures { (result.ring ≡ self.ring) × (result.lsn ≡ self.lsn) }
    {
        let Slip { lsn, of } = self;
        Filled { lsn, of }
    }
}

impl Filled {
    // The LSN of the record.
    pub(crate) fn lsn(&self) -> u64
        ensures lsn { result ≡ self.now.lsn }
        ensures most { result < NUMBER_LIMIT }
    {
        self.lsn
    }
}
