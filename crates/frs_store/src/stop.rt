//! Why a session isn't opened, and why it stops.
ghost use Rattle.std.specs.Prelude.{◌≡◌};
ghost use Rattle.frs_store.specs.Stops.{stop_of_write, start_fault_of_write, start_fault_of_recover};

use frs_recovery::RecoverFault;
use frs_types::NoMemory;
use frs_writer::WriteFault;

/// Why a session stops before its scripts are at their ends.
#[derive(Clone, Copy, Debug, PartialEq, Eq)]
pub enum Stop {
    /// The disk has failed.
    Disk,
    /// An LSN or the number of a segment would be 2^62.
    Limit,
    /// There was no memory.
    Memory,
}

impl From<WriteFault> for Stop {
    ghost from_gives = { λ fault stop. stop ≡ stop_of_write fault };

    fn from(fault: WriteFault) -> Self {
        match fault {
            WriteFault::Disk | WriteFault::Broken { .. } => Stop::Disk,
            WriteFault::NumberLimit { .. } => Stop::Limit,
            WriteFault::Memory => Stop::Memory,
        }
    }
}

impl From<NoMemory> for Stop {
    ghost use Rattle.frs_store.specs.declared.stop.Stop.TheVariants.{Memory};

    ghost from_gives = { λ _ stop. stop ≡ Memory };

    fn from(_: NoMemory) -> Self {
        Stop::Memory
    }
}

/// Why a session isn't opened.
#[derive(Clone, Copy, Debug, PartialEq, Eq)]
pub enum StartFault {
    /// The files spell no log, or an LSN in them is too large: the first such refusal of the recovery.
    Recover {
        /// It, which is neither `Disk` nor `Memory`.
        fault: RecoverFault,
    },
    /// No LSN is left.
    LogFull {
        /// The next LSN, 2^62.
        next: u64,
    },
    /// The new segment would have this number, 2^62.
    NumberLimit {
        /// The number.
        number: u64,
    },
    /// The disk has failed.
    Disk,
    /// There was no memory.
    Memory,
}

impl From<RecoverFault> for StartFault {
    ghost from_gives = { λ fault made. made ≡ start_fault_of_recover fault };

    fn from(fault: RecoverFault) -> Self {
        match fault {
            RecoverFault::Disk => StartFault::Disk,
            RecoverFault::Memory => StartFault::Memory,
            RecoverFault::BadHeader { .. }
            | RecoverFault::BadChunk { .. }
            | RecoverFault::Gap { .. }
            | RecoverFault::NumberLimit { .. } => StartFault::Recover { fault },
        }
    }
}

impl From<WriteFault> for StartFault {
    ghost from_gives = { λ fault made. made ≡ start_fault_of_write fault };

    fn from(fault: WriteFault) -> Self {
        match fault {
            WriteFault::Disk | WriteFault::Broken { .. } => StartFault::Disk,
            WriteFault::NumberLimit { number } => StartFault::NumberLimit { number },
            WriteFault::Memory => StartFault::Memory,
        }
    }
}

/// A session that wasn't opened: the disk comes back.
#[derive(Drop)]
pub struct Unopened<D> {
    /// The disk, as it was left.
    pub disk: D,
    /// Why.
    pub fault: StartFault,
}
