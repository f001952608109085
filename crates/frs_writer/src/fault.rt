// Why a call of the writer was refused.
ghost use Rattle.std.specs.Prelude.{◌≡◌, Some};
ghost use Rattle.frs_writer.specs.Refusals.{write_fault_text, not_yet_text};

use frs_disk::Fault;
use frs_types::NoMemory;
use std::fmt;

/// Why a call of the writer was refused.
#[derive(Clone, Copy, Debug, PartialEq, Eq)]
pub enum WriteFault {
    /// The disk has failed in this call. The writer uses it no more.
    Disk,
    /// The disk has failed in an earlier call.
    Broken {
        /// How often it had failed when the writer was opened.
        count_at_opening: u64,
        /// How often it has failed by now.
        count_now: u64,
    },
    /// A new segment would have this number, which is 2^62.
    NumberLimit {
        /// The number.
        number: u64,
    },
    /// There was no memory. Where this cut a write short the writer answers it from then on; else it is unchanged.
    Memory,
}

impl fmt::Display for WriteFault {
    ghost output = { λ fault. Some (write_fault_text fault) };

    fn fmt<W: fmt::Write>(&self, f: &mut fmt::Formatter<W>) -> fmt::Result {
        match self {
            WriteFault::Disk => write!(f, "the disk has failed"),
            WriteFault::Broken {
                count_at_opening,
                count_now,
            } => write!(
                f,
                "the disk has failed before: {count_at_opening} faults at the opening, {count_now} now"
            ),
            WriteFault::NumberLimit { number } => {
                write!(f, "a segment would have the number {number}")
            }
            WriteFault::Memory => write!(f, "out of memory"),
        }
    }
}

impl std::error::Error for WriteFault {}

impl From<NoMemory> for WriteFault {
    ghost use Rattle.frs_writer.specs.declared.fault.WriteFault.TheVariants.{Memory};

    ghost from_gives = { λ _ e. e ≡ Memory };

    fn from(_: NoMemory) -> Self {
        WriteFault::Memory
    }
}

impl From<Fault> for WriteFault {
    ghost use Rattle.frs_writer.specs.Writing.{of_fault};

    ghost from_gives = { λ fault e. e ≡ of_fault fault };

    fn from(fault: Fault) -> Self {
        match fault {
            Fault::Failed => WriteFault::Disk,
            Fault::Memory => WriteFault::Memory,
        }
    }
}

/// A writer that couldn't be opened: the disk comes back.
#[derive(Debug, Drop)]
pub struct Refused<D> {
    /// The disk, as it was left.
    pub disk: D,
    /// Why.
    pub fault: WriteFault,
}

/// The LSN isn't durable yet.
#[derive(Clone, Copy, Debug, PartialEq, Eq)]
pub struct NotYet {
    /// The last LSN that is durable.
    pub synced: u64,
}

impl fmt::Display for NotYet {
    ghost output = { λ refused. Some (not_yet_text refused) };

    fn fmt<W: fmt::Write>(&self, f: &mut fmt::Formatter<W>) -> fmt::Result {
        write!(f, "the log is durable up to {}", self.synced)
    }
}

impl std::error::Error for NotYet {}
