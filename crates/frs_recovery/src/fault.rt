//! Why a store couldn't be read back.
ghost use Rattle.std.specs.Prelude.{◌≡◌, Some};
ghost use Rattle.frs_recovery.specs.declared.fault.RecoverFault.TheVariants.{Memory};
ghost use Rattle.frs_recovery.specs.Faults.{recover_fault_of};
ghost use Rattle.frs_recovery.specs.Refusals.{recover_fault_text};

use frs_disk::Fault;
use frs_types::NoMemory;
use std::alloc::{AllocError, AllocFailed};
use std::fmt;

/// Why a store isn't read back: what is wrong first with its files, from the one with the greatest number down, or that
/// the disk or memory has failed. Nothing on the disk has changed.
#[derive(Clone, Copy, Debug, PartialEq, Eq)]
pub enum RecoverFault {
    /// A field of a segment's header is wrong.
    BadHeader {
        /// The file's number.
        segment: u64,
        /// Where in the file the field begins.
        offset: u64,
    },
    /// The bytes behind an open gate of a segment are no chunk.
    BadChunk {
        /// The file's number.
        segment: u64,
        /// Where in the file that gate stands.
        offset: u64,
    },
    /// Records are missed between two segments, or before the oldest one.
    Gap {
        /// The LSN of the record that should stand before those that are there.
        expected: u64,
        /// The LSN of the last record of the segment below them, or the LSN before that segment's first where it has no
        /// record, or 0 where no file is left.
        found: u64,
    },
    /// An LSN is 2^62 or more.
    NumberLimit {
        /// The first such LSN.
        lsn: u64,
    },
    /// The disk has failed, and its count of faults has risen in this call.
    Disk,
    /// There was no memory. The count of faults is as it was.
    Memory,
}

impl fmt::Display for RecoverFault {
    ghost output = { λ fault. Some (recover_fault_text fault) };

    fn fmt<W: fmt::Write>(&self, f: &mut fmt::Formatter<W>) -> fmt::Result {
        match self {
            RecoverFault::BadHeader { segment, offset } => {
                write!(
                    f,
                    "the header of segment {segment} is wrong at offset {offset}"
                )
            }
            RecoverFault::BadChunk { segment, offset } => {
                write!(
                    f,
                    "segment {segment} has no chunk behind the gate at offset {offset}"
                )
            }
            RecoverFault::Gap { expected, found } => {
                write!(
                    f,
                    "the record {expected} is missing, and the last before it is {found}"
                )
            }
            RecoverFault::NumberLimit { lsn } => write!(f, "the LSN {lsn} is too large"),
            RecoverFault::Disk => write!(f, "the disk has failed"),
            RecoverFault::Memory => write!(f, "out of memory"),
        }
    }
}

impl std::error::Error for RecoverFault {}

impl From<Fault> for RecoverFault {
    ghost from_gives = { λ fault e. e ≡ recover_fault_of fault };

    fn from(fault: Fault) -> Self {
        match fault {
            Fault::Failed => RecoverFault::Disk,
            Fault::Memory => RecoverFault::Memory,
        }
    }
}

impl From<NoMemory> for RecoverFault {
    ghost from_gives = { λ _ e. e ≡ Memory };

    fn from(_: NoMemory) -> Self {
        RecoverFault::Memory
    }
}

impl From<AllocError> for RecoverFault {
    ghost from_gives = { λ _ e. e ≡ Memory };

    fn from(_: AllocError) -> Self {
        RecoverFault::Memory
    }
}

impl<T: Drop> From<AllocFailed<T>> for RecoverFault {
    ghost from_gives = { λ _ e. e ≡ Memory };

    fn from(_: AllocFailed<T>) -> Self {
        RecoverFault::Memory
    }
}
