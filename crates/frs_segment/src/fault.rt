//! Why a file, or a chunk in it, couldn't be read as a segment.
ghost use Rattle.std.specs.Prelude.{◌≡◌, Some};
ghost use Rattle.frs_segment.specs.declared.fault.ScanFault.TheVariants.{Memory};
ghost use Rattle.frs_segment.specs.Faults.{scan_fault_of};
ghost use Rattle.frs_segment.specs.Refusals.{scan_fault_text};

use frs_disk::Fault;
use frs_types::NoMemory;
use std::alloc::{AllocError, AllocFailed};
use std::fmt;

/// Why a file or a chunk isn't read: what is wrong with its bytes first from the front, or that the disk or memory
/// has failed. Nothing on the disk has changed.
#[derive(Clone, Copy, Debug, PartialEq, Eq)]
pub enum ScanFault {
    /// The file has fewer than 23 bytes, or its first byte isn't 1: its making was never finished.
    HalfMade,
    /// A field of the file's header is wrong.
    BadHeader {
        /// Where in the file the field begins.
        offset: u64,
    },
    /// The bytes behind an open gate are no chunk.
    BadChunk {
        /// Where in the file that gate stands.
        offset: u64,
    },
    /// An LSN is 2^62 or more.
    NumberLimit {
        /// The first such LSN.
        lsn: u64,
    },
    /// The disk has failed, and its count of faults has risen in this call.
    Disk,
    /// There was no memory. The count of faults is as it was.
    Memory,
}

impl fmt::Display for ScanFault {
    ghost output = { λ fault. Some (scan_fault_text fault) };

    fn fmt<W: fmt::Write>(&self, f: &mut fmt::Formatter<W>) -> fmt::Result {
        match self {
            ScanFault::HalfMade => write!(f, "the file was never finished"),
            ScanFault::BadHeader { offset } => {
                write!(f, "the header is wrong at offset {offset}")
            }
            ScanFault::BadChunk { offset } => {
                write!(f, "there is no chunk behind the gate at offset {offset}")
            }
            ScanFault::NumberLimit { lsn } => write!(f, "the LSN {lsn} is too large"),
            ScanFault::Disk => write!(f, "the disk has failed"),
            ScanFault::Memory => write!(f, "out of memory"),
        }
    }
}

impl std::error::Error for ScanFault {}

impl From<Fault> for ScanFault {
    ghost from_gives = { λ fault e. e ≡ scan_fault_of fault };

    fn from(fault: Fault) -> Self {
        match fault {
            Fault::Failed => ScanFault::Disk,
            Fault::Memory => ScanFault::Memory,
        }
    }
}

impl From<NoMemory> for ScanFault {
    ghost from_gives = { λ _ e. e ≡ Memory };

    fn from(_: NoMemory) -> Self {
        ScanFault::Memory
    }
}

impl From<AllocError> for ScanFault {
    ghost from_gives = { λ _ e. e ≡ Memory };

    fn from(_: AllocError) -> Self {
        ScanFault::Memory
    }
}

impl<T: Drop> From<AllocFailed<T>> for ScanFault {
    ghost from_gives = { λ _ e. e ≡ Memory };

    fn from(_: AllocFailed<T>) -> Self {
        ScanFault::Memory
    }
}
