//! Why no record stands at the front of bytes.
ghost use Rattle.std.specs.Prelude.{◌≡◌, Some};
ghost use Rattle.frs_frame.specs.Refusals.{frame_fault_text};
ghost use Rattle.frs_frame.specs.declared.fault.FrameFault.TheVariants.{Memory};

use frs_types::NoMemory;
use std::alloc::{AllocError, AllocFailed};
use std::fmt;

/// Why no record stands at the front of the bytes: the first fault from the left, or want of memory.
#[derive(Clone, Copy, Debug, PartialEq, Eq)]
pub enum FrameFault {
    /// The first byte stands for no kind.
    Kind {
        /// That byte.
        byte: u8,
    },
    /// A field passes the end of the bytes.
    Short {
        /// The offset at which the field ends: so many bytes are needed for it.
        need: u64,
        /// The number of bytes that were given.
        have: u64,
    },
    /// A field holds what the kind doesn't allow.
    Field {
        /// The offset at which the field begins.
        offset: u64,
    },
    /// There was no memory for the record's words.
    Memory,
}

impl fmt::Display for FrameFault {
    ghost output = { λ fault. Some (frame_fault_text fault) };

    fn fmt<W: fmt::Write>(&self, f: &mut fmt::Formatter<W>) -> fmt::Result {
        match self {
            FrameFault::Kind { byte } => write!(f, "no record begins with the byte {byte}"),
            FrameFault::Short { need, have } => {
                write!(f, "{need} bytes are needed, and there are {have}")
            }
            FrameFault::Field { offset } => {
                write!(
                    f,
                    "the field at offset {offset} holds what its kind doesn't allow"
                )
            }
            FrameFault::Memory => write!(f, "out of memory"),
        }
    }
}

impl std::error::Error for FrameFault {}

impl From<AllocError> for FrameFault {
    ghost from_gives = { λ _ e. e ≡ Memory };

    fn from(_: AllocError) -> Self {
        FrameFault::Memory
    }
}

impl<T: Drop> From<AllocFailed<T>> for FrameFault {
    ghost from_gives = { λ _ e. e ≡ Memory };

    fn from(_: AllocFailed<T>) -> Self {
        FrameFault::Memory
    }
}

impl From<NoMemory> for FrameFault {
    ghost from_gives = { λ _ e. e ≡ Memory };

    fn from(_: NoMemory) -> Self {
        FrameFault::Memory
    }
}
