//! Why an entry's LSN was not moved.
ghost use Rattle.std.specs.Prelude.{Some};
ghost use Rattle.frs_objects.specs.Refusals.{move_fault_text};

use frs_types::NoMemory;
use std::fmt;

/// Why an entry's LSN was not moved. The maps are as they were.
#[derive(Clone, Copy, Debug, PartialEq, Eq)]
pub enum MoveFault {
    /// The entry has another LSN.
    Changed {
        /// The LSN that it has, or 0 where there is no entry.
        found: u64,
    },
    /// There was no memory for the new LSN.
    Memory,
}

impl fmt::Display for MoveFault {
    ghost output = { λ fault. Some (move_fault_text fault) };

    fn fmt<W: fmt::Write>(&self, f: &mut fmt::Formatter<W>) -> fmt::Result {
        match self {
            MoveFault::Changed { found } => write!(f, "the entry has LSN {found}"),
            MoveFault::Memory => write!(f, "out of memory"),
        }
    }
}

impl std::error::Error for MoveFault {}
