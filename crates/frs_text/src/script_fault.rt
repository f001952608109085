//! Why bytes are no script.
ghost use Rattle.std.specs.Prelude.{◌≡◌, Some};
ghost use Rattle.frs_text.specs.Refusals.{script_fault_text};
ghost use Rattle.frs_text.specs.declared.script_fault.ScriptFault.TheVariants.{Memory};

use frs_types::NoMemory;
use std::alloc::{AllocError, AllocFailed};
use std::fmt;

/// Why bytes are no script, and which line shows it. Lines are numbered from 1.
#[derive(Clone, Copy, Debug, PartialEq, Eq)]
pub enum ScriptFault {
    /// The line is no command: a byte that isn't allowed, a name that isn't known, a wrong number or kind of words, a
    /// `%` without two digits, an empty id or key, a `begin` inside a transaction, or a `commit` outside.
    BadLine {
        /// The number of the line.
        line: u32,
    },
    /// The id, the key or the value of the line is above its limit.
    TooLong {
        /// The number of the line.
        line: u32,
    },
    /// The command of the line is one more than is allowed: of commands, of snapshots, or of the changes in one
    /// transaction.
    TooMany {
        /// The number of the line.
        line: u32,
    },
    /// There was no memory for the script.
    Memory,
}

impl fmt::Display for ScriptFault {
    ghost output = { λ fault. Some (script_fault_text fault) };

    fn fmt<W: fmt::Write>(&self, f: &mut fmt::Formatter<W>) -> fmt::Result {
        match self {
            ScriptFault::BadLine { line } => write!(f, "line {line} is no command"),
            ScriptFault::TooLong { line } => write!(f, "a word of line {line} is too long"),
            ScriptFault::TooMany { line } => write!(f, "line {line} is one command too many"),
            ScriptFault::Memory => write!(f, "out of memory"),
        }
    }
}

impl std::error::Error for ScriptFault {}

impl From<NoMemory> for ScriptFault {
    ghost from_gives = { λ _ e. e ≡ Memory };

    fn from(_: NoMemory) -> Self {
        ScriptFault::Memory
    }
}

impl From<AllocError> for ScriptFault {
    ghost from_gives = { λ _ e. e ≡ Memory };

    fn from(_: AllocError) -> Self {
        ScriptFault::Memory
    }
}

impl<T: Drop> From<AllocFailed<T>> for ScriptFault {
    ghost from_gives = { λ _ e. e ≡ Memory };

    fn from(_: AllocFailed<T>) -> Self {
        ScriptFault::Memory
    }
}
