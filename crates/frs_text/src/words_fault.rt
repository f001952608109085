//! Why the words of a command line ask for nothing.
ghost use Rattle.std.specs.Prelude.{◌≡◌, Some};
ghost use Rattle.frs_text.specs.Refusals.{words_fault_text};
ghost use Rattle.frs_text.specs.declared.words_fault.WordsFault.TheVariants.{Memory};

use frs_types::NoMemory;
use std::alloc::{AllocError, AllocFailed};
use std::fmt;

/// Why the words of a command line ask for nothing.
#[derive(Clone, Copy, Debug, PartialEq, Eq)]
pub enum WordsFault {
    /// This word has no place. Words are counted from 1, which is STORE. Where a word is missing, it is one more than
    /// there are words.
    Usage {
        /// Which word.
        word: u32,
    },
    /// There was no memory for the plan.
    Memory,
}

impl fmt::Display for WordsFault {
    ghost output = { λ fault. Some (words_fault_text fault) };

    fn fmt<W: fmt::Write>(&self, f: &mut fmt::Formatter<W>) -> fmt::Result {
        match self {
            WordsFault::Usage { word } => write!(f, "word {word} has no place or is missing"),
            WordsFault::Memory => write!(f, "out of memory"),
        }
    }
}

impl std::error::Error for WordsFault {}

impl From<NoMemory> for WordsFault {
    ghost from_gives = { λ _ e. e ≡ Memory };

    fn from(_: NoMemory) -> Self {
        WordsFault::Memory
    }
}

impl From<AllocError> for WordsFault {
    ghost from_gives = { λ _ e. e ≡ Memory };

    fn from(_: AllocError) -> Self {
        WordsFault::Memory
    }
}

impl<T: Drop> From<AllocFailed<T>> for WordsFault {
    ghost from_gives = { λ _ e. e ≡ Memory };

    fn from(_: AllocFailed<T>) -> Self {
        WordsFault::Memory
    }
}
