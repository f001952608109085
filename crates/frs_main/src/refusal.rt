//! Why the program begins nothing.
ghost use Rattle.std.specs.Prelude.{◌≡◌, ℕ};
ghost use Rattle.frs_text.specs.declared.words_fault.WordsFault.TheVariants as words;
ghost use Rattle.frs_main.specs.declared.refusal.Refusal.TheVariants as told;

use frs_engine::Status;
use frs_text::WordsFault;
use frs_types::NoMemory;
use std::alloc::{AllocError, AllocFailed};
use std::io;
use std::io::{ErrorKind, Write};

/// How the program is called.
pub(crate) const USAGE: &[u8] =
    b"usage: frs STORE run FILE.. | recover | compact | stat | demo CLIENTS COUNT\n";

/// Why nothing is begun.
#[derive(Clone, Copy, Debug, PartialEq, Eq)]
pub(crate) enum Refusal {
    /// The words ask for nothing, or one of them is no text.
    Usage,
    /// There was no memory.
    Memory,
}

impl Refusal {
    /// Prints how the program is called on standard error, where its words were at fault, and gives the status.
    pub(crate) fn tell(self, rt: HostRuntime) -> u8
        ensures usage { self ≡ Refusal.Usage → result ≡ 1 }
        ensures memory { self ≡ Refusal.Memory → result ≡ 9 }
    {
        match self {
            Refusal::Usage => {
                let _ = rt.stderr().write_all(USAGE);
                Status::WrongWords.code()
            }
            Refusal::Memory => Status::MemoryStop.code(),
        }
    }
}

impl From<WordsFault> for Refusal {
    ghost from_gives = { λ fault r. (fault ≡ words.Memory → r ≡ told.Memory)
        × ((n : ℕ) → fault ≡ words.Usage n → r ≡ told.Usage) };

    fn from(fault: WordsFault) -> Self {
        match fault {
            WordsFault::Usage { .. } => Refusal::Usage,
            WordsFault::Memory => Refusal::Memory,
        }
    }
}

// Of the words: one that is no text is an error, too.
impl From<io::Error> for Refusal {
    fn from(e: io::Error) -> Self {
        match e.kind() {
            ErrorKind::OutOfMemory => Refusal::Memory,
            _ => Refusal::Usage,
        }
    }
}

impl From<NoMemory> for Refusal {
    ghost from_gives = { λ _ r. r ≡ told.Memory };

    fn from(_: NoMemory) -> Self {
        Refusal::Memory
    }
}

impl From<AllocError> for Refusal {
    ghost from_gives = { λ _ r. r ≡ told.Memory };

    fn from(_: AllocError) -> Self {
        Refusal::Memory
    }
}

impl<T: Drop> From<AllocFailed<T>> for Refusal {
    ghost from_gives = { λ _ r. r ≡ told.Memory };

    fn from(_: AllocFailed<T>) -> Self {
        Refusal::Memory
    }
}
