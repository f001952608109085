//! How a run ends, before anything is printed.
ghost use Rattle.std.specs.Prelude.{◌≡◌};
ghost use Rattle.frs_engine.specs.Endings.{ending_status, last_of, ending_of_stop, ending_of_start};

use crate::finding::{line_of, status_of};
use crate::status::Status;
use frs_recovery::RecoverFault;
use frs_store::{StartFault, Stop};
use frs_text::LastLine;

/// How a run ended, before anything was printed.
#[derive(Clone, Copy, Debug, PartialEq, Eq)]
pub(crate) enum Ending {
    /// All was done.
    Closed,
    /// The line of the script is no command.
    Bad {
        /// Its number.
        line: u32,
    },
    /// A word of the line is too long.
    Long {
        /// Its number.
        line: u32,
    },
    /// The disk failed.
    Disk,
    /// The file wasn't read.
    Unread,
    /// The line has one command more than a script may have.
    Past {
        /// Its number.
        line: u32,
    },
    /// There are more files than a run may have clients.
    Crowded {
        /// How many.
        clients: u64,
    },
    /// The files of the store spell no log, or an LSN in them is too large.
    Refused {
        /// Why.
        fault: RecoverFault,
    },
    /// An LSN or the number of a segment would be 2^62.
    Limit,
    /// There was no memory.
    Memory,
    /// It can't be run yet.
    Later,
}

impl Ending {
    /// The status that it asks for.
    pub(crate) fn status(self) -> Status
        ensures { result ≡ ending_status self }
    {
        match self {
            Ending::Closed => Status::Done,
            Ending::Bad { .. } | Ending::Long { .. } => Status::WrongLine,
            Ending::Disk => Status::DiskStop,
            Ending::Unread => Status::UnreadFile,
            Ending::Past { .. } | Ending::Crowded { .. } | Ending::Limit => Status::Limit,
            Ending::Refused { fault } => status_of(fault),
            Ending::Memory => Status::MemoryStop,
            Ending::Later => Status::Later,
        }
    }

    /// The last line of its text. The one script and the one file are the first.
    pub(crate) fn last_line(self) -> LastLine
        ensures { result ≡ last_of self }
    {
        match self {
            Ending::Closed => LastLine::Closed,
            Ending::Bad { line } => LastLine::BadScriptLine { script: 1, line },
            Ending::Long { line } => LastLine::LongScriptLine { script: 1, line },
            Ending::Disk => LastLine::DiskStop,
            Ending::Unread => LastLine::UnreadFile { file: 1 },
            Ending::Past { line } => LastLine::ScriptLineLimit { script: 1, line },
            Ending::Crowded { clients } => LastLine::ClientLimit { clients },
            Ending::Refused { fault } => line_of(fault),
            Ending::Limit => LastLine::LimitStop,
            Ending::Memory => LastLine::MemoryStop,
            Ending::Later => LastLine::Later,
        }
    }
}

// How a run ends that was opened: all was done, unless something has stopped it.
impl From<Option<Stop>> for Ending {
    ghost from_gives = { λ stop ending. ending ≡ ending_of_stop stop };

    fn from(stop: Option<Stop>) -> Self {
        match stop {
            None => Ending::Closed,
            Some(Stop::Disk) => Ending::Disk,
            Some(Stop::Limit) => Ending::Limit,
            Some(Stop::Memory) => Ending::Memory,
        }
    }
}

// How a run ends that wasn't opened.
impl From<StartFault> for Ending {
    ghost from_gives = { λ fault ending. ending ≡ ending_of_start fault };

    fn from(fault: StartFault) -> Self {
        match fault {
            StartFault::Recover { fault } => Ending::Refused { fault },
            StartFault::LogFull { .. } | StartFault::NumberLimit { .. } => Ending::Limit,
            StartFault::Disk => Ending::Disk,
            StartFault::Memory => Ending::Memory,
        }
    }
}
