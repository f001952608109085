//! What is known of a store that was looked at, before anything is printed.
ghost use Rattle.std.specs.Prelude.{◌≡◌};
ghost use Rattle.frs_engine.specs.PlainJobs.{fault_status, refusal_line, status_found, maps_finding, numbers_finding};

use crate::status::Status;
use frs_recovery::{RecoverFault, Recovered};
use frs_text::LastLine;
use frs_types::{Entry, Sequence};

/// What is known of a store, before anything is printed.
#[derive(Debug, Drop)]
pub(crate) enum Finding {
    /// It wasn't looked at, because the job isn't built yet.
    Later,
    /// The entries of its maps.
    Maps {
        /// By rising LSN.
        entries: Sequence<Entry>,
    },
    /// It as a whole, of which the numbers are asked for.
    Numbers {
        /// What was read back.
        recovered: Recovered,
    },
    /// It couldn't be read back.
    Refused {
        /// Why.
        fault: RecoverFault,
    },
}

impl Finding {
    /// The maps of what was read back.
    pub(crate) fn of_maps(read: Result<Recovered, RecoverFault>) -> Finding
        ensures { result ≡ maps_finding read }
    {
        match read {
            Ok(recovered) => Finding::Maps {
                entries: recovered.entries,
            },
            Err(fault) => Finding::Refused { fault },
        }
    }

    /// The numbers of what was read back.
    pub(crate) fn of_numbers(read: Result<Recovered, RecoverFault>) -> Finding
        ensures { result ≡ numbers_finding read }
    {
        match read {
            Ok(recovered) => Finding::Numbers { recovered },
            Err(fault) => Finding::Refused { fault },
        }
    }

    /// The status that it asks for.
    pub(crate) fn status(&self) -> Status
        ensures { result ≡ status_found self.now }
    {
        match self {
            Finding::Later => Status::Later,
            Finding::Maps { .. } | Finding::Numbers { .. } => Status::Done,
            Finding::Refused { fault } => status_of(*fault),
        }
    }
}

/// The status by which a refusal is told.
pub(crate) fn status_of(fault: RecoverFault) -> Status
    ensures { result ≡ fault_status fault }
{
    match fault {
        RecoverFault::BadHeader { .. } | RecoverFault::BadChunk { .. } | RecoverFault::Gap { .. } =>
            Status::WrongStore,
        RecoverFault::NumberLimit { .. } => Status::Limit,
        RecoverFault::Disk => Status::DiskStop,
        RecoverFault::Memory => Status::MemoryStop,
    }
}

/// The line that says why a store couldn't be read back.
pub(crate) fn line_of(fault: RecoverFault) -> LastLine
    ensures { result ≡ refusal_line fault }
{
    match fault {
        RecoverFault::BadHeader { segment, offset } => LastLine::WrongHeader { segment, offset },
        RecoverFault::BadChunk { segment, offset } => LastLine::WrongChunk { segment, offset },
        RecoverFault::Gap { expected, found } => LastLine::MissingRecord { expected, found },
        RecoverFault::NumberLimit { .. } => LastLine::LimitStop,
        RecoverFault::Disk => LastLine::DiskStop,
        RecoverFault::Memory => LastLine::MemoryStop,
    }
}
