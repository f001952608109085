//! What a command line asks for.
use frs_disk::Name;
use frs_types::Sequence;

/// The most transactions that a client of a demo makes.
pub const DEMO_LIMIT: u32 = 3_000;

/// A job that opens the store, runs clients on it, and closes it.
#[derive(Debug, Drop)]
pub enum RunPlan {
    /// A client for each file, which runs the script in it.
    Scripts {
        /// The files of clients 1, 2, ..; at least one.
        files: Sequence<Name>,
    },
    /// Clients that run generated scripts.
    Demo {
        /// How many clients, from 1 to `CLIENT_LIMIT`.
        clients: u32,
        /// How many transactions each of them makes, from 1 to `DEMO_LIMIT`.
        count: u32,
    },
}

/// A job without clients.
#[derive(Clone, Copy, Debug, PartialEq, Eq)]
pub enum PlainPlan {
    /// Prints the maps.
    Recover,
    /// Writes old entries again, drops the segments before them, and prints the numbers of the store.
    Compact,
    /// Prints the numbers of the store.
    Stat,
}

/// A job.
#[derive(Debug, Drop)]
pub enum Job {
    /// With clients.
    Run {
        /// Which of these.
        plan: RunPlan,
    },
    /// Without clients.
    Plain {
        /// Which of these.
        plan: PlainPlan,
    },
}

/// A store, and the job that is asked for.
#[derive(Debug, Drop)]
pub struct Plan {
    /// The folder of the store.
    pub store: Name,
    /// The job.
    pub job: Job,
}
