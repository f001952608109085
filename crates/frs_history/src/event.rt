//! What happens in a session: replies, events and acknowledgements.
use frs_types::{Key, MapId, Value};

/// What a command is answered.
#[derive(Debug, Drop)]
pub enum Reply {
    /// It was done.
    Done,
    /// The key is absent, as the client sees it.
    Absent,
    /// The value of the key.
    Found { value: Value },
    /// The command would have closed a ring of waiting clients. Its transaction is abandoned.
    Deadlock,
    /// The transaction was abandoned before.
    Abandoned,
    /// The number of the snapshot.
    Snapshot { number: u64 },
}

/// What happened.
#[derive(Debug, Drop)]
pub enum What {
    /// A command was answered.
    Answered { reply: Reply },
    /// A command waits for a lock. It is noted once.
    Waits,
    /// The compactor wrote an entry again.
    Reappend { id: MapId, key: Key },
    /// A script ended in an active transaction, which is abandoned.
    End,
}

/// One step of the history.
#[derive(Debug, Drop)]
pub struct Event {
    /// The client, from 1; 0 is the compactor.
    pub client: u32,
    /// The number of the command's line in its file; 0 for `Reappend` and `End`.
    pub line: u32,
    /// What happened.
    pub what: What,
}

/// Says that the event of a client at a line is durable.
#[derive(Clone, Copy, Debug, PartialEq, Eq)]
pub struct Ack {
    /// The client.
    pub client: u32,
    /// The line of the event.
    pub line: u32,
    /// The LSN of the event: that of its record, or of the last record before it.
    pub lsn: u64,
}
