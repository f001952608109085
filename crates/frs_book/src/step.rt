//! What the calls of a book answer.
use frs_slots::Slip;

/// What a step of a client is answered. But for `Done` and the first `Waits` of a command the book is as it was, though
/// its drawing end may know more as taken after `NoRoom` and `Memory`.
pub enum Step {
    /// The client's next command, or its end, was answered.
    Done {
        /// The place of its event in the history, from 0.
        place: u64,
        /// The number of the command's line in its file, or 0 for the end.
        line: u32,
        /// The slot of the record that was drawn, if one was.
        slip: Option<Slip>,
        /// The LSN that has to be durable before the event is acknowledged, if it is to be.
        ack: Option<u64>,
        /// The number of the snapshot that was answered, and the last LSN that was drawn before it.
        snapshot: Option<(u64, u64)>,
    },
    /// The script is at its end, and no transaction is active.
    Finished,
    /// Another client holds a conflicting lock, and waiting for it closes no ring.
    Waits {
        /// The least such client.
        holder: u32,
    },
    /// A record is to be drawn, and no LSN is left.
    LogFull {
        /// The next LSN, 2^62.
        next: u64,
    },
    /// A record is to be drawn, and the ring is full by what its drawing end knows.
    NoRoom {
        /// How many records were drawn.
        drawn: u64,
        /// How many of them are known to be taken.
        known_taken: u64,
    },
    /// There was no memory.
    Memory,
}

/// What the closing mark of a book is answered. But for `Done` the book is as it was, though its drawing end may know
/// more as taken after `NoRoom`.
pub enum Marked {
    /// The mark was drawn.
    Done {
        /// Its slot.
        slip: Slip,
    },
    /// No LSN is left.
    LogFull {
        /// The next LSN, 2^62.
        next: u64,
    },
    /// The ring is full by what its drawing end knows.
    NoRoom {
        /// How many records were drawn.
        drawn: u64,
        /// How many of them are known to be taken.
        known_taken: u64,
    },
}
