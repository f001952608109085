//! What a call of a session is answered.
use crate::stop::Stop;

/// What a call of a session is answered.
#[derive(Clone, Copy, Debug, PartialEq, Eq)]
pub enum Call {
    /// The client's next command, or the end of its script, was answered, and is acknowledged where it is to be.
    Done {
        /// The place of its event in the history, from 0.
        place: u64,
    },
    /// The client's script is at its end, and no transaction of it is active.
    Finished,
    /// The session has stopped.
    Stopped {
        /// Why.
        stop: Stop,
    },
}
