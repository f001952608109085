//! Commands, their replies, and the history of a session. What a history may be is defined in `specs/`: the machine
//! of transactional maps, and the histories that are its runs.
#![tactic(auto)]

mod command;
mod event;
mod history;
mod script;

pub use command::{Command, Line};
pub use event::{Ack, Event, Reply, What};
pub use history::History;
pub use script::Script;
