//! The plain data that every layer speaks of: words and their limits, records, entries and locks. The definitions of
//! maps, of logs and of who waits for whom stand in `specs/`.
#![tactic(auto)]

mod limits;
mod lock;
mod memory;
mod order;
mod record;
mod sequence;
mod turn;
mod word;

pub use limits::{CLIENT_LIMIT, ID_LIMIT, KEY_LIMIT, NUMBER_LIMIT, VALUE_LIMIT};
pub use lock::Lock;
pub use memory::NoMemory;
pub use record::{Action, Entry, Record};
pub use sequence::Sequence;
pub use turn::{NoTurn, Turn};
pub use word::{Key, MapId, Value, WordFault};

#[cfg(test)]
mod tests;
