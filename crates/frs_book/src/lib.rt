//! The book of a session: its history, and the records that the history draws.
#![tactic(auto)]

mod agreement;
mod asked;
mod book;
mod change_index;
mod changes;
mod client_state;
mod command_record;
mod ledger;
mod room;
mod step;
mod steps;
mod transaction_steps;

pub use agreement::{agreement_kept, shown_commits};
pub use asked::{alone_is_free, asked_by_events};
pub use book::Book;
pub use command_record::prepare;
pub use step::{Marked, Step};

#[cfg(test)]
mod step_tests;
#[cfg(test)]
mod tests;
