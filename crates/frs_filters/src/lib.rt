//! What survives in a log: four filters, to each of which records are offered from the newest to the oldest, and the
//! chain of the four, which leaves the survivors as entries.
#![tactic(auto)]

mod chain;
mod delete;
mod filter;
mod offered;
mod open_begins;
mod replay;
mod skip;
mod survivors;
mod transaction;

pub use chain::Chain;
pub use delete::DeleteFilter;
pub use filter::Filter;
pub use offered::notes_of_offered;
pub use open_begins::OpenBegins;
pub use replay::ReplayFilter;
pub use skip::SkipFilter;
pub use survivors::survivors_in_order;
pub use transaction::TransactionFilter;

#[cfg(test)]
mod tests;
