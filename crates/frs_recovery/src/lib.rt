//! Reading a store back: its files from the one with the greatest number down, and their records from the newest to the
//! oldest, which leave the entries of its maps.
#![tactic(auto)]

mod backward_reader;
mod descent;
mod fault;
mod ready;
mod recovered;
mod recovery;
mod unique_answer;

pub use fault::RecoverFault;
pub use ready::ready_disks;
pub use recovered::Recovered;
pub use recovery::recover;
pub use unique_answer::one_answer;

#[cfg(test)]
mod fault_tests;
#[cfg(test)]
mod tests;
