//! Numbers of each client that stand with a value behind a lock, and that the client knows again when it takes the
//! lock: a keeper has a row of numbers for each client, and a client's hold has that row too. What the numbers mean is
//! up to the crates above.
#![tactic(auto)]

mod hold;
mod keeper;
mod steps;

pub use hold::Hold;
pub use keeper::{Keeper, rows};

#[cfg(test)]
mod tests;
