//! The committed maps: their entries, found by id and key and by LSN. Contracts see them as the table of entries, and
//! nothing of the index.
#![tactic(auto)]

mod fault;
mod index;
mod objects;
mod op;
mod places;

pub use fault::MoveFault;
pub use objects::Objects;
pub use op::Op;

#[cfg(test)]
mod tests;
