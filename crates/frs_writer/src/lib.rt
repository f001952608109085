//! The writer of the log: it takes the records of the ring in groups, writes each group as a chunk, and knows what is
//! durable.
#![tactic(auto)]

mod chunk;
mod fault;
mod group;
mod lowest;
mod setup;
mod tail;
mod writer;

pub use fault::{NotYet, Refused, WriteFault};
pub use lowest::lowest_is_named;
pub use writer::Writer;

#[cfg(test)]
mod tests;
