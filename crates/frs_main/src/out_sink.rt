//! Where the program prints.
ghost use Rattle.std.specs.Prelude.{false, []};

use crate::system_fault::answer;
use frs_disk::{Fault, Sink};
use std::io::Write;

/// A writer of the system, to which each text is handed at once. It doesn't tell what it took.
#[derive(Drop)]
pub struct OutSink<W: Write> {
    out: W,
    faults: u64,
}

impl<W: Write> OutSink<W> {
    /// Prints to this writer.
    pub fn of(out: W) -> OutSink<W> {
        OutSink { out, faults: 0 }
    }
}

impl<W: Write> Sink for OutSink<W> {
    ghost tells = { λ _. false };

    ghost written = { λ _. [] };

    ghost faults = { λ s. s.faults };

    fn write(&mut self, bytes: &[u8]) -> Result<(), Fault> {
        let done = self.out.write_all(bytes);
        answer(&mut self.faults, done)
    }
}
