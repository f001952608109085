//! What a filter is.
ghost use Rattle.std.specs.Prelude.{◌≡◌, ℕ, Option, IfOk, OnOk, OnErr};
ghost use Rattle.frs_types.specs.declared.record.Record.{Record};

use frs_types::{NoMemory, Record};

/// Gives records on or drops them, by what it noted of those that were offered before. They are offered from the
/// greatest LSN to the least.
pub trait Filter {
    /// The record that it gives on, with its LSN.
    ghost given: { Self → ℕ → Record → Option (ℕ × Record) };

    /// The filter once the record was offered.
    ghost noted: { Self → ℕ → Record → Self };

    /// Gives the record on, or drops it and answers `None`. Where there was no memory for a note, the record is gone
    /// and the filter is as it was.
    fn offer(&mut self, lsn: u64, r: Record) -> Result<Option<(u64, Record)>, NoMemory>
        ensures given { IfOk result (λ g. g ≡ given self.old lsn r) }
        ensures noted { OnOk result (self.new ≡ noted self.old lsn r) }
        ensures refused { OnErr result (self.new ≡ self.old) };
}
