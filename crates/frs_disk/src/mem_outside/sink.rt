// A sink in memory.
ghost use Rattle.std.specs.Prelude.{◌≡◌, ◌++◌, [], true, IfOk, OnOk, OnErr};
ghost use Rattle.frs_disk.specs.Disk.{HasCause};
ghost use Rattle.frs_disk.specs.Faults.{FailsExactly};
ghost use Rattle.frs_disk.specs.Outside.{AddsPartOf};
ghost use Rattle.frs_disk.specs.MemOutside.{written_to, sink_tally, new_tally, next_fails, tally_after};

use super::{MemSink, Tally};
use crate::disk::Fault;
use crate::outside::Sink;
use frs_types::NoMemory;
use std::alloc::Global;

impl MemSink {
    /// A sink to which nothing was written. The calls with the numbers in `failing`, counted from 1, will fail; a
    /// call that is refused for memory isn't counted.
    pub fn of(alloc: Global, failing: Vec<u64>) -> Result<MemSink, NoMemory>
        ensures empty { IfOk result (λ made. written_to made ≡ []) }
        ensures faults { IfOk result (λ made. (sink_tally made).faults ≡ 0) }
        ensures tally { IfOk result (λ made. sink_tally made ≡ new_tally failing) }
    {
        Ok(MemSink {
            bytes: Vec::new(alloc),
            tally: Tally::of(failing),
        })
    }

    /// All that was written.
    pub fn bytes(&self) -> &[u8]
        ensures { result.now ≡ written_to self.now }
    {
        self.bytes.as_slice()
    }
}

impl Sink for MemSink {
    ghost tells = { λ _. true };

    ghost written = { written_to };

    ghost faults = { λ m. (sink_tally m).faults };

    fn write(&mut self, bytes: &[u8]) -> Result<(), Fault>
        ensures whole { OnOk result (written_to self.new ≡ written_to self.old ++ bytes.now) }
        ensures part { AddsPartOf bytes.now (written_to self.old) (written_to self.new) }
        ensures cause { HasCause (sink_tally self.old).faults (sink_tally self.new).faults result }
        ensures refused { OnErr result (written_to self.new ≡ written_to self.old) }
        ensures planned { FailsExactly (next_fails (sink_tally self.old)) result }
        ensures counted { sink_tally self.new ≡ tally_after result (sink_tally self.old) }
    {
        if self.tally.next_fails() {
            return Err(self.tally.failed());
        }
        self.bytes.extend_from_slice(bytes)?;
        self.tally.done();
        Ok(())
    }
}
