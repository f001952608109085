//! Prints what a run did, and answers its status.
ghost use Rattle.std.specs.Prelude.{◌≡◌, IsTrue, OnOk};
ghost use Rattle.frs_disk.specs.Disk.{HasCause};
ghost use Rattle.frs_engine.specs.Endings.{status_of, outcome_text};
ghost use Rattle.frs_engine.specs.Reports.{Prints, PrintsAll, IsReported};

use crate::outcome::Outcome;
use frs_disk::{Fault, Sink};
use frs_text::{transcript, write_last_line};
use std::alloc::Global;

// The transcript, which is empty where nothing was run, and the last line.
fn print<D, S: Sink>(alloc: Global, outcome: &Outcome<D>, sink: &mut S) -> Result<(), Fault>
    ensures all { OnOk result (IsTrue (S.tells sink.old)
        → PrintsAll (outcome_text outcome.now) (S.written sink.old) (S.written sink.new)) }
    ensures part { IsTrue (S.tells sink.old)
        → Prints (outcome_text outcome.now) (S.written sink.old) (S.written sink.new) }
    ensures told { S.tells sink.new ≡ S.tells sink.old }
    ensures cause { HasCause (S.faults sink.old) (S.faults sink.new) result }
{
    transcript(
        alloc,
        outcome.scripts(),
        outcome.events(),
        outcome.acks(),
        sink,
    )?;
    write_last_line(alloc, outcome.ending.last_line(), sink)
}

/// Prints the outcome, and gives the number of its status. It is that of its ending, unless the sink failed after a run
/// that was whole, or memory ran out while it was printed.
pub(crate) fn report<D, S: Sink>(alloc: Global, outcome: &Outcome<D>, sink: &mut S) -> u8
    ensures { IsReported S.Sink (outcome_text outcome.now) (status_of outcome.now.ending) result
        sink.old sink.new }
{
    let printed = print(alloc, outcome, sink);
    outcome.ending.status().after(printed).code()
}
