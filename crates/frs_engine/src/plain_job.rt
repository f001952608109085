//! A job without clients: it looks at a store and prints what it holds. Nothing on the disk changes.
ghost use Rattle.std.specs.Prelude.{◌≡◌, ◌≢◌, ◌⊎◌, List, IsTrue, OnOk};
ghost use Rattle.std.specs.FinMap.{entries};
ghost use Rattle.frs_types.specs.Records.{Log};
ghost use Rattle.frs_disk.specs.Disk.{HasCause};
ghost use Rattle.frs_disk.specs.Frames.{OnlyReads};
ghost use Rattle.frs_segment.specs.Segments.{WholeSegment, SpellsBy};
ghost use Rattle.frs_recovery.specs.FirstFault.{IsWrongFirst};
ghost use Rattle.frs_text.specs.Sinks.{WritesAll, WritesPart};
ghost use Rattle.frs_text.specs.declared.plan.PlainPlan.TheVariants.{Compact};
ghost use Rattle.frs_engine.specs.Reports.{IsReported};
ghost use Rattle.frs_engine.specs.PlainJobs.{refusal_status, finding_status, finding_text, IsSaid, IsPrintable, WasLookedAt, HasPlainCauses, IsPlainComplete};

use crate::finding::{Finding, line_of};
use frs_disk::{Disk, Fault, Sink};
use frs_recovery::recover;
use frs_text::{LastLine, PlainPlan, dump, stat_of_store, stat_text, write_last_line};
use std::alloc::Global;

/// What a job without clients gives back.
#[derive(Drop)]
pub struct Left<D> {
    /// How it ended: 0 where all was done, 3 where the disk failed, 4 where the files spell no log, 6 where the sink
    /// failed, 8 where an LSN is too large, 9 where there was no memory, 10 where it can't be done yet.
    pub status: u8,
    /// The disk, as the job left it.
    pub disk: D,
}

// What a job is to print.
fn look<D: Disk>(alloc: Global, plan: &PlainPlan, disk: &mut D) -> Finding
    ensures said { IsSaid D.Disk plan.now disk.old disk.new
        (finding_status result) (finding_text result) }
    ensures refused { IsTrue (D.tells disk.old) → plan.now ≢ Compact
        → (fault : _) → IsWrongFirst (entries (D.reads disk.old)) fault
        → (finding_status result ≡ refusal_status fault) ⊎ (finding_status result ≡ 3)
        ⊎ (finding_status result ≡ 9) }
    ensures only { IsTrue (D.tells disk.old) → plan.now ≢ Compact
        → (segments : List WholeSegment) (log : Log)
        → SpellsBy (entries (D.reads disk.old)) segments log
        → (finding_status result ≡ 0) ⊎ (finding_status result ≡ 3) ⊎ (finding_status result ≡ 9) }
    ensures printable { IsPrintable result }
    ensures unread { plan.now ≡ Compact → disk.new ≡ disk.old }
    ensures frame { OnlyReads D.Disk disk.old disk.new }
{
    stat_of_store();
    match plan {
        PlainPlan::Recover => Finding::of_maps(recover(alloc, disk)),
        PlainPlan::Stat => Finding::of_numbers(recover(alloc, disk)),
        PlainPlan::Compact => Finding::Later,
    }
}

// Prints what is known of a store.
fn print<S: Sink>(alloc: Global, finding: &Finding, sink: &mut S) -> Result<(), Fault>
    requires { IsPrintable finding.now }
    ensures all { OnOk result (WritesAll S.Sink (finding_text finding.now) sink.old sink.new) }
    ensures part { WritesPart S.Sink (finding_text finding.now) sink.old sink.new }
    ensures told { S.tells sink.new ≡ S.tells sink.old }
    ensures cause { HasCause (S.faults sink.old) (S.faults sink.new) result }
{
    match finding {
        Finding::Later => write_last_line(alloc, LastLine::Later, sink),
        Finding::Maps { entries } => dump(alloc, entries.items(), sink),
        Finding::Numbers { recovered } => stat_text(alloc, recovered, sink),
        Finding::Refused { fault } => write_last_line(alloc, line_of(*fault), sink),
    }
}

// Prints what is known of a store, and gives the number of the status. It is that which was decided, unless the sink
// failed where all else was done, or memory ran out while it was printed.
fn tell<S: Sink>(alloc: Global, finding: &Finding, sink: &mut S) -> u8
    requires { IsPrintable finding.now }
    ensures { IsReported S.Sink (finding_text finding.now) (finding_status finding.now) result
        sink.old sink.new }
{
    let printed = print(alloc, finding, sink);
    finding.status().after(printed).code()
}

/// Looks at the store on the disk and prints what the plan asks for: `Recover` its maps, `Stat` its numbers. `Compact`
/// isn't built yet; nothing is read for it.
///
/// The status is 0 where all was done, 3 where the disk failed, 4 where the first thing wrong with the files is a
/// header, a chunk or a gap, 6 where the sink failed after all else was done, 8 where it is an LSN that is too large,
/// 9 where there was no memory, and 10 with the text `later` for `Compact`. Nothing on the disk changes.
pub fn frs_plain<D: Disk, S: Sink>(
    alloc: Global,
    plan: &PlainPlan,
    disk: D,
    sink: &mut S,
) -> Left<D>
    ensures ran { WasLookedAt D.Disk S.Sink plan.now disk result.disk
        sink.old sink.new result.status }
    ensures causes { HasPlainCauses D.Disk S.Sink plan.now disk result.disk
        sink.old sink.new result.status }
    ensures complete { IsPlainComplete D.Disk S.Sink plan.now disk result.disk
        sink.old sink.new result.status }

    // Nothing on the disk changes, at no moment.
    ensures unread { plan.now ≡ Compact → result.disk ≡ disk }
    ensures frame { OnlyReads D.Disk disk result.disk }
{
    let mut disk = disk;
    let finding = look(alloc, plan, &mut disk);
    let status = tell(alloc, &finding, sink);
    Left { status, disk }
}
