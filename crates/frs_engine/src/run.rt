//! Runs the scripts of a plan against a disk.
ghost use Rattle.std.specs.Prelude.{◌≡◌, ◌≢◌, ◌⊎◌, List, None, length, IsTrue};
ghost use Rattle.frs_history.specs.declared.command.Line.{Line};
ghost use Rattle.frs_disk.specs.Frames.{NoneRemovedAbove, GoesOn};
ghost use Rattle.frs_engine.specs.Causes.{one_file, ending_of_plan, handed, IsCause, IsEndOfRun};
ghost use Rattle.frs_engine.specs.Promise.{IsRun, LeavesReady, EndsWholeIf};
ghost use Rattle.frs_engine.specs.Runs.{LeavesFiles, HasWork, LeavesAlone, WasRun, HasCauses, IsComplete};
ghost use Rattle.frs_engine.specs.Sessions.{AnswersAll};

use crate::ending::Ending;
use crate::outcome::Outcome;
use crate::plan_script::read_script;
use crate::report::report;
use frs_disk::{Disk, Files, Shelf, Sink};
use frs_history::Script;
use frs_recovery::one_answer;
use frs_segment::one_log;
use frs_store::{
    CLIENT, Call, Closed, Session, Unopened, begun_maps, recovered_commits, unopened_end,
};
use frs_text::RunPlan;
use frs_types::Turn;
use std::alloc::Global;
use std::sync::Wait;
use std::thread::Threads;

/// What a run gives back.
#[derive(Drop)]
pub struct Ended<D, H> {
    /// How it ended: 0 where all was done, 2 where a line of the script is refused, 3 where the disk failed, 4 where
    /// the store is refused, 5 where a file wasn't read, 6 where the sink failed, 8 where a limit was met, 9 where
    /// there was no memory, 10 where it can't be run yet.
    pub status: u8,
    /// The disk, as the run left it.
    pub disk: D,
    /// The shelf of snapshots, as the run left it.
    pub shelf: H,
}

// Answers the client's commands until its script is at its end or the session has stopped.
fn answer_all<D: Disk>(alloc: Global, session: &mut Session<D>)
    requires going { session.old.stop ≡ None }
    requires one { length session.old.store.book.session.scripts ≡ 1 }
    ensures { AnswersAll D.Disk session.old session.new }
{
    while let Call::Done { place: _place } = session.call(alloc, CLIENT) {}
}

// The run of the script on the store of this disk.
fn run_script<D: Disk>(alloc: Global, disk: D, script: Script) -> Outcome<D>
    requires pending { IsTrue (D.tells disk) → NoneRemovedAbove D.Disk disk }

    ensures run { IsRun D.Disk disk result.disk script result.book }
    ensures whole { result.ending ≡ Ending.Closed → EndsWholeIf D.Disk disk result.disk result.book }
    ensures end { IsEndOfRun D.Disk disk result.disk result.book result.ending }
    ensures frame { GoesOn D.Disk disk result.disk }
    ensures steady { result.ending ≢ Ending.Disk → D.faults result.disk ≡ D.faults disk }
{
    // What follows from what is known of a session, from its start and from its end.
    one_log();
    begun_maps();
    recovered_commits::<D>();
    unopened_end::<D>();
    match Session::start(alloc, disk, script) {
        Ok(session) => {
            let mut session = session;
            answer_all(alloc, &mut session);
            let Closed { book, disk, stop } = session.close(alloc);
            Outcome {
                disk,
                book: Some(book),
                ending: Ending::from(stop),
            }
        }
        Err(Unopened { disk, fault }) => Outcome::nothing(disk, Ending::from(fault)),
    }
}

// What a run of the plan does, before anything is printed.
fn attempt<D: Disk, F: Files>(alloc: Global, plan: &RunPlan, disk: D, files: &mut F) -> Outcome<D>
    requires { IsTrue (D.tells disk) → NoneRemovedAbove D.Disk disk }

    ensures run { (script : List Line)
        × IsRun D.Disk disk result.disk script result.book
        × IsCause D.Disk F.Files (handed plan.now disk result.disk files.old files.new)
        script result.book result.ending }
    ensures whole { result.ending ≡ Ending.Closed → EndsWholeIf D.Disk disk result.disk result.book }
    ensures several { one_file plan.now ≡ None → result.ending ≡ ending_of_plan plan.now }
    ensures frame { GoesOn D.Disk disk result.disk }
    ensures disk_steady { result.ending ≢ Ending.Disk → D.faults result.disk ≡ D.faults disk }
    ensures files_steady { result.ending ≢ Ending.Unread
        → F.faults files.new ≡ F.faults files.old }
    ensures files { LeavesFiles F.Files (handed plan.now disk result.disk files.old files.new) }
{
    // What a disk that is left alone recovers to.
    unopened_end::<D>();
    match read_script(alloc, plan, files) {
        Ok(script) => run_script(alloc, disk, script),
        Err(ending) => Outcome::nothing(disk, ending),
    }
}

/// Runs the scripts of the plan against the disk, and prints what was answered and what is durable. So far that is one
/// script that asks for no snapshot.
///
/// The store that the disk has is recovered, a segment is made behind its greatest number, and an opening mark is
/// written; then the script is run, and where nothing has stopped it, all that was drawn is made durable, and a closing
/// mark. A store that can't be read back is refused, and nothing is written then.
///
/// The plan names at least one file, or has the numbers of a demo within their limits, and no removal is pending on the
/// disk of a number above those of its files. The shelf comes back as it was. Nothing waits yet,
/// and the turn is told nothing. Once all was done the disk may be run on again.
///
/// The status is 0 where all was done, 2 where a line of the script is refused, 3 where the disk failed, 4 where the
/// files of the store spell no log, 5 where the file of the script wasn't read, 6 where the sink failed after a run that
/// was whole, 8 where there are more than 64 files, the script has a command too many, or an LSN or the number of a
/// segment would be 2^62, 9 where there was no memory, and 10 where there are 2 to 64 files, a demo is asked for, or the
/// script asks for a snapshot.
pub fn frs_run<
    R: Threads + Wait + Sync,
    D: Disk + Send,
    F: Files,
    H: Shelf + Send,
    S: Sink,
    T: Turn + Sync,
>(
    _rt: &R,
    alloc: Global,
    plan: &RunPlan,
    disk: D,
    files: &mut F,
    shelf: H,
    sink: &mut S,
    _turn: &T,
) -> Ended<D, H>
    requires work { HasWork plan.now }
    requires pending { IsTrue (D.tells disk) → NoneRemovedAbove D.Disk disk }

    // What was run is a legal history of the script, and what was printed is its text. A crash leaves the maps after
    // some of its commits, with all acknowledged ones.
    ensures run { WasRun D.Disk F.Files S.Sink
        (handed plan.now disk result.disk files.old files.new) sink.old sink.new result.status }

    // Each status has its cause, and what is asked for has its status.
    ensures causes { HasCauses D.Disk F.Files S.Sink
        (handed plan.now disk result.disk files.old files.new) sink.old sink.new result.status }
    ensures complete { IsComplete D.Disk F.Files S.Sink
        (handed plan.now disk result.disk files.old files.new) sink.old sink.new result.status }

    // What it leaves.
    ensures left_alone { LeavesAlone D.Disk disk result.disk result.status }
    ensures again { (result.status ≡ 0) ⊎ (result.status ≡ 6) → LeavesReady D.Disk disk result.disk }
    ensures files { LeavesFiles F.Files (handed plan.now disk result.disk files.old files.new) }
    ensures frame { GoesOn D.Disk disk result.disk }
    ensures shelf { result.shelf ≡ shelf }
{
    // Of a store one thing alone is true: what its files spell, or what is wrong with them first.
    one_log();
    one_answer();
    let outcome = attempt(alloc, plan, disk, files);
    let status = report(alloc, &outcome, sink);
    let Outcome { disk, .. } = outcome;
    Ended {
        status,
        disk,
        shelf,
    }
}
