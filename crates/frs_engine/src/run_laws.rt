//! What follows from the promise of a run for runs on one store, one after another.
ghost use Rattle.std.specs.Prelude.{ℕ, List, Option, Some, IsTrue};
ghost use Rattle.std.specs.List.{AllZip};
ghost use Rattle.std.specs.FinMap.{entries};
ghost use Rattle.frs_types.specs.Maps.{Maps};
ghost use Rattle.frs_history.specs.declared.command.Line.{Line};
ghost use Rattle.frs_disk.specs.Disk.{Image};
ghost use Rattle.frs_recovery.specs.Sound.{IsReady};
ghost use Rattle.frs_book.specs.Books.{BookView};
ghost use Rattle.frs_store.specs.SessionEnd.{RecoversTo};
ghost use Rattle.frs_engine.specs.Promise.{IsRun, EndsWhole};
ghost use Rattle.frs_engine.specs.RunsInOrder.{EndedRun, AreInOrder, AreKept, IsRunOn, maps_after, ended_by_crash, ended_now, ended_at_close};

use frs_disk::Disk;
use frs_segment::one_log;
use frs_store::runs_in_order;

/// Over runs on a store, one after another, the last files recover to the maps of the first ones with the first commits
/// of each run applied, run by run: of a run that was closed all, and of one that a crash ended those up to some LSN.
/// Such a run is what `frs_run` did with what a crash at any moment since its start leaves, with what a crash leaves
/// once it has returned, all that is acknowledged among it, and, where all was done, with all commits.
pub fn maps_after_runs<D: Disk>()
    ensures maps { (first last : Image) (runs : List EndedRun) (n : ℕ) (m : Maps)
        → AreInOrder first runs last → RecoversTo (entries first) n m
        → (counts : List ℕ) × AllZip AreKept runs counts
        × ((k : ℕ) × RecoversTo (entries last) k (maps_after m runs counts)) }
    ensures crash { (old new : D) (script : List Line) (book : Option BookView) → IsRun D.Disk old new script book
        → IsTrue (D.tells old) → IsReady D.Disk old → (c : Image)
        → D.left_since new (D.moment old) c → IsRunOn (D.reads old) (ended_by_crash book c) }
    ensures now { (old new : D) (script : List Line) (book : Option BookView)
        → IsRun D.Disk old new script book → IsTrue (D.tells old) → IsReady D.Disk old
        → (c : Image) → D.may_leave new c → D.left_since new (D.moment old) c
        → IsRunOn (D.reads old) (ended_now book c) }
    ensures close { (old new : D) (script : List Line) (b : BookView)
        → IsRun D.Disk old new script (Some b) → EndsWhole D.Disk old new b.session b.acks
        → IsTrue (D.tells old) → IsReady D.Disk old → (c : Image)
        → D.may_leave new c → IsRunOn (D.reads old) (ended_at_close b c) }
{
    one_log();
    runs_in_order();
}
