//! What follows from what is known of a session that has ended.
ghost use Rattle.std.specs.Prelude.{◌≡◌, ℕ, ◌≤◌, ◌++◌, List, [], length, take};
ghost use Rattle.std.specs.List.{AllZip};
ghost use Rattle.std.specs.FinMap.{entries};
ghost use Rattle.frs_types.specs.declared.record.Record.{Record};
ghost use Rattle.frs_types.specs.Maps.{Maps};
ghost use Rattle.frs_types.specs.Records.{Log, from_lowest};
ghost use Rattle.frs_types.specs.Lawful.{Lawful};
ghost use Rattle.frs_disk.specs.Disk.{Image};
ghost use Rattle.frs_disk.specs.Frames.{Within};
ghost use Rattle.frs_segment.specs.Segments.{FileList};
ghost use Rattle.frs_segment.specs.Stores.{log_up_to};
ghost use Rattle.frs_store.specs.SessionEnd.{SessionEnd, IsSessionEnd, RecoversTo, RecoversFront, RecoversAll, records_with};
ghost use Rattle.frs_store.specs.Sessions.{Run, AreInOrder, Stay, maps_after};

use frs_disk::Disk;

/// Each crash since the start of a session recovers to the maps after the commits up to some LSN, which isn't before
/// what was durable at the start; a crash now has all that is durable now; and where all was written, a crash now has
/// all commits.
pub fn recovered_commits<D: Disk>()
    ensures crash { (old new : D) (e : SessionEnd) → IsSessionEnd D.Disk old new e
        → Within D.Disk old new (RecoversFront (length e.before) e.session) }
    ensures now { (old new : D) (e : SessionEnd) → IsSessionEnd D.Disk old new e
        → (c : Image) → D.may_leave new c → RecoversFront e.synced e.session c }
    ensures all { (old new : D) (e : SessionEnd) → IsSessionEnd D.Disk old new e
        → e.synced ≡ length (records_with e.before e.session)
        → (c : Image) → D.may_leave new c → RecoversAll e.session c }
{}

/// A log that goes on behind the records that a store spells is spelled by the whole list of records: up to an LSN that
/// isn't before the last one at the start, both are the same log.
pub fn continued_log()
    ensures { (before taken : List Record) (log : Log) (n : ℕ) → Lawful [] 1 (before ++ taken)
        → log ≡ record (from_lowest 1 before) { records = (from_lowest 1 before).records ++ taken }
        → length before ≤ n → log_up_to n log ≡ from_lowest 1 (take n (before ++ taken)) }
{}

/// Over runs of a store, one after another, the last files recover to the maps of the first ones with the first commits
/// of each run applied, run by run: of a run that was closed all, and of one that a crash ended those up to some LSN,
/// which isn't before the last that was durable. Files recover to one list of maps at most.
pub fn runs_in_order()
    ensures maps { (first last : Image) (runs : List Run) (n : ℕ) (m : Maps)
        → AreInOrder first runs last → RecoversTo (entries first) n m
        → (counts : List ℕ) × AllZip Stay runs counts
        × ((k : ℕ) × RecoversTo (entries last) k (maps_after m runs counts)) }
    ensures one { (image : FileList) (n k : ℕ) (m other : Maps) → RecoversTo image n m
        → RecoversTo image k other → (n ≡ k) × (m ≡ other) }
{}
