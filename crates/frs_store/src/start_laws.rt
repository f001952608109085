//! What follows from what is known of a session that has started, or wasn't opened.
ghost use Rattle.std.specs.Prelude.{◌≡◌, List, IsTrue};
ghost use Rattle.std.specs.FinMap.{entries};
ghost use Rattle.frs_types.specs.declared.record.Record.{Record};
ghost use Rattle.frs_types.specs.Lawful.{plain_maps};
ghost use Rattle.frs_types.specs.Records.{Log, from_lowest};
ghost use Rattle.frs_types.specs.Survivors.{survivors, maps_of};
ghost use Rattle.frs_disk.specs.Frames.{Within};
ghost use Rattle.frs_segment.specs.Segments.{FileList, Spells};
ghost use Rattle.frs_recovery.specs.Sound.{IsReady};
ghost use Rattle.frs_book.specs.Drawn.{SessionHistory};
ghost use Rattle.frs_store.specs.SessionEnd.{BeginsOn};
ghost use Rattle.frs_store.specs.Start.{LeavesOpening, RecoversSame};

use frs_disk::Disk;
use frs_segment::one_log;

/// A session that goes on behind the records that an image spells begins with the maps of what survives of its log.
pub fn begun_maps()
    ensures { (before : List Record) (h : SessionHistory) (image : FileList) (log : Log)
        → BeginsOn before h → Spells image (from_lowest 1 before) → Spells image log
        → maps_of (survivors log) ≡ plain_maps h.entries }
{
    one_log();
}

/// Where a session wasn't opened on a ready disk, each crash since the start recovers to the maps of what survives of
/// the log that the files spelled.
pub fn unopened_end<D: Disk>()
    ensures { (old new : D) → LeavesOpening D.Disk old new → IsTrue (D.tells old)
        → IsReady D.Disk old → (log : Log) → Spells (entries (D.reads old)) log
        → Within D.Disk old new (RecoversSame log) }
{
    one_log();
}
