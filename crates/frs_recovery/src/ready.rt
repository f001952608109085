//! Disks from which a session can go on.
ghost use Rattle.std.specs.Prelude.{◌≡◌};
ghost use Rattle.std.specs.FinMap.{empty, entries};
ghost use Rattle.frs_types.specs.Records.{Log};
ghost use Rattle.frs_disk.specs.Disk.{Image};
ghost use Rattle.frs_disk.specs.Frames.{IsRestarted, NoneRemovedAbove, OnlyReads};
ghost use Rattle.frs_segment.specs.Segments.{Spells};
ghost use Rattle.frs_recovery.specs.Sound.{IsSound, IsReady};

use frs_disk::Disk;

/// A restarted disk whose image is sound, or that has no file, is ready, and looking at a ready disk keeps it so. Of a
/// ready disk each crash now leaves an image that is sound and spells what the disk reads, and no removal is pending
/// above its files.
pub fn ready_disks<D: Disk>()
    ensures restarted { (disk : D) → IsRestarted D.Disk disk → IsSound (entries (D.reads disk))
        → IsReady D.Disk disk }
    ensures no_file { (disk : D) → IsRestarted D.Disk disk → D.reads disk ≡ empty
        → IsReady D.Disk disk }
    ensures looked_at { (old new : D) → IsReady D.Disk old → OnlyReads D.Disk old new
        → IsReady D.Disk new }
    ensures sound { (disk : D) → IsReady D.Disk disk → (c : Image) → D.may_leave disk c
        → IsSound (entries c) }
    ensures spelled { (disk : D) → IsReady D.Disk disk → (c : Image) → D.may_leave disk c
        → (log : Log) → Spells (entries (D.reads disk)) log → Spells (entries c) log }
    ensures pending { (disk : D) → IsReady D.Disk disk → NoneRemovedAbove D.Disk disk }
{}
