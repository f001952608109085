// What a run has around it beside the disk: the files of commands, the shelf of snapshots and the sink of its text.
ghost use Rattle.std.specs.Prelude.{◌≡◌, ◌≢◌, ◌<◌, ◌^◌, ◌++◌, ℕ, Bool, List, Option, Some, length, IsTrue, IfOk, OnOk};
ghost use Rattle.std.specs.FinMap.{get, insert};
ghost use Rattle.frs_disk.specs.Disk.{HasCause};
ghost use Rattle.frs_disk.specs.Outside.{ShelfFiles, greatest_snapshot, AddsPartOf};

use crate::disk::Fault;
use crate::name::Name;
use std::alloc::Global;

/// Files of commands, read as a whole by their names.
pub trait Files {
    /// Whether it tells below what the files hold. No call changes it.
    ghost tells: { Self → Bool };

    /// The bytes of the file with a name, or none where there is no such file.
    ghost file: { Self → List ℕ → Option (List ℕ) };

    /// How often a call has failed. The count stands still at its type's end.
    ghost faults: { Self → ℕ };

    /// All bytes of a file, of which there are fewer than 2^32. A name that is not known fails, as a larger file.
    fn read(&mut self, alloc: Global, name: &Name) -> Result<Vec<u8>, Fault>
        ensures bytes { IfOk result (λ bytes. IsTrue (tells self.old)
            → file self.old name.now ≡ Some bytes.items) }
        ensures short { IfOk result (λ bytes. length bytes.items < 2 ^ 32) }
        ensures told { tells self.new ≡ tells self.old }
        ensures kept { (n : List ℕ) → file self.new n ≡ file self.old n }
        ensures cause { HasCause (faults self.old) (faults self.new) result };
}

/// A shelf that keeps snapshots: for the numbers of a snapshot and of a segment the bytes of that segment.
pub trait Shelf {
    /// Whether it tells below what it holds. No call changes it.
    ghost tells: { Self → Bool };

    /// What it holds.
    ghost holds: { Self → ShelfFiles };

    /// How often a call has failed. The count stands still at its type's end.
    ghost faults: { Self → ℕ };

    /// The greatest number of a snapshot that it holds a segment of, or 0.
    fn greatest(&mut self) -> Result<u64, Fault>
        ensures greatest { IfOk result (λ n. IsTrue (tells self.old)
            → n ≡ greatest_snapshot (holds self.old)) }
        ensures told { tells self.new ≡ tells self.old }
        ensures kept { holds self.new ≡ holds self.old }
        ensures cause { HasCause (faults self.old) (faults self.new) result };

    /// Sets the bytes of one segment of one snapshot. Where it is refused they may be as before, be gone or be any
    /// bytes. All others stay, whatever it answers.
    fn put(&mut self, snapshot: u64, segment: u64, bytes: &[u8]) -> Result<(), Fault>
        ensures set { OnOk result (IsTrue (tells self.old)
            → holds self.new ≡ insert (holds self.old) (snapshot, segment) bytes.now) }
        ensures others { (q : ℕ × ℕ) → q ≢ (snapshot, segment)
            → get (holds self.new) q ≡ get (holds self.old) q }
        ensures told { tells self.new ≡ tells self.old }
        ensures cause { HasCause (faults self.old) (faults self.new) result };
}

/// Where a run writes its text.
pub trait Sink {
    /// Whether it tells below what was written. No call changes it.
    ghost tells: { Self → Bool };

    /// All bytes that were written so far.
    ghost written: { Self → List ℕ };

    /// How often a call has failed. The count stands still at its type's end.
    ghost faults: { Self → ℕ };

    /// Writes these bytes behind those that are there. Where it is refused, a first part of them may have been
    /// written.
    fn write(&mut self, bytes: &[u8]) -> Result<(), Fault>
        ensures whole { OnOk result (IsTrue (tells self.old)
            → written self.new ≡ written self.old ++ bytes.now) }
        ensures part { IsTrue (tells self.old)
            → AddsPartOf bytes.now (written self.old) (written self.new) }
        ensures told { tells self.new ≡ tells self.old }
        ensures cause { HasCause (faults self.old) (faults self.new) result };
}
