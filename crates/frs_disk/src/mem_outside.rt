// The outside in memory: files of commands, a shelf and a sink, whose calls fail as they are told.
ghost use Rattle.std.specs.Prelude.{T, IsTrue};
ghost use Rattle.std.specs.FinMap.{is_sorted};
ghost use Rattle.frs_disk.specs.Outside.{are_short, shelf_cmp};
ghost use Rattle.frs_disk.specs.ShelfEntries.{shelf_entries};

mod counts;
mod files;
mod shelf;
mod sink;

use crate::name::Name;
use std::alloc::Global;

/// The calls of a form in memory, counted, and those of them that fail.
#[derive(Debug, Drop)]
struct Tally {
    failing: Vec<u64>,
    made: u64,
    faults: u64,
}

/// Files of commands in memory.
#[derive(Drop)]
pub struct MemFiles {
    files: Vec<(Name, Vec<u8>)>,
    tally: Tally,
    ghost short: { IsTrue (are_short files.items) },
}

/// A shelf in memory, its segments in rising order of the snapshot's number and then of their own.
#[derive(Drop)]
pub struct MemShelf {
    alloc: Global,
    held: Vec<(u64, u64, Vec<u8>)>,
    tally: Tally,
    ghost rising: { T (is_sorted shelf_cmp (shelf_entries held.items)) },
}

/// A sink in memory.
#[derive(Drop)]
pub struct MemSink {
    bytes: Vec<u8>,
    tally: Tally,
}
