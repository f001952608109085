// A shelf in memory.
ghost use Rattle.std.specs.Prelude.{◌≡◌, ◌≢◌, ◌<◌, ◌≤◌, ℕ, List, [], true, length, set, map, T, IfOk, OnOk, OnErr, MatchResult};
ghost use Rattle.std.specs.List.{insert as insert_at};
ghost use Rattle.std.specs.FinMap.{empty, entries, get, insert, put, is_sorted};
ghost use Rattle.std.specs.Ordering.{nat_cmp};
ghost use Rattle.frs_disk.specs.Disk.{HasCause};
ghost use Rattle.frs_disk.specs.Faults.{FailsExactly};
ghost use Rattle.frs_disk.specs.Outside.{greatest_of, greatest_snapshot, shelf_cmp};
ghost use Rattle.frs_disk.specs.ShelfEntries.{shelf_entries};
ghost use Rattle.frs_disk.specs.MemOutside.{held_on, shelf_tally, new_tally, next_fails, tally_after};

use super::{MemShelf, Tally};
use crate::disk::Fault;
use crate::outside::Shelf;
use frs_types::NoMemory;
use std::alloc::{AllocError, Global};
use std::cmp::Ordering;

impl MemShelf {
    /// A shelf that holds nothing. The calls with the numbers in `failing`, counted from 1, will fail; a call that
    /// is refused for memory isn't counted.
    pub fn of(alloc: Global, failing: Vec<u64>) -> Result<MemShelf, NoMemory>
        ensures empty { IfOk result (λ made. held_on made ≡ empty) }
        ensures faults { IfOk result (λ made. (shelf_tally made).faults ≡ 0) }
        ensures tally { IfOk result (λ made. shelf_tally made ≡ new_tally failing) }
    {
        Ok(MemShelf {
            alloc,
            held: Vec::new(alloc),
            tally: Tally::of(failing),
        })
    }

    /// What it holds: the number of a snapshot, that of a segment and the segment's bytes, in rising order of the
    /// numbers.
    pub fn held(&self) -> &[(u64, u64, Vec<u8>)]
        ensures { entries (held_on self.now) ≡ shelf_entries result.now }
    {
        &self.held
    }
}

impl Shelf for MemShelf {
    ghost tells = { λ _. true };

    ghost holds = { held_on };

    ghost faults = { λ m. (shelf_tally m).faults };

    fn greatest(&mut self) -> Result<u64, Fault>
        ensures greatest { IfOk result (λ n. n ≡ greatest_snapshot (held_on self.old)) }
        ensures kept { held_on self.new ≡ held_on self.old }
        ensures cause { HasCause (shelf_tally self.old).faults
            (shelf_tally self.new).faults result }
        ensures planned { FailsExactly (next_fails (shelf_tally self.old)) result }
        ensures counted { shelf_tally self.new ≡ tally_after result (shelf_tally self.old) }
    {
        if self.tally.next_fails() {
            return Err(self.tally.failed());
        }
        self.tally.done();
        Ok(greatest_in(&self.held))
    }

    fn put(&mut self, snapshot: u64, segment: u64, bytes: &[u8]) -> Result<(), Fault>
        ensures set { OnOk result (held_on self.new
            ≡ insert (held_on self.old) (snapshot, segment) bytes.now) }
        ensures others { (q : ℕ × ℕ) → q ≢ (snapshot, segment)
            → get (held_on self.new) q ≡ get (held_on self.old) q }
        ensures cause { HasCause (shelf_tally self.old).faults
            (shelf_tally self.new).faults result }
        ensures refused { OnErr result (held_on self.new ≡ held_on self.old) }
        ensures planned { FailsExactly (next_fails (shelf_tally self.old)) result }
        ensures counted { shelf_tally self.new ≡ tally_after result (shelf_tally self.old) }
    {
        if self.tally.next_fails() {
            return Err(self.tally.failed());
        }
        let copy = bytes.to_vec(self.alloc)?;
        put_segment(&mut self.held, snapshot, segment, copy)?;
        self.tally.done();
        Ok(())
    }
}

// Sets the bytes of one segment, which may be new.
fn put_segment(
    held: &mut Vec<(u64, u64, Vec<u8>)>,
    snapshot: u64,
    segment: u64,
    bytes: Vec<u8>,
) -> Result<(), AllocError>
    ensures ok { OnOk result (shelf_entries held.new.items
        ≡ put shelf_cmp (snapshot, segment) bytes.items (shelf_entries held.old.items)) }
    ensures err { OnErr result (held.new.items ≡ held.old.items) }
{
    match place_of(held, snapshot, segment) {
        Ok(at) => {
            held[at] = (snapshot, segment, bytes);
            Ok(())
        }
        Err(at) => Ok(held.insert(at, (snapshot, segment, bytes))?),
    }
}

// Where a segment stands, or where it would stand.
fn place_of(held: &[(u64, u64, Vec<u8>)], snapshot: u64, segment: u64) -> Result<usize, usize>
    ensures there { IfOk result (λ at. at < length held.now) }
    ensures puts { MatchResult result
        (λ at. (bytes : List ℕ)
        → put shelf_cmp (snapshot, segment) bytes (shelf_entries held.now)
        ≡ set (shelf_entries held.now) at ((snapshot, segment), bytes))
        (λ at. (at ≤ length held.now)
        × ((bytes : List ℕ)
        → put shelf_cmp (snapshot, segment) bytes (shelf_entries held.now)
        ≡ insert_at (shelf_entries held.now) at ((snapshot, segment), bytes))) }
{
    for (at, entry) in held.iter().enumerate() {
        match snapshot.cmp(&entry.0).then(segment.cmp(&entry.1)) {
            Ordering::Greater => {}
            Ordering::Equal => return Ok(at),
            Ordering::Less => return Err(at),
        }
    }
    Err(held.len())
}

// The greatest number of a snapshot, or 0.
fn greatest_in(held: &[(u64, u64, Vec<u8>)]) -> u64
    ensures { result ≡ greatest_of (map (λ e. e.0) held.now) }
{
    let mut greatest = 0;
    let mut rest = held;
    while let [entry, after @ ..] = rest {
        greatest = entry.0.max(greatest);
        rest = after;
    }
    greatest
}
