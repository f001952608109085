//! Reading a store back.
ghost use Rattle.std.specs.Prelude.{◌≡◌, ◌<◌, ℕ, Bool, List, [], None, filter, nat_lt, reverse, unwrap_or, IsTrue, IfOk, IfErr, All};
ghost use Rattle.std.specs.FinMap.{entries, keys};
ghost use Rattle.std.specs.FinMap.Entries.{is_sorted};
ghost use Rattle.std.specs.Ordering.{nat_cmp};
ghost use Rattle.std.specs.List.{last_or};
ghost use Rattle.frs_types.specs.declared.record.Record.{Record};
ghost use Rattle.frs_types.specs.Records.{Log, from_lowest};
ghost use Rattle.frs_types.specs.Lawful.{Lawful, settled_state, state_after};
ghost use Rattle.frs_disk.specs.Disk.{bytes_at, IsNumber};
ghost use Rattle.frs_disk.specs.Frames.{IsThere, OnlyReads, ReadsNoWider};
ghost use Rattle.frs_segment.specs.Segments.{FileList, WholeSegment, SpellsBy, Spells};
ghost use Rattle.frs_segment.specs.Stores.{numbers_of};
ghost use Rattle.frs_recovery.specs.declared.fault.RecoverFault.{RecoverFault};
ghost use Rattle.frs_recovery.specs.Answers.{IsRecovered, IsInRange};
ghost use Rattle.frs_recovery.specs.Faults.{HasRecoverCause, IsCauseOnDisk, GivesRecovered, Refuses};
ghost use Rattle.frs_recovery.specs.DescentEnd.{LooksDown, end_of_newest, least_number};
ghost use Rattle.frs_recovery.specs.FirstFault.{IsWrongFirst};
ghost use Rattle.frs_recovery.specs.Sound.{HasState};

use crate::descent::{Descent, look_at};
use crate::fault::RecoverFault;
use crate::recovered::Recovered;
use crate::unique_answer::one_answer;
use frs_disk::Disk;
use frs_filters::survivors_in_order;
use frs_segment::{Found, Segment, WIDEST, one_log};
use frs_types::Sequence;
use std::alloc::Global;

/// Reads a store back: the entries that survive in its log, by rising LSN, what was found in its files, and the lowest
/// LSN that is still needed. Nothing on the disk changes.
///
/// It goes from the file with the greatest number down. Half-made files are noted and passed over. Each other file
/// has to be a segment and to end where the one above it begins. The newest record names the lowest LSN that is
/// needed; the segment that begins at or below it is the last that is looked at. A store without a record is looked
/// at to its end, and begins at LSN 1.
///
/// The fault is what is wrong first on this way: `BadHeader`, `BadChunk` or `NumberLimit` as `scan` tells it of a
/// file; `Gap` where a segment doesn't end where the one above it begins, with the LSN before that one and the last
/// LSN of the segment; `Gap` with 0 as the last LSN where no file is left and the log doesn't begin there. `Disk` and
/// `Memory` may come instead.
pub fn recover<D: Disk>(alloc: Global, disk: &mut D) -> Result<Recovered, RecoverFault>
    // What is read back is what the files spell.
    ensures found { IfOk result (λ r. IsTrue (D.tells disk.old)
        → (segments : List WholeSegment) × (log : Log)
        × IsRecovered (entries (D.reads disk.old)) segments log r) }

    // If the files spell a log, that is read back, unless the disk or memory fails.
    ensures only { IsTrue (D.tells disk.old) → (segments : List WholeSegment) (log : Log)
        → SpellsBy (entries (D.reads disk.old)) segments log
        → GivesRecovered (IsRecovered (entries (D.reads disk.old)) segments log) result }

    // Which fault it is: that which is first.
    ensures why { IsTrue (D.tells disk.old)
        → IfErr result (IsCauseOnDisk (entries (D.reads disk.old))) }
    ensures refused { IsTrue (D.tells disk.old) → (fault : RecoverFault)
        → IsWrongFirst (entries (D.reads disk.old)) fault → Refuses fault result }

    // Of a lawful log whose records from the named lowest on the files spell, it gives the state.
    ensures state { IsTrue (D.tells disk.old) → (records : List Record) → Lawful [] 1 records
        → Spells (entries (D.reads disk.old)) (from_lowest 1 records)
        → IfOk result (HasState (state_after (settled_state [] 1) records)) }

    // What holds also where the disk doesn't tell its files.
    ensures in_range { IfOk result IsInRange }

    ensures frame { OnlyReads D.Disk disk.old disk.new }
    ensures width { ReadsNoWider D.Disk WIDEST disk.old disk.new }
    ensures cause { HasRecoverCause (D.faults disk.old) (D.faults disk.new) result }
{
    one_answer();
    one_log();
    let numbers = disk.segments(alloc)?;
    let descent = go_down(alloc, disk, numbers.as_slice())?;
    Ok(recovered_store(descent, numbers))
}

// Looks at the files from the last of these numbers to the first, until the log is whole.
fn go_down<D: Disk>(alloc: Global, disk: &mut D, numbers: &[u64]) -> Result<Descent, RecoverFault>
    requires in_range { All IsNumber numbers.now }
    requires all { IsTrue (D.tells disk.old) → numbers.now ≡ keys (D.reads disk.old) }
    ensures down { IfOk result (LooksDown (D.tells disk.old) (entries (D.reads disk.old))) }
    ensures why { IsTrue (D.tells disk.old)
        → IfErr result (IsCauseOnDisk (entries (D.reads disk.old))) }
    ensures frame { OnlyReads D.Disk disk.old disk.new }
    ensures width { ReadsNoWider D.Disk WIDEST disk.old disk.new }
    ensures cause { HasRecoverCause (D.faults disk.old) (D.faults disk.new) result }
{
    let mut descent = Descent::new(alloc);
    for &number in numbers.iter().rev() {
        look_at(alloc, disk, number, &mut descent)?;
        if descent.is_enough() {
            return Ok(descent);
        }
    }
    descent.at_end()?;
    Ok(descent)
}

// What the files that were looked at tell, where these are the numbers of all.
fn recovered_store(descent: Descent, numbers: Vec<u64>) -> Recovered
    requires in_range { All IsNumber numbers.items }
    ensures found { (tells : Bool) (image : FileList) → LooksDown tells image descent
        → IsTrue tells → IsTrue (is_sorted nat_cmp image) → numbers.items ≡ numbers_of image
        → (segments : List WholeSegment) × (log : Log) × IsRecovered image segments log result }
    ensures in_range { (tells : Bool) (image : FileList) → LooksDown tells image descent
        → IsInRange result }
{
    survivors_in_order();
    let (segments, half, records) = descent.into_parts();
    let next = next_of(segments.as_slice());
    let named = records.named().unwrap_or(1);
    let (entries, lowest) = records.into_survivors(next);
    Recovered {
        entries: Sequence::of(entries),
        found: found_files(segments, half, numbers, next, named),
        lowest,
    }
}

// What was found, where the segments and the half-made files stand as they were looked at.
fn found_files(
    segments: Vec<Segment>,
    half: Vec<u64>,
    numbers: Vec<u64>,
    next: u64,
    named: u64,
) -> Found
    ensures segments { result.segments ≡ reverse segments.items }
    ensures half { result.half
        ≡ filter (nat_lt (least_number segments.items)) (reverse half.items) }
    ensures older { result.older
        ≡ filter (λ n. nat_lt n (least_number segments.items)) numbers.items }
    ensures greatest { result.greatest ≡ unwrap_or (last_or None numbers.items) 0 }
    ensures next { result.next ≡ next }
    ensures named { result.named ≡ named }
{
    let least = least_of(segments.as_slice());
    let greatest = greatest_of(numbers.as_slice());
    Found {
        segments: Sequence::of(rising_segments(segments)),
        half: Sequence::of(numbers_above(least, half)),
        older: Sequence::of(numbers_below(least, numbers)),
        greatest,
        next,
        named,
    }
}

// The LSN after the newest segment, or 1 where there is none.
fn next_of(segments: &[Segment]) -> u64
    ensures { result ≡ end_of_newest segments.now }
{
    match segments.first() {
        Some(newest) => newest.end,
        None => 1,
    }
}

// The number of the oldest segment, or 0 where there is none.
fn least_of(segments: &[Segment]) -> u64
    ensures { result ≡ least_number segments.now }
{
    match segments.last() {
        Some(oldest) => oldest.number,
        None => 0,
    }
}

// The last of these numbers, or 0 where there is none.
fn greatest_of(numbers: &[u64]) -> u64
    ensures { result ≡ unwrap_or (last_or None numbers.now) 0 }
{
    numbers.last().copied().unwrap_or(0)
}

// The segments, the oldest first.
fn rising_segments(segments: Vec<Segment>) -> Vec<Segment>
    ensures { result.items ≡ reverse segments.items }
{
    let mut rising = segments;
    rising.reverse();
    rising
}

// Of falling numbers those above a number, rising.
fn numbers_above(least: u64, numbers: Vec<u64>) -> Vec<u64>
    ensures { result.items ≡ filter (nat_lt least) (reverse numbers.items) }
{
    let mut above = numbers;
    above.reverse();
    above.retain(|&n| least < n);
    above
}

// Of these numbers those below a number.
fn numbers_below(least: u64, numbers: Vec<u64>) -> Vec<u64>
    ensures { result.items ≡ filter (λ n. nat_lt n least) numbers.items }
{
    let mut below = numbers;
    below.retain(|&n| n < least);
    below
}
