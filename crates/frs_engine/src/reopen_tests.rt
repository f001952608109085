//! Runs on stores that are there: what earlier runs left, what is half-made, damaged or at its limit.
ghost use Rattle.std.specs.Prelude.{map};
ghost use Rattle.std.specs.List.{AllByRecursion};
ghost use Rattle.frs_disk.specs.Disk.{IsNumber};
ghost use Rattle.frs_disk.specs.Files.{AreDistinct};

use crate::plain_job_tests::{HALF_MADE, LAST_LSN, SEGMENT, changed, session};
use crate::script_tests::has_records;
use crate::tests::{Left, Texts, no_fault, puts_of, run, run_again, run_on};
use frs_disk::{Choice, MemDisk};
use frs_types::NoMemory;
use std::alloc::Global;
use std::sync::Wait;
use std::test::Fail;
use std::thread::Threads;

// Runs the script on a disk with these files.
fn run_beside<R: Threads + Wait + Sync>(
    rt: &R,
    alloc: Global,
    script: &[u8],
    files: Vec<(u64, Vec<u8>)>,
) -> Result<Left, NoMemory>
    requires in_range { AllByRecursion IsNumber (map (λ f. f.0) files.items) }
    requires distinct { AreDistinct (map (λ f. f.0) files.items) }
{
    if script.len() >= 1 << 32 {
        return Err(NoMemory);
    }
    let disk = MemDisk::of(alloc, files, no_fault(alloc))?;
    run_on(rt, alloc, script, disk, Vec::new(alloc))
}

// A run that was whole gives back a disk on which the next one may be made, without a restart.
#[test]
fn a_disk_that_comes_back_is_run_on_again(rt: HostRuntime) -> Result<(), Fail> {
    let alloc = rt.alloc();
    let left = run(&rt, alloc, b"put m k v\n", no_fault(alloc))?;
    let again = run_again(&rt, alloc, b"get m k\n", left)?;
    assert!(rt; again.is(0, b"1 1 get m k -> value v\nclosed\n"));
    Ok(())
}

// Three runs of a put each, one after another.
fn three_runs<R: Threads + Wait + Sync>(rt: &R, alloc: Global) -> Result<Left, NoMemory> {
    let first = run(rt, alloc, b"put m a 1\n", no_fault(alloc))?;
    let second = run_again(rt, alloc, b"put m b 2\n", first)?;
    run_again(rt, alloc, b"put m c 3\n", second)
}

// What they leave: each has a segment of its own, with a put between two marks.
fn three_segments(alloc: Global) -> Result<Vec<(u64, Vec<u8>)>, NoMemory> {
    let first = session(alloc, 1, 1, 1, *b"a1")?;
    let second = session(alloc, 2, 4, 2, *b"b2")?;
    let third = session(alloc, 3, 7, 2, *b"c3")?;
    Ok(vec![in alloc; (1, first), (2, second), (3, third)]?)
}

// What is printed of that store.
const THREE: Texts = (
    b"m a 1\nm b 2\nm c 3\n",
    b"segments 3\nchunks 9\nrecords 8\nnext 10\nlowest 2\nlive 3\ngap 8\n",
);

#[test]
fn three_runs_leave_three_segments(rt: HostRuntime) -> Result<(), Fail> {
    let alloc = rt.alloc();
    let left = three_runs(&rt, alloc)?;
    assert!(rt; left.is(0, b"1 1 put m c 3 -> done\ndurable 1 1\nclosed\n"));
    assert!(rt; left.has_files(three_segments(alloc)?.as_slice()));
    assert!(rt; left.leaves(alloc, Choice::Keep, THREE)?);
    Ok(())
}

// The first and the third of these segments alone.
fn with_a_gap<R: Threads + Wait + Sync>(rt: &R, alloc: Global) -> Result<bool, NoMemory> {
    let first = session(alloc, 1, 1, 1, *b"a1")?;
    let third = session(alloc, 3, 7, 2, *b"c3")?;
    let files = vec![in alloc; (1, first), (3, third)]?;
    let left = run_beside(rt, alloc, b"put m d 4\n", files)?;
    Ok(left.is(4, b"gap expected 6 found 3\n") && left.disk.files().len() == 2)
}

// Changes to the segment of a put and a get, and what a run on it is answered.
const DAMAGED: [(usize, u8, u8, &[u8]); 4] = [
    (5, 9, 4, b"segment 1 offset 5 header\n"),
    (72, 2, 4, b"segment 1 offset 64 chunk\n"),
    (155, 1, 4, b"segment 1 offset 155 chunk\n"),
    (14, 0x40, 8, b"stopped limit\n"),
];

// The store is refused so, and is as it was.
fn is_refused<R: Threads + Wait + Sync>(
    rt: &R,
    alloc: Global,
    bytes: &[u8],
    status: u8,
    text: &[u8],
) -> Result<bool, NoMemory> {
    let files = vec![in alloc; (1, bytes.to_vec(alloc)?)]?;
    let left = run_beside(rt, alloc, b"put m k w\n", files)?;
    Ok(left.is(status, text) && left.has_segment(bytes))
}

#[test]
fn stores_that_are_refused(rt: HostRuntime) -> Result<(), Fail> {
    let alloc = rt.alloc();
    for (at, byte, status, text) in DAMAGED {
        let bytes = changed(alloc, at, byte)?;
        assert!(rt;
            is_refused(&rt, alloc, bytes.as_slice(), status, text)?,
            "byte {at}"
        );
    }
    let cut = b"segment 1 offset 64 chunk\n";
    assert!(rt; is_refused(&rt, alloc, &SEGMENT[..100], 4, cut)?);
    assert!(rt; is_refused(&rt, alloc, &LAST_LSN, 8, b"stopped limit\n")?);
    assert!(rt; with_a_gap(&rt, alloc)?);
    Ok(())
}

// What is wrong with the script is told before the store is looked at.
fn is_unlooked<R: Threads + Wait + Sync>(
    rt: &R,
    alloc: Global,
    script: &[u8],
    status: u8,
    text: &[u8],
) -> Result<bool, NoMemory> {
    let files = vec![in alloc; (1, changed(alloc, 5, 9)?)]?;
    let left = run_beside(rt, alloc, script, files)?;
    Ok(left.is(status, text) && left.calls() == 0)
}

#[test]
fn the_script_is_refused_before_the_store(rt: HostRuntime) -> Result<(), Fail> {
    let alloc = rt.alloc();
    assert!(rt; is_unlooked(&rt, alloc, b"put m\n", 2, b"script 1 line 1 bad\n")?);
    assert!(rt; is_unlooked(&rt, alloc, b"snapshot\n", 10, b"later\n")?);
    Ok(())
}

// A key that the first run has put: the second one names its LSN.
const PUT_IN_EACH: [[u64; 4]; 6] = [
    [7, 0, 1, 0],
    [1, 0, 2, 0],
    [7, 0, 2, 0],
    [7, 0, 2, 0],
    [1, 0, 2, 2],
    [7, 0, 5, 0],
];

// What is printed of that store: its first segment isn't needed any more.
const SECOND_ALONE: Texts = (
    b"m k b\n",
    b"segments 1\nchunks 3\nrecords 2\nnext 7\nlowest 5\nlive 1\ngap 2\n",
);

#[test]
fn a_later_run_names_what_an_earlier_one_has_put(rt: HostRuntime) -> Result<(), Fail> {
    let alloc = rt.alloc();
    let first = run(&rt, alloc, b"put m k a\n", no_fault(alloc))?;
    let left = run_again(&rt, alloc, b"put m k b\n", first)?;
    assert!(rt; left.is(0, b"1 1 put m k b -> done\ndurable 1 1\nclosed\n"));
    assert!(rt; has_records(alloc, left.disk.files(), &PUT_IN_EACH)?);
    assert!(rt; left.leaves(alloc, Choice::Keep, SECOND_ALONE)?);
    Ok(())
}

// The second segment of that store beside an older file that is no segment, which nobody looks at.
fn reads_beside_another<R: Threads + Wait + Sync>(rt: &R, alloc: Global) -> Result<bool, NoMemory> {
    let first = run(rt, alloc, b"put m k a\n", no_fault(alloc))?;
    let left = run_again(rt, alloc, b"put m k b\n", first)?;
    let Some((_, bytes)) = left.disk.files().get(1) else {
        return Ok(false);
    };
    let second = bytes.to_vec(alloc)?;
    let other = vec![in alloc; 0x2a; 10]?;
    let left = run_beside(
        rt,
        alloc,
        b"get m k\n",
        vec![in alloc; (1, other), (2, second)]?,
    )?;
    Ok(left.is(0, b"1 1 get m k -> value b\nclosed\n") && numbers_are(&left, &[1, 2, 3]))
}

// The files have these numbers.
fn numbers_are(left: &Left, numbers: &[u64]) -> bool {
    let files = left.disk.files();
    files.len() == numbers.len()
        && files
            .iter()
            .zip(numbers)
            .all(|(file, number)| file.0 == *number)
}

#[test]
fn what_lies_below_the_needed_segments_is_left_there(rt: HostRuntime) -> Result<(), Fail> {
    let alloc = rt.alloc();
    assert!(rt; reads_beside_another(&rt, alloc)?);
    Ok(())
}

// A file of the one byte 1 is half-made: a run of no command removes it, and leaves segment 2 with two marks.
fn removes_one_byte<R: Threads + Wait + Sync>(rt: &R, alloc: Global) -> Result<bool, NoMemory> {
    let byte = Vec::from_slice(alloc, &[1])?;
    let left = run_beside(rt, alloc, b"", vec![in alloc; (1, byte)]?)?;
    let marks = [[7, 0, 1, 0], [7, 0, 2, 0]];
    Ok(
        left.is(0, b"closed\n")
            && numbers_are(&left, &[2])
            && has_records(alloc, left.disk.files(), &marks)?,
    )
}

// So is a header behind a closed gate, above the segment that a run left.
fn removes_header<R: Threads + Wait + Sync>(rt: &R, alloc: Global) -> Result<bool, NoMemory> {
    let first = SEGMENT.to_vec(alloc)?;
    let second = HALF_MADE.to_vec(alloc)?;
    let left = run_beside(
        rt,
        alloc,
        b"get m k\n",
        vec![in alloc; (1, first), (2, second)]?,
    )?;
    Ok(left.is(0, b"1 1 get m k -> value v\nclosed\n") && numbers_are(&left, &[1, 3]))
}

#[test]
fn half_made_files_are_removed(rt: HostRuntime) -> Result<(), Fail> {
    let alloc = rt.alloc();
    assert!(rt; removes_one_byte(&rt, alloc)?);
    assert!(rt; removes_header(&rt, alloc)?);
    Ok(())
}

// The bytes of a segment with one mark, which carries its own LSN as the lowest.
fn marked(alloc: Global, number: u64, first: u64) -> Result<Vec<u8>, NoMemory> {
    let (number, first) = (number.to_be_bytes(), first.to_be_bytes());
    let mut bytes = Vec::new(alloc);
    for part in [
        b"\x01FRSS\x01".as_slice(),
        &number,
        &first,
        b"\x01\0\0\0\x19\0\0\0\x01",
        &first,
        b"\x07\0\0\0\0\0\0\0\0",
        &first,
        b"\0\0\0\0\0\0\0\0\0",
    ] {
        bytes.extend_from_slice(part)?;
    }
    Ok(bytes)
}

// The greatest number, of an LSN or of a segment.
const GREATEST: u64 = 0x3fff_ffff_ffff_ffff;

// A segment of one mark with so many LSNs behind it, and what is printed of a run of a put.
const FEW_LSNS: [(u64, &[u8]); 4] = [
    (0, b"stopped limit\n"),
    (1, b"stopped limit\n"),
    (2, b"1 1 put m k v -> done\ndurable 1 1\nstopped limit\n"),
    (3, b"1 1 put m k v -> done\ndurable 1 1\nclosed\n"),
];

// The run on it prints this, and has used up what LSNs it could.
fn uses_lsns<R: Threads + Wait + Sync>(
    rt: &R,
    alloc: Global,
    left: u64,
    text: &[u8],
) -> Result<bool, NoMemory> {
    let bytes = marked(alloc, 1, GREATEST.saturating_sub(left))?;
    let ended = run_beside(rt, alloc, b"put m k v\n", vec![in alloc; (1, bytes)]?)?;
    let status = if left < 3 { 8 } else { 0 };
    let files = if left == 0 { 1 } else { 2 };
    Ok(ended.is(status, text) && ended.disk.files().len() == files)
}

#[test]
fn a_run_stops_where_no_lsn_is_left(rt: HostRuntime) -> Result<(), Fail> {
    let alloc = rt.alloc();
    for (left, text) in FEW_LSNS {
        assert!(rt; uses_lsns(&rt, alloc, left, text)?, "{left} LSNs");
    }
    Ok(())
}

// No segment can stand above the greatest number: such a store is as it was.
fn has_no_number<R: Threads + Wait + Sync>(rt: &R, alloc: Global) -> Result<bool, NoMemory> {
    let bytes = marked(alloc, GREATEST, 1)?;
    let left = run_beside(rt, alloc, b"", vec![in alloc; (GREATEST, bytes)]?)?;
    Ok(left.is(8, b"stopped limit\n") && numbers_are(&left, &[GREATEST]))
}

// Where one number is left, a run that would need a second segment stops behind its transcript: the 17th of these puts
// brings the segment to 1 MiB.
fn has_one_number<R: Threads + Wait + Sync>(rt: &R, alloc: Global) -> Result<bool, NoMemory> {
    let bytes = marked(alloc, GREATEST - 1, 1)?;
    let script = puts_of(alloc, 17, 65_535)?;
    let files = vec![in alloc; (GREATEST - 1, bytes)]?;
    let left = run_beside(rt, alloc, script.as_slice(), files)?;
    Ok(
        left.status == 8
            && left.text().ends_with(b"\ndurable 1 15\ndurable 1 16\nstopped limit\n".as_slice())
            && numbers_are(&left, &[GREATEST - 1, GREATEST]),
    )
}

#[test]
fn a_run_stops_where_no_number_of_a_segment_is_left(rt: HostRuntime) -> Result<(), Fail> {
    let alloc = rt.alloc();
    assert!(rt; has_no_number(&rt, alloc)?);
    assert!(rt; has_one_number(&rt, alloc)?);
    Ok(())
}

// The sink fails, and all else is done: the store is run on again behind a restart.
fn goes_on_unheard<R: Threads + Wait + Sync>(rt: &R, alloc: Global) -> Result<bool, NoMemory> {
    let files = vec![in alloc; (1, SEGMENT.to_vec(alloc)?)]?;
    let disk = MemDisk::of(alloc, files, no_fault(alloc))?;
    let unheard = run_on(rt, alloc, b"put m k w\n", disk, vec![in alloc; 1]?)?;
    let restarted = unheard.disk.crash(Choice::Lose)?;
    let left = run_on(rt, alloc, b"get m k\n", restarted, Vec::new(alloc))?;
    Ok(unheard.is(6, b"") && left.is(0, b"1 1 get m k -> value w\nclosed\n"))
}

#[test]
fn a_sink_that_fails_loses_nothing_of_the_store(rt: HostRuntime) -> Result<(), Fail> {
    let alloc = rt.alloc();
    assert!(rt; goes_on_unheard(&rt, alloc)?);
    Ok(())
}
