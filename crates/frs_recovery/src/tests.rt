//! Stores as bytes, worked out by hand from the format, and what each is read back as.
ghost use Rattle.std.specs.Prelude.{◌<◌};
ghost use Rattle.frs_disk.specs.Disk.{IsNumber};

mod read_order;

use super::*;
use frs_disk::{Disk, FaultPlan, MemDisk};
use frs_types::NoMemory;
use std::alloc::Global;
use std::process::Abort;
use std::test::Fail;

// Segment 1 with a mark, a put of `v` under `k` in the map `m`, and a mark, each in a chunk of its own.
const WHOLE: [u8; 156] = [
    1, 70, 82, 83, 83, 1, 0, 0, 0, 0, 0, 0, 0, 1, 0, 0, 0, 0, 0, 0, 0, 1, 1, 0, 0, 0, 25, 0, 0, 0,
    1, 0, 0, 0, 0, 0, 0, 0, 1, 7, 0, 0, 0, 0, 0, 0, 0, 0, 0, 0, 0, 0, 0, 0, 0, 1, 0, 0, 0, 0, 0, 0,
    0, 0, 1, 0, 0, 0, 32, 0, 0, 0, 1, 0, 0, 0, 0, 0, 0, 0, 2, 1, 0, 0, 0, 0, 0, 0, 0, 0, 0, 0, 0,
    0, 0, 0, 0, 2, 0, 0, 0, 0, 0, 0, 0, 0, 1, 109, 1, 107, 0, 1, 118, 1, 0, 0, 0, 25, 0, 0, 0, 1,
    0, 0, 0, 0, 0, 0, 0, 3, 7, 0, 0, 0, 0, 0, 0, 0, 0, 0, 0, 0, 0, 0, 0, 0, 2, 0, 0, 0, 0, 0, 0, 0,
    0, 0,
];

// What follows the first 64 of these bytes where there is no put: a mark, and the closed gate.
const MARK: [u8; 43] = [
    1, 0, 0, 0, 25, 0, 0, 0, 1, 0, 0, 0, 0, 0, 0, 0, 2, 7, 0, 0, 0, 0, 0, 0, 0, 0, 0, 0, 0, 0, 0,
    0, 0, 2, 0, 0, 0, 0, 0, 0, 0, 0, 0,
];

// A segment's header behind a closed gate, and the closed gate of its first chunk.
const HALF_MADE: [u8; 23] = [
    0, 70, 82, 83, 83, 1, 0, 0, 0, 0, 0, 0, 0, 2, 0, 0, 0, 0, 0, 0, 0, 4, 0,
];

// The header of segment 1 behind a closed gate, and the closed gate of its first chunk: the file as it is before its
// gate is opened.
const GATE_CLOSED: [u8; 23] = [
    0, 70, 82, 83, 83, 1, 0, 0, 0, 0, 0, 0, 0, 1, 0, 0, 0, 0, 0, 0, 0, 1, 0,
];

// Segment 1 whose first LSN is 2^62 - 1, with a mark that carries this number as its lowest.
const LAST_LSN: [u8; 65] = [
    1, 70, 82, 83, 83, 1, 0, 0, 0, 0, 0, 0, 0, 1, 63, 255, 255, 255, 255, 255, 255, 255, 1, 0, 0,
    0, 25, 0, 0, 0, 1, 63, 255, 255, 255, 255, 255, 255, 255, 7, 0, 0, 0, 0, 0, 0, 0, 0, 63, 255,
    255, 255, 255, 255, 255, 255, 0, 0, 0, 0, 0, 0, 0, 0, 0,
];

// An entry of the map `m`: its key, its value and its LSN.
type Kept = (u8, u8, u64);

// What is read back: the entries, the next LSN, the lowest that the newest record names, and the lowest that is needed.
#[derive(Clone, Copy)]
struct Want {
    entries: &'static [Kept],
    next: u64,
    named: u64,
    lowest: u64,
}

// Nothing, of an empty store.
const NOTHING: Want = Want {
    entries: &[],
    next: 1,
    named: 1,
    lowest: 1,
};

fn chunk(offset: u64) -> RecoverFault {
    RecoverFault::BadChunk { segment: 1, offset }
}

// A place in the whole segment, and the byte that is put there.
type Change = (usize, u8);

// Faults of headers and of chunks of the segment: the change, and the offset that is told.
const WRONG_HEADERS: [(Change, u64); 4] = [
    ((1, 0x47), 1),
    ((5, 9), 5),
    ((13, 2), 6),
    ((21, 0), 14),
];

const WRONG_CHUNKS: [(Change, u64); 7] = [
    ((21, 2), 22),
    ((72, 2), 64),
    ((81, 9), 64),
    ((97, 3), 64),
    ((105, 2), 64),
    ((146, 0), 113),
    ((155, 1), 155),
];

const PUT: &[Kept] = &[(b'k', b'v', 2)];

// The whole segment as it is.
const PUT_AND_MARKS: Want = Want {
    entries: PUT,
    next: 4,
    named: 2,
    lowest: 2,
};

// Changes that leave a store, and what is read back of it; the first one changes nothing.
const LEFT: [(Change, Want); 7] = [
    ((0, 1), PUT_AND_MARKS),
    ((22, 0), NOTHING),
    ((64, 0), BEFORE_THE_PUT),
    ((64, 7), BEFORE_THE_PUT),
    ((105, 1), PUT_AND_MARKS),
    ((113, 5), AFTER_THE_PUT),
    (
        (146, 3),
        Want {
            entries: &[],
            next: 4,
            named: 3,
            lowest: 4,
        },
    ),
];

// The whole segment with one byte changed.
fn changed(alloc: Global, at: usize, byte: u8) -> Result<Vec<u8>, NoMemory> {
    let mut bytes = Vec::from_slice(alloc, &WHOLE)?;
    if let Some(place) = bytes.get_mut(at) {
        *place = byte;
    }
    Ok(bytes)
}

// A segment's number and first LSN, behind an open gate.
fn begun(alloc: Global, number: u8, first: u8) -> Result<Vec<u8>, NoMemory> {
    let mut bytes = Vec::from_slice(alloc, &[1, 70, 82, 83, 83, 1])?;
    bytes.extend_from_slice(&[0, 0, 0, 0, 0, 0, 0, number])?;
    bytes.extend_from_slice(&[0, 0, 0, 0, 0, 0, 0, first])?;
    Ok(bytes)
}

// Adds a chunk with one mark.
fn mark(bytes: &mut Vec<u8>, lsn: u8, lowest: u8) -> Result<(), NoMemory> {
    bytes.extend_from_slice(&[1, 0, 0, 0, 25, 0, 0, 0, 1, 0, 0, 0, 0, 0, 0, 0, lsn])?;
    bytes.extend_from_slice(&[7, 0, 0, 0, 0, 0, 0, 0, 0])?;
    bytes.extend_from_slice(&[0, 0, 0, 0, 0, 0, 0, lowest, 0, 0, 0, 0, 0, 0, 0, 0])?;
    Ok(())
}

// Adds a chunk with one put into the map `m`.
fn put(bytes: &mut Vec<u8>, lsn: u8, lowest: u8, named: u8, word: [u8; 2]) -> Result<(), NoMemory> {
    bytes.extend_from_slice(&[1, 0, 0, 0, 32, 0, 0, 0, 1, 0, 0, 0, 0, 0, 0, 0, lsn])?;
    bytes.extend_from_slice(&[1, 0, 0, 0, 0, 0, 0, 0, 0])?;
    bytes.extend_from_slice(&[0, 0, 0, 0, 0, 0, 0, lowest, 0, 0, 0, 0, 0, 0, 0, named])?;
    bytes.extend_from_slice(&[1, b'm', 1, word[0], 0, 1, word[1]])?;
    Ok(())
}

// A segment with a put between two marks, which carry these lowest LSNs.
fn session(
    alloc: Global,
    number: u8,
    first: u8,
    lowest: [u8; 3],
    named: u8,
    word: [u8; 2],
) -> Result<Vec<u8>, NoMemory> {
    let mut bytes = begun(alloc, number, first)?;
    mark(&mut bytes, first, lowest[0])?;
    put(&mut bytes, first.saturating_add(1), lowest[1], named, word)?;
    mark(&mut bytes, first.saturating_add(2), lowest[2])?;
    bytes.push(0)?;
    Ok(bytes)
}

// A plan by which no call fails.
fn no_fault(alloc: Global) -> FaultPlan {
    FaultPlan {
        failing: Vec::new(alloc),
        stop_after: None,
    }
}

// A disk with one file.
fn one(alloc: Global, number: u64, bytes: Vec<u8>) -> Result<MemDisk, NoMemory>
    requires { IsNumber number }
{
    let mut files = Vec::new(alloc);
    files.push((number, bytes))?;
    MemDisk::of(alloc, files, no_fault(alloc))
}

// A disk with two files.
fn two(
    alloc: Global,
    number: u64,
    bytes: Vec<u8>,
    other: u64,
    others: Vec<u8>,
) -> Result<MemDisk, NoMemory>
    requires in_range { IsNumber number × IsNumber other }
    requires rising { number < other }
{
    let mut files = Vec::new(alloc);
    files.push((number, bytes))?;
    files.push((other, others))?;
    MemDisk::of(alloc, files, no_fault(alloc))
}

// A disk with files 1, 2 and 3.
fn three(
    alloc: Global,
    oldest: Vec<u8>,
    middle: Vec<u8>,
    newest: Vec<u8>,
) -> Result<MemDisk, NoMemory> {
    let mut files = Vec::new(alloc);
    files.push((1, oldest))?;
    files.push((2, middle))?;
    files.push((3, newest))?;
    MemDisk::of(alloc, files, no_fault(alloc))
}

// What a disk is read back as.
fn read_back(alloc: Global, disk: MemDisk) -> Result<Result<Recovered, RecoverFault>, NoMemory> {
    let mut disk = disk;
    match recover(alloc, &mut disk) {
        Err(RecoverFault::Memory) => Err(NoMemory),
        answer => Ok(answer),
    }
}

// Asserts that these entries of the map `m` are left, the next LSN, and the two lowest ones.
fn expect(rt: &impl Abort, answer: &Recovered, want: &Want) {
    let entries = answer.entries.items();
    assert_eq!(rt; entries.len(), want.entries.len());
    for (entry, &(key, value, lsn)) in entries.iter().zip(want.entries.iter()) {
        assert_eq!(rt; entry.id.bytes(), b"m".as_slice());
        assert_eq!(rt; entry.key.bytes(), [key].as_slice());
        assert_eq!(rt; entry.value.bytes(), [value].as_slice());
        assert_eq!(rt; entry.lsn, lsn);
    }
    assert_eq!(rt; answer.found.next, want.next);
    assert_eq!(rt; answer.found.named, want.named);
    assert_eq!(rt; answer.lowest, want.lowest);
}

// Asserts which files were found: the numbers of the segments, of the half-made files and of the older ones, and the
// greatest.
fn expect_files(
    rt: &impl Abort,
    answer: &Recovered,
    segments: &[u64],
    half: &[u64],
    older: &[u64],
    greatest: u64,
) {
    let found = answer.found.segments.items();
    assert_eq!(rt; found.len(), segments.len());
    for (segment, &number) in found.iter().zip(segments.iter()) {
        assert_eq!(rt; segment.number, number);
    }
    assert_eq!(rt; answer.found.half.items(), half);
    assert_eq!(rt; answer.found.older.items(), older);
    assert_eq!(rt; answer.found.greatest, greatest);
}

// What a disk is read back as, where its files are a store.
fn whole(rt: &impl Abort, alloc: Global, disk: MemDisk) -> Result<Recovered, NoMemory> {
    match read_back(alloc, disk)? {
        Ok(answer) => Ok(answer),
        Err(fault) => panic!(rt; "{fault}"),
    }
}

// A disk with the whole segment, one byte of which is changed.
fn changed_disk(alloc: Global, change: Change) -> Result<MemDisk, NoMemory> {
    let bytes = changed(alloc, change.0, change.1)?;
    one(alloc, 1, bytes)
}

// Asserts why the segment with this change isn't read back.
fn expect_changed(
    rt: &impl Abort,
    alloc: Global,
    change: Change,
    fault: RecoverFault,
) -> Result<(), NoMemory> {
    let disk = changed_disk(alloc, change)?;
    expect_refusal(rt, alloc, disk, fault)
}

// One segment with each of its bytes in the tables changed.
#[test]
fn changed_bytes(rt: HostRuntime) -> Result<(), Fail> {
    let alloc = rt.alloc();
    for &(change, offset) in &WRONG_HEADERS {
        let fault = RecoverFault::BadHeader { segment: 1, offset };
        expect_changed(&rt, alloc, change, fault)?;
    }
    for &(change, offset) in &WRONG_CHUNKS {
        expect_changed(&rt, alloc, change, chunk(offset))?;
    }
    let limit = RecoverFault::NumberLimit {
        lsn: 0x4000_0000_0000_0001,
    };
    expect_changed(&rt, alloc, (14, 0x40), limit)?;
    Ok(())
}

#[test]
fn changed_bytes_of_a_store(rt: HostRuntime) -> Result<(), Fail> {
    for (change, want) in &LEFT {
        let disk = changed_disk(rt.alloc(), *change)?;
        expect_store(&rt, rt.alloc(), disk, want, &FIRST_ALONE)?;
    }
    Ok(())
}

// Asserts what a disk is read back as: the entries and LSNs, and which files were found.
fn expect_store(
    rt: &impl Abort,
    alloc: Global,
    disk: MemDisk,
    want: &Want,
    numbers: &Numbered,
) -> Result<(), NoMemory> {
    let answer = whole(rt, alloc, disk)?;
    expect(rt, &answer, want);
    expect_files(
        rt,
        &answer,
        numbers.segments,
        numbers.half,
        numbers.older,
        numbers.greatest,
    );
    Ok(())
}

// The numbers of the segments, of the half-made and of the older files that are found, and the greatest.
#[derive(Clone, Copy)]
struct Numbered {
    segments: &'static [u64],
    half: &'static [u64],
    older: &'static [u64],
    greatest: u64,
}

// Asserts why a store isn't read back.
fn expect_refusal(
    rt: &impl Abort,
    alloc: Global,
    disk: MemDisk,
    want: RecoverFault,
) -> Result<(), NoMemory> {
    match read_back(alloc, disk)? {
        Ok(_) => panic!(rt; "read back, and not: {want}"),
        Err(fault) => assert_eq!(rt; fault, want),
    }
    Ok(())
}

// The whole segment up to a length.
fn cut(alloc: Global, len: usize) -> Result<Vec<u8>, NoMemory> {
    let mut bytes = changed(alloc, 0, 1)?;
    bytes.truncate(len);
    Ok(bytes)
}

// A segment without a record.
fn empty(alloc: Global, number: u8, first: u8) -> Result<Vec<u8>, NoMemory> {
    let mut bytes = begun(alloc, number, first)?;
    bytes.push(0)?;
    Ok(bytes)
}

// A disk with the whole segment up to a length.
fn cut_disk(alloc: Global, len: usize) -> Result<MemDisk, NoMemory> {
    let bytes = cut(alloc, len)?;
    one(alloc, 1, bytes)
}

// One segment that was cut.
#[test]
fn cut_files(rt: HostRuntime) -> Result<(), Fail> {
    let alloc = rt.alloc();
    let disk = cut_disk(alloc, 100)?;
    expect_refusal(&rt, alloc, disk, chunk(64))?;
    let disk = cut_disk(alloc, 22)?;
    expect_store(&rt, alloc, disk, &NOTHING, &FIRST_HALF_MADE)?;
    Ok(())
}

const FIRST_ALONE: Numbered = Numbered {
    segments: &[1],
    half: &[],
    older: &[],
    greatest: 1,
};

const FIRST_HALF_MADE: Numbered = Numbered {
    segments: &[],
    half: &[1],
    older: &[],
    greatest: 1,
};

// The whole segment up to the gate behind its put, which is closed, with this gate before the put.
fn up_to_the_put(alloc: Global, gate: u8) -> Result<Vec<u8>, NoMemory> {
    let mut bytes = changed(alloc, 64, gate)?;
    bytes.truncate(113);
    bytes.push(0)?;
    Ok(bytes)
}

// A crash once the put's body is there: the gate before it, what is read back, and how many chunks the segment has.
#[derive(Clone, Copy)]
struct Crash {
    gate: u8,
    want: Want,
    chunks: usize,
}

const BEFORE_THE_PUT: Want = Want {
    entries: &[],
    next: 2,
    named: 1,
    lowest: 2,
};

const AFTER_THE_PUT: Want = Want {
    entries: PUT,
    next: 3,
    named: 2,
    lowest: 2,
};

// A gate that isn't 1 is closed.
const CRASHES: [Crash; 3] = [
    Crash {
        gate: 0,
        want: BEFORE_THE_PUT,
        chunks: 1,
    },
    Crash {
        gate: 7,
        want: BEFORE_THE_PUT,
        chunks: 1,
    },
    Crash {
        gate: 1,
        want: AFTER_THE_PUT,
        chunks: 2,
    },
];

// Asserts how many chunks each segment that was found has.
fn expect_chunks(rt: &impl Abort, answer: &Recovered, chunks: usize) {
    for segment in answer.found.segments.items() {
        assert_eq!(rt; segment.chunks.items().len(), chunks);
    }
}

// Asserts what is read back after such a crash.
fn expect_crash(rt: &impl Abort, alloc: Global, crash: &Crash) -> Result<(), NoMemory> {
    let bytes = up_to_the_put(alloc, crash.gate)?;
    let disk = one(alloc, 1, bytes)?;
    let answer = whole(rt, alloc, disk)?;
    expect(rt, &answer, &crash.want);
    expect_files(rt, &answer, &[1], &[], &[], 1);
    expect_chunks(rt, &answer, crash.chunks);
    Ok(())
}

// A run with one put crashed once the put's body was synced, before its gate was.
#[test]
fn crashes_at_the_gate_of_a_put(rt: HostRuntime) -> Result<(), Fail> {
    for crash in &CRASHES {
        expect_crash(&rt, rt.alloc(), crash)?;
    }
    Ok(())
}

// It crashed before the gate of the file was opened.
#[test]
fn a_crash_at_the_gate_of_the_file(rt: HostRuntime) -> Result<(), Fail> {
    let alloc = rt.alloc();
    let bytes = Vec::from_slice(alloc, &GATE_CLOSED)?;
    let files = one(alloc, 1, bytes)?;
    expect_store(&rt, alloc, files, &NOTHING, &FIRST_HALF_MADE)?;
    Ok(())
}

#[test]
fn an_empty_store(rt: HostRuntime) -> Result<(), Fail> {
    let alloc = rt.alloc();
    let found = Numbered {
        segments: &[],
        half: &[],
        older: &[],
        greatest: 0,
    };
    let disk = MemDisk::of(alloc, Vec::new(alloc), no_fault(alloc))?;
    expect_store(&rt, alloc, disk, &NOTHING, &found)?;
    Ok(())
}

fn two_marks(alloc: Global) -> Result<Vec<u8>, NoMemory> {
    let mut bytes = cut(alloc, 64)?;
    bytes.extend_from_slice(&MARK)?;
    Ok(bytes)
}

#[test]
fn a_store_of_two_marks(rt: HostRuntime) -> Result<(), Fail> {
    let alloc = rt.alloc();
    let want = Want {
        entries: &[],
        next: 3,
        named: 2,
        lowest: 3,
    };
    let bytes = two_marks(alloc)?;
    let files = one(alloc, 1, bytes)?;
    expect_store(&rt, alloc, files, &want, &FIRST_ALONE)?;
    Ok(())
}

// Two puts of one key, between two marks.
fn two_puts(alloc: Global) -> Result<Vec<u8>, NoMemory> {
    let mut bytes = begun(alloc, 1, 1)?;
    mark(&mut bytes, 1, 1)?;
    put(&mut bytes, 2, 2, 0, *b"ka")?;
    put(&mut bytes, 3, 2, 2, *b"kb")?;
    mark(&mut bytes, 4, 3)?;
    bytes.push(0)?;
    Ok(bytes)
}

#[test]
fn a_store_of_two_puts(rt: HostRuntime) -> Result<(), Fail> {
    let alloc = rt.alloc();
    let want = Want {
        entries: &[(b'k', b'b', 3)],
        next: 5,
        named: 3,
        lowest: 3,
    };
    let bytes = two_puts(alloc)?;
    let files = one(alloc, 1, bytes)?;
    expect_store(&rt, alloc, files, &want, &FIRST_ALONE)?;
    Ok(())
}

#[test]
fn the_last_lsn(rt: HostRuntime) -> Result<(), Fail> {
    let alloc = rt.alloc();
    let end = 0x4000_0000_0000_0000;
    let want = Want {
        entries: &[],
        next: end,
        named: end - 1,
        lowest: end,
    };
    let bytes = Vec::from_slice(alloc, &LAST_LSN)?;
    let files = one(alloc, 1, bytes)?;
    expect_store(&rt, alloc, files, &want, &FIRST_ALONE)?;
    Ok(())
}

#[test]
fn a_half_made_file(rt: HostRuntime) -> Result<(), Fail> {
    let alloc = rt.alloc();
    let bytes = Vec::from_slice(alloc, &[1])?;
    let disk = one(alloc, 1, bytes)?;
    expect_store(&rt, alloc, disk, &NOTHING, &FIRST_HALF_MADE)?;
    Ok(())
}

// A half-made file above a segment.
fn half_made_above(alloc: Global) -> Result<MemDisk, NoMemory> {
    let first = changed(alloc, 0, 1)?;
    let second = Vec::from_slice(alloc, &HALF_MADE)?;
    two(alloc, 1, first, 2, second)
}

#[test]
fn a_half_made_file_above_a_segment(rt: HostRuntime) -> Result<(), Fail> {
    let alloc = rt.alloc();
    let found = Numbered {
        segments: &[1],
        half: &[2],
        older: &[],
        greatest: 2,
    };
    let disk = half_made_above(alloc)?;
    expect_store(&rt, alloc, disk, &PUT_AND_MARKS, &found)?;
    Ok(())
}

// A segment without a record, between two half-made files.
#[test]
fn half_made_files_around_a_segment(rt: HostRuntime) -> Result<(), Fail> {
    let alloc = rt.alloc();
    let found = Numbered {
        segments: &[2],
        half: &[3],
        older: &[1],
        greatest: 3,
    };
    let middle = empty(alloc, 2, 1)?;
    let disk = three(alloc, Vec::new(alloc), middle, Vec::new(alloc))?;
    expect_store(&rt, alloc, disk, &NOTHING, &found)?;
    Ok(())
}

// The segment of each of three sessions, with one put.
fn first(alloc: Global) -> Result<Vec<u8>, NoMemory> {
    session(alloc, 1, 1, [1, 2, 2], 0, *b"a1")
}

fn second(alloc: Global) -> Result<Vec<u8>, NoMemory> {
    session(alloc, 2, 4, [2, 2, 2], 0, *b"b2")
}

fn third(alloc: Global) -> Result<Vec<u8>, NoMemory> {
    session(alloc, 3, 7, [2, 2, 2], 0, *b"c3")
}

fn sessions(alloc: Global) -> Result<MemDisk, NoMemory> {
    let oldest = first(alloc)?;
    let middle = second(alloc)?;
    let newest = third(alloc)?;
    three(alloc, oldest, middle, newest)
}

#[test]
fn many_segments(rt: HostRuntime) -> Result<(), Fail> {
    let alloc = rt.alloc();
    let disk = sessions(alloc)?;
    let answer = whole(&rt, alloc, disk)?;
    let want = Want {
        entries: &[(b'a', b'1', 2), (b'b', b'2', 5), (b'c', b'3', 8)],
        next: 10,
        named: 2,
        lowest: 2,
    };
    expect(&rt, &answer, &want);
    expect_files(&rt, &answer, &[1, 2, 3], &[], &[], 3);
    expect_chunks(&rt, &answer, 3);
    Ok(())
}

// Without the second of three sessions.
fn without_the_second(alloc: Global) -> Result<MemDisk, NoMemory> {
    let oldest = first(alloc)?;
    let newest = third(alloc)?;
    two(alloc, 1, oldest, 3, newest)
}

// The third of three sessions alone, and a segment without a record alone.
fn third_alone(alloc: Global) -> Result<MemDisk, NoMemory> {
    let bytes = third(alloc)?;
    one(alloc, 3, bytes)
}

fn empty_alone(alloc: Global) -> Result<MemDisk, NoMemory> {
    let bytes = empty(alloc, 4, 7)?;
    one(alloc, 4, bytes)
}

#[test]
fn a_segment_is_missing(rt: HostRuntime) -> Result<(), Fail> {
    let alloc = rt.alloc();
    let between = RecoverFault::Gap {
        expected: 6,
        found: 3,
    };
    let below = RecoverFault::Gap {
        expected: 6,
        found: 0,
    };
    let disk = without_the_second(alloc)?;
    expect_refusal(&rt, alloc, disk, between)?;
    let disk = third_alone(alloc)?;
    expect_refusal(&rt, alloc, disk, below)?;
    let disk = empty_alone(alloc)?;
    expect_refusal(&rt, alloc, disk, below)?;
    Ok(())
}

// The middle one of three segments is cut.
fn middle_cut(alloc: Global) -> Result<MemDisk, NoMemory> {
    let mut middle = second(alloc)?;
    middle.truncate(100);
    let oldest = changed(alloc, 0, 1)?;
    let newest = third(alloc)?;
    three(alloc, oldest, middle, newest)
}

// It ends after one record, and the first LSN of the oldest one is past the limit.
fn middle_short(alloc: Global) -> Result<MemDisk, NoMemory> {
    let mut middle = begun(alloc, 2, 4)?;
    mark(&mut middle, 4, 2)?;
    middle.push(0)?;
    let oldest = changed(alloc, 14, 0x40)?;
    let newest = third(alloc)?;
    three(alloc, oldest, middle, newest)
}

// The middle one is half-made, and the first LSN of the oldest one is past the limit.
fn middle_half_made(alloc: Global) -> Result<MemDisk, NoMemory> {
    let middle = Vec::from_slice(alloc, &HALF_MADE)?;
    let oldest = changed(alloc, 14, 0x40)?;
    let newest = third(alloc)?;
    three(alloc, oldest, middle, newest)
}

#[test]
fn what_is_wrong_first(rt: HostRuntime) -> Result<(), Fail> {
    let alloc = rt.alloc();
    let cut = RecoverFault::BadChunk {
        segment: 2,
        offset: 64,
    };
    let gap = RecoverFault::Gap {
        expected: 6,
        found: 4,
    };
    let limit = RecoverFault::NumberLimit {
        lsn: 0x4000_0000_0000_0001,
    };
    let disk = middle_cut(alloc)?;
    expect_refusal(&rt, alloc, disk, cut)?;
    let disk = middle_short(alloc)?;
    expect_refusal(&rt, alloc, disk, gap)?;
    let disk = middle_half_made(alloc)?;
    expect_refusal(&rt, alloc, disk, limit)?;
    Ok(())
}

// The segment of a second session, whose newest record names its own put.
fn renewed(alloc: Global) -> Result<Vec<u8>, NoMemory> {
    session(alloc, 2, 4, [2, 2, 5], 2, *b"kb")
}

const SECOND: Want = Want {
    entries: &[(b'k', b'b', 5)],
    next: 7,
    named: 5,
    lowest: 5,
};

fn renewed_alone(alloc: Global) -> Result<MemDisk, NoMemory> {
    let bytes = renewed(alloc)?;
    one(alloc, 2, bytes)
}

#[test]
fn a_segment_that_needs_no_older_one(rt: HostRuntime) -> Result<(), Fail> {
    let alloc = rt.alloc();
    let alone = Numbered {
        segments: &[2],
        half: &[],
        older: &[],
        greatest: 2,
    };
    let disk = renewed_alone(alloc)?;
    expect_store(&rt, alloc, disk, &SECOND, &alone)?;
    Ok(())
}

// The segment above file 1, which isn't needed: bytes of no segment, or a segment of another version.
fn above_no_segment(alloc: Global) -> Result<MemDisk, NoMemory> {
    let older = Vec::from_slice(alloc, b"**********")?;
    let newer = renewed(alloc)?;
    two(alloc, 1, older, 2, newer)
}

fn above_another_version(alloc: Global) -> Result<MemDisk, NoMemory> {
    let older = changed(alloc, 5, 9)?;
    let newer = renewed(alloc)?;
    two(alloc, 1, older, 2, newer)
}

// A file below the segments that are needed isn't looked at.
#[test]
fn older_files_are_not_looked_at(rt: HostRuntime) -> Result<(), Fail> {
    let alloc = rt.alloc();
    let beside = Numbered {
        segments: &[2],
        half: &[],
        older: &[1],
        greatest: 2,
    };
    let disk = above_no_segment(alloc)?;
    expect_store(&rt, alloc, disk, &SECOND, &beside)?;
    let disk = above_another_version(alloc)?;
    expect_store(&rt, alloc, disk, &SECOND, &beside)?;
    Ok(())
}

// A disk with the whole segment, whose second call fails.
fn failing_disk(alloc: Global) -> Result<MemDisk, NoMemory> {
    let mut failing = Vec::new(alloc);
    failing.push(2)?;
    let bytes = changed(alloc, 0, 1)?;
    let mut files = Vec::new(alloc);
    files.push((1, bytes))?;
    let plan = FaultPlan {
        failing,
        stop_after: None,
    };
    MemDisk::of(alloc, files, plan)
}

#[test]
fn a_failing_disk(rt: HostRuntime) -> Result<(), Fail> {
    let alloc = rt.alloc();
    let mut disk = failing_disk(alloc)?;
    let fault = recover(alloc, &mut disk).err();
    assert_eq!(rt; fault, Some(RecoverFault::Disk));
    assert_eq!(rt; disk.count(), 1);
    Ok(())
}
