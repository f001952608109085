//! Groups that are written to a disk in memory: its calls, the chunks that they make, and what a fault leaves.
ghost use Rattle.std.specs.Prelude.{◌≡◌, ◌≤◌, ℕ, [], ◌∷◌, IfOk, IsSome};
ghost use Rattle.std.specs.FinMap.{entries, get};
ghost use Rattle.frs_disk.specs.Disk.{IsNumber};
ghost use Rattle.frs_disk.specs.Plans.{removed_on, files_of};
ghost use Rattle.frs_segment.specs.Stores.{IsFound};

use super::*;
use frs_disk::{Call, Disk, FaultPlan, Made, MemDisk};
use frs_frame::{Framed, encode_payload};
use frs_segment::{ChunkPlace, Found, ScanFault, Segment, read_chunk, scan};
use frs_slots::{Drawer, Taker, ring};
use frs_types::{Action, Key, MapId, NoMemory, Sequence, Value, WordFault};
use std::alloc::Global;
use std::process::Abort;
use std::sync::{Mutex, Wait};
use std::test::Fail;
use std::thread;
use std::thread::Threads;

// What was asked of the disk: the file, and of a write the offset and how many bytes.
#[derive(Clone, Copy, Debug, PartialEq, Eq)]
enum Asked {
    Create(u64),
    Write(u64, u64, usize),
    Sync(u64),
    Remove(u64),
    Look,
}

// The opening makes segment 1; then the two marks are written, and their gate.
const TWO_MARKS: [Asked; 11] = [
    Asked::Create(1),
    Asked::Write(1, 0, 1),
    Asked::Sync(1),
    Asked::Write(1, 1, 22),
    Asked::Sync(1),
    Asked::Write(1, 0, 1),
    Asked::Sync(1),
    Asked::Write(1, 23, 67),
    Asked::Sync(1),
    Asked::Write(1, 22, 1),
    Asked::Sync(1),
];

// The opening removes file 1 and makes segment 2.
const BESIDE_HALF: [Asked; 8] = [
    Asked::Remove(1),
    Asked::Create(2),
    Asked::Write(2, 0, 1),
    Asked::Sync(2),
    Asked::Write(2, 1, 22),
    Asked::Sync(2),
    Asked::Write(2, 0, 1),
    Asked::Sync(2),
];

fn asked_by(made: &Made) -> Asked {
    match &made.call {
        Call::Create { number } => Asked::Create(*number),
        Call::Write { number, at, bytes } => Asked::Write(*number, *at, bytes.items().len()),
        Call::Sync { number } => Asked::Sync(*number),
        Call::Remove { number } => Asked::Remove(*number),
        _ => Asked::Look,
    }
}

// The calls that were made are these.
fn are(made: &[Made], calls: &[Asked]) -> bool {
    made.len() == calls.len()
        && made
            .iter()
            .zip(calls)
            .all(|(made, call)| asked_by(made) == *call)
}

// A mark that names 1 as the lowest LSN that is needed.
fn mark(alloc: Global) -> Result<Framed, NoMemory> {
    let mut framed = encode_payload(alloc, &Action::Mark)?;
    framed.patch(0, 1, 0);
    Ok(framed)
}

// Draws the next LSN for the record and fills it, where there is room.
fn draw(drawer: &mut Drawer, framed: Framed) -> bool {
    if drawer.next() >= 1 << 62 {
        return false;
    }
    match drawer.draw(framed) {
        Ok(slip) => {
            slip.fill();
            true
        }
        Err(_) => false,
    }
}

// Draws and fills so many marks. There has to be room.
fn draw_marks(
    rt: &impl Abort,
    alloc: Global,
    drawer: &mut Drawer,
    count: u32,
) -> Result<(), NoMemory> {
    for _ in 0..count {
        let framed = mark(alloc)?;
        assert!(rt; draw(drawer, framed));
    }
    Ok(())
}

fn empty_disk(alloc: Global, failing: Vec<u64>) -> Result<MemDisk, NoMemory>
    ensures { IfOk result (λ disk. (entries (files_of disk) ≡ [])
        × ((n : ℕ) → removed_on disk n → ⊥)) }
{
    let plan = FaultPlan {
        failing,
        stop_after: None,
    };
    MemDisk::of(alloc, Vec::new(alloc), plan)
}

// What there is to find on an empty disk.
fn nothing(alloc: Global) -> Found
    ensures { IsFound [] [] (record { first = 1; records = [] }) result }
{
    Found {
        segments: Sequence::of(Vec::new(alloc)),
        half: Sequence::of(Vec::new(alloc)),
        older: Sequence::of(Vec::new(alloc)),
        greatest: 0,
        next: 1,
        named: 1,
    }
}

// A writer for one client on an empty disk, of which these calls fail.
fn opened(alloc: Global, failing: Vec<u64>, taker: Taker) -> Result<Writer<MemDisk>, WriteFault>
    requires { (taker.taken ≡ []) × (taker.first ≡ 1) }
    ensures { IfOk result (λ writer. writer.noted ≡ 0 ∷ []) }
{
    let disk = empty_disk(alloc, failing)?;
    let found = nothing(alloc);
    match Writer::new(alloc, disk, taker, &found, 1) {
        Ok(writer) => Ok(writer),
        Err(refused) => Err(refused.fault),
    }
}

// Writes the next group of at most so many records.
fn write(alloc: Global, writer: &mut Writer<MemDisk>, limit: u32) -> Result<u32, WriteFault>
    requires { (1 ≤ limit) × (limit ≤ 256) }
    ensures { writer.new.noted ≡ writer.old.noted }
{
    writer.write_group(alloc, limit)
}

// The LSN 2 is durable and can be noted, and 3 isn't.
fn is_durable_up_to_two(writer: &mut Writer<MemDisk>) -> bool
    requires { writer.old.noted ≡ 0 ∷ [] }
{
    let noted = writer.acknowledge(1, 2).is_ok() && writer.noted(1) == 2;
    let refused = writer.acknowledge(1, 3) == Err(NotYet { synced: 2 });
    noted && refused && writer.noted(1) == 2
}

// The writer has one segment with one chunk: two records of 25 bytes.
fn has_two_marks(writer: &Writer<MemDisk>) -> bool {
    let [segment] = writer.segments() else {
        return false;
    };
    let place = ChunkPlace {
        offset: 22,
        first: 1,
        count: 2,
        body: 50,
    };
    let [only] = segment.chunks.items() else {
        return false;
    };
    *only == place && (segment.number, segment.first, segment.end, segment.length) == (1, 1, 3, 90)
}

#[test]
fn two_records_are_one_chunk(rt: HostRuntime) -> Result<(), Fail> {
    let alloc = rt.alloc();
    let (mut drawer, taker) = ring(alloc, 8, 1)?;
    draw_marks(&rt, alloc, &mut drawer, 2)?;
    let mut writer = opened(alloc, Vec::new(alloc), taker)?;
    assert_eq!(rt; write(alloc, &mut writer, 256)?, 2);
    assert_eq!(rt; write(alloc, &mut writer, 256)?, 0);
    assert_eq!(rt; writer.synced(), 2);
    assert!(rt; is_durable_up_to_two(&mut writer));
    assert!(rt; has_two_marks(&writer));
    let disk = writer.into_disk();
    assert!(rt; are(disk.record(), &TWO_MARKS));
    Ok(())
}

// The writing that has ended by a fault.
const BROKEN: WriteFault = WriteFault::Broken {
    count_at_opening: 0,
    count_now: 1,
};

#[test]
fn a_fault_ends_the_writing(rt: HostRuntime) -> Result<(), Fail> {
    let alloc = rt.alloc();
    let (mut drawer, taker) = ring(alloc, 8, 1)?;
    draw_marks(&rt, alloc, &mut drawer, 1)?;
    // Call 9 is the sync of the chunk's bytes, before its gate is written.
    let mut failing = Vec::new(alloc);
    failing.push(9)?;
    let mut writer = opened(alloc, failing, taker)?;
    assert_eq!(rt; write(alloc, &mut writer, 256), Err(WriteFault::Disk));
    assert_eq!(rt; write(alloc, &mut writer, 256), Err(BROKEN));
    assert_eq!(rt; writer.synced(), 0);
    assert_eq!(rt; writer.into_disk().record().len(), 9);
    Ok(())
}

// A put of a value of 65,535 bytes. Its record has 65,566.
fn large_put(alloc: Global) -> Result<Action, WordFault> {
    let mut bytes = Vec::new(alloc);
    bytes.resize(65535, 7u8)?;
    let id = MapId::new(alloc, b"m")?;
    let key = Key::new(alloc, b"k")?;
    let value = Value::new(alloc, bytes.as_slice())?;
    Ok(Action::Put { id, key, value })
}

// Its record, which names 1 as the lowest LSN that is needed.
fn large_record(alloc: Global) -> Result<Framed, Fail> {
    let put = large_put(alloc)?;
    let mut framed = encode_payload(alloc, &put)?;
    framed.patch(0, 1, 0);
    Ok(framed)
}

// Draws and fills so many large puts. There has to be room.
fn draw_puts(rt: &impl Abort, alloc: Global, drawer: &mut Drawer, count: u32) -> Result<(), Fail> {
    for _ in 0..count {
        let framed = large_record(alloc)?;
        assert!(rt; draw(drawer, framed));
    }
    Ok(())
}

// A disk with this one file.
fn disk_with(alloc: Global, number: u64, bytes: Vec<u8>) -> Result<MemDisk, NoMemory>
    requires { IsNumber number }
    ensures { IfOk result (λ disk. (entries (files_of disk) ≡ (number, bytes.items) ∷ [])
        × ((n : ℕ) → removed_on disk n → ⊥) × IsSome (get (files_of disk) number)) }
{
    let plan = FaultPlan {
        failing: Vec::new(alloc),
        stop_after: None,
    };
    let mut files = Vec::new(alloc);
    files.push((number, bytes))?;
    MemDisk::of(alloc, files, plan)
}

// How many records are read where the place stands in a file of these bytes.
fn count_at(
    alloc: Global,
    number: u64,
    bytes: &[u8],
    place: &ChunkPlace,
) -> Result<usize, ScanFault>
    requires { IsNumber number }
{
    let bytes = bytes.to_vec(alloc)?;
    let mut disk = disk_with(alloc, number, bytes)?;
    let records = read_chunk(alloc, &mut disk, number, place)?;
    Ok(records.len())
}

// How many records are read at each of the places.
fn counts_at(
    alloc: Global,
    number: u64,
    bytes: &[u8],
    places: &[ChunkPlace],
) -> Result<Vec<usize>, ScanFault>
    requires { IsNumber number }
{
    let mut counts = Vec::new(alloc);
    for place in places {
        let count = count_at(alloc, number, bytes, place)?;
        counts.push(count)?;
    }
    Ok(counts)
}

// The file of these bytes, read as a segment.
fn scanned(alloc: Global, number: u64, bytes: &[u8]) -> Result<Segment, ScanFault>
    requires { IsNumber number }
{
    let bytes = bytes.to_vec(alloc)?;
    let mut disk = disk_with(alloc, number, bytes)?;
    scan(alloc, &mut disk, number)
}

// A file of these bytes is read as a segment with this first LSN, this LSN after the last, this length, and chunks of
// so many records.
fn is_read_as(
    alloc: Global,
    number: u64,
    bytes: &[u8],
    numbers: (u64, u64, u64),
    counts: &[usize],
) -> Result<bool, ScanFault>
    requires { IsNumber number }
{
    let segment = scanned(alloc, number, bytes)?;
    let found = counts_at(alloc, number, bytes, segment.chunks.items())?;
    Ok((segment.first, segment.end, segment.length) == numbers && found.as_slice() == counts)
}

// How many records each of six groups has, of which the fourth has the limit 2.
fn six_groups(alloc: Global, writer: &mut Writer<MemDisk>) -> Result<[u32; 6], WriteFault> {
    let first = write(alloc, writer, 256)?;
    let second = write(alloc, writer, 256)?;
    let third = write(alloc, writer, 256)?;
    let fourth = write(alloc, writer, 2)?;
    let fifth = write(alloc, writer, 256)?;
    let sixth = write(alloc, writer, 256)?;
    Ok([first, second, third, fourth, fifth, sixth])
}

// A file's number, and its bytes: the first LSN of the segment, the one after its last, its length, and how many
// records each chunk has.
type Rolled = (u64, (u64, u64, u64), &'static [usize]);

const FIRST: Rolled = (1, (1, 31, 1967037), &[15, 15]);

const SECOND: Rolled = (2, (31, 48, 1114679), &[15, 2]);

const THIRD: Rolled = (3, (48, 49, 65606), &[1]);

// Asserts that a file of a disk is read as that segment.
fn expect_rolled(
    rt: &impl Abort,
    alloc: Global,
    file: &(u64, Vec<u8>),
    want: Rolled,
) -> Result<(), Fail>
    requires { IsNumber want.0 }
{
    assert_eq!(rt; file.0, want.0);
    assert!(rt; is_read_as(alloc, want.0, &file.1, want.1, want.2)?);
    Ok(())
}

// A chunk has room for 15 large puts, and the 16th waits. A segment is left after two such chunks, or after one and two
// more puts.
#[test]
fn a_log_rolls_over_three_segments(rt: HostRuntime) -> Result<(), Fail> {
    let alloc = rt.alloc();
    let (mut drawer, taker) = ring(alloc, 64, 1)?;
    draw_puts(&rt, alloc, &mut drawer, 48)?;
    let mut writer = opened(alloc, Vec::new(alloc), taker)?;
    assert_eq!(rt; six_groups(alloc, &mut writer)?, [15, 15, 15, 2, 1, 0]);
    assert_eq!(rt; writer.synced(), 48);
    let disk = writer.into_disk();
    let [one, two, three] = disk.files() else {
        panic!(rt; "there are three segments")
    };
    expect_rolled(&rt, alloc, one, FIRST)?;
    expect_rolled(&rt, alloc, two, SECOND)?;
    expect_rolled(&rt, alloc, three, THIRD)
}

// What there is to find where file 1 has the one byte 1.
fn half_made(alloc: Global) -> Result<Found, NoMemory>
    ensures { IfOk result
        (λ found. IsFound ((1, 1 ∷ []) ∷ []) [] (record { first = 1; records = [] }) found) }
{
    let mut half = Vec::new(alloc);
    half.push(1)?;
    Ok(Found {
        segments: Sequence::of(Vec::new(alloc)),
        half: Sequence::of(half),
        older: Sequence::of(Vec::new(alloc)),
        greatest: 1,
        next: 1,
        named: 1,
    })
}

// A writer for one client on a disk where file 1 has the one byte 1.
fn opened_beside_half(alloc: Global, taker: Taker) -> Result<Writer<MemDisk>, WriteFault>
    requires { (taker.taken ≡ []) × (taker.first ≡ 1) }
{
    let mut bytes: Vec<u8> = Vec::new(alloc);
    if bytes.push(1).is_err() {
        return Err(WriteFault::Memory);
    }
    let disk = disk_with(alloc, 1, bytes)?;
    let found = half_made(alloc)?;
    match Writer::new(alloc, disk, taker, &found, 1) {
        Ok(writer) => Ok(writer),
        Err(refused) => Err(refused.fault),
    }
}

#[test]
fn half_made_files_are_removed(rt: HostRuntime) -> Result<(), Fail> {
    let alloc = rt.alloc();
    let (_, taker) = ring(alloc, 8, 1)?;
    let writer = opened_beside_half(alloc, taker)?;
    let [segment] = writer.segments() else {
        panic!(rt; "there is one segment")
    };
    assert_eq!(rt;
        (segment.number, segment.first, segment.end, segment.length),
        (2, 1, 1, 23)
    );
    let disk = writer.into_disk();
    assert!(rt; are(disk.record(), &BESIDE_HALF));
    Ok(())
}

// Compiles only where a value may move to another thread.
fn moves<T: Send>() {}

// Compiles only where threads may share a value.
fn shares<T: Sync>() {}

// The writer of any disk that may move.
fn any_writer_moves<D: Disk + Send>() {
    moves::<Writer<D>>();
    shares::<Mutex<Writer<D>>>();
}

#[test]
fn a_writer_may_go_to_another_thread() {
    moves::<Writer<MemDisk>>();
    shares::<Mutex<Writer<MemDisk>>>();
    any_writer_moves::<MemDisk>();
}

// Writes five groups of at most ten records. Other threads use the writer too.
fn write_shared(
    rt: &impl Wait,
    alloc: Global,
    shared: &Mutex<Writer<MemDisk>>,
) -> Result<(), WriteFault> {
    for _ in 0..5 {
        shared.lock(rt).write_group(alloc, 10)?;
    }
    Ok(())
}

// Writes ten groups from two threads that share the writer, and gives it back.
fn write_from_two_threads<R: Threads + Wait + Sync>(
    rt: &R,
    alloc: Global,
    writer: Writer<MemDisk>,
) -> Result<Writer<MemDisk>, WriteFault> {
    let shared = Mutex::new(writer);
    let lock = &shared;
    let (one, other) = thread::join(
        rt,
        move || write_shared(rt, alloc, lock),
        move || write_shared(rt, alloc, lock),
    );
    one?;
    other?;
    Ok(shared.into_inner())
}

#[test]
fn threads_share_a_writer_under_a_lock(rt: HostRuntime) -> Result<(), Fail> {
    let alloc = rt.alloc();
    let (mut drawer, taker) = ring(alloc, 128, 1)?;
    draw_marks(&rt, alloc, &mut drawer, 100)?;
    let writer = opened(alloc, Vec::new(alloc), taker)?;
    let writer = write_from_two_threads(&rt, alloc, writer)?;
    assert_eq!(rt; writer.synced(), 100);
    let [segment] = writer.segments() else {
        panic!(rt; "there is one segment")
    };
    assert_eq!(rt; segment.chunks.items().len(), 10);
    Ok(())
}
