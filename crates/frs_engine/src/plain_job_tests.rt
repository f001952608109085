//! Stores as bytes, worked out by hand from the format, and what is printed of each.
ghost use Rattle.std.specs.Prelude.{map};
ghost use Rattle.std.specs.List.{AllByRecursion};
ghost use Rattle.frs_disk.specs.Disk.{IsNumber};
ghost use Rattle.frs_disk.specs.Files.{AreDistinct};

use crate::{PlainPlan, frs_plain};
use frs_disk::{FaultPlan, MemDisk, MemSink};
use frs_types::NoMemory;
use std::alloc::Global;
use std::test::Fail;

// Segment 1 with a mark, a put of `v` under `k` in the map `m`, and a mark, each in a chunk of its own.
pub(crate) const SEGMENT: [u8; 156] = [
    1, 0x46, 0x52, 0x53, 0x53, 1, 0, 0, 0, 0, 0, 0, 0, 1, 0, 0, 0, 0, 0, 0, 0, 1, // the header
    1, 0, 0, 0, 0x19, 0, 0, 0, 1, 0, 0, 0, 0, 0, 0, 0, 1, // a chunk with the opening mark
    7, 0, 0, 0, 0, 0, 0, 0, 0, 0, 0, 0, 0, 0, 0, 0, 1, 0, 0, 0, 0, 0, 0, 0, 0, //
    1, 0, 0, 0, 0x20, 0, 0, 0, 1, 0, 0, 0, 0, 0, 0, 0, 2, // one with the put
    1, 0, 0, 0, 0, 0, 0, 0, 0, 0, 0, 0, 0, 0, 0, 0, 2, 0, 0, 0, 0, 0, 0, 0, 0, 1, 0x6d, 1, 0x6b, 0,
    1, 0x76, //
    1, 0, 0, 0, 0x19, 0, 0, 0, 1, 0, 0, 0, 0, 0, 0, 0, 3, // one with the closing mark
    7, 0, 0, 0, 0, 0, 0, 0, 0, 0, 0, 0, 0, 0, 0, 0, 2, 0, 0, 0, 0, 0, 0, 0, 0, //
    0,
];

// A segment's header behind a closed gate, and the closed gate of its first chunk.
pub(crate) const HALF_MADE: [u8; 23] = [
    0, 0x46, 0x52, 0x53, 0x53, 1, 0, 0, 0, 0, 0, 0, 0, 2, 0, 0, 0, 0, 0, 0, 0, 4, 0,
];

// Segment 1 whose first LSN is 2^62 - 1, with a mark that carries this number as its lowest.
pub(crate) const LAST_LSN: [u8; 65] = [
    1, 0x46, 0x52, 0x53, 0x53, 1, 0, 0, 0, 0, 0, 0, 0, 1, 0x3f, 255, 255, 255, 255, 255, 255, 255, //
    1, 0, 0, 0, 0x19, 0, 0, 0, 1, 0x3f, 255, 255, 255, 255, 255, 255, 255, //
    7, 0, 0, 0, 0, 0, 0, 0, 0, 0x3f, 255, 255, 255, 255, 255, 255, 255, 0, 0, 0, 0, 0, 0, 0, 0, //
    0,
];

// A segment's number and first LSN, behind an open gate.
pub(crate) fn begun(alloc: Global, number: u8, first: u8) -> Result<Vec<u8>, NoMemory> {
    let mut bytes = Vec::from_slice(alloc, &[1, 0x46, 0x52, 0x53, 0x53, 1])?;
    bytes.extend_from_slice(&[0, 0, 0, 0, 0, 0, 0, number])?;
    bytes.extend_from_slice(&[0, 0, 0, 0, 0, 0, 0, first])?;
    Ok(bytes)
}

// Adds a chunk with one mark.
pub(crate) fn mark(bytes: &mut Vec<u8>, lsn: u8, lowest: u8) -> Result<(), NoMemory> {
    bytes.extend_from_slice(&[1, 0, 0, 0, 25, 0, 0, 0, 1, 0, 0, 0, 0, 0, 0, 0, lsn])?;
    bytes.extend_from_slice(&[7, 0, 0, 0, 0, 0, 0, 0, 0])?;
    bytes.extend_from_slice(&[0, 0, 0, 0, 0, 0, 0, lowest, 0, 0, 0, 0, 0, 0, 0, 0])?;
    Ok(())
}

// Adds a chunk with one put into the map `m`.
pub(crate) fn put(
    bytes: &mut Vec<u8>,
    lsn: u8,
    lowest: u8,
    named: u8,
    word: [u8; 2],
) -> Result<(), NoMemory> {
    bytes.extend_from_slice(&[1, 0, 0, 0, 32, 0, 0, 0, 1, 0, 0, 0, 0, 0, 0, 0, lsn])?;
    bytes.extend_from_slice(&[1, 0, 0, 0, 0, 0, 0, 0, 0])?;
    bytes.extend_from_slice(&[0, 0, 0, 0, 0, 0, 0, lowest, 0, 0, 0, 0, 0, 0, 0, named])?;
    bytes.extend_from_slice(&[1, b'm', 1, word[0], 0, 1, word[1]])?;
    Ok(())
}

// A segment with a put between two marks, of a store whose lowest LSN is 2 once it has a put.
pub(crate) fn session(
    alloc: Global,
    number: u8,
    first: u8,
    lowest: u8,
    word: [u8; 2],
) -> Result<Vec<u8>, NoMemory> {
    let mut bytes = begun(alloc, number, first)?;
    mark(&mut bytes, first, lowest)?;
    put(&mut bytes, first.saturating_add(1), 2, 0, word)?;
    mark(&mut bytes, first.saturating_add(2), 2)?;
    bytes.push(0)?;
    Ok(bytes)
}

// The segment with one byte changed.
pub(crate) fn changed(alloc: Global, at: usize, byte: u8) -> Result<Vec<u8>, NoMemory> {
    let mut bytes = Vec::from_slice(alloc, &SEGMENT)?;
    if let Some(place) = bytes.get_mut(at) {
        *place = byte;
    }
    Ok(bytes)
}

// What a job left.
#[derive(Drop)]
struct Left {
    status: u8,
    disk: MemDisk,
    sink: MemSink,
}

impl Left {
    fn is(&self, status: u8, text: &[u8]) -> bool {
        self.status == status && self.sink.bytes() == text
    }
}

// Does the job on a disk with these files, where these calls of the disk fail, and these of the sink.
fn left_by(
    alloc: Global,
    plan: PlainPlan,
    files: Vec<(u64, Vec<u8>)>,
    disk_fails: Vec<u64>,
    sink_fails: Vec<u64>,
) -> Result<Left, NoMemory>
    requires in_range { AllByRecursion IsNumber (map (λ f. f.0) files.items) }
    requires distinct { AreDistinct (map (λ f. f.0) files.items) }
{
    let faults = FaultPlan {
        failing: disk_fails,
        stop_after: None,
    };
    let disk = MemDisk::of(alloc, files, faults)?;
    let mut sink = MemSink::of(alloc, sink_fails)?;
    let left = frs_plain(alloc, &plan, disk, &mut sink);
    Ok(Left {
        status: left.status,
        disk: left.disk,
        sink,
    })
}

fn looked(alloc: Global, plan: PlainPlan, files: Vec<(u64, Vec<u8>)>) -> Result<Left, NoMemory>
    requires in_range { AllByRecursion IsNumber (map (λ f. f.0) files.items) }
    requires distinct { AreDistinct (map (λ f. f.0) files.items) }
{
    left_by(alloc, plan, files, Vec::new(alloc), Vec::new(alloc))
}

// The same, where file 1 alone is there.
fn looked_at_one(alloc: Global, plan: PlainPlan, bytes: &[u8]) -> Result<Left, NoMemory> {
    looked(alloc, plan, vec![in alloc; (1, bytes.to_vec(alloc)?)]?)
}

// The maps and the numbers of stores of no file or of one.
#[test]
fn stores_of_one_segment(rt: HostRuntime) -> Result<(), Fail> {
    let alloc = rt.alloc();
    let left = looked(alloc, PlainPlan::Recover, Vec::new(alloc))?;
    assert!(rt; left.is(0, b""));
    let left = looked(alloc, PlainPlan::Stat, Vec::new(alloc))?;
    assert!(rt;
        left.is(
            0,
            b"segments 0\nchunks 0\nrecords 0\nnext 1\nlowest 1\nlive 0\ngap 0\n"
        )
    );
    let left = looked_at_one(alloc, PlainPlan::Recover, &SEGMENT)?;
    assert!(rt; left.is(0, b"m k v\n"));
    let left = looked_at_one(alloc, PlainPlan::Stat, &SEGMENT)?;
    assert!(rt;
        left.is(
            0,
            b"segments 1\nchunks 3\nrecords 2\nnext 4\nlowest 2\nlive 1\ngap 2\n"
        )
    );
    let mut marks = begun(alloc, 1, 1)?;
    mark(&mut marks, 1, 1)?;
    mark(&mut marks, 2, 2)?;
    marks.push(0)?;
    let left = looked_at_one(alloc, PlainPlan::Recover, &marks)?;
    assert!(rt; left.is(0, b""));
    let left = looked_at_one(alloc, PlainPlan::Stat, &marks)?;
    assert!(rt;
        left.is(
            0,
            b"segments 1\nchunks 2\nrecords 1\nnext 3\nlowest 3\nlive 0\ngap 0\n"
        )
    );
    let mut twice = begun(alloc, 1, 1)?;
    mark(&mut twice, 1, 1)?;
    put(&mut twice, 2, 2, 0, *b"ka")?;
    put(&mut twice, 3, 2, 2, *b"kb")?;
    mark(&mut twice, 4, 3)?;
    twice.push(0)?;
    let left = looked_at_one(alloc, PlainPlan::Recover, &twice)?;
    assert!(rt; left.is(0, b"m k b\n"));
    let left = looked_at_one(alloc, PlainPlan::Stat, &twice)?;
    assert!(rt;
        left.is(
            0,
            b"segments 1\nchunks 4\nrecords 2\nnext 5\nlowest 3\nlive 1\ngap 2\n"
        )
    );
    Ok(())
}

// Half-made files are passed over, and the last LSN may be there.
#[test]
fn half_made_files_and_the_last_lsn(rt: HostRuntime) -> Result<(), Fail> {
    let alloc = rt.alloc();
    let left = looked_at_one(alloc, PlainPlan::Recover, &[1])?;
    assert!(rt; left.is(0, b""));
    let first = SEGMENT.to_vec(alloc)?;
    let second = HALF_MADE.to_vec(alloc)?;
    let left = looked(
        alloc,
        PlainPlan::Recover,
        vec![in alloc; (1, first), (2, second)]?,
    )?;
    assert!(rt; left.is(0, b"m k v\n"));
    let left = looked_at_one(alloc, PlainPlan::Recover, &LAST_LSN)?;
    assert!(rt; left.is(0, b""));
    Ok(())
}

// Three segments, and the same with the second one gone.
#[test]
fn stores_of_three_segments(rt: HostRuntime) -> Result<(), Fail> {
    let alloc = rt.alloc();
    for (plan, text) in [
        (PlainPlan::Recover, b"m a 1\nm b 2\nm c 3\n".as_slice()),
        (
            PlainPlan::Stat,
            b"segments 3\nchunks 9\nrecords 8\nnext 10\nlowest 2\nlive 3\ngap 8\n",
        ),
    ] {
        let first = session(alloc, 1, 1, 1, *b"a1")?;
        let second = session(alloc, 2, 4, 2, *b"b2")?;
        let third = session(alloc, 3, 7, 2, *b"c3")?;
        let files = vec![in alloc; (1, first), (2, second), (3, third)]?;
        let left = looked(alloc, plan, files)?;
        assert!(rt; left.is(0, text));
        let first = session(alloc, 1, 1, 1, *b"a1")?;
        let third = session(alloc, 3, 7, 2, *b"c3")?;
        let left = looked(alloc, plan, vec![in alloc; (1, first), (3, third)]?)?;
        assert!(rt; left.is(4, b"gap expected 6 found 3\n"));
    }
    Ok(())
}

// What is wrong first with the one segment is told.
#[test]
fn segments_that_are_refused(rt: HostRuntime) -> Result<(), Fail> {
    let alloc = rt.alloc();
    let changes = [
        (5, 9, 4, b"segment 1 offset 5 header\n".as_slice()),
        (72, 2, 4, b"segment 1 offset 64 chunk\n"),
        (14, 0x40, 8, b"stopped limit\n"),
    ];
    for (at, byte, status, text) in changes {
        let bytes = changed(alloc, at, byte)?;
        for plan in [PlainPlan::Recover, PlainPlan::Stat] {
            let left = looked_at_one(alloc, plan, &bytes)?;
            assert!(rt; left.is(status, text));
        }
    }
    for plan in [PlainPlan::Recover, PlainPlan::Stat] {
        let left = looked_at_one(alloc, plan, &SEGMENT[..100])?;
        assert!(rt; left.is(4, b"segment 1 offset 64 chunk\n"));
    }
    Ok(())
}

// The disk fails at each of its calls in turn; the sink fails at its first; and nothing is read for what isn't built
// yet.
#[test]
fn faults_of_the_disk_and_of_the_sink(rt: HostRuntime) -> Result<(), Fail> {
    let alloc = rt.alloc();
    let whole = looked_at_one(alloc, PlainPlan::Recover, &SEGMENT)?;
    for call in 0..whole.disk.record().len() as u64 {
        let files = vec![in alloc; (1, SEGMENT.to_vec(alloc)?)]?;
        let fails = vec![in alloc; call + 1]?;
        let left = left_by(alloc, PlainPlan::Recover, files, fails, Vec::new(alloc))?;
        assert!(rt; left.is(3, b"stopped disk\n"));
    }
    for (first, status) in [(1u8, 6), (9, 4)] {
        let files = vec![in alloc; (1, changed(alloc, 5, first)?)]?;
        let fails = vec![in alloc; 1]?;
        let left = left_by(alloc, PlainPlan::Recover, files, Vec::new(alloc), fails)?;
        assert!(rt; left.is(status, b""));
    }
    let left = looked_at_one(alloc, PlainPlan::Compact, &SEGMENT)?;
    assert!(rt; left.is(10, b"later\n"));
    assert_eq!(rt; left.disk.record().len(), 0);
    Ok(())
}
