//! The bytes of whole segments and of damaged ones, worked out by hand from the format.
ghost use Rattle.std.specs.Prelude.{◌≡◌, IfOk, IsSome, None};
ghost use Rattle.std.specs.FinMap.{get};

use super::*;
use frs_disk::{Choice, Disk, FaultPlan, MemDisk};
use frs_types::{NoMemory, Record};
use std::alloc::Global;
use std::test::Fail;

// Segment 1 with a mark, a put and a mark, each in a chunk of its own.
const WHOLE: [u8; 156] = [
    1, 70, 82, 83, 83, 1, 0, 0, 0, 0, 0, 0, 0, 1, 0, 0, 0, 0, 0, 0, 0, 1, 1, 0, 0, 0, 25, 0, 0, 0,
    1, 0, 0, 0, 0, 0, 0, 0, 1, 7, 0, 0, 0, 0, 0, 0, 0, 0, 0, 0, 0, 0, 0, 0, 0, 1, 0, 0, 0, 0, 0, 0,
    0, 0, 1, 0, 0, 0, 32, 0, 0, 0, 1, 0, 0, 0, 0, 0, 0, 0, 2, 1, 0, 0, 0, 0, 0, 0, 0, 0, 0, 0, 0,
    0, 0, 0, 0, 2, 0, 0, 0, 0, 0, 0, 0, 0, 1, 109, 1, 107, 0, 1, 118, 1, 0, 0, 0, 25, 0, 0, 0, 1,
    0, 0, 0, 0, 0, 0, 0, 3, 7, 0, 0, 0, 0, 0, 0, 0, 0, 0, 0, 0, 0, 0, 0, 0, 2, 0, 0, 0, 0, 0, 0, 0,
    0, 0,
];

// What follows the first 64 of these bytes where there is no put: a mark, and the closed gate.
const MARK: [u8; 43] = [
    1, 0, 0, 0, 25, 0, 0, 0, 1, 0, 0, 0, 0, 0, 0, 0, 2, 7, 0, 0, 0, 0, 0, 0, 0, 0, 0, 0, 0, 0, 0,
    0, 0, 2, 0, 0, 0, 0, 0, 0, 0, 0, 0,
];

// Bytes that are changed there, and what a scan then answers: the number of chunks, the LSN after the last, the length.
const CHANGES: [(usize, u8, Answer); 17] = [
    (1, 0x47, Err(ScanFault::BadHeader { offset: 1 })),
    (5, 9, Err(ScanFault::BadHeader { offset: 5 })),
    (13, 2, Err(ScanFault::BadHeader { offset: 6 })),
    (21, 0, Err(ScanFault::BadHeader { offset: 14 })),
    (21, 2, Err(ScanFault::BadChunk { offset: 22 })),
    (
        14,
        0x40,
        Err(ScanFault::NumberLimit {
            lsn: 0x4000_0000_0000_0001,
        }),
    ),
    (22, 0, Ok((0, 1, 23))),
    (65, 0xff, Err(ScanFault::BadChunk { offset: 64 })),
    (72, 2, Err(ScanFault::BadChunk { offset: 64 })),
    (81, 9, Err(ScanFault::BadChunk { offset: 64 })),
    (97, 3, Err(ScanFault::BadChunk { offset: 64 })),
    (105, 2, Err(ScanFault::BadChunk { offset: 64 })),
    (105, 1, Ok((3, 4, 156))),
    (113, 5, Ok((2, 3, 114))),
    (146, 0, Err(ScanFault::BadChunk { offset: 113 })),
    (146, 3, Ok((3, 4, 156))),
    (155, 1, Err(ScanFault::BadChunk { offset: 155 })),
];

type Answer = Result<(usize, u64, u64), ScanFault>;

// The bytes of the whole segment, with one of them changed, up to a length.
fn changed(alloc: Global, at: usize, byte: u8, len: usize) -> Result<Vec<u8>, NoMemory> {
    let mut bytes = Vec::from_slice(alloc, &WHOLE)?;
    if let Some(place) = bytes.get_mut(at) {
        *place = byte;
    }
    bytes.truncate(len);
    Ok(bytes)
}

// A disk on which file 1 holds these bytes.
fn disk_with(alloc: Global, bytes: Vec<u8>) -> Result<MemDisk, NoMemory>
    ensures { IfOk result (λ disk. IsSome (get (⟦<MemDisk as Disk>⟧.reads disk) 1)) }
{
    let plan = FaultPlan {
        failing: Vec::new(alloc),
        stop_after: None,
    };
    let mut files = Vec::new(alloc);
    files.push((1, bytes))?;
    MemDisk::of(alloc, files, plan)
}

// What a scan of these bytes answers.
fn scanned(alloc: Global, bytes: Vec<u8>) -> Result<Answer, NoMemory> {
    let mut disk = disk_with(alloc, bytes)?;
    match scan(alloc, &mut disk, 1) {
        Ok(found) => Ok(Ok((found.chunks.items().len(), found.end, found.length))),
        Err(ScanFault::Memory) => Err(NoMemory),
        Err(fault) => Ok(Err(fault)),
    }
}

// The records that the whole segment has at the place.
fn records_at(
    alloc: Global,
    offset: u64,
    first: u64,
    count: u32,
    body: u32,
) -> Result<Vec<Record>, ScanFault> {
    let place = ChunkPlace {
        offset,
        first,
        count,
        body,
    };
    let mut disk = disk_with(alloc, changed(alloc, 0, 1, 156)?)?;
    read_chunk(alloc, &mut disk, 1, &place)
}

#[test]
fn whole_segments(rt: HostRuntime) -> Result<(), Fail> {
    let alloc = rt.alloc();
    assert_eq!(rt;
        scanned(alloc, changed(alloc, 0, 1, 156)?)?,
        Ok((3, 4, 156))
    );
    let mut shorter = changed(alloc, 0, 1, 64)?;
    shorter.extend_from_slice(&MARK)?;
    assert_eq!(rt; scanned(alloc, shorter)?, Ok((2, 3, 107)));
    Ok(())
}

#[test]
fn chunks(rt: HostRuntime) -> Result<(), Fail> {
    let alloc = rt.alloc();
    assert_eq!(rt; records_at(alloc, 22, 1, 1, 25)?.len(), 1);
    assert_eq!(rt; records_at(alloc, 64, 2, 1, 32)?.len(), 1);
    assert_eq!(rt; records_at(alloc, 113, 3, 1, 25)?.len(), 1);
    let bad = records_at(alloc, 64, 2, 2, 32).err();
    assert_eq!(rt; bad, Some(ScanFault::BadChunk { offset: 64 }));
    Ok(())
}

#[test]
fn damaged_segments(rt: HostRuntime) -> Result<(), Fail> {
    let alloc = rt.alloc();
    for (at, byte, answer) in &CHANGES {
        let bytes = changed(alloc, *at, *byte, 156)?;
        assert!(rt; scanned(alloc, bytes)? == *answer, "{byte} at {at}");
    }
    assert_eq!(rt;
        scanned(alloc, changed(alloc, 0, 1, 100)?)?,
        Err(ScanFault::BadChunk { offset: 64 })
    );
    assert_eq!(rt;
        scanned(alloc, changed(alloc, 0, 1, 22)?)?,
        Err(ScanFault::HalfMade)
    );
    Ok(())
}

// The text of each fault.
const TEXTS: [(ScanFault, &str); 6] = [
    (ScanFault::HalfMade, "the file was never finished"),
    (
        ScanFault::BadHeader { offset: 14 },
        "the header is wrong at offset 14",
    ),
    (
        ScanFault::BadChunk { offset: 64 },
        "there is no chunk behind the gate at offset 64",
    ),
    (ScanFault::NumberLimit { lsn: 7 }, "the LSN 7 is too large"),
    (ScanFault::Disk, "the disk has failed"),
    (ScanFault::Memory, "out of memory"),
];

#[test]
fn texts_of_faults(rt: HostRuntime) -> Result<(), Fail> {
    for (fault, text) in &TEXTS {
        let told = format!(in rt.alloc(); "{fault}")?;
        assert_eq!(rt; told.as_str(), *text);
    }
    Ok(())
}

#[test]
fn an_empty_segment(rt: HostRuntime) -> Result<(), Fail> {
    let alloc = rt.alloc();
    let mut disk = empty_disk(alloc)?;
    open_segment(&mut disk, 1, 1)?;
    assert_eq!(rt; disk.record().len(), 7);
    let kept = disk.crash(Choice::Lose)?;
    let files = kept.files();
    assert_eq!(rt; files.len(), 1);
    assert_eq!(rt;
        files[0].1.as_slice(),
        changed(alloc, 22, 0, 23)?.as_slice()
    );
    Ok(())
}

// A disk without a file.
fn empty_disk(alloc: Global) -> Result<MemDisk, NoMemory>
    ensures { IfOk result (λ disk. (get (⟦<MemDisk as Disk>⟧.reads disk) 1 ≡ None)
        × (⟦<MemDisk as Disk>⟧.removing disk 1 → ⊥)) }
{
    let plan = FaultPlan {
        failing: Vec::new(alloc),
        stop_after: None,
    };
    MemDisk::of(alloc, Vec::new(alloc), plan)
}
