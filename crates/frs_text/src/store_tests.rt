//! What is printed of stores, whose files and texts are worked out by hand.
ghost use Rattle.std.specs.Prelude.{map, IfOk};
ghost use Rattle.std.specs.List.{AllByRecursion};
ghost use Rattle.frs_disk.specs.Disk.{IsNumber};
ghost use Rattle.frs_disk.specs.Files.{AreDistinct};
ghost use Rattle.frs_recovery.specs.Answers.{IsInRange};

use super::*;
use frs_disk::{FaultPlan, MemDisk, MemSink};
use frs_recovery::{Recovered, recover};
use frs_types::NoMemory;
use std::alloc::Global;
use std::process::Abort;
use std::test::Fail;

// A record by its words, each of which stands behind its length: a mark with its lowest LSN, a put with its lowest LSN
// and the one that it names, and a record of this kind in the transaction that begins at LSN 2.
#[derive(Clone, Copy)]
enum Written {
    Mark(u64),
    Put(u64, u64, &'static [u8]),
    Inside(u8, &'static [u8]),
}

// The kind of a record, its transaction, its lowest LSN and the one that it names, and its words.
fn parts(record: Written) -> (u8, [u64; 3], &'static [u8]) {
    match record {
        Written::Mark(lowest) => (7, [0, lowest, 0], b""),
        Written::Put(lowest, named, words) => (1, [0, lowest, named], words),
        Written::Inside(kind, words) => (kind, [2, 2, 0], words),
    }
}

// The bytes before the first chunk of a segment.
fn header(alloc: Global, number: u64, first: u64) -> Result<Vec<u8>, NoMemory> {
    let mut bytes = Vec::from_slice(alloc, b"\x01FRSS\x01")?;
    bytes.extend_from_slice(&number.to_be_bytes())?;
    bytes.extend_from_slice(&first.to_be_bytes())?;
    Ok(bytes)
}

// Adds the head of a chunk with one record that has so many words.
fn push_head(bytes: &mut Vec<u8>, words: usize, lsn: u64) -> Result<(), NoMemory> {
    let words = u32::try_from(words).unwrap_or(0);
    let body = words.saturating_add(25);
    bytes.push(1)?;
    bytes.extend_from_slice(&body.to_be_bytes())?;
    bytes.extend_from_slice(&[0, 0, 0, 1])?;
    bytes.extend_from_slice(&lsn.to_be_bytes())?;
    Ok(())
}

// Adds a chunk with this record.
fn push_chunk(bytes: &mut Vec<u8>, record: Written, lsn: u64) -> Result<(), NoMemory> {
    let (kind, [tx, lowest, named], words) = parts(record);
    push_head(bytes, words.len(), lsn)?;
    bytes.push(kind)?;
    bytes.extend_from_slice(&tx.to_be_bytes())?;
    bytes.extend_from_slice(&lowest.to_be_bytes())?;
    bytes.extend_from_slice(&named.to_be_bytes())?;
    bytes.extend_from_slice(words)?;
    Ok(())
}

// A segment with each of the records in a chunk of its own.
fn segment(
    alloc: Global,
    number: u64,
    first: u64,
    records: &[Written],
) -> Result<Vec<u8>, NoMemory> {
    let mut bytes = header(alloc, number, first)?;
    let mut lsn = first;
    for record in records {
        push_chunk(&mut bytes, *record, lsn)?;
        lsn = lsn.saturating_add(1);
    }
    bytes.push(0)?;
    Ok(bytes)
}

// The store with these files, as it is read back.
fn recovered(
    rt: &impl Abort,
    alloc: Global,
    files: Vec<(u64, Vec<u8>)>,
) -> Result<Recovered, NoMemory>
    requires in_range { AllByRecursion IsNumber (map (λ f. f.0) files.items) }
    requires distinct { AreDistinct (map (λ f. f.0) files.items) }
    ensures { IfOk result IsInRange }
{
    let plan = FaultPlan {
        failing: Vec::new(alloc),
        stop_after: None,
    };
    let mut disk = MemDisk::of(alloc, files, plan)?;
    match recover(alloc, &mut disk) {
        Ok(recovered) => Ok(recovered),
        Err(fault) => panic!(rt; "{fault}"),
    }
}

// The entries of a store, as they are printed.
fn printed_maps(alloc: Global, store: &Recovered) -> Result<MemSink, Fail>
    requires { IsInRange store.now }
{
    let mut maps = MemSink::of(alloc, Vec::new(alloc))?;
    dump(alloc, store.entries.items(), &mut maps)?;
    Ok(maps)
}

// The numbers of a store, as they are printed.
fn printed_numbers(alloc: Global, store: &Recovered) -> Result<MemSink, Fail>
    requires { IsInRange store.now }
{
    let mut numbers = MemSink::of(alloc, Vec::new(alloc))?;
    stat_text(alloc, store, &mut numbers)?;
    Ok(numbers)
}

// What is printed of a store: its entries and its numbers.
type Texts = (&'static str, &'static str);

fn expect(
    rt: &impl Abort,
    alloc: Global,
    files: Vec<(u64, Vec<u8>)>,
    texts: Texts,
) -> Result<(), Fail>
    requires in_range { AllByRecursion IsNumber (map (λ f. f.0) files.items) }
    requires distinct { AreDistinct (map (λ f. f.0) files.items) }
{
    let store = recovered(rt, alloc, files)?;
    let maps = printed_maps(alloc, &store)?;
    assert_eq!(rt; maps.bytes(), texts.0.as_bytes());
    let numbers = printed_numbers(alloc, &store)?;
    assert_eq!(rt; numbers.bytes(), texts.1.as_bytes());
    Ok(())
}

// The store whose one segment has these records.
fn expect_one(
    rt: &impl Abort,
    alloc: Global,
    records: &[Written],
    texts: Texts,
) -> Result<(), Fail> {
    let bytes = segment(alloc, 1, 1, records)?;
    let mut files = Vec::new(alloc);
    files.push((1, bytes))?;
    expect(rt, alloc, files, texts)
}

// The records of a store of one segment, and what is printed of it.
const ONE_SESSION: [(&[Written], Texts); 3] = [
    (
        &[
            Written::Mark(1),
            Written::Put(2, 0, b"\x01m\x01k\x00\x01v"),
            Written::Mark(2),
        ],
        (
            "m k v\n",
            "segments 1\nchunks 3\nrecords 2\nnext 4\nlowest 2\nlive 1\ngap 2\n",
        ),
    ),
    (
        &[Written::Mark(1), Written::Mark(2)],
        (
            "",
            "segments 1\nchunks 2\nrecords 1\nnext 3\nlowest 3\nlive 0\ngap 0\n",
        ),
    ),
    (
        &[
            Written::Mark(1),
            Written::Put(2, 0, b"\x01m\x01k\x00\x01a"),
            Written::Put(2, 2, b"\x01m\x01k\x00\x01b"),
            Written::Mark(3),
        ],
        (
            "m k b\n",
            "segments 1\nchunks 4\nrecords 2\nnext 5\nlowest 3\nlive 1\ngap 2\n",
        ),
    ),
];

#[test]
fn one_session(rt: HostRuntime) -> Result<(), Fail> {
    for &(records, texts) in &ONE_SESSION {
        expect_one(&rt, rt.alloc(), records, texts)?;
    }
    Ok(())
}

const A_TRANSACTION: [Written; 7] = [
    Written::Mark(1),
    Written::Inside(4, b""),
    Written::Inside(
        1,
        b"\x06orders\x0Aorder:1001\x00\x15{\"qty\":2,\"sku\":\"A-7\"}",
    ),
    Written::Inside(1, b"\x05stock\x03A-7\x00\x0238"),
    Written::Inside(5, b""),
    Written::Put(3, 0, b"\x05notes\x0Aorder:1001\x00\x0Dleave at door"),
    Written::Mark(3),
];

const OF_A_TRANSACTION: Texts = (
    "notes order:1001 leave%20at%20door\norders order:1001 {\"qty\":2,\"sku\":\"A-7\"}\nstock A-7 38\n",
    "segments 1\nchunks 7\nrecords 5\nnext 8\nlowest 3\nlive 3\ngap 5\n",
);

#[test]
fn a_transaction(rt: HostRuntime) -> Result<(), Fail> {
    expect_one(&rt, rt.alloc(), &A_TRANSACTION, OF_A_TRANSACTION)
}

// The records of three sessions.
const THREE_SESSIONS: [[Written; 3]; 3] = [
    [
        Written::Mark(1),
        Written::Put(2, 0, b"\x01m\x01a\x00\x011"),
        Written::Mark(2),
    ],
    [
        Written::Mark(2),
        Written::Put(2, 0, b"\x01m\x01b\x00\x012"),
        Written::Mark(2),
    ],
    [
        Written::Mark(2),
        Written::Put(2, 0, b"\x01m\x01c\x00\x013"),
        Written::Mark(2),
    ],
];

const OF_THREE_SESSIONS: Texts = (
    "m a 1\nm b 2\nm c 3\n",
    "segments 3\nchunks 9\nrecords 8\nnext 10\nlowest 2\nlive 3\ngap 8\n",
);

#[test]
fn more_segments(rt: HostRuntime) -> Result<(), Fail> {
    let alloc = rt.alloc();
    let [first, second, third] = &THREE_SESSIONS;
    let first = segment(alloc, 1, 1, first)?;
    let second = segment(alloc, 2, 4, second)?;
    let third = segment(alloc, 3, 7, third)?;
    let mut files = Vec::new(alloc);
    files.push((1, first))?;
    files.push((2, second))?;
    files.push((3, third))?;
    expect(&rt, alloc, files, OF_THREE_SESSIONS)
}

// The records of a second session, none of which needs the first one's.
const RENEWED: [Written; 3] = [
    Written::Mark(2),
    Written::Put(2, 2, b"\x01m\x01k\x00\x01b"),
    Written::Mark(5),
];

const OF_RENEWED: Texts = (
    "m k b\n",
    "segments 1\nchunks 3\nrecords 2\nnext 7\nlowest 5\nlive 1\ngap 2\n",
);

// A file below the segments that are needed isn't looked at.
#[test]
fn an_older_file(rt: HostRuntime) -> Result<(), Fail> {
    let alloc = rt.alloc();
    let newer = segment(alloc, 2, 4, &RENEWED)?;
    let junk = Vec::from_slice(alloc, &[42; 10])?;
    let mut files = Vec::new(alloc);
    files.push((1, junk))?;
    files.push((2, newer))?;
    expect(&rt, alloc, files, OF_RENEWED)
}

// Ids and keys of which one begins with the other, a byte that isn't shown, and a value without bytes.
const AN_ORDER: [Written; 5] = [
    Written::Put(1, 0, b"\x02mm\x01a\x00\x011"),
    Written::Put(1, 0, b"\x01m\x02kk\x00\x012"),
    Written::Put(1, 0, b"\x01n\x01\xFF\x00\x00"),
    Written::Put(1, 0, b"\x01m\x01k\x00\x013"),
    Written::Put(1, 0, b"\x01n\x01%\x00\x014"),
];

const OF_AN_ORDER: Texts = (
    "m k 3\nm kk 2\nmm a 1\nn %25 4\nn %FF %\n",
    "segments 1\nchunks 5\nrecords 5\nnext 6\nlowest 1\nlive 5\ngap 5\n",
);

#[test]
fn an_order(rt: HostRuntime) -> Result<(), Fail> {
    expect_one(&rt, rt.alloc(), &AN_ORDER, OF_AN_ORDER)
}
