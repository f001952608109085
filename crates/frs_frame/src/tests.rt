//! The bytes of a record of each kind, and each fault, worked out by hand from the format.
use super::*;
use frs_types::{Action, Key, MapId, NoMemory, Value, WordFault};
use std::alloc::Global;
use std::process::Abort;
use std::test::Fail;

const PUT: [u8; 32] = [
    1, 0, 0, 0, 0, 0, 0, 0, 0, 0, 0, 0, 0, 0, 0, 0, 2, 0, 0, 0, 0, 0, 0, 0, 0, 1, 109, 1, 107, 0,
    1, 118,
];

const COMMIT: [u8; 25] = [
    5, 0, 0, 0, 0, 0, 0, 0, 4, 0, 0, 0, 0, 0, 0, 0, 2, 0, 0, 0, 0, 0, 0, 0, 0,
];

fn put(alloc: Global) -> Result<Action, WordFault> {
    let id = MapId::new(alloc, b"m")?;
    let key = Key::new(alloc, b"k")?;
    let value = Value::new(alloc, b"v")?;
    Ok(Action::Put { id, key, value })
}

fn remove(alloc: Global) -> Result<Action, WordFault> {
    let id = MapId::new(alloc, b"m")?;
    let key = Key::new(alloc, b"k")?;
    Ok(Action::Remove { id, key })
}

fn delete(alloc: Global) -> Result<Action, WordFault> {
    let id = MapId::new(alloc, b"m")?;
    Ok(Action::Delete { id })
}

fn compaction(alloc: Global) -> Result<Action, WordFault> {
    let id = MapId::new(alloc, b"m")?;
    let key = Key::new(alloc, b"k")?;
    let value = Value::new(alloc, b"")?;
    Ok(Action::Compaction { id, key, value })
}

// The action whose record has this kind: of the map m, the key k and the value v, or none in a compaction.
fn action(alloc: Global, kind: u8) -> Result<Action, WordFault> {
    match kind {
        1 => put(alloc),
        2 => remove(alloc),
        3 => delete(alloc),
        4 => Ok(Action::Begin),
        5 => Ok(Action::Commit),
        6 => compaction(alloc),
        7 => Ok(Action::Mark),
        _ => Ok(Action::Abandon),
    }
}

// A record's transaction, the lowest LSN and the one that it names.
type Head = (u64, u64, u64);

// The record of an action.
fn encoded(alloc: Global, action: &Action, head: Head) -> Result<Framed, NoMemory> {
    let mut framed = encode_payload(alloc, action)?;
    framed.patch(head.0, head.1, head.2);
    Ok(framed)
}

// The bytes with one more behind them.
fn longer(alloc: Global, bytes: &[u8]) -> Result<Vec<u8>, NoMemory> {
    let mut longer = bytes.to_vec(alloc)?;
    longer.push(255)?;
    Ok(longer)
}

// The bytes are read as a record with this head, whatever follows, and it has these bytes again.
fn is_read(rt: &impl Abort, alloc: Global, head: Head, bytes: &[u8]) -> Result<(), Fail> {
    let longer = longer(alloc, bytes)?;
    let (record, len) = decode(alloc, longer.as_slice())?;
    assert_eq!(rt; len, bytes.len() as u64);
    assert_eq!(rt; (record.tx, record.lowest, record.named), head);
    let again = encoded(alloc, &record.action, head)?;
    assert_eq!(rt; again.bytes(), bytes);
    Ok(())
}

// The bytes of the record of this kind are the given ones, and those are read as that record.
fn has_bytes(
    rt: &impl Abort,
    alloc: Global,
    kind: u8,
    head: Head,
    bytes: &[u8],
) -> Result<(), Fail> {
    let action = action(alloc, kind)?;
    let framed = encoded(alloc, &action, head)?;
    assert_eq!(rt; framed.bytes(), bytes);
    is_read(rt, alloc, head, bytes)
}

// The kind, the three numbers and what stands behind them.
fn joined(alloc: Global, kind: u8, head: Head, behind: &[u8]) -> Result<Vec<u8>, NoMemory> {
    let mut bytes = Vec::new(alloc);
    bytes.push(kind)?;
    bytes.extend_from_slice(&head.0.to_be_bytes())?;
    bytes.extend_from_slice(&head.1.to_be_bytes())?;
    bytes.extend_from_slice(&head.2.to_be_bytes())?;
    bytes.extend_from_slice(behind)?;
    Ok(bytes)
}

// Of each further kind its head, and what stands behind it.
const PARTS: [(u8, Head, &[u8]); 6] = [
    (2, (3, 2, 4), &[1, 109, 1, 107]),
    (3, (3, 2, 0), &[1, 109]),
    (4, (0x0102_0304_0506_0708, 258, 0), &[]),
    (6, (0, 2, 258), &[1, 109, 1, 107, 0, 0]),
    (7, (0, 1, 0), &[]),
    (8, (3, 2, 0), &[]),
];

#[test]
fn each_kind(rt: HostRuntime) -> Result<(), Fail> {
    let alloc = rt.alloc();
    has_bytes(&rt, alloc, 1, (0, 2, 0), &PUT)?;
    has_bytes(&rt, alloc, 5, (4, 2, 0), &COMMIT)?;
    for &(kind, head, behind) in &PARTS {
        let bytes = joined(alloc, kind, head, behind)?;
        has_bytes(&rt, alloc, kind, head, bytes.as_slice())?;
    }
    Ok(())
}

// The records of a put, a remove and a delete from words that are kept.
fn of_put(alloc: Global) -> Result<Framed, Fail> {
    let id = MapId::new(alloc, b"m")?;
    let key = Key::new(alloc, b"k")?;
    let value = Value::new(alloc, b"v")?;
    Ok(encode_put(alloc, &id, &key, &value)?)
}

fn of_remove(alloc: Global) -> Result<Framed, Fail> {
    let id = MapId::new(alloc, b"m")?;
    let key = Key::new(alloc, b"k")?;
    Ok(encode_remove(alloc, &id, &key)?)
}

fn of_delete(alloc: Global) -> Result<Framed, Fail> {
    let id = MapId::new(alloc, b"m")?;
    Ok(encode_delete(alloc, &id)?)
}

#[test]
fn borrowed_words(rt: HostRuntime) -> Result<(), Fail> {
    let alloc = rt.alloc();
    let mut put = of_put(alloc)?;
    put.patch(0, 2, 0);
    assert_eq!(&rt; put.bytes(), &PUT[..]);
    let remove = of_remove(alloc)?;
    assert_eq!(&rt; remove.bytes()[0], 2);
    assert_eq!(&rt; &remove.bytes()[25..], &PUT[25..29]);
    let delete = of_delete(alloc)?;
    assert_eq!(&rt; delete.bytes()[0], 3);
    assert_eq!(&rt; &delete.bytes()[25..], &PUT[25..27]);
    Ok(())
}

#[test]
fn an_abandoned_put(rt: HostRuntime) -> Result<(), Fail> {
    let delete = delete(rt.alloc())?;
    let mut framed = encode_payload(rt.alloc(), &delete)?;
    framed.make_abandon();
    framed.patch(4, 2, 0);
    let mut abandon = COMMIT;
    abandon[0] = 8;
    let abandon: &[u8] = &abandon;
    assert_eq!(rt; framed.bytes(), abandon);
    Ok(())
}

// What the bytes give once one of them is changed and only the first `len` are kept.
fn fault_of(
    alloc: Global,
    bytes: &[u8],
    at: usize,
    byte: u8,
    len: usize,
) -> Result<Option<FrameFault>, Fail> {
    let mut bytes = bytes.to_vec(alloc)?;
    if let Some(place) = bytes.get_mut(at) {
        *place = byte;
    }
    bytes.truncate(len);
    Ok(decode(alloc, bytes.as_slice()).err())
}

fn kind(byte: u8) -> FrameFault {
    FrameFault::Kind { byte }
}

fn short(need: u64, have: u64) -> FrameFault {
    FrameFault::Short { need, have }
}

fn field(offset: u64) -> FrameFault {
    FrameFault::Field { offset }
}

// Of a commit or a put: a place, the byte that is put there, how many bytes are kept, and the fault.
type Case = (usize, u8, usize, FrameFault);

fn of_commit() -> [Case; 6] {
    [
        (0, 5, 24, short(25, 24)),
        (0, 9, 25, kind(9)),
        (8, 0, 25, field(1)),
        (16, 0, 25, field(9)),
        (24, 1, 25, field(17)),
        (0, 7, 25, field(1)),
    ]
}

fn of_a_put() -> [Case; 12] {
    [
        (0, 0, 1, kind(0)),
        (0, 1, 0, short(1, 0)),
        (0, 1, 16, short(17, 16)),
        (0, 6, 32, field(17)),
        (25, 0, 32, field(25)),
        (25, 65, 26, field(25)),
        (25, 64, 32, short(90, 32)),
        (27, 0, 32, field(27)),
        (27, 255, 28, short(283, 28)),
        (29, 1, 32, short(288, 32)),
        (0, 1, 30, short(31, 30)),
        (0, 1, 31, short(32, 31)),
    ]
}

// Asserts the fault of each case.
fn have_faults(rt: &impl Abort, alloc: Global, bytes: &[u8], cases: &[Case]) -> Result<(), Fail> {
    for &(at, byte, len, fault) in cases {
        let found = fault_of(alloc, bytes, at, byte, len)?;
        assert_eq!(rt; found, Some(fault));
    }
    Ok(())
}

#[test]
fn each_fault(rt: HostRuntime) -> Result<(), Fail> {
    have_faults(&rt, rt.alloc(), &COMMIT, &of_commit())?;
    have_faults(&rt, rt.alloc(), &PUT, &of_a_put())
}
