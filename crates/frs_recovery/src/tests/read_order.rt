//! In which order a recovery reads a segment, and how wide.
use super::{WHOLE, begun, changed, chunk, cut, one};
use crate::recover;
use frs_disk::MemDisk;
use frs_segment::WIDEST;
use frs_types::NoMemory;
use std::alloc::Global;
use std::process::Abort;
use std::test::Fail;

// What a recovery reads of the whole segment, as the file's number, the offset and the room: the header, each gate
// with the head behind it, and then the chunks from the newest to the oldest.
const READS: [(u64, u64, u64); 8] = [
    (1, 0, 23),
    (1, 22, 17),
    (1, 64, 17),
    (1, 113, 17),
    (1, 155, 17),
    (1, 113, 43),
    (1, 64, 50),
    (1, 22, 43),
];

// The greatest room of these reads, or 0 where there is none.
fn widest(reads: &[(u64, u64, u64)]) -> u64 {
    let mut widest = 0;
    for (_, _, room) in reads {
        widest = (*room).max(widest);
    }
    widest
}

// Asserts that something was read, and nothing wider than recovery may.
fn expect_narrow(rt: &impl Abort, reads: &[(u64, u64, u64)]) {
    assert!(rt; widest(reads) >= 1);
    assert!(rt; widest(reads) <= WIDEST);
}

#[test]
fn reads_of_a_segment(rt: HostRuntime) -> Result<(), Fail> {
    let alloc = rt.alloc();
    let bytes = changed(alloc, 0, 1)?;
    let mut disk = one(alloc, 1, bytes)?;
    assert!(rt; recover(alloc, &mut disk).is_ok());
    assert!(rt; disk.reads() == READS.as_slice());
    expect_narrow(&rt, disk.reads());
    Ok(())
}

// The whole segment, whose put's body has the greatest length that can be written.
fn body_past_the_end(alloc: Global) -> Result<Vec<u8>, NoMemory> {
    let mut bytes = cut(alloc, 65)?;
    bytes.extend_from_slice(&[0xff, 0xff, 0xff, 0xff])?;
    bytes.extend_from_slice(&WHOLE[69..])?;
    Ok(bytes)
}

#[test]
fn a_body_past_the_end(rt: HostRuntime) -> Result<(), Fail> {
    let alloc = rt.alloc();
    let bytes = body_past_the_end(alloc)?;
    let mut disk = one(alloc, 1, bytes)?;
    let fault = recover(alloc, &mut disk).err();
    assert_eq!(rt; fault, Some(chunk(64)));
    expect_narrow(&rt, disk.reads());
    Ok(())
}

// Adds a chunk with one put of a value of so many bytes. Its key is one byte, its LSN.
fn long_put(bytes: &mut Vec<u8>, lsn: u8, value: u16) -> Result<(), NoMemory> {
    let [high, low] = value.saturating_add(31).to_be_bytes();
    bytes.extend_from_slice(&[1, 0, 0, high, low, 0, 0, 0, 1, 0, 0, 0, 0, 0, 0, 0, lsn])?;
    bytes.extend_from_slice(&[1, 0, 0, 0, 0, 0, 0, 0, 0])?;
    bytes.extend_from_slice(&[0, 0, 0, 0, 0, 0, 0, 1, 0, 0, 0, 0, 0, 0, 0, 0])?;
    let [high, low] = value.to_be_bytes();
    bytes.extend_from_slice(&[1, b'm', 1, lsn, high, low])?;
    for _ in 0..value {
        bytes.push(b'v')?;
    }
    Ok(())
}

// Segment 1 with 200 chunks, of which each but the last takes 5,000 bytes, and 1,000,000 bytes in all.
fn long_segment(alloc: Global) -> Result<Vec<u8>, NoMemory> {
    let mut bytes = begun(alloc, 1, 1)?;
    for lsn in 1..200u8 {
        long_put(&mut bytes, lsn, 4952)?;
    }
    long_put(&mut bytes, 200, 4929)?;
    bytes.push(0)?;
    Ok(bytes)
}

// The offset of one of its gates, from 0: of a chunk's, or of the closed one at the end.
fn gate(number: u64) -> u64 {
    number.saturating_mul(5000).saturating_add(22).min(999_999)
}

// What a recovery reads of it, by the read's number from 0: the header, each gate with the head behind it, and then
// the chunks from the newest to the oldest, each with the gate behind it.
fn long_read(number: u64) -> (u64, u64, u64) {
    if number == 0 {
        return (1, 0, 23);
    }
    if number <= 201 {
        return (1, gate(number.saturating_sub(1)), 17);
    }
    let nth = 401u64.saturating_sub(number);
    let end = gate(nth.saturating_add(1)).saturating_add(1);
    (1, gate(nth), end.saturating_sub(gate(nth)))
}

// Asserts that these are the reads of the long segment.
fn expect_long_reads(rt: &impl Abort, reads: &[(u64, u64, u64)]) {
    assert_eq!(rt; reads.len(), 402);
    let mut number = 0u64;
    for read in reads {
        assert!(rt; *read == long_read(number), "read {number}");
        number = number.saturating_add(1);
    }
}

// A disk with the long segment.
fn long_disk(rt: &impl Abort, alloc: Global) -> Result<MemDisk, NoMemory> {
    let bytes = long_segment(alloc)?;
    assert_eq!(rt; bytes.len(), 1_000_000);
    one(alloc, 1, bytes)
}

#[test]
fn a_segment_of_many_chunks(rt: HostRuntime) -> Result<(), Fail> {
    let alloc = rt.alloc();
    let mut disk = long_disk(&rt, alloc)?;
    match recover(alloc, &mut disk) {
        Ok(answer) => {
            assert_eq!(rt; answer.entries.items().len(), 200);
            assert_eq!(rt; answer.found.next, 201);
        }
        Err(fault) => panic!(rt; "{fault}"),
    }
    expect_narrow(&rt, disk.reads());
    expect_long_reads(&rt, disk.reads());
    Ok(())
}
