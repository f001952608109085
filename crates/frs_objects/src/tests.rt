//! Changes by hand: what stands at each key afterwards and how old it is, also where memory is wanting on the way.
ghost use Rattle.std.specs.Prelude.{◌<◌, IsTrue};
ghost use Rattle.std.specs.List.{AllByRecursion};
ghost use Rattle.frs_objects.specs.Objects.{AreNew, puts_among, put_lsns};

use super::*;
use frs_types::{Entry, Key, MapId, NoMemory, Value, WordFault};
use std::alloc::Global;
use std::process::Abort;
use std::test::Fail;

// A change by its words: a put under a key of a map with a value and an LSN, a remove of a key, a delete of a map.
#[derive(Clone, Copy)]
enum Change {
    Put(&'static [u8], &'static [u8], &'static [u8], u64),
    Remove(&'static [u8], &'static [u8]),
    Delete(&'static [u8]),
}

fn put(alloc: Global, id: &[u8], key: &[u8], value: &[u8], lsn: u64) -> Result<Op, WordFault> {
    let id = MapId::new(alloc, id)?;
    let key = Key::new(alloc, key)?;
    let value = Value::new(alloc, value)?;
    Ok(Op::Put {
        id,
        key,
        value,
        lsn,
    })
}

fn remove(alloc: Global, id: &[u8], key: &[u8]) -> Result<Op, WordFault> {
    let id = MapId::new(alloc, id)?;
    let key = Key::new(alloc, key)?;
    Ok(Op::Remove { id, key })
}

fn delete(alloc: Global, id: &[u8]) -> Result<Op, WordFault> {
    let id = MapId::new(alloc, id)?;
    Ok(Op::Delete { id })
}

// The change with words of its own.
fn op_of(alloc: Global, change: Change) -> Result<Op, WordFault> {
    match change {
        Change::Put(id, key, value, lsn) => put(alloc, id, key, value, lsn),
        Change::Remove(id, key) => remove(alloc, id, key),
        Change::Delete(id) => delete(alloc, id),
    }
}

// The changes, in this order.
fn ops_of(alloc: Global, changes: &[Change]) -> Result<Vec<Op>, Fail> {
    let mut ops = Vec::new(alloc);
    for change in changes {
        let op = op_of(alloc, *change)?;
        ops.push(op)?;
    }
    Ok(ops)
}

// Whether the LSNs of the puts are new, and rise from above this number.
fn are_new(objects: &Objects, ops: &[Op], above: u64) -> bool
    ensures new { IsTrue result → AreNew objects.now (put_lsns (puts_among ops.now)) }
    ensures rising { IsTrue result
        → AllByRecursion (λ m. above < m) (put_lsns (puts_among ops.now)) }
{
    let Some((op, later)) = ops.split_first() else {
        return true;
    };
    match op {
        Op::Put { lsn, .. } => {
            if *lsn <= above {
                return false;
            }
            if objects.has_lsn(*lsn) {
                return false;
            }
            are_new(objects, later, *lsn)
        }
        _ => are_new(objects, later, above),
    }
}

// Makes changes, whose LSNs are to be new and rising.
fn apply(
    rt: &impl Abort,
    alloc: Global,
    objects: &mut Objects,
    ops: &mut Vec<Op>,
) -> Result<(), NoMemory> {
    assert!(rt;
        are_new(objects, ops.as_slice(), 0),
        "an LSN that isn't new"
    );
    objects.apply(alloc, ops)
}

// Moves an entry to an LSN, which is to be new.
fn move_lsn(
    rt: &impl Abort,
    alloc: Global,
    objects: &mut Objects,
    key: &[u8],
    from: u64,
    to: u64,
) -> Result<Result<(), MoveFault>, WordFault> {
    let id = MapId::new(alloc, b"m")?;
    let key = Key::new(alloc, key)?;
    assert!(rt; 0 < from && !objects.has_lsn(to), "an LSN that isn't new");
    Ok(objects.move_lsn(alloc, &id, &key, from, to))
}

// Makes these changes, whose LSNs are to be new and rising.
fn make(
    rt: &impl Abort,
    alloc: Global,
    objects: &mut Objects,
    changes: &[Change],
) -> Result<(), Fail> {
    let mut ops = ops_of(alloc, changes)?;
    apply(rt, alloc, objects, &mut ops)?;
    assert_eq!(rt; ops.len(), 0);
    Ok(())
}

// An entry by its words: the map, the key, the value and the LSN.
type Kept = (&'static [u8], &'static [u8], &'static [u8], u64);

// Whether the maps have this entry.
fn has(alloc: Global, objects: &Objects, kept: Kept) -> Result<bool, WordFault> {
    let id = MapId::new(alloc, kept.0)?;
    let key = Key::new(alloc, kept.1)?;
    Ok(match objects.get(&id, &key) {
        Some(entry) => entry.value.bytes() == kept.2 && entry.lsn == kept.3,
        None => false,
    })
}

// Asserts that the maps have each of these entries.
fn expect(rt: &impl Abort, alloc: Global, objects: &Objects, kept: &[Kept]) -> Result<(), Fail> {
    for &kept in kept {
        assert!(rt; has(alloc, objects, kept)?, "{}", kept.3);
    }
    Ok(())
}

// The LSN of the oldest entry, where it has this key.
fn oldest(objects: &Objects, key: &[u8]) -> Option<u64> {
    let Some(entry) = objects.oldest() else {
        return None;
    };
    if entry.key.bytes() != key {
        return None;
    }
    Some(entry.lsn)
}

// An entry of value 1 and LSN 2, under the key a of the map m.
fn entry(alloc: Global) -> Result<Entry, WordFault> {
    let id = MapId::new(alloc, b"m")?;
    let key = Key::new(alloc, b"a")?;
    let value = Value::new(alloc, b"1")?;
    Ok(Entry {
        id,
        key,
        value,
        lsn: 2,
    })
}

// The maps with this one entry.
fn one(alloc: Global) -> Result<Objects, Fail> {
    let entry = entry(alloc)?;
    let mut entries = Vec::new(alloc);
    entries.push(entry)?;
    Ok(Objects::of(alloc, entries)?)
}

// Puts under two keys, between which their map is deleted.
const AROUND_A_DELETE: [Change; 3] = [
    Change::Put(b"m", b"b", b"2", 4),
    Change::Delete(b"m"),
    Change::Put(b"m", b"a", b"3", 6),
];

// A key that is put, removed and put again, and a map of one key that is deleted.
const PUT_AGAIN: [Change; 6] = [
    Change::Put(b"m", b"k", b"x", 7),
    Change::Remove(b"m", b"k"),
    Change::Put(b"m", b"k", b"y", 8),
    Change::Put(b"n", b"k", b"z", 9),
    Change::Delete(b"n"),
    Change::Remove(b"n", b"k"),
];

#[test]
fn a_transaction(rt: HostRuntime) -> Result<(), Fail> {
    let alloc = rt.alloc();
    let mut objects = one(alloc)?;
    make(&rt, alloc, &mut objects, &AROUND_A_DELETE)?;
    assert_eq!(rt; objects.live(), 1);
    assert_eq!(rt; objects.totals(), (1, 3));
    expect(&rt, alloc, &objects, &[(b"m", b"a", b"3", 6)])?;
    assert_eq!(rt; objects.lowest(), Some(6));
    make(&rt, alloc, &mut objects, &PUT_AGAIN)?;
    assert_eq!(rt; objects.live(), 2);
    expect(&rt, alloc, &objects, &[(b"m", b"k", b"y", 8)])?;
    assert!(rt; !has(alloc, &objects, (b"n", b"k", b"z", 9))?);
    Ok(())
}

// An entry a of LSN 2, and an entry b that is put under each LSN from 3 to 201.
fn one_old(rt: &impl Abort, alloc: Global) -> Result<Objects, Fail> {
    let mut objects = Objects::of(alloc, Vec::new(alloc))?;
    assert_eq!(rt; objects.lowest(), None);
    make(rt, alloc, &mut objects, &[Change::Put(b"m", b"a", b"x", 2)])?;
    for lsn in 3..202 {
        make(
            rt,
            alloc,
            &mut objects,
            &[Change::Put(b"m", b"b", b"y", lsn)],
        )?;
    }
    Ok(objects)
}

// An entry that has changed isn't moved, nor is one that isn't there: the key, and the LSN that is found.
const CHANGED: [(&[u8], u64); 2] = [(b"a", 202), (b"c", 0)];

#[test]
fn the_oldest_moves(rt: HostRuntime) -> Result<(), Fail> {
    let alloc = rt.alloc();
    let mut objects = one_old(&rt, alloc)?;
    assert_eq!(rt; objects.live(), 2);
    assert_eq!(rt; oldest(&objects, b"a"), Some(2));
    assert_eq!(rt; move_lsn(&rt, alloc, &mut objects, b"a", 2, 202)?, Ok(()));
    assert_eq!(rt; objects.lowest(), Some(201));
    assert_eq!(rt; oldest(&objects, b"b"), Some(201));
    expect(&rt, alloc, &objects, &[(b"m", b"a", b"x", 202)])?;
    for (key, found) in CHANGED {
        let moved = move_lsn(&rt, alloc, &mut objects, key, 2, 203)?;
        assert_eq!(rt; moved, Err(MoveFault::Changed { found }));
    }
    Ok(())
}

// Whether the maps are those of `one`, and the changes all there.
fn is_before(alloc: Global, objects: &Objects, ops: &[Op]) -> Result<bool, WordFault> {
    let kept = has(alloc, objects, (b"m", b"a", b"1", 2))?;
    Ok(kept && ops.len() == 6 && objects.live() == 1 && objects.lowest() == Some(2))
}

// Changes of two maps, of which one is deleted on the way.
const OF_TWO_MAPS: [Change; 6] = [
    Change::Put(b"m", b"b", b"2", 4),
    Change::Remove(b"m", b"a"),
    Change::Put(b"n", b"a", b"3", 5),
    Change::Delete(b"m"),
    Change::Put(b"m", b"a", b"4", 6),
    Change::Put(b"m", b"c", b"5", 7),
];

// What they leave.
const LEFT_OF_TWO_MAPS: [Kept; 3] = [
    (b"m", b"a", b"4", 6),
    (b"m", b"c", b"5", 7),
    (b"n", b"a", b"3", 5),
];

// After want of memory all is as it was, and the same changes can be made again.
#[test]
fn all_or_nothing(rt: HostRuntime) -> Result<(), Fail> {
    let alloc = rt.alloc();
    let mut objects = one(alloc)?;
    let mut ops = ops_of(alloc, &OF_TWO_MAPS)?;
    if apply(&rt, alloc, &mut objects, &mut ops).is_err() {
        assert!(rt; is_before(alloc, &objects, ops.as_slice())?);
        apply(&rt, alloc, &mut objects, &mut ops)?;
    }
    assert_eq!(rt; objects.live(), 3);
    assert_eq!(rt; objects.lowest(), Some(5));
    expect(&rt, alloc, &objects, &LEFT_OF_TWO_MAPS)
}
