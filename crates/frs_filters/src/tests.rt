//! Logs made by hand: what the four filters leave of their records, and the lowest that is still needed.
ghost use Rattle.std.specs.Prelude.{◌≡◌};
ghost use Rattle.frs_types.specs.Records.{is_id, is_key, is_value, has_words, kind_allows, is_allowed};

use super::*;
use frs_types::{Action, Entry, Key, MapId, NoMemory, Record, Value, WordFault};
use std::alloc::Global;
use std::process::Abort;
use std::test::Fail;

// A record by its words, with its transaction and the LSN that it names: all but the mark are written while LSN 2 is the
// lowest. Puts, removes and deletes are of the map m, a remove of its key k; `Again` is its entry a again, of value x.
#[derive(Clone, Copy)]
enum Written {
    Mark,
    Begin(u64),
    Commit(u64),
    Abandon(u64),
    Put(u64, u64, &'static [u8], &'static [u8]),
    Remove(u64, u64),
    Delete(u64),
    Again(u64),
}

// A record that was written while LSN 2 was the lowest.
fn record(tx: u64, named: u64, action: Action) -> Record {
    Record {
        tx,
        lowest: 2,
        named,
        action,
    }
}

// The mark of an opening, LSN 1.
fn mark() -> Record {
    Record {
        tx: 0,
        lowest: 1,
        named: 0,
        action: Action::Mark,
    }
}

// A put of the map m.
fn put(alloc: Global, tx: u64, named: u64, key: &[u8], value: &[u8]) -> Result<Record, WordFault> {
    let id = MapId::new(alloc, b"m")?;
    let key = Key::new(alloc, key)?;
    let value = Value::new(alloc, value)?;
    Ok(record(tx, named, Action::Put { id, key, value }))
}

// A remove of the key k of the map m.
fn remove(alloc: Global, tx: u64, named: u64) -> Result<Record, WordFault> {
    let id = MapId::new(alloc, b"m")?;
    let key = Key::new(alloc, b"k")?;
    Ok(record(tx, named, Action::Remove { id, key }))
}

// A delete of the map m.
fn delete(alloc: Global, tx: u64) -> Result<Record, WordFault> {
    let id = MapId::new(alloc, b"m")?;
    Ok(record(tx, 0, Action::Delete { id }))
}

// The entry a of the map m again, with value x.
fn again(alloc: Global, named: u64) -> Result<Record, WordFault> {
    let id = MapId::new(alloc, b"m")?;
    let key = Key::new(alloc, b"a")?;
    let value = Value::new(alloc, b"x")?;
    Ok(record(0, named, Action::Compaction { id, key, value }))
}

// The record with words of its own.
fn record_of(alloc: Global, written: Written) -> Result<Record, WordFault> {
    match written {
        Written::Mark => Ok(mark()),
        Written::Begin(tx) => Ok(record(tx, 0, Action::Begin)),
        Written::Commit(tx) => Ok(record(tx, 0, Action::Commit)),
        Written::Abandon(tx) => Ok(record(tx, 0, Action::Abandon)),
        Written::Put(tx, named, key, value) => put(alloc, tx, named, key, value),
        Written::Remove(tx, named) => remove(alloc, tx, named),
        Written::Delete(tx) => delete(alloc, tx),
        Written::Again(named) => again(alloc, named),
    }
}

// Adds the record to a log.
fn write(alloc: Global, log: &mut Vec<Record>, written: Written) -> Result<(), Fail> {
    let record = record_of(alloc, written)?;
    log.push(record)?;
    Ok(())
}

// The log of these records, the first of which has LSN 1.
fn log_of(alloc: Global, written: &[Written]) -> Result<Vec<Record>, Fail> {
    let mut log = Vec::new(alloc);
    for written in written {
        write(alloc, &mut log, *written)?;
    }
    Ok(log)
}

// Whether an id is within its limits.
fn is_id(id: &MapId) -> bool
    ensures { result ≡ is_id id.now }
{
    let len = id.bytes().len();
    1 <= len && len <= 64
}

// Whether a key is within its limits.
fn is_key(key: &Key) -> bool
    ensures { result ≡ is_key key.now }
{
    let len = key.bytes().len();
    1 <= len && len <= 255
}

// Whether a value is within its limit.
fn is_value(value: &Value) -> bool
    ensures { result ≡ is_value value.now }
{
    value.bytes().len() <= 65535
}

// Whether the words of an action are within their limits.
fn has_words(action: &Action) -> bool
    ensures { result ≡ has_words action.now }
{
    match action {
        Action::Put { id, key, value } | Action::Compaction { id, key, value } => {
            is_id(id) && is_key(key) && is_value(value)
        }
        Action::Remove { id, key } => is_id(id) && is_key(key),
        Action::Delete { id } => is_id(id),
        Action::Begin | Action::Commit | Action::Mark | Action::Abandon => true,
    }
}

// Whether the kind of a record at this LSN allows its transaction and what it names.
fn kind_allows(lsn: u64, action: &Action, tx: u64, named: u64) -> bool
    ensures { result ≡ kind_allows lsn action.now tx named }
{
    match action {
        Action::Put { .. } | Action::Remove { .. } => tx < lsn,
        Action::Delete { .. } => tx < lsn && named == 0,
        Action::Begin => tx == lsn && named == 0,
        Action::Commit | Action::Abandon => 0 < tx && tx < lsn && named == 0,
        Action::Compaction { .. } => tx == 0 && 0 < named,
        Action::Mark => tx == 0 && named == 0,
    }
}

// Whether a record may stand at this LSN.
fn may_stand(lsn: u64, r: &Record) -> bool
    ensures { result ≡ is_allowed lsn r.now }
{
    kind_allows(lsn, &r.action, r.tx, r.named)
        && r.named < lsn
        && 0 < r.lowest
        && r.lowest <= lsn
        && has_words(&r.action)
}

// What a log leaves.
#[derive(Drop)]
struct Left {
    // The survivors.
    entries: Vec<Entry>,
    // The least of their LSNs, the open begins and the next LSN.
    lowest: u64,
}

// What records leave, the first of which has LSN 1.
fn left_of(rt: &impl Abort, alloc: Global, records: Vec<Record>) -> Result<Left, NoMemory> {
    let mut older = records;
    let mut lowest = older.len() as u64 + 1;
    let mut chain = Chain::new(alloc);
    let mut begins = OpenBegins::new(alloc);
    for lsn in (1..lowest).rev() {
        let Some(r) = older.pop() else { break };
        assert!(rt; may_stand(lsn, &r), "a record out of its place");
        begins.note(lsn, &r)?;
        chain.offer(lsn, r)?;
    }
    let entries = chain.entries();
    for entry in entries.iter() {
        lowest = lowest.min(entry.lsn);
    }
    lowest = begins.lowest(lowest);
    Ok(Left { entries, lowest })
}

// An entry of the map m: its key, its value and its LSN.
type Kept = (&'static [u8], &'static [u8], u64);

// Asserts what is left: the entries, and the lowest.
fn expect(rt: &impl Abort, left: &Left, want: &[Kept], lowest: u64) {
    assert_eq!(rt; left.entries.len(), want.len());
    for (entry, want) in left.entries.iter().zip(want.iter()) {
        assert_eq!(rt; entry.id.bytes(), b"m".as_slice());
        assert_eq!(rt; entry.key.bytes(), want.0);
        assert_eq!(rt; entry.value.bytes(), want.1);
        assert_eq!(rt; entry.lsn, want.2);
    }
    assert_eq!(rt; left.lowest, lowest);
}

// Asserts what a log leaves.
fn expect_of(
    rt: &impl Abort,
    alloc: Global,
    log: Vec<Record>,
    want: &[Kept],
    lowest: u64,
) -> Result<(), Fail> {
    let left = left_of(rt, alloc, log)?;
    expect(rt, &left, want, lowest);
    Ok(())
}

// A put, and a transaction that puts, removes and puts the same key.
const REMOVED_IN_A_TRANSACTION: [Written; 7] = [
    Written::Mark,
    Written::Put(0, 0, b"k", b"z"),
    Written::Begin(3),
    Written::Put(3, 2, b"k", b"a"),
    Written::Remove(3, 4),
    Written::Put(3, 0, b"k", b"b"),
    Written::Commit(3),
];

#[test]
fn removed_in_a_transaction(rt: HostRuntime) -> Result<(), Fail> {
    let log = log_of(rt.alloc(), &REMOVED_IN_A_TRANSACTION)?;
    expect_of(&rt, rt.alloc(), log, &[(b"k", b"b", 6)], 6)
}

// The same without its last put: the put in the transaction is skipped, and still names the one before it.
const REMOVED_AT_LAST: [Written; 6] = [
    Written::Mark,
    Written::Put(0, 0, b"k", b"z"),
    Written::Begin(3),
    Written::Put(3, 2, b"k", b"a"),
    Written::Remove(3, 4),
    Written::Commit(3),
];

#[test]
fn removed_at_last(rt: HostRuntime) -> Result<(), Fail> {
    let log = log_of(rt.alloc(), &REMOVED_AT_LAST)?;
    expect_of(&rt, rt.alloc(), log, &[], 7)
}

// A transaction that was abandoned leaves the entry before it.
const ABANDONED: [Written; 5] = [
    Written::Mark,
    Written::Put(0, 0, b"k", b"a"),
    Written::Begin(3),
    Written::Put(3, 2, b"k", b"b"),
    Written::Abandon(3),
];

#[test]
fn abandoned(rt: HostRuntime) -> Result<(), Fail> {
    let log = log_of(rt.alloc(), &ABANDONED)?;
    expect_of(&rt, rt.alloc(), log, &[(b"k", b"a", 2)], 2)
}

// A map is deleted in a transaction, and then has one key.
const DELETED_IN_A_TRANSACTION: [Written; 7] = [
    Written::Mark,
    Written::Put(0, 0, b"a", b"1"),
    Written::Begin(3),
    Written::Put(3, 0, b"b", b"2"),
    Written::Delete(3),
    Written::Put(3, 0, b"a", b"3"),
    Written::Commit(3),
];

#[test]
fn deleted_in_a_transaction(rt: HostRuntime) -> Result<(), Fail> {
    let log = log_of(rt.alloc(), &DELETED_IN_A_TRANSACTION)?;
    expect_of(&rt, rt.alloc(), log, &[(b"a", b"3", 6)], 6)
}

// An old put and a put of another key.
const TWO_KEYS: [Written; 3] = [
    Written::Mark,
    Written::Put(0, 0, b"a", b"x"),
    Written::Put(0, 0, b"b", b"v"),
];

// They, 198 more puts of the other key, and the old entry again.
fn with_many_puts(alloc: Global) -> Result<Vec<Record>, Fail> {
    let mut log = log_of(alloc, &TWO_KEYS)?;
    for named in 3..201 {
        write(alloc, &mut log, Written::Put(0, named, b"b", b"v"))?;
    }
    write(alloc, &mut log, Written::Again(2))?;
    Ok(log)
}

#[test]
fn written_again(rt: HostRuntime) -> Result<(), Fail> {
    let log = with_many_puts(rt.alloc())?;
    let want: [Kept; 2] = [(b"b", b"v", 201), (b"a", b"x", 202)];
    expect_of(&rt, rt.alloc(), log, &want, 201)
}

// An old put, a begin with one put, and a put of a third key.
const BEHIND_A_BEGIN: [Written; 5] = [
    Written::Mark,
    Written::Put(0, 0, b"a", b"x"),
    Written::Begin(3),
    Written::Put(3, 0, b"b", b"y"),
    Written::Put(0, 0, b"c", b"v1"),
];

// Adds the put of the third key with this number.
fn write_numbered(alloc: Global, log: &mut Vec<Record>, number: u64) -> Result<(), Fail> {
    let value = format!(in alloc; "v{number}")?;
    let record = put(alloc, 0, number.saturating_add(3), b"c", value.as_bytes())?;
    log.push(record)?;
    Ok(())
}

// They, 69 more puts of the third key, and the old entry again; the transaction is open still.
fn with_numbered_puts(alloc: Global) -> Result<Vec<Record>, Fail> {
    let mut log = log_of(alloc, &BEHIND_A_BEGIN)?;
    for number in 2..71u64 {
        write_numbered(alloc, &mut log, number)?;
    }
    write(alloc, &mut log, Written::Again(2))?;
    Ok(log)
}

// The same, and the transaction commits last.
fn with_a_commit(alloc: Global) -> Result<Vec<Record>, Fail> {
    let mut log = with_numbered_puts(alloc)?;
    let mut last = record(3, 0, Action::Commit);
    last.lowest = 3;
    log.push(last)?;
    Ok(log)
}

#[test]
fn written_again_behind_a_begin(rt: HostRuntime) -> Result<(), Fail> {
    let alloc = rt.alloc();
    let log = with_a_commit(alloc)?;
    let want: [Kept; 3] = [(b"b", b"y", 4), (b"c", b"v70", 74), (b"a", b"x", 75)];
    expect_of(&rt, alloc, log, &want, 4)?;
    let log = with_numbered_puts(alloc)?;
    let want: [Kept; 2] = [(b"c", b"v70", 74), (b"a", b"x", 75)];
    expect_of(&rt, alloc, log, &want, 3)
}

// A log that is empty, and a log of one mark.
#[test]
fn no_changes(rt: HostRuntime) -> Result<(), Fail> {
    expect_of(&rt, rt.alloc(), Vec::new(rt.alloc()), &[], 1)?;
    let log = log_of(rt.alloc(), &[Written::Mark])?;
    expect_of(&rt, rt.alloc(), log, &[], 2)
}

// A log with a transaction that commits and one that stays open, and a compaction behind them.
const WITH_ALL: [Written; 10] = [
    Written::Mark,
    Written::Put(0, 0, b"k", b"z"),
    Written::Begin(3),
    Written::Put(3, 2, b"k", b"a"),
    Written::Remove(3, 4),
    Written::Delete(3),
    Written::Commit(3),
    Written::Begin(8),
    Written::Put(8, 0, b"k", b"b"),
    Written::Again(2),
];

// The LSNs of the records that a filter gives on, the newest first.
fn given_on<F: Filter>(
    alloc: Global,
    filter: &mut F,
    records: Vec<Record>,
) -> Result<Vec<u64>, NoMemory> {
    let mut older = records;
    let mut given = Vec::new(alloc);
    for lsn in (1..older.len() as u64 + 1).rev() {
        let Some(r) = older.pop() else { break };
        if let Some((lsn, _)) = filter.offer(lsn, r)? {
            given.push(lsn)?;
        }
    }
    Ok(given)
}

// Asserts the LSNs of the records that a filter gives on of this log.
fn expect_given<F: Filter>(
    rt: &impl Abort,
    alloc: Global,
    filter: &mut F,
    want: &[u64],
) -> Result<(), Fail> {
    let log = log_of(alloc, &WITH_ALL)?;
    let given = given_on(alloc, filter, log)?;
    assert_eq!(rt; given.as_slice(), want);
    Ok(())
}

// Each filter by itself.
#[test]
fn each_by_itself(rt: HostRuntime) -> Result<(), Fail> {
    let alloc = rt.alloc();
    let mut transactions = TransactionFilter::new(alloc);
    expect_given(&rt, alloc, &mut transactions, &[10, 6, 5, 4, 2])?;
    let mut skips = SkipFilter::new(alloc);
    expect_given(&rt, alloc, &mut skips, &[10, 9, 8, 7, 6, 3, 1])?;
    let mut deletes = DeleteFilter::new(alloc);
    expect_given(&rt, alloc, &mut deletes, &[10, 9, 8, 7, 3, 1])
}

#[test]
fn the_replay_by_itself(rt: HostRuntime) -> Result<(), Fail> {
    let mut replay = ReplayFilter::new(rt.alloc());
    expect_given(&rt, rt.alloc(), &mut replay, &[])?;
    let left = Left {
        entries: replay.entries(),
        lowest: 9,
    };
    expect(&rt, &left, &[(b"k", b"b", 9), (b"a", b"x", 10)], 9);
    Ok(())
}
