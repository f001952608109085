//! Scripts that are run on an empty store: what they print, which records they leave, and what is printed of the store.
use crate::image_reader::{Unread, log_in, seen_in};
use crate::tests::{Left, Texts, no_fault, run};
use frs_disk::Choice;
use frs_types::NoMemory;
use std::alloc::Global;
use std::sync::Wait;
use std::test::Fail;
use std::thread::Threads;

// A record: its kind, its transaction, the lowest LSN that it carries, and the LSN that it names.
type Head = [u64; 4];

// A script, and what a run of it leaves.
struct Told {
    script: &'static [u8],
    text: &'static [u8],
    // From LSN 1 on.
    records: &'static [Head],
    shown: Texts,
}

const PUT_AND_GET: Told = Told {
    script: b"put m k v\nget m k\n",
    text: b"1 1 put m k v -> done\n1 2 get m k -> value v\ndurable 1 1\nclosed\n",
    records: &[[7, 0, 1, 0], [1, 0, 2, 0], [7, 0, 2, 0]],
    shown: (
        b"m k v\n",
        b"segments 1\nchunks 3\nrecords 2\nnext 4\nlowest 2\nlive 1\ngap 2\n",
    ),
};

const NO_COMMAND: Told = Told {
    script: b"",
    text: b"closed\n",
    records: &[[7, 0, 1, 0], [7, 0, 2, 0]],
    shown: (
        b"",
        b"segments 1\nchunks 2\nrecords 1\nnext 3\nlowest 3\nlive 0\ngap 0\n",
    ),
};

const PUT_TWICE: Told = Told {
    script: b"put m k a\nput m k b\nget m k\n",
    text: b"1 1 put m k a -> done\n1 2 put m k b -> done\n1 3 get m k -> value b
durable 1 1\ndurable 1 2\nclosed\n",
    records: &[[7, 0, 1, 0], [1, 0, 2, 0], [1, 0, 2, 2], [7, 0, 3, 0]],
    shown: (
        b"m k b\n",
        b"segments 1\nchunks 4\nrecords 2\nnext 5\nlowest 3\nlive 1\ngap 2\n",
    ),
};

// The last put of a transaction that has removed the key names nothing.
const PUT_AFTER_REMOVE: Told = Told {
    script: b"put m k z\nbegin\nput m k a\nremove m k\nput m k b\ncommit\n",
    text: b"1 1 put m k z -> done\n1 2 begin -> done\n1 3 put m k a -> done\n1 4 remove m k -> done
1 5 put m k b -> done\n1 6 commit -> done\ndurable 1 1\ndurable 1 6\nclosed\n",
    records: &[
        [7, 0, 1, 0],
        [1, 0, 2, 0],
        [4, 3, 2, 0],
        [1, 3, 2, 2],
        [2, 3, 2, 4],
        [1, 3, 2, 0],
        [5, 3, 2, 0],
        [7, 0, 6, 0],
    ],
    shown: (
        b"m k b\n",
        b"segments 1\nchunks 4\nrecords 3\nnext 9\nlowest 6\nlive 1\ngap 3\n",
    ),
};

const REMOVED_IN_TRANSACTION: Told = Told {
    script: b"put m k z\nbegin\nput m k a\nremove m k\ncommit\n",
    text: b"1 1 put m k z -> done\n1 2 begin -> done\n1 3 put m k a -> done\n1 4 remove m k -> done
1 5 commit -> done\ndurable 1 1\ndurable 1 5\nclosed\n",
    records: &[
        [7, 0, 1, 0],
        [1, 0, 2, 0],
        [4, 3, 2, 0],
        [1, 3, 2, 2],
        [2, 3, 2, 4],
        [5, 3, 2, 0],
        [7, 0, 7, 0],
    ],
    shown: (
        b"",
        b"segments 1\nchunks 4\nrecords 1\nnext 8\nlowest 8\nlive 0\ngap 0\n",
    ),
};

// A transaction that the script doesn't commit is abandoned at its end.
const LEFT_OPEN: Told = Told {
    script: b"put m k a\nbegin\nput m k b\n",
    text: b"1 1 put m k a -> done\n1 2 begin -> done\n1 3 put m k b -> done\n1 0 end -> abandoned
durable 1 1\nclosed\n",
    records: &[
        [7, 0, 1, 0],
        [1, 0, 2, 0],
        [4, 3, 2, 0],
        [1, 3, 2, 2],
        [8, 3, 2, 0],
        [7, 0, 2, 0],
    ],
    shown: (
        b"m k a\n",
        b"segments 1\nchunks 4\nrecords 5\nnext 7\nlowest 2\nlive 1\ngap 5\n",
    ),
};

// A put behind the removal of the whole map names nothing.
const PUT_AFTER_DELETE: Told = Told {
    script: b"put m a 1\nbegin\nput m b 2\ndelete m\nput m a 3\ncommit\n",
    text: b"1 1 put m a 1 -> done\n1 2 begin -> done\n1 3 put m b 2 -> done\n1 4 delete m -> done
1 5 put m a 3 -> done\n1 6 commit -> done\ndurable 1 1\ndurable 1 6\nclosed\n",
    records: &[
        [7, 0, 1, 0],
        [1, 0, 2, 0],
        [4, 3, 2, 0],
        [1, 3, 2, 0],
        [3, 3, 2, 0],
        [1, 3, 2, 0],
        [5, 3, 2, 0],
        [7, 0, 6, 0],
    ],
    shown: (
        b"m a 3\n",
        b"segments 1\nchunks 4\nrecords 3\nnext 9\nlowest 6\nlive 1\ngap 3\n",
    ),
};

const ORDERS: Told = Told {
    script: b"begin\nput orders order:1001 {\"qty\":2,\"sku\":\"A-7\"}\nput stock A-7 38\ncommit
get stock A-7\nput notes order:1001 leave%20at%20door\n",
    text: b"1 1 begin -> done\n1 2 put orders order:1001 {\"qty\":2,\"sku\":\"A-7\"} -> done
1 3 put stock A-7 38 -> done\n1 4 commit -> done\n1 5 get stock A-7 -> value 38
1 6 put notes order:1001 leave%20at%20door -> done\ndurable 1 4\ndurable 1 6\nclosed\n",
    records: &[
        [7, 0, 1, 0],
        [4, 2, 2, 0],
        [1, 2, 2, 0],
        [1, 2, 2, 0],
        [5, 2, 2, 0],
        [1, 0, 3, 0],
        [7, 0, 3, 0],
    ],
    shown: (
        b"notes order:1001 leave%20at%20door\norders order:1001 {\"qty\":2,\"sku\":\"A-7\"}\nstock A-7 38\n",
        b"segments 1\nchunks 4\nrecords 5\nnext 8\nlowest 3\nlive 3\ngap 5\n",
    ),
};

// A removal of a key that isn't there is no commit.
const REMOVED_TWICE: Told = Told {
    script: b"put m k a\nremove m k\nremove m k\nget m k\n",
    text: b"1 1 put m k a -> done\n1 2 remove m k -> done\n1 3 remove m k -> none\n1 4 get m k -> none
durable 1 1\ndurable 1 2\nclosed\n",
    records: &[[7, 0, 1, 0], [1, 0, 2, 0], [2, 0, 2, 2], [7, 0, 4, 0]],
    shown: (
        b"",
        b"segments 1\nchunks 4\nrecords 1\nnext 5\nlowest 5\nlive 0\ngap 0\n",
    ),
};

const SCRIPTS: [&Told; 9] = [
    &PUT_AND_GET,
    &NO_COMMAND,
    &PUT_TWICE,
    &PUT_AFTER_REMOVE,
    &REMOVED_IN_TRANSACTION,
    &LEFT_OPEN,
    &PUT_AFTER_DELETE,
    &ORDERS,
    &REMOVED_TWICE,
];

// The files have these records, from LSN 1 on, and no others.
pub(crate) fn has_records(
    alloc: Global,
    files: &[(u64, Vec<u8>)],
    records: &[Head],
) -> Result<bool, NoMemory> {
    let log = match log_in(alloc, files) {
        Ok(log) => log,
        Err(Unread::Wrong) => return Ok(false),
        Err(Unread::Memory) => return Err(NoMemory),
    };
    Ok(
        log.len() == records.len()
            && log.iter().zip(records).all(|(record, head)| [
                record.kind,
                record.tx,
                record.lowest,
                record.named,
            ] == *head),
    )
}

// A run of the script on an empty store leaves what is told.
fn leaves_as_told<R: Threads + Wait + Sync>(
    rt: &R,
    alloc: Global,
    told: &Told,
) -> Result<bool, NoMemory> {
    let left = run(rt, alloc, told.script, no_fault(alloc))?;
    Ok(
        left.is(0, told.text)
            && has_records(alloc, left.disk.files(), told.records)?
            && left.leaves(alloc, Choice::Keep, told.shown)?,
    )
}

#[test]
fn scripts_on_an_empty_store(rt: HostRuntime) -> Result<(), Fail> {
    let alloc = rt.alloc();
    for (place, told) in SCRIPTS.iter().enumerate() {
        assert!(rt; leaves_as_told(&rt, alloc, told)?, "script {place}");
    }
    Ok(())
}

fn add(text: &mut Vec<u8>, line: &[u8]) -> Result<(), NoMemory> {
    Ok(text.extend_from_slice(line)?)
}

// Adds a put on the key of this number to a script, and its line to the text that is printed.
fn add_put(
    alloc: Global,
    number: u32,
    script: &mut Vec<u8>,
    text: &mut Vec<u8>,
) -> Result<(), NoMemory> {
    let line = number.saturating_add(1);
    let put = format!(in alloc; "put m k{number} v\n")?;
    let done = format!(in alloc; "1 {line} put m k{number} v -> done\n")?;
    add(script, put.as_bytes())?;
    add(text, done.as_bytes())
}

// A transaction of so many puts that isn't waited for, and what is printed of it.
fn puts_in_one(alloc: Global, puts: u32) -> Result<(Vec<u8>, Vec<u8>), NoMemory> {
    let mut script = Vec::new(alloc);
    let mut text = Vec::new(alloc);
    add(&mut script, b"begin async\n")?;
    add(&mut text, b"1 1 begin async -> done\n")?;
    for number in 0..puts {
        add_put(alloc, number.saturating_add(1), &mut script, &mut text)?;
    }
    let line = puts.saturating_add(2);
    let done = format!(in alloc; "1 {line} commit -> done\nclosed\n")?;
    add(&mut script, b"commit\n")?;
    add(&mut text, done.as_bytes())?;
    Ok((script, text))
}

// A line for each key from `k1` to `k100`, in the order of a dump: that of the digits, so 1, 10, 100, 11, .. .
fn hundred_entries(alloc: Global) -> Result<Vec<u8>, NoMemory> {
    let mut text = Vec::new(alloc);
    for first in 1..10u32 {
        add_entry(alloc, first, &mut text)?;
        for second in 0..10u32 {
            add_entry(alloc, first * 10 + second, &mut text)?;
            if first * 10 + second == 10 {
                add_entry(alloc, 100, &mut text)?;
            }
        }
    }
    Ok(text)
}

fn add_entry(alloc: Global, number: u32, text: &mut Vec<u8>) -> Result<(), NoMemory> {
    let line = format!(in alloc; "m k{number} v\n")?;
    add(text, line.as_bytes())
}

// What is printed of the numbers of the store is this, and of its maps these entries.
fn shows_hundred(alloc: Global, left: &Left) -> Result<bool, NoMemory> {
    let entries = hundred_entries(alloc)?;
    let numbers = b"segments 1\nchunks 3\nrecords 102\nnext 105\nlowest 3\nlive 100\ngap 102\n";
    left.leaves(
        alloc,
        Choice::Keep,
        (entries.as_slice(), numbers.as_slice()),
    )
}

// The records are those of the marks and of the transaction, and their maps have these entries.
fn has_hundred(alloc: Global, left: &Left) -> Result<bool, NoMemory> {
    let entries = hundred_entries(alloc)?;
    Ok(match seen_in(alloc, left.disk.files())? {
        Some(seen) => seen.newest == 104 && seen.maps.as_slice() == entries.as_slice(),
        None => false,
    })
}

#[test]
fn a_transaction_that_isnt_waited_for_is_written_at_the_end(rt: HostRuntime) -> Result<(), Fail> {
    let alloc = rt.alloc();
    let (script, text) = puts_in_one(alloc, 100)?;
    let left = run(&rt, alloc, script.as_slice(), no_fault(alloc))?;
    assert!(rt; left.is(0, text.as_slice()));
    assert!(rt; shows_hundred(alloc, &left)?);
    assert!(rt; has_hundred(alloc, &left)?);
    Ok(())
}

// Such a transaction is run whole, in so many calls of the disk, and has so many records.
fn takes_calls<R: Threads + Wait + Sync>(
    rt: &R,
    alloc: Global,
    puts: u32,
    calls: u64,
) -> Result<bool, NoMemory> {
    let (script, text) = puts_in_one(alloc, puts)?;
    let left = run(rt, alloc, script.as_slice(), no_fault(alloc))?;
    Ok(left.is(0, text.as_slice()) && left.calls() == calls)
}

// The opening of the store takes 12 calls, and the mark at the end four. Each group between them takes four, and has
// 256 records at most: 102, 1,002 or 2,002 records are 1, 4 or 8 groups. The last are more than the ring has slots for.
#[test]
fn a_transaction_is_written_in_groups(rt: HostRuntime) -> Result<(), Fail> {
    let alloc = rt.alloc();
    for (puts, calls) in [(100, 20), (1_000, 32), (2_000, 48)] {
        assert!(rt; takes_calls(&rt, alloc, puts, calls)?, "{puts} puts");
    }
    Ok(())
}
