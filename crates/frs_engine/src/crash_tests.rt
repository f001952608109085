//! Runs that the disk cuts short, and what a crash leaves of each.
ghost use Rattle.std.specs.Prelude.{map, IfOk};
ghost use Rattle.std.specs.List.{AllByRecursion};
ghost use Rattle.frs_disk.specs.Disk.{IsNumber};
ghost use Rattle.frs_disk.specs.Files.{AreDistinct};
ghost use Rattle.frs_disk.specs.Frames.{NoneRemovedAbove};

use crate::image_reader::{Seen, seen_in};
use crate::plain_job_tests::{HALF_MADE, SEGMENT, session};
use crate::tests::{CHOICES, Left, Texts, acks_in, no_fault, run, run_on};
use frs_disk::{Choice, FaultPlan, MemDisk};
use frs_types::NoMemory;
use std::alloc::Global;
use std::sync::Wait;
use std::test::Fail;
use std::thread::Threads;

// Where the disk is in the way of a run. Calls are counted from 1.
#[derive(Clone, Copy)]
enum Trouble {
    // Each call behind this one fails.
    StopAfter(u64),
    // This call fails.
    FailAt(u64),
}

// There is no segment: the one file is half-made.
const NOTHING: Texts = (
    b"",
    b"segments 0\nchunks 0\nrecords 0\nnext 1\nlowest 1\nlive 0\ngap 0\n",
);

// There is the opening mark alone.
const MARK: Texts = (
    b"",
    b"segments 1\nchunks 1\nrecords 1\nnext 2\nlowest 2\nlive 0\ngap 0\n",
);

// There is the put behind the opening mark.
const PUT: Texts = (
    b"m k v\n",
    b"segments 1\nchunks 2\nrecords 1\nnext 3\nlowest 2\nlive 1\ngap 1\n",
);

// There is a put, and a transaction behind it that puts the key, removes it and puts it again. Its commit, LSN 7, still
// carries the lowest LSN from before it.
const PUT_AGAIN: Texts = (
    b"m k b\n",
    b"segments 1\nchunks 3\nrecords 6\nnext 8\nlowest 6\nlive 1\ngap 2\n",
);

// The same, where the transaction ends with the removal: the first put is named by a put that the removal names.
const REMOVED: Texts = (
    b"",
    b"segments 1\nchunks 3\nrecords 5\nnext 7\nlowest 7\nlive 0\ngap 0\n",
);

// A put and a get.
const PUT_AND_GET: &[u8] = b"put m k v\nget m k\n";

// What a run of them prints that was stopped while it wrote its put.
const ANSWERED: &[u8] = b"1 1 put m k v -> done\nstopped disk\n";

// A transaction on a key that was put before, and what is printed where the disk stops behind it.
const CHANGED_TWICE: &[u8] = b"put m k z\nbegin\nput m k a\nremove m k\nput m k b\ncommit\n";

const COMMITTED: &[u8] = b"1 1 put m k z -> done\n1 2 begin -> done\n1 3 put m k a -> done
1 4 remove m k -> done\n1 5 put m k b -> done\n1 6 commit -> done\ndurable 1 1\ndurable 1 6\nstopped disk\n";

// The same without its last put.
const CHANGED_ONCE: &[u8] = b"put m k z\nbegin\nput m k a\nremove m k\ncommit\n";

const REMOVED_TEXT: &[u8] = b"1 1 put m k z -> done\n1 2 begin -> done\n1 3 put m k a -> done
1 4 remove m k -> done\n1 5 commit -> done\ndurable 1 1\ndurable 1 5\nstopped disk\n";

// A script that is run on an empty store, where the disk was in the way, what the run prints, and what is printed of
// the store that a crash leaves: where what is pending is done or filled with ones, and where it isn't. Call 7 would
// open the file's gate. Call 14 syncs the put behind its closed gate, and call 15 opens this gate, which a crash may
// leave closed until call 16 syncs it. Call 20 syncs the gate of a second group.
const CUT_SHORT: [(&[u8], Trouble, &[u8], Texts, Texts); 6] = [
    (
        PUT_AND_GET,
        Trouble::FailAt(7),
        b"stopped disk\n",
        NOTHING,
        NOTHING,
    ),
    (PUT_AND_GET, Trouble::FailAt(14), ANSWERED, MARK, MARK),
    (PUT_AND_GET, Trouble::StopAfter(14), ANSWERED, MARK, MARK),
    (PUT_AND_GET, Trouble::StopAfter(15), ANSWERED, PUT, MARK),
    (
        CHANGED_TWICE,
        Trouble::StopAfter(20),
        COMMITTED,
        PUT_AGAIN,
        PUT_AGAIN,
    ),
    (
        CHANGED_ONCE,
        Trouble::StopAfter(20),
        REMOVED_TEXT,
        REMOVED,
        REMOVED,
    ),
];

fn plan_with(alloc: Global, trouble: Trouble) -> Result<FaultPlan, NoMemory> {
    let mut plan = no_fault(alloc);
    match trouble {
        Trouble::StopAfter(calls) => plan.stop_after = Some(calls),
        Trouble::FailAt(call) => plan.failing.push(call)?,
    }
    Ok(plan)
}

// Each crash leaves a store of which one of these is printed: the first where what is pending is done or filled with
// ones.
fn each_leaves(alloc: Global, left: &Left, open: Texts, closed: Texts) -> Result<bool, NoMemory> {
    for (choice, texts) in [
        (Choice::Keep, open),
        (Choice::Fill(1), open),
        (Choice::Fill(0), closed),
        (Choice::Fill(7), closed),
        (Choice::Lose, closed),
    ] {
        if !left.leaves(alloc, choice, texts)? {
            return Ok(false);
        }
    }
    Ok(true)
}

#[test]
fn what_a_crash_leaves_of_a_run_cut_short_is_read(rt: HostRuntime) -> Result<(), Fail> {
    let alloc = rt.alloc();
    for (script, trouble, text, open, closed) in CUT_SHORT {
        let plan = plan_with(alloc, trouble)?;
        let left = run(&rt, alloc, script, plan)?;
        assert!(rt; left.is(3, text));
        assert!(rt; each_leaves(alloc, &left, open, closed)?);
    }
    Ok(())
}

// A store that a run begins on.
#[derive(Clone, Copy)]
enum Store {
    // It has no file.
    Empty,
    // Two runs of one put each have left it.
    TwoRuns,
    // A run of one put has left it, and another one a half-made file.
    HalfMade,
}

// The files of a store.
fn files_of(alloc: Global, store: Store) -> Result<Vec<(u64, Vec<u8>)>, NoMemory>
    ensures in_range { IfOk result (λ files. AllByRecursion IsNumber (map (λ f. f.0) files.items)) }
    ensures distinct { IfOk result (λ files. AreDistinct (map (λ f. f.0) files.items)) }
{
    match store {
        Store::Empty => Ok(Vec::new(alloc)),
        Store::TwoRuns => {
            let first = session(alloc, 1, 1, 1, *b"a1")?;
            let second = session(alloc, 2, 4, 2, *b"b2")?;
            Ok(vec![in alloc; (1, first), (2, second)]?)
        }
        Store::HalfMade => {
            let first = SEGMENT.to_vec(alloc)?;
            let second = HALF_MADE.to_vec(alloc)?;
            Ok(vec![in alloc; (1, first), (2, second)]?)
        }
    }
}

// A commit of a run: its LSN, whether it is to be acknowledged, and the maps from there on.
type Commit = (u64, bool, &'static [u8]);

// A run on a store, and the maps that it goes through.
struct Course {
    store: Store,
    script: &'static [u8],
    // What is printed where nothing is in the way.
    text: &'static [u8],
    // The newest LSN of the store, and its maps.
    newest: u64,
    maps: &'static [u8],
    // What is committed, in order.
    commits: &'static [Commit],
}

// The third of three runs of one put each. Its opening mark has LSN 7.
const THIRD_RUN: Course = Course {
    store: Store::TwoRuns,
    script: b"put m c 3\n",
    text: b"1 1 put m c 3 -> done\ndurable 1 1\nclosed\n",
    newest: 6,
    maps: b"m a 1\nm b 2\n",
    commits: &[(8, true, b"m a 1\nm b 2\nm c 3\n")],
};

// Changes outside of transactions and inside, one of which isn't waited for and one isn't committed. They have LSN 8 to
// 20, in the order of the lines.
const TRANSACTIONS: Course = Course {
    store: Store::TwoRuns,
    script: b"put m c 3\nbegin\nput m a 4\nremove m b\ncommit\ndelete m
begin async\nput n k v\ncommit\nput m d 5\nbegin\nput m e 6\n",
    text: b"1 1 put m c 3 -> done\n1 2 begin -> done\n1 3 put m a 4 -> done\n1 4 remove m b -> done
1 5 commit -> done\n1 6 delete m -> done\n1 7 begin async -> done\n1 8 put n k v -> done\n1 9 commit -> done
1 10 put m d 5 -> done\n1 11 begin -> done\n1 12 put m e 6 -> done\n1 0 end -> abandoned
durable 1 1\ndurable 1 5\ndurable 1 6\ndurable 1 10\nclosed\n",
    newest: 6,
    maps: b"m a 1\nm b 2\n",
    commits: &[
        (8, true, b"m a 1\nm b 2\nm c 3\n"),
        (12, true, b"m a 4\nm c 3\n"),
        (13, true, b""),
        (16, false, b"n k v\n"),
        (17, true, b"m d 5\nn k v\n"),
    ],
};

// A removal and a put on a store with a half-made file, which is removed first. The opening mark has LSN 4.
const BESIDE_HALF_MADE: Course = Course {
    store: Store::HalfMade,
    script: b"remove m k\nput m k w\n",
    text: b"1 1 remove m k -> done\n1 2 put m k w -> done\ndurable 1 1\ndurable 1 2\nclosed\n",
    newest: 3,
    maps: b"m k v\n",
    commits: &[(5, true, b""), (6, true, b"m k w\n")],
};

// A transaction on a store that has no file.
const FIRST_RUN: Course = Course {
    store: Store::Empty,
    script: b"begin\nput m a 1\nput m b 2\ncommit\nremove m a\n",
    text: b"1 1 begin -> done\n1 2 put m a 1 -> done\n1 3 put m b 2 -> done\n1 4 commit -> done
1 5 remove m a -> done\ndurable 1 4\ndurable 1 5\nclosed\n",
    newest: 0,
    maps: b"",
    commits: &[(5, true, b"m a 1\nm b 2\n"), (6, true, b"m b 2\n")],
};

// What a run leaves on such a disk.
fn run_course<R: Threads + Wait + Sync>(
    rt: &R,
    alloc: Global,
    course: &Course,
    plan: FaultPlan,
) -> Result<Left, NoMemory> {
    let script = course.script;
    if script.len() >= 1 << 32 {
        return Err(NoMemory);
    }
    let disk = MemDisk::of(alloc, files_of(alloc, course.store)?, plan)?;
    run_on(rt, alloc, script, disk, Vec::new(alloc))
}

// Where the first acknowledgement of a text stands, or else its length.
fn first_ack(text: &[u8]) -> usize {
    text.windows(8)
        .position(|part| part == b"durable ".as_slice())
        .unwrap_or(text.len())
}

// The text has no line that isn't at its end.
fn has_whole_lines(text: &[u8]) -> bool {
    text.is_empty() || text.ends_with(b"\n".as_slice())
}

// The text has some of the first events of the whole one, some of its first acknowledgements, and the stop.
fn is_cut_text(text: &[u8], whole: &[u8]) -> bool {
    let Some(lines) = text.strip_suffix(b"stopped disk\n".as_slice()) else {
        return false;
    };
    let (events, acks) = lines.split_at(first_ack(lines).min(lines.len()));
    let (all_events, all_acks) = whole.split_at(first_ack(whole).min(whole.len()));
    has_whole_lines(events)
        && has_whole_lines(acks)
        && all_events.starts_with(events)
        && all_acks.starts_with(acks)
}

// What was read are the maps after the commits up to its newest LSN, and these have as many of those that are to be
// acknowledged as were.
fn has_commits(seen: &Seen, acked: u64, course: &Course) -> bool {
    let mut unseen = acked;
    let mut maps = course.maps;
    for (lsn, owed, after) in course.commits {
        if *lsn <= seen.newest {
            maps = after;
            unseen = unseen.saturating_sub(u64::from(*owed));
        }
    }
    unseen == 0 && course.newest <= seen.newest && seen.maps.as_slice() == maps
}

// A run of no command goes on from what was read: it adds two marks, and leaves the maps.
fn goes_on<R: Threads + Wait + Sync>(
    rt: &R,
    alloc: Global,
    disk: MemDisk,
    seen: &Seen,
) -> Result<bool, NoMemory>
    requires pending { NoneRemovedAbove ⟦<MemDisk as frs_disk::Disk>⟧ disk }
{
    let left = run_on(rt, alloc, b"", disk, Vec::new(alloc))?;
    let Some(after) = seen_in(alloc, left.disk.files())? else {
        return Ok(false);
    };
    Ok(
        left.is(0, b"closed\n")
            && after.newest == seen.newest.saturating_add(2)
            && after.maps.as_slice() == seen.maps.as_slice(),
    )
}

// Each crash leaves the maps after some of the commits, with all acknowledged ones, on a store that can be run on.
fn keeps_commits<R: Threads + Wait + Sync>(
    rt: &R,
    alloc: Global,
    left: &Left,
    course: &Course,
) -> Result<bool, NoMemory> {
    for choice in CHOICES {
        let disk = left.disk.crash(choice)?;
        let Some(seen) = seen_in(alloc, disk.files())? else {
            return Ok(false);
        };
        if !has_commits(&seen, acks_in(left.text()), course) || !goes_on(rt, alloc, disk, &seen)? {
            return Ok(false);
        }
    }
    Ok(true)
}

// The run ends as one to which this happens.
fn ends_in<R: Threads + Wait + Sync>(
    rt: &R,
    alloc: Global,
    course: &Course,
    trouble: Trouble,
) -> Result<bool, NoMemory> {
    let plan = plan_with(alloc, trouble)?;
    let left = run_course(rt, alloc, course, plan)?;
    Ok(
        left.status == 3
            && is_cut_text(left.text(), course.text)
            && keeps_commits(rt, alloc, &left, course)?,
    )
}

// How many calls a run makes that nothing is in the way of, if it ends as it is to.
fn calls_of<R: Threads + Wait + Sync>(
    rt: &R,
    alloc: Global,
    course: &Course,
) -> Result<Option<u64>, NoMemory> {
    let left = run_course(rt, alloc, course, no_fault(alloc))?;
    let whole = left.is(0, course.text) && keeps_commits(rt, alloc, &left, course)?;
    Ok(if whole { Some(left.calls()) } else { None })
}

// The first call behind which a stop, or at which a fault, isn't met as it is to be.
fn first_wrong<R: Threads + Wait + Sync>(
    rt: &R,
    alloc: Global,
    course: &Course,
) -> Result<Option<u64>, NoMemory> {
    let Some(calls) = calls_of(rt, alloc, course)? else {
        return Ok(Some(u64::MAX));
    };
    for call in 0..calls {
        let failing = Trouble::FailAt(call.saturating_add(1));
        if !ends_in(rt, alloc, course, Trouble::StopAfter(call))?
            || !ends_in(rt, alloc, course, failing)?
        {
            return Ok(Some(call));
        }
    }
    Ok(None)
}

#[test]
fn a_stop_or_a_fault_at_each_call_leaves_some_of_the_commits(rt: HostRuntime) -> Result<(), Fail> {
    let alloc = rt.alloc();
    for course in [&FIRST_RUN, &THIRD_RUN, &TRANSACTIONS, &BESIDE_HALF_MADE] {
        assert_eq!(rt; first_wrong(&rt, alloc, course)?, None);
    }
    Ok(())
}

// What the third run prints where the disk stops so many calls before its end: the mark at the end takes four calls,
// and the put before it too.
fn third_text(calls: u64) -> &'static [u8] {
    match calls {
        0..=4 => b"1 1 put m c 3 -> done\ndurable 1 1\nstopped disk\n",
        5..=8 => b"1 1 put m c 3 -> done\nstopped disk\n",
        _ => b"stopped disk\n",
    }
}

// The third run prints so where the disk stops before these many calls of its last ones.
fn stops_before<R: Threads + Wait + Sync>(
    rt: &R,
    alloc: Global,
    calls: u64,
    left_out: u64,
) -> Result<bool, NoMemory> {
    let plan = plan_with(alloc, Trouble::StopAfter(calls.saturating_sub(left_out)))?;
    let left = run_course(rt, alloc, &THIRD_RUN, plan)?;
    Ok(left.is(3, third_text(left_out)))
}

#[test]
fn a_third_run_prints_what_was_done_before_the_stop(rt: HostRuntime) -> Result<(), Fail> {
    let alloc = rt.alloc();
    let calls = calls_of(&rt, alloc, &THIRD_RUN)?.unwrap_or(0);
    for left_out in 1..calls.saturating_add(1) {
        assert!(rt; stops_before(&rt, alloc, calls, left_out)?);
    }
    Ok(())
}
