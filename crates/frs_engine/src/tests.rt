//! Runs over the forms in memory: their texts, statuses and bytes, and what a crash behind each call leaves.
ghost use Rattle.std.specs.Prelude.{◌≡◌, ◌<◌, ◌≤◌, ◌^◌, IfOk, length};
ghost use Rattle.frs_engine.specs.Runs.{HasWork};
ghost use Rattle.frs_disk.specs.Frames.{NoneRemovedAbove};

use crate::image_reader::seen_in;
use crate::plain_job_tests::SEGMENT;
use crate::{PlainPlan, RunPlan, frs_plain, frs_run};
use frs_disk::{Choice, FaultPlan, MemDisk, MemFiles, MemShelf, MemSink, Name};
use frs_types::{NoMemory, NoTurn, Sequence};
use std::alloc::Global;
use std::sync::Wait;
use std::test::Fail;
use std::thread::Threads;

// The segment that a run of no command leaves.
const EMPTY_RUN: [u8; 107] = [
    1, 0x46, 0x52, 0x53, 0x53, 1, 0, 0, 0, 0, 0, 0, 0, 1, 0, 0, 0, 0, 0, 0, 0, 1, //
    1, 0, 0, 0, 0x19, 0, 0, 0, 1, 0, 0, 0, 0, 0, 0, 0, 1, //
    7, 0, 0, 0, 0, 0, 0, 0, 0, 0, 0, 0, 0, 0, 0, 0, 1, 0, 0, 0, 0, 0, 0, 0, 0, //
    1, 0, 0, 0, 0x19, 0, 0, 0, 1, 0, 0, 0, 0, 0, 0, 0, 2, //
    7, 0, 0, 0, 0, 0, 0, 0, 0, 0, 0, 0, 0, 0, 0, 0, 2, 0, 0, 0, 0, 0, 0, 0, 0, //
    0,
];

// After calls 3 and 4, 5 and 6, .. the file is the front of `SEGMENT` of this length, with these two bytes still 0.
const STAGES: [(usize, usize, usize); 9] = [
    (1, 0, 0),
    (23, 0, 22),
    (23, 22, 22),
    (65, 22, 64),
    (65, 64, 64),
    (114, 64, 113),
    (114, 113, 113),
    (156, 113, 155),
    (156, 155, 155),
];

// Calls 3, 5, .. write from the first to the second of these offsets, and the call behind each syncs the file.
const WRITTEN: [(usize, usize); 9] = [
    (0, 1),
    (1, 23),
    (0, 1),
    (23, 65),
    (22, 23),
    (65, 114),
    (64, 65),
    (114, 156),
    (113, 114),
];

/// What a crash makes of what is pending, five times over.
pub(crate) const CHOICES: [Choice; 5] = [
    Choice::Keep,
    Choice::Lose,
    Choice::Fill(0),
    Choice::Fill(1),
    Choice::Fill(7),
];

// What a run left.
#[derive(Drop)]
pub(crate) struct Left {
    pub(crate) status: u8,
    pub(crate) disk: MemDisk,
    sink: MemSink,
}

// What is printed of a store: its maps, and its numbers.
pub(crate) type Texts = (&'static [u8], &'static [u8]);

fn empty_disk(alloc: Global, plan: FaultPlan) -> Result<MemDisk, NoMemory>
    ensures { IfOk result (NoneRemovedAbove ⟦<MemDisk as frs_disk::Disk>⟧) }
{
    MemDisk::of(alloc, Vec::new(alloc), plan)
}

pub(crate) fn no_fault(alloc: Global) -> FaultPlan {
    FaultPlan {
        failing: Vec::new(alloc),
        stop_after: None,
    }
}

fn plan_of(alloc: Global, name: &str) -> Result<RunPlan, NoMemory>
    ensures { IfOk result HasWork }
{
    let mut names = Vec::new(alloc);
    names.push(Name::new(alloc, name)?)?;
    Ok(RunPlan::Scripts {
        files: Sequence::of(names),
    })
}

// One file with the name `a`.
fn files_of(alloc: Global, script: &[u8]) -> Result<MemFiles, NoMemory>
    requires { length script.now < 2 ^ 32 }
{
    let mut held = Vec::new(alloc);
    held.push((Name::new(alloc, "a")?, script.to_vec(alloc)?))?;
    MemFiles::of(alloc, held, Vec::new(alloc))
}

// Runs the plan on these files and this disk, with a sink of which these calls fail.
fn run_plan<R: Threads + Wait + Sync>(
    rt: &R,
    alloc: Global,
    plan: &RunPlan,
    files: MemFiles,
    disk: MemDisk,
    failing: Vec<u64>,
) -> Result<Left, NoMemory>
    requires work { HasWork plan.now }
    requires pending { NoneRemovedAbove ⟦<MemDisk as frs_disk::Disk>⟧ disk }
    ensures { IfOk result (λ left. left.status ≡ 0
        → NoneRemovedAbove ⟦<MemDisk as frs_disk::Disk>⟧ left.disk) }
{
    let mut files = files;
    let mut sink = MemSink::of(alloc, failing)?;
    let shelf = MemShelf::of(alloc, Vec::new(alloc))?;
    let ended = frs_run(rt, alloc, plan, disk, &mut files, shelf, &mut sink, &NoTurn);
    Ok(Left {
        status: ended.status,
        disk: ended.disk,
        sink,
    })
}

// Runs the script on this disk, with a sink of which these calls fail.
pub(crate) fn run_on<R: Threads + Wait + Sync>(
    rt: &R,
    alloc: Global,
    script: &[u8],
    disk: MemDisk,
    failing: Vec<u64>,
) -> Result<Left, NoMemory>
    requires short { length script.now < 2 ^ 32 }
    requires pending { NoneRemovedAbove ⟦<MemDisk as frs_disk::Disk>⟧ disk }
    ensures { IfOk result (λ left. left.status ≡ 0
        → NoneRemovedAbove ⟦<MemDisk as frs_disk::Disk>⟧ left.disk) }
{
    let plan = plan_of(alloc, "a")?;
    let files = files_of(alloc, script)?;
    run_plan(rt, alloc, &plan, files, disk, failing)
}

pub(crate) fn run<R: Threads + Wait + Sync>(
    rt: &R,
    alloc: Global,
    script: &[u8],
    plan: FaultPlan,
) -> Result<Left, NoMemory>
    ensures { IfOk result (λ left. left.status ≡ 0
        → NoneRemovedAbove ⟦<MemDisk as frs_disk::Disk>⟧ left.disk) }
{
    if script.len() >= 1 << 32 {
        return Err(NoMemory);
    }
    let disk = empty_disk(alloc, plan)?;
    run_on(rt, alloc, script, disk, Vec::new(alloc))
}

// Runs the script on the disk that a run which was whole has given back. After another one nothing is run.
pub(crate) fn run_again<R: Threads + Wait + Sync>(
    rt: &R,
    alloc: Global,
    script: &[u8],
    left: Left,
) -> Result<Left, NoMemory>
    requires short { length script.now < 2 ^ 32 }
    requires pending { left.status ≡ 0
        → NoneRemovedAbove ⟦<MemDisk as frs_disk::Disk>⟧ left.disk }
    ensures { IfOk result (λ left. left.status ≡ 0
        → NoneRemovedAbove ⟦<MemDisk as frs_disk::Disk>⟧ left.disk) }
{
    if left.status != 0 {
        return Ok(left);
    }
    let Left { disk, .. } = left;
    run_on(rt, alloc, script, disk, Vec::new(alloc))
}

// The job is done on this disk, and prints this.
fn prints(alloc: Global, disk: MemDisk, plan: PlainPlan, text: &[u8]) -> Result<bool, NoMemory> {
    let mut sink = MemSink::of(alloc, Vec::new(alloc))?;
    let looked = frs_plain(alloc, &plan, disk, &mut sink);
    Ok(looked.status == 0 && sink.bytes() == text)
}

// How many changes a text acknowledges.
pub(crate) fn acks_in(text: &[u8]) -> u64 {
    text.windows(8)
        .filter(|part| *part == b"durable ".as_slice())
        .count() as u64
}

impl Left {
    pub(crate) fn is(&self, status: u8, text: &[u8]) -> bool {
        self.status == status && self.text() == text
    }

    // What was printed.
    pub(crate) fn text(&self) -> &[u8] {
        self.sink.bytes()
    }

    // How many calls were made on the disk.
    pub(crate) fn calls(&self) -> u64 {
        self.disk.record().len() as u64
    }

    // The crash leaves a store of which this is printed: its maps, and its numbers.
    pub(crate) fn leaves(
        &self,
        alloc: Global,
        choice: Choice,
        texts: (&[u8], &[u8]),
    ) -> Result<bool, NoMemory> {
        let (maps, numbers) = texts;
        Ok(
            prints(alloc, self.disk.crash(choice)?, PlainPlan::Recover, maps)?
                && prints(alloc, self.disk.crash(choice)?, PlainPlan::Stat, numbers)?,
        )
    }

    // The disk has these files.
    pub(crate) fn has_files(&self, files: &[(u64, Vec<u8>)]) -> bool {
        let found = self.disk.files();
        found.len() == files.len()
            && found.iter().zip(files).all(|(file, other)| file.0 == other.0
                && file.1.as_slice() == other.1.as_slice())
    }

    // The disk has one file, with these bytes.
    pub(crate) fn has_segment(&self, bytes: &[u8]) -> bool {
        match self.disk.files() {
            [file] => file.0 == 1 && file.1.as_slice() == bytes,
            _ => false,
        }
    }

    // Each crash leaves the files that the disk model gives after so many calls, and they show so many puts, at least
    // and at most.
    fn shows(&self, alloc: Global, calls: u64, least: u64, most: u64) -> Result<bool, NoMemory> {
        for choice in CHOICES {
            let left = self.disk.crash(choice)?;
            let expected = left_after(alloc, calls, choice)?;
            let puts = puts_seen(alloc, left.files(), b"m k v\n")?;
            if !is_file(left.files(), &expected) || puts < Some(least) || Some(most) < puts {
                return Ok(false);
            }
        }
        Ok(true)
    }
}

// How many entries the files show, if these are the first ones of a dump.
fn puts_seen(
    alloc: Global,
    files: &[(u64, Vec<u8>)],
    dump: &[u8],
) -> Result<Option<u64>, NoMemory> {
    let Some(seen) = seen_in(alloc, files)? else {
        return Ok(None);
    };
    let maps = seen.maps.as_slice();
    if !dump.starts_with(maps) {
        return Ok(None);
    }
    Ok(Some(maps.iter().filter(|byte| **byte == b'\n').count() as u64))
}

// There is this one file with the number 1, or none.
fn is_file(files: &[(u64, Vec<u8>)], expected: &Option<Vec<u8>>) -> bool {
    match (files, expected) {
        ([], None) => true,
        ([file], Some(bytes)) => file.0 == 1 && file.1.as_slice() == bytes.as_slice(),
        _ => false,
    }
}

fn set(bytes: &mut [u8], at: usize, byte: u8) {
    if at < bytes.len() {
        bytes[at] = byte;
    }
}

// The file as it reads after so many calls.
fn file_after(alloc: Global, calls: u64) -> Result<Option<Vec<u8>>, NoMemory> {
    if calls < 2 {
        return Ok(None);
    }
    let stage = (calls.saturating_sub(3) / 2) as usize;
    let (Some((len, first, second)), true) = (STAGES.get(stage), calls > 2) else {
        return Ok(Some(Vec::new(alloc)));
    };
    let mut bytes = SEGMENT.get(..*len).unwrap_or(&[]).to_vec(alloc)?;
    set(&mut bytes, *first, 0);
    set(&mut bytes, *second, 0);
    Ok(Some(bytes))
}

// What a crash leaves after so many calls: by the disk model all that is pending was done, or nothing, or each pending
// byte is this one.
fn left_after(alloc: Global, calls: u64, choice: Choice) -> Result<Option<Vec<u8>>, NoMemory> {
    match choice {
        Choice::Keep => file_after(alloc, calls),
        Choice::Lose => file_after(alloc, if calls < 4 { 0 } else { calls - calls % 2 }),
        Choice::Fill(byte) => {
            let mut file = file_after(alloc, calls)?;
            let pending = WRITTEN.get((calls.saturating_sub(3) / 2) as usize);
            if let (Some(bytes), Some((from, to))) = (&mut file, pending) {
                if calls > 2 && calls % 2 == 1 {
                    for at in *from..*to {
                        set(bytes, at, byte);
                    }
                }
            }
            Ok(file)
        }
    }
}

// What a run of a put and a get prints where the disk stops after so many calls.
fn text_after(calls: u64) -> &'static [u8] {
    match calls {
        0..=11 => b"stopped disk\n",
        12..=15 => b"1 1 put m k v -> done\nstopped disk\n",
        16..=19 => b"1 1 put m k v -> done\n1 2 get m k -> value v\ndurable 1 1\nstopped disk\n",
        _ => b"1 1 put m k v -> done\n1 2 get m k -> value v\ndurable 1 1\nclosed\n",
    }
}

// The run ends as one whose disk stopped after so many calls.
fn is_stopped_after(alloc: Global, left: &Left, calls: u64) -> Result<bool, NoMemory> {
    let status = if calls < 20 { 3 } else { 0 };
    let (least, most) = match calls {
        0..=14 => (0, 0),
        15 => (0, 1),
        _ => (1, 1),
    };
    Ok(left.is(status, text_after(calls)) && left.shows(alloc, calls, least, most)?)
}

#[test]
fn puts_and_gets_are_answered_printed_and_written(rt: HostRuntime) -> Result<(), Fail> {
    let alloc = rt.alloc();
    let left = run(&rt, alloc, b"put m k v\nget m k\n", no_fault(alloc))?;
    assert!(rt; left.is(0, text_after(20)));
    assert!(rt; left.has_segment(&SEGMENT));
    assert_eq!(rt; left.disk.record().len(), 20);
    let empty = run(&rt, alloc, b"", no_fault(alloc))?;
    assert!(rt; empty.is(0, b"closed\n"));
    assert!(rt; empty.has_segment(&EMPTY_RUN));
    Ok(())
}

#[test]
fn a_stop_or_a_fault_at_each_call_keeps_what_was_acknowledged(rt: HostRuntime) -> Result<(), Fail> {
    let alloc = rt.alloc();
    for calls in 0..21u64 {
        let stop = FaultPlan {
            failing: Vec::new(alloc),
            stop_after: Some(calls),
        };
        let left = run(&rt, alloc, b"put m k v\nget m k\n", stop)?;
        assert!(rt; is_stopped_after(alloc, &left, calls)?);
    }
    for calls in 0..20u64 {
        let mut failing = Vec::new(alloc);
        failing.push(calls + 1)?;
        let fault = FaultPlan {
            failing,
            stop_after: None,
        };
        let left = run(&rt, alloc, b"put m k v\nget m k\n", fault)?;
        assert!(rt; is_stopped_after(alloc, &left, calls)?);
    }
    Ok(())
}

// So many puts on keys `a`, `b`, .., each of a value of so many bytes.
pub(crate) fn puts_of(alloc: Global, puts: u32, len: usize) -> Result<Vec<u8>, NoMemory>
    requires { puts ≤ 26 }
{
    let mut script = Vec::new(alloc);
    for number in 0..puts {
        script.extend_from_slice(b"put m ")?;
        script.push(b'a' + number as u8)?;
        script.push(b' ')?;
        for _ in 0..len {
            script.push(b'v')?;
        }
        script.push(b'\n')?;
    }
    Ok(script)
}

// Each crash leaves at least as many puts as were acknowledged, and at most one more, of those whose dump this is.
fn keeps_acknowledged(alloc: Global, left: &Left, dump: &[u8]) -> Result<bool, NoMemory> {
    let acknowledged = acks_in(left.text());
    for choice in CHOICES {
        let image = left.disk.crash(choice)?;
        let puts = puts_seen(alloc, image.files(), dump)?;
        if puts < Some(acknowledged) || Some(acknowledged.saturating_add(1)) < puts {
            return Ok(false);
        }
    }
    Ok(true)
}

// The entries of `puts_of`, as they are printed.
fn dump_of(alloc: Global, puts: u32, len: usize) -> Result<Vec<u8>, NoMemory>
    requires { puts ≤ 26 }
{
    let script = puts_of(alloc, puts, len)?;
    let mut dump = Vec::new(alloc);
    for line in script.as_slice().split(|byte| *byte == b'\n') {
        if let Some(entry) = line.strip_prefix(b"put ".as_slice()) {
            dump.extend_from_slice(entry)?;
            dump.push(b'\n')?;
        }
    }
    Ok(dump)
}

// The 17th put is the first of a second segment.
#[test]
fn a_log_over_two_segments_keeps_what_was_acknowledged(rt: HostRuntime) -> Result<(), Fail> {
    let alloc = rt.alloc();
    let script = puts_of(alloc, 17, 65_535)?;
    let dump = dump_of(alloc, 17, 65_535)?;
    let whole = run(&rt, alloc, script.as_slice(), no_fault(alloc))?;
    assert_eq!(rt; whole.status, 0);
    assert_eq!(rt; whole.disk.files().len(), 2);
    assert!(rt; keeps_acknowledged(alloc, &whole, dump.as_slice())?);
    for calls in 0..whole.calls() {
        let stop = FaultPlan {
            failing: Vec::new(alloc),
            stop_after: Some(calls),
        };
        let left = run(&rt, alloc, script.as_slice(), stop)?;
        assert_eq!(rt; left.status, 3);
        assert!(rt; keeps_acknowledged(alloc, &left, dump.as_slice())?);
    }
    Ok(())
}

#[test]
fn a_script_of_many_lines_is_run_to_its_end(rt: HostRuntime) -> Result<(), Fail> {
    let alloc = rt.alloc();
    let mut script = Vec::new(alloc);
    for _ in 0..300 {
        script.extend_from_slice(&puts_of(alloc, 1, 220)?)?;
    }
    assert!(rt; script.len() > 65_536);
    let left = run(&rt, alloc, script.as_slice(), no_fault(alloc))?;
    assert_eq!(rt; left.status, 0);
    assert!(rt;
        left.sink
            .bytes()
            .ends_with(b"durable 1 300\nclosed\n".as_slice())
    );
    Ok(())
}

// A script that isn't run, and what is answered.
const NOT_RUN: [(&[u8], u8, &[u8]); 6] = [
    (b"put m k\n", 2, b"script 1 line 1 bad\n"),
    (b"# none\nget m k v\n", 2, b"script 1 line 2 bad\n"),
    (b"begin\nbegin\n", 2, b"script 1 line 2 bad\n"),
    (
        b"put 01234567890123456789012345678901234567890123456789012345678901234 k v\n",
        2,
        b"script 1 line 1 long\n",
    ),
    (b"put m k v\nsnapshot\n", 10, b"later\n"),
    (b"snapshot\ncommit\n", 2, b"script 1 line 2 bad\n"),
];

// A run of the script is answered so, and makes no call on the disk.
fn is_not_run<R: Threads + Wait + Sync>(
    rt: &R,
    alloc: Global,
    script: &[u8],
    status: u8,
    text: &[u8],
) -> Result<bool, NoMemory> {
    let left = run(rt, alloc, script, no_fault(alloc))?;
    Ok(left.is(status, text) && left.calls() == 0)
}

// A good line, and one whose value is too long.
fn long_second_line(alloc: Global) -> Result<Vec<u8>, NoMemory> {
    let mut script = Vec::new(alloc);
    script.extend_from_slice(b"put m k v\n")?;
    script.extend_from_slice(&puts_of(alloc, 1, 65_536)?)?;
    Ok(script)
}

// One snapshot more than a script may have.
fn many_snapshots(alloc: Global) -> Result<Vec<u8>, NoMemory> {
    let mut script = Vec::new(alloc);
    for _ in 0..65 {
        script.extend_from_slice(b"snapshot\n")?;
    }
    Ok(script)
}

#[test]
fn what_cant_be_run_is_answered_so_and_changes_nothing(rt: HostRuntime) -> Result<(), Fail> {
    let alloc = rt.alloc();
    for (script, status, text) in NOT_RUN {
        assert!(rt; is_not_run(&rt, alloc, script, status, text)?);
    }
    let long = long_second_line(alloc)?;
    assert!(rt; is_not_run(&rt, alloc, long.as_slice(), 2, b"script 1 line 2 long\n")?);
    let many = many_snapshots(alloc)?;
    assert!(rt; is_not_run(&rt, alloc, many.as_slice(), 8, b"script 1 line 65 limit\n")?);
    Ok(())
}

#[test]
fn an_id_of_64_bytes_is_accepted(rt: HostRuntime) -> Result<(), Fail> {
    let alloc = rt.alloc();
    let left = run(
        &rt,
        alloc,
        b"put 0123456789012345678901234567890123456789012345678901234567890123 k v\n",
        no_fault(alloc),
    )?;
    assert!(rt;
        left.is(
            0,
            b"1 1 put 0123456789012345678901234567890123456789012345678901234567890123 k v -> done\ndurable 1 1\nclosed\n",
        )
    );
    Ok(())
}

// Runs a plan of so many files, each with the name `a`.
fn run_files<R: Threads + Wait + Sync>(
    rt: &R,
    alloc: Global,
    count: usize,
) -> Result<Left, NoMemory> {
    let mut names = Vec::new(alloc);
    for _ in 0..count {
        names.push(Name::new(alloc, "a")?)?;
    }
    if names.is_empty() {
        return Err(NoMemory);
    }
    let plan = RunPlan::Scripts {
        files: Sequence::of(names),
    };
    let files = files_of(alloc, b"get m k\n")?;
    let disk = empty_disk(alloc, no_fault(alloc))?;
    run_plan(rt, alloc, &plan, files, disk, Vec::new(alloc))
}

#[test]
fn several_files_are_refused_or_put_off(rt: HostRuntime) -> Result<(), Fail> {
    let alloc = rt.alloc();
    assert!(rt; run_files(&rt, alloc, 2)?.is(10, b"later\n"));
    assert!(rt; run_files(&rt, alloc, 64)?.is(10, b"later\n"));
    assert!(rt; run_files(&rt, alloc, 65)?.is(8, b"limit clients 65\n"));
    Ok(())
}

#[test]
fn words_may_have_escapes_and_the_sink_may_fail(rt: HostRuntime) -> Result<(), Fail> {
    let alloc = rt.alloc();
    let escaped = run(&rt, alloc, b"  put m k %41%20\n\nget m k", no_fault(alloc))?;
    assert!(rt;
        escaped.is(
            0,
            b"1 1 put m k A%20 -> done\n1 3 get m k -> value A%20\ndurable 1 1\nclosed\n",
        )
    );
    let mut failing = Vec::new(alloc);
    failing.push(1)?;
    let disk = empty_disk(alloc, no_fault(alloc))?;
    let unheard = run_on(&rt, alloc, b"put m k v\nget m k\n", disk, failing)?;
    assert!(rt; unheard.is(6, b""));
    assert!(rt; unheard.has_segment(&SEGMENT));
    Ok(())
}

#[test]
fn a_file_of_commands_that_isnt_there_is_unread(rt: HostRuntime) -> Result<(), Fail> {
    let alloc = rt.alloc();
    let plan = plan_of(alloc, "b")?;
    let files = files_of(alloc, b"put m k v\n")?;
    let disk = empty_disk(alloc, no_fault(alloc))?;
    let left = run_plan(&rt, alloc, &plan, files, disk, Vec::new(alloc))?;
    assert!(rt; left.is(5, b"file 1 unread\n"));
    assert_eq!(rt; left.disk.files().len(), 0);
    Ok(())
}
