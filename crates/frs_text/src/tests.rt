//! Scripts, command lines and transcripts, with what is wanted written by hand.
use super::*;
use crate::printed_words::push_command;
use frs_disk::{MemSink, Name};
use frs_history::{Ack, Event, Line, Reply, Script, What};
use frs_types::{Key, MapId, Value, WordFault};
use std::alloc::Global;
use std::process::Abort;
use std::test::*;

// Adds a command in a line of its own, behind its number.
fn push_line(text: &mut String, line: &Line) -> Result<(), Fail> {
    write!(text, "{}", line.number)?;
    push_command(text, &line.command)?;
    text.push('\n')?;
    Ok(())
}

// The commands of a script, one in a line.
fn listed(alloc: Global, script: &Script) -> Result<String, Fail> {
    let mut text = String::new(alloc);
    for line in script.lines() {
        push_line(&mut text, line)?;
    }
    Ok(text)
}

// The commands that are read, or the fault.
fn outcome(rt: &impl Abort, alloc: Global, bytes: &[u8], lines: u32) -> Result<String, Fail> {
    assert!(rt; bytes.len() < 1 << 32);
    match parse_script(alloc, bytes, lines, 64) {
        Ok(script) => listed(alloc, &script),
        Err(fault) => Ok(format!(in alloc; "{fault:?}")?),
    }
}

// Each of the bytes has this outcome.
fn all_have(rt: &impl Abort, alloc: Global, table: &[(&[u8], &str)]) -> Result<(), Fail> {
    for (bytes, want) in table {
        let text = outcome(rt, alloc, bytes, 1_000_000)?;
        assert_eq!(rt; text.as_str(), *want, "{bytes:?}");
    }
    Ok(())
}

// Scripts, and the commands that are read.
const SCRIPTS: [(&[u8], &str); 10] = [
    (b"", ""),
    (b"# a%\n #\x00\xFF\n\n\t\n", ""),
    (b"put m k v\nget m k\n", "1 put m k v\n2 get m k\n"),
    (
        b"# \x01\n\n \tput  m\t k v \r\nbegin async",
        "3 put m k v\n4 begin async\n",
    ),
    (
        b"begin\nput m k v\nremove m k\ndelete m\nget m k\nsnapshot\ncommit\n",
        "1 begin\n2 put m k v\n3 remove m k\n4 delete m\n5 get m k\n6 snapshot\n7 commit\n",
    ),
    (
        b"put notes order:1001 leave%20at%20door\nput o k {\"qty\":2,\"sku\":\"A-7\"}",
        "1 put notes order:1001 leave%20at%20door\n2 put o k {\"qty\":2,\"sku\":\"A-7\"}\n",
    ),
    (
        b"put %6d %4B %\nput m k %fF%25#",
        "1 put m K %\n2 put m k %FF%25#\n",
    ),
    (
        b"begin\nput orders order:1001 {\"qty\":2,\"sku\":\"A-7\"}\nput stock A-7 38\ncommit\nget stock A-7\nput notes order:1001 leave%20at%20door\n",
        "1 begin\n2 put orders order:1001 {\"qty\":2,\"sku\":\"A-7\"}\n3 put stock A-7 38\n4 commit\n5 get stock A-7\n6 put notes order:1001 leave%20at%20door\n",
    ),
    (b"get m #7", "1 get m #7\n"),
    (b"put rates vat 19%25", "1 put rates vat 19%25\n"),
];

#[test]
fn scripts(rt: HostRuntime) -> Result<(), Fail> {
    all_have(&rt, rt.alloc(), &SCRIPTS)
}

// Scripts with one line that is refused, and which it is.
const REFUSED_LINES: [(&[u8], &str); 29] = [
    (b"get m k\r", "BadLine { line: 1 }"),
    (b"get m k\r\r\n", "BadLine { line: 1 }"),
    (b"get m\rk\n", "BadLine { line: 1 }"),
    (b"get m \x7F", "BadLine { line: 1 }"),
    (b"get m \xC3\xBC\n", "BadLine { line: 1 }"),
    (b"get m\x0Ck k\n", "BadLine { line: 1 }"),
    (b"\nrollback\n", "BadLine { line: 2 }"),
    (b"Begin\n", "BadLine { line: 1 }"),
    (b"%70ut m k v\n", "BadLine { line: 1 }"),
    (b"begin ASYNC\n", "BadLine { line: 1 }"),
    (b"begin %61sync\n", "BadLine { line: 1 }"),
    (b"begin async now\n", "BadLine { line: 1 }"),
    (b"put m k\n", "BadLine { line: 1 }"),
    (b"put m k v w\n", "BadLine { line: 1 }"),
    (b"get m k # comment\n", "BadLine { line: 1 }"),
    (b"remove m\n", "BadLine { line: 1 }"),
    (b"delete\n", "BadLine { line: 1 }"),
    (b"begin\ncommit now\n", "BadLine { line: 2 }"),
    (b"snapshot now\n", "BadLine { line: 1 }"),
    (b"put % k v\n", "BadLine { line: 1 }"),
    (b"get m %\n", "BadLine { line: 1 }"),
    (b"delete %\n", "BadLine { line: 1 }"),
    (
        b"# What is left in stock.\nput stock A-7 38\n\nget stock A-7\nget stock %\n",
        "BadLine { line: 5 }",
    ),
    (b"put m k 100%\n", "BadLine { line: 1 }"),
    (b"put m k %2\n", "BadLine { line: 1 }"),
    (b"put m k %2g\n", "BadLine { line: 1 }"),
    (b"put m k %%\n", "BadLine { line: 1 }"),
    (b"begin\nbegin\n", "BadLine { line: 2 }"),
    (b"begin\ncommit\ncommit\n", "BadLine { line: 3 }"),
];

#[test]
fn refused_lines(rt: HostRuntime) -> Result<(), Fail> {
    all_have(&rt, rt.alloc(), &REFUSED_LINES)
}

// The lines before, and then a line with so many bytes between its ends.
fn long(alloc: Global, before: &str, fill: &str, times: u32, behind: &str) -> Result<String, Fail> {
    let mut text = String::from_str(alloc, before)?;
    for _ in 0..times {
        text.push_str(fill)?;
    }
    text.push_str(behind)?;
    Ok(text)
}

// A script in which a text is repeated: what stands before it, the text, how often, and what stands behind it.
type Repeated = (&'static str, &'static str, u32, &'static str);

// What is read of such a script.
fn outcome_of(
    rt: &impl Abort,
    alloc: Global,
    script: Repeated,
    lines: u32,
) -> Result<String, Fail> {
    let bytes = long(alloc, script.0, script.1, script.2, script.3)?;
    outcome(rt, alloc, bytes.as_bytes(), lines)
}

// Scripts past a limit, how many commands are allowed, and the fault.
const PAST_A_LIMIT: [(Repeated, u32, &str); 7] = [
    (("put ", "m", 65, " k v\n"), 9, "TooLong { line: 1 }"),
    (
        ("put m k v\nput m k ", "v", 65_536, "\n"),
        9,
        "TooLong { line: 2 }",
    ),
    (("get m ", "%6B", 256, "\n"), 9, "TooLong { line: 1 }"),
    (("put ", "m", 65, " k% v\n"), 9, "BadLine { line: 1 }"),
    (("put ", "m", 65, " k v\n"), 0, "TooLong { line: 1 }"),
    (("", "snapshot\n", 65, ""), 99, "TooMany { line: 65 }"),
    (
        ("begin\n", "delete m\n", 65_537, ""),
        99_999,
        "TooMany { line: 65538 }",
    ),
];

// Scripts at a limit.
const AT_A_LIMIT: [Repeated; 4] = [
    ("delete ", "m", 64, "\n"),
    ("get m ", "%6B", 255, "\n"),
    ("put m k ", "v", 65_535, "\n"),
    ("begin\n", "delete m\n", 65_536, "commit\n"),
];

#[test]
fn limits(rt: HostRuntime) -> Result<(), Fail> {
    for &(script, lines, want) in &PAST_A_LIMIT {
        let text = outcome_of(&rt, rt.alloc(), script, lines)?;
        assert_eq!(rt; text.as_str(), want);
    }
    for &script in &AT_A_LIMIT {
        let text = outcome_of(&rt, rt.alloc(), script, 99_999)?;
        assert!(rt; text.as_str().starts_with("1 "));
    }
    Ok(())
}

#[test]
fn a_million_commands(rt: HostRuntime) -> Result<(), Fail> {
    let script = ("", "get m k\n", 1_000_001, "");
    let text = outcome_of(&rt, rt.alloc(), script, 1_000_000)?;
    assert_eq!(rt; text.as_str(), "TooMany { line: 1000001 }");
    Ok(())
}

// The words of a command line, which a blank parts.
fn names_of(alloc: Global, words: &str) -> Result<Vec<Name>, Fail> {
    let mut names = Vec::new(alloc);
    for word in words.split(' ') {
        let name = Name::new(alloc, word)?;
        names.push(name)?;
    }
    Ok(names)
}

// Adds the names, each behind a blank.
fn push_names(text: &mut String, names: &[Name]) -> Result<(), Fail> {
    for name in names {
        write!(text, " {}", name.as_str())?;
    }
    Ok(())
}

// Adds what is to be done with the store.
fn push_job(text: &mut String, job: &Job) -> Result<(), Fail> {
    match job {
        Job::Run {
            plan: RunPlan::Scripts { files },
        } => push_names(text, files.items())?,
        Job::Run {
            plan: RunPlan::Demo { clients, count },
        } => write!(text, " {clients} {count}")?,
        Job::Plain { plan } => write!(text, " {plan:?}")?,
    }
    Ok(())
}

// The store, and what is to be done with it.
fn told(alloc: Global, plan: &Plan) -> Result<String, Fail> {
    let mut text = String::from_str(alloc, plan.store.as_str())?;
    push_job(&mut text, &plan.job)?;
    Ok(text)
}

// What the words ask for, or the fault.
fn asked(alloc: Global, words: &str) -> Result<String, Fail> {
    let names = names_of(alloc, words)?;
    match read_words(alloc, names.as_slice()) {
        Ok(plan) => told(alloc, &plan),
        Err(fault) => Ok(format!(in alloc; "{fault:?}")?),
    }
}

// Command lines, and what they ask for.
const COMMAND_LINES: [(&str, &str); 18] = [
    ("s run a", "s a"),
    ("s run a b a", "s a b a"),
    ("s recover", "s Recover"),
    ("s compact", "s Compact"),
    ("s stat", "s Stat"),
    ("s demo 64 3000", "s 64 3000"),
    ("s demo 1 1", "s 1 1"),
    ("s", "Usage { word: 2 }"),
    ("s Run a", "Usage { word: 2 }"),
    ("s run", "Usage { word: 3 }"),
    ("s stat x", "Usage { word: 3 }"),
    ("s demo 65 1", "Usage { word: 3 }"),
    ("s demo 0", "Usage { word: 3 }"),
    ("s demo 01 1", "Usage { word: 3 }"),
    ("s demo +1 1", "Usage { word: 3 }"),
    ("s demo 1", "Usage { word: 4 }"),
    ("s demo 1 3001", "Usage { word: 4 }"),
    ("s demo 1 1 x", "Usage { word: 5 }"),
];

#[test]
fn command_lines(rt: HostRuntime) -> Result<(), Fail> {
    for &(words, want) in &COMMAND_LINES {
        let text = asked(rt.alloc(), words)?;
        assert_eq!(rt; text.as_str(), want);
    }
    Ok(())
}

// An event by its words: the client and its line, and the answer; or a map and a key, of an entry that was written
// again.
#[derive(Clone, Copy)]
enum Step {
    Done(u32, u32),
    Absent(u32, u32),
    Found(u32, u32, &'static [u8]),
    Snapshot(u32, u32, u64),
    Deadlock(u32, u32),
    Abandoned(u32, u32),
    Waits(u32, u32),
    End(u32),
    Reappend(&'static [u8], &'static [u8]),
}

fn answered(client: u32, line: u32, reply: Reply) -> Event {
    Event {
        client,
        line,
        what: What::Answered { reply },
    }
}

fn found(alloc: Global, client: u32, line: u32, value: &[u8]) -> Result<Event, WordFault> {
    let value = Value::new(alloc, value)?;
    Ok(answered(client, line, Reply::Found { value }))
}

fn reappended(alloc: Global, id: &[u8], key: &[u8]) -> Result<Event, WordFault> {
    let id = MapId::new(alloc, id)?;
    let key = Key::new(alloc, key)?;
    Ok(Event {
        client: 0,
        line: 0,
        what: What::Reappend { id, key },
    })
}

// The event with words of its own.
fn event_of(alloc: Global, step: Step) -> Result<Event, WordFault> {
    match step {
        Step::Done(client, line) => Ok(answered(client, line, Reply::Done)),
        Step::Absent(client, line) => Ok(answered(client, line, Reply::Absent)),
        Step::Found(client, line, value) => found(alloc, client, line, value),
        Step::Snapshot(client, line, number) => {
            Ok(answered(client, line, Reply::Snapshot { number }))
        }
        Step::Deadlock(client, line) => Ok(answered(client, line, Reply::Deadlock)),
        Step::Abandoned(client, line) => Ok(answered(client, line, Reply::Abandoned)),
        Step::Waits(client, line) => Ok(Event {
            client,
            line,
            what: What::Waits,
        }),
        Step::End(client) => Ok(Event {
            client,
            line: 0,
            what: What::End,
        }),
        Step::Reappend(id, key) => reappended(alloc, id, key),
    }
}

fn events_of(alloc: Global, steps: &[Step]) -> Result<Vec<Event>, Fail> {
    let mut events = Vec::new(alloc);
    for step in steps {
        let event = event_of(alloc, *step)?;
        events.push(event)?;
    }
    Ok(events)
}

fn scripts_of(rt: &impl Abort, alloc: Global, texts: &[&str]) -> Result<Vec<Script>, Fail> {
    let mut scripts = Vec::new(alloc);
    for text in texts {
        assert!(rt; text.len() < 1 << 32);
        let script = parse_script(alloc, text.as_bytes(), 99, 64)?;
        scripts.push(script)?;
    }
    Ok(scripts)
}

fn durable(client: u32, line: u32) -> Ack {
    Ack {
        client,
        line,
        lsn: 0,
    }
}

// The transcript of the events, of clients with these scripts.
fn printed(
    rt: &impl Abort,
    alloc: Global,
    texts: &[&str],
    steps: &[Step],
    acks: &[Ack],
) -> Result<MemSink, Fail> {
    let scripts = scripts_of(rt, alloc, texts)?;
    let events = events_of(alloc, steps)?;
    let mut sink = MemSink::of(alloc, Vec::new(alloc))?;
    transcript(
        alloc,
        scripts.as_slice(),
        events.as_slice(),
        acks,
        &mut sink,
    )?;
    Ok(sink)
}

// The answers of a client alone, two of which are durable.
const ONE_CLIENT: [Step; 6] = [
    Step::Done(1, 1),
    Step::Found(1, 2, b"v"),
    Step::Reappend(b"m", b" "),
    Step::Snapshot(1, 4, 1),
    Step::Absent(1, 5),
    Step::End(1),
];

const ONE_CLIENT_PRINTED: &str =
    "1 1 put m k v -> done\n1 2 get m k -> value v\n0 0 reappend m %20 -> done\n1 4 snapshot -> snapshot 1\n1 5 get m %20 -> none\n1 0 end -> abandoned\ndurable 1 1\ndurable 1 4\n";

#[test]
fn one_client(rt: HostRuntime) -> Result<(), Fail> {
    let sink = printed(
        &rt,
        rt.alloc(),
        &["put m k v\nget m k\n# none\nsnapshot\nget m %20\n"],
        &ONE_CLIENT,
        &[durable(1, 1), durable(1, 4)],
    )?;
    assert_eq!(rt; sink.bytes(), ONE_CLIENT_PRINTED.as_bytes());
    Ok(())
}

// The answers of two clients that wait for one another.
const TWO_CLIENTS: [Step; 9] = [
    Step::Done(1, 1),
    Step::Done(2, 1),
    Step::Done(1, 2),
    Step::Done(2, 2),
    Step::Waits(1, 3),
    Step::Deadlock(2, 3),
    Step::Done(1, 3),
    Step::Done(1, 4),
    Step::Abandoned(2, 4),
];

const TWO_CLIENTS_PRINTED: &str =
    "1 1 begin -> done\n2 1 begin -> done\n1 2 put m a 1 -> done\n2 2 put m b 3 -> done\n1 3 put m b 2 -> waits\n2 3 put m a 4 -> deadlock\n1 3 put m b 2 -> done\n1 4 commit -> done\n2 4 commit -> abandoned\n";

#[test]
fn two_clients(rt: HostRuntime) -> Result<(), Fail> {
    let sink = printed(
        &rt,
        rt.alloc(),
        &[
            "begin\nput m a 1\nput m b 2\ncommit\n",
            "begin\nput m b 3\nput m a 4\ncommit\n",
        ],
        &TWO_CLIENTS,
        &[],
    )?;
    assert_eq!(rt; sink.bytes(), TWO_CLIENTS_PRINTED.as_bytes());
    Ok(())
}

// Each last line, and its bytes.
const LAST_LINES: [(LastLine, &str); 14] = [
    (LastLine::Closed, "closed\n"),
    (LastLine::DiskStop, "stopped disk\n"),
    (LastLine::ShelfStop, "stopped shelf\n"),
    (LastLine::LimitStop, "stopped limit\n"),
    (LastLine::MemoryStop, "stopped memory\n"),
    (
        LastLine::BadScriptLine { script: 1, line: 2 },
        "script 1 line 2 bad\n",
    ),
    (
        LastLine::LongScriptLine { script: 3, line: 4 },
        "script 3 line 4 long\n",
    ),
    (
        LastLine::ScriptLineLimit { script: 5, line: 6 },
        "script 5 line 6 limit\n",
    ),
    (LastLine::UnreadFile { file: 2 }, "file 2 unread\n"),
    (LastLine::ClientLimit { clients: 65 }, "limit clients 65\n"),
    (LastLine::Later, "later\n"),
    (
        LastLine::WrongHeader {
            segment: 7,
            offset: 14,
        },
        "segment 7 offset 14 header\n",
    ),
    (
        LastLine::WrongChunk {
            segment: 8,
            offset: 22,
        },
        "segment 8 offset 22 chunk\n",
    ),
    (
        LastLine::MissingRecord {
            expected: 9,
            found: 0,
        },
        "gap expected 9 found 0\n",
    ),
];

#[test]
fn last_lines(rt: HostRuntime) -> Result<(), Fail> {
    let alloc = rt.alloc();
    for &(last, want) in &LAST_LINES {
        let mut sink = MemSink::of(alloc, Vec::new(alloc))?;
        write_last_line(alloc, last, &mut sink)?;
        assert_eq!(rt; sink.bytes(), want.as_bytes());
    }
    Ok(())
}
