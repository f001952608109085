//! Sessions stepped through a book: what each step is answered, which events it makes, which records are drawn, and
//! which of these are to be acknowledged. Each session is a table, and the same few functions follow all of them.
ghost use Rattle.std.specs.Prelude.{◌≡◌, option_copied, option_map, IfOk};
ghost use Rattle.frs_history.specs.declared.command.Line.{Line};
ghost use Rattle.frs_history.specs.Scripts.{rises_from, is_bracketed};
ghost use Rattle.frs_book.specs.Books.{prepared_bytes};

mod client_tests;

use super::*;
use frs_frame::{FrameFault, Framed, decode, encode_payload};
use frs_history::{Command, Event, Line, Reply, Script, What};
use frs_slots::{Drawer, Slip, Taker, ring};
use frs_types::{Action, Key, MapId, NUMBER_LIMIT, NoMemory, Value, WordFault};
use std::alloc::Global;
use std::process::Abort;
use std::test::Fail;

// A line of a client: the client, the letter of the command, and its map, key and value.
type Row = (u32, u8, &'static [u8], &'static [u8], &'static [u8]);

// What a step of a client is answered: the client, a letter, and two numbers.
type Told = (u32, u8, u64, u64);

// An event: the client, the line, a letter for what happened, and the value that was found.
type Happened = (u32, u32, u8, &'static [u8]);

// A record: the kind, the transaction, the lowest and the named LSN.
type Drawn = (u8, u64, u64, u64);

// A book at its end: the next LSN, the lowest, the number of entries, their bytes, and whether all clients are finished.
type End = (u64, u64, u64, u128, bool);

// A session, and what is wanted of it.
#[derive(Drop)]
struct Session<'a> {
    clients: u32,
    lines: &'a [Row],
    answers: &'a [Told],
    events: &'a [Happened],
    records: &'a [Drawn],
    end: End,
}

// A book, and the taking end of its ring.
#[derive(Drop)]
struct Opened {
    book: Book,
    taker: Taker,
}

fn put(alloc: Global, id: &[u8], key: &[u8], value: &[u8]) -> Result<Command, WordFault> {
    Ok(Command::Put {
        id: MapId::new(alloc, id)?,
        key: Key::new(alloc, key)?,
        value: Value::new(alloc, value)?,
    })
}

fn remove(alloc: Global, id: &[u8], key: &[u8]) -> Result<Command, WordFault> {
    Ok(Command::Remove {
        id: MapId::new(alloc, id)?,
        key: Key::new(alloc, key)?,
    })
}

fn get(alloc: Global, id: &[u8], key: &[u8]) -> Result<Command, WordFault> {
    Ok(Command::Get {
        id: MapId::new(alloc, id)?,
        key: Key::new(alloc, key)?,
    })
}

fn delete(alloc: Global, id: &[u8]) -> Result<Command, WordFault> {
    Ok(Command::Delete {
        id: MapId::new(alloc, id)?,
    })
}

// The command of a row.
fn command(alloc: Global, row: &Row) -> Result<Command, WordFault> {
    let (_, letter, id, key, value) = *row;
    match letter {
        b'b' => Ok(Command::Begin { sync: true }),
        b'a' => Ok(Command::Begin { sync: false }),
        b'c' => Ok(Command::Commit),
        b'd' => delete(alloc, id),
        b'r' => remove(alloc, id, key),
        b'g' => get(alloc, id, key),
        b's' => Ok(Command::Snapshot),
        _ => put(alloc, id, key, value),
    }
}

// Whether the numbers of the lines are above this one and rise.
fn rise(low: u32, lines: &[Line]) -> bool
    ensures { result ≡ rises_from low lines.now }
{
    let Some((line, later)) = lines.split_first() else {
        return true;
    };
    low < line.number && rise(line.number, later)
}

// Whether each begin stands outside a transaction, and each commit inside.
fn are_bracketed(inside: bool, lines: &[Line]) -> bool
    ensures { result ≡ is_bracketed inside lines.now }
{
    let Some((line, later)) = lines.split_first() else {
        return true;
    };
    match &line.command {
        Command::Begin { .. } => !inside && are_bracketed(true, later),
        Command::Commit => inside && are_bracketed(false, later),
        _ => are_bracketed(inside, later),
    }
}

// The script of these lines.
fn script(rt: &impl Abort, lines: Vec<Line>) -> Script {
    assert!(rt; rise(0, lines.as_slice()), "numbers that don't rise");
    assert!(rt;
        are_bracketed(false, lines.as_slice()),
        "a begin or a commit too many"
    );
    Script::of(lines)
}

// Adds a line.
fn push_line(lines: &mut Vec<Line>, number: u32, command: Command) -> Result<(), NoMemory> {
    lines.push(Line { number, command })?;
    Ok(())
}

// The lines of a client: its rows of the table, with the numbers from 1 on.
fn lines_in(alloc: Global, client: u32, table: &[Row]) -> Result<Vec<Line>, Fail> {
    let mut lines = Vec::new(alloc);
    let mut number = 0u32;
    for row in table {
        if row.0 == client {
            number = number.saturating_add(1);
            push_line(&mut lines, number, command(alloc, row)?)?;
        }
    }
    Ok(lines)
}

// The scripts of so many clients.
fn scripts_in(
    rt: &impl Abort,
    alloc: Global,
    clients: u32,
    table: &[Row],
) -> Result<Vec<Script>, Fail> {
    let mut scripts = Vec::new(alloc);
    for client in 0..clients {
        let lines = lines_in(alloc, client + 1, table)?;
        scripts.push(script(rt, lines))?;
    }
    Ok(scripts)
}

// Draws the opening mark, whose lowest is its own LSN, 1.
fn draw_mark(rt: &impl Abort, alloc: Global, drawer: &mut Drawer) -> Result<(), NoMemory> {
    assert!(rt; drawer.next() == 1, "a second mark");
    let mut mark = encode_payload(alloc, &Action::Mark)?;
    mark.patch(0, 1, 0);
    drawer.draw(mark).expect(rt, "room").fill();
    Ok(())
}

// The book of these scripts, on a new ring, which begins at this LSN.
fn open(
    rt: &impl Abort,
    alloc: Global,
    scripts: Vec<Script>,
    capacity: u32,
    first: u64,
) -> Result<Opened, NoMemory> {
    assert!(rt; 0 < capacity && capacity <= 4_096, "no capacity");
    assert!(rt; 0 < first && first < NUMBER_LIMIT, "no LSN");
    assert!(rt;
        0 < scripts.len() && scripts.len() <= 64,
        "no number of clients"
    );
    let (mut drawer, taker) = ring(alloc, capacity, first)?;
    if first == 1 {
        draw_mark(rt, alloc, &mut drawer)?;
    }
    let book = Book::new(alloc, scripts, Vec::new(alloc), drawer, 0)?;
    Ok(Opened { book, taker })
}

// What is prepared for the command of a line.
fn prepared(alloc: Global, line: Option<&Line>) -> Result<Framed, NoMemory>
    ensures { IfOk result (λ framed. framed
        ≡ prepared_bytes (option_map (λ (l : Line). l.command) (option_copied line.entry))) }
{
    match line {
        Some(line) => prepare(alloc, Some(&line.command)),
        None => prepare(alloc, None),
    }
}

// Fills the slot of the record that was drawn, if one was.
fn fill(slip: Option<Slip>) {
    match slip {
        Some(slip) => {
            slip.fill();
        }
        None => {}
    }
}

// What a step of the client was answered, as a letter and two numbers. Its slot is filled.
fn told(client: u32, step: Step) -> Told {
    match step {
        Step::Done {
            place: _place,
            line,
            slip,
            ack,
            snapshot: _snapshot,
        } => {
            fill(slip);
            (client, b'd', u64::from(line), ack.unwrap_or(0))
        }
        Step::Finished => (client, b'f', 0, 0),
        Step::Waits { holder } => (client, b'w', u64::from(holder), 0),
        Step::LogFull { next } => (client, b'l', next, 0),
        Step::NoRoom { drawn, known_taken } => (client, b'r', drawn, known_taken),
        Step::Memory => (client, b'm', 0, 0),
    }
}

// The next step of a client, or a question mark where there is no such client.
fn take_step(alloc: Global, book: &mut Book, client: u32) -> Result<Told, NoMemory> {
    if client == 0 || client as usize > book.scripts().len() {
        return Ok((client, b'?', 0, 0));
    }
    let mut framed = Some(prepared(alloc, book.next_command(client))?);
    Ok(told(client, book.step(alloc, client, &mut framed)))
}

// What a step that finds no memory has to leave as it is: the number of events, the next LSN, the lowest, and the number
// of committed entries.
fn counts(book: &Book) -> (usize, u64, u64, u64) {
    (
        book.history().len(),
        book.next(),
        book.lowest(),
        book.live(),
    )
}

// The next step of a client. Where there was no memory and nothing has changed, it is taken again.
fn take_step_again(alloc: Global, book: &mut Book, client: u32) -> Result<Told, NoMemory> {
    let before = counts(book);
    let told = take_step(alloc, book, client)?;
    if told.1 != b'm' || counts(book) != before {
        return Ok(told);
    }
    take_step(alloc, book, client)
}

// How many of these steps are answered so, up to the first that isn't.
fn count_answered(alloc: Global, book: &mut Book, answers: &[Told]) -> Result<usize, NoMemory> {
    let mut count = 0usize;
    for answer in answers {
        if take_step_again(alloc, book, answer.0)? != *answer {
            return Ok(count);
        }
        count = count.saturating_add(1);
    }
    Ok(count)
}

// A letter for what happened.
fn letter(what: &What) -> u8 {
    match what {
        What::Answered { reply } => match reply {
            Reply::Done => b'd',
            Reply::Absent => b'n',
            Reply::Found { .. } => b'f',
            Reply::Deadlock => b'x',
            Reply::Abandoned => b'a',
            Reply::Snapshot { .. } => b's',
        },
        What::Waits => b'w',
        What::Reappend { .. } => b'r',
        What::End => b'e',
    }
}

// The value that was found, or no bytes.
fn found(what: &What) -> &[u8] {
    match what {
        What::Answered {
            reply: Reply::Found { value },
        } => value.bytes(),
        _ => &[],
    }
}

// Whether the event is this one.
fn is_event(event: &Event, happened: &Happened) -> bool {
    event.client == happened.0
        && event.line == happened.1
        && letter(&event.what) == happened.2
        && found(&event.what) == happened.3
}

// How many of the events are these, up to the first that isn't.
fn count_events(events: &[Event], wanted: &[Happened]) -> usize {
    let mut count = 0usize;
    for (event, happened) in events.iter().zip(wanted) {
        if !is_event(event, happened) {
            return count;
        }
        count = count.saturating_add(1);
    }
    count
}

// Whether the next record that is taken is this one.
fn is_taken(alloc: Global, taker: &mut Taker, drawn: &Drawn) -> Result<bool, FrameFault> {
    let Ok(framed) = taker.take() else {
        return Ok(false);
    };
    let (record, _) = decode(alloc, framed.bytes())?;
    Ok(
        framed.bytes().first() == Some(&drawn.0)
            && record.tx == drawn.1
            && record.lowest == drawn.2
            && record.named == drawn.3,
    )
}

// How many of these records are taken, up to the first that isn't.
fn count_taken(alloc: Global, taker: &mut Taker, records: &[Drawn]) -> Result<usize, FrameFault> {
    let mut count = 0usize;
    for drawn in records {
        if !is_taken(alloc, taker, drawn)? {
            return Ok(count);
        }
        count = count.saturating_add(1);
    }
    Ok(count)
}

// Takes the steps, which are answered so, and then the records, which are these and no more.
fn go_on(
    rt: &impl Abort,
    alloc: Global,
    opened: &mut Opened,
    answers: &[Told],
    records: &[Drawn],
) -> Result<(), Fail> {
    let answered = count_answered(alloc, &mut opened.book, answers)?;
    assert_eq!(rt; answered, answers.len(), "steps that are answered so");
    let taken = count_taken(alloc, &mut opened.taker, records)?;
    assert_eq!(rt; taken, records.len(), "records that were drawn so");
    assert!(rt; opened.taker.take().is_err(), "a record more");
    Ok(())
}

// Whether the book is at this end.
fn is_at(book: &Book, end: &End) -> bool {
    book.next() == end.0
        && book.lowest() == end.1
        && book.live() == end.2
        && book.totals() == (end.2, end.3)
        && book.whole() == end.4
}

// The events are these and no more, and the book is at this end.
fn ends(rt: &impl Abort, book: &Book, events: &[Happened], end: &End) {
    let history = book.history();
    assert_eq!(rt; count_events(history, events), events.len(), "events");
    assert_eq!(rt; history.len(), events.len(), "events and no more");
    assert!(rt; is_at(book, end), "another end");
}

// Follows a session on a ring of this capacity, which begins at this LSN. Once its records are taken, these steps are
// answered so too, and these records are drawn.
fn follow_on(
    rt: &impl Abort,
    alloc: Global,
    session: &Session<'_>,
    capacity: u32,
    first: u64,
    later: (&[Told], &[Drawn]),
) -> Result<(), Fail> {
    let scripts = scripts_in(rt, alloc, session.clients, session.lines)?;
    let mut opened = open(rt, alloc, scripts, capacity, first)?;
    go_on(rt, alloc, &mut opened, session.answers, session.records)?;
    go_on(rt, alloc, &mut opened, later.0, later.1)?;
    ends(rt, &opened.book, session.events, &session.end);
    Ok(())
}

// Follows a session behind the opening mark.
fn follow(rt: &impl Abort, alloc: Global, session: &Session<'_>) -> Result<(), Fail> {
    follow_on(rt, alloc, session, 128, 1, (&[], &[]))
}

#[test]
fn one_key_changed_in_a_transaction(rt: HostRuntime) -> Result<(), Fail> {
    let session = Session {
        clients: 1,
        lines: &[
            (1, b'p', b"m", b"k", b"z"),
            (1, b'b', b"", b"", b""),
            (1, b'p', b"m", b"k", b"a"),
            (1, b'r', b"m", b"k", b""),
            (1, b'p', b"m", b"k", b"b"),
            (1, b'c', b"", b"", b""),
        ],
        answers: &[
            (1, b'd', 1, 2),
            (1, b'd', 2, 0),
            (1, b'd', 3, 0),
            (1, b'd', 4, 0),
            (1, b'd', 5, 0),
            (1, b'd', 6, 7),
            (1, b'f', 0, 0),
        ],
        events: &[
            (1, 1, b'd', b""),
            (1, 2, b'd', b""),
            (1, 3, b'd', b""),
            (1, 4, b'd', b""),
            (1, 5, b'd', b""),
            (1, 6, b'd', b""),
        ],
        records: &[
            (7, 0, 1, 0),
            (1, 0, 2, 0),
            (4, 3, 2, 0),
            (1, 3, 2, 2),
            (2, 3, 2, 4),
            (1, 3, 2, 0),
            (5, 3, 2, 0),
        ],
        end: (8, 6, 1, 3, true),
    };
    follow(&rt, rt.alloc(), &session)
}

#[test]
fn an_end_inside_a_transaction_abandons_it(rt: HostRuntime) -> Result<(), Fail> {
    let session = Session {
        clients: 1,
        lines: &[
            (1, b'p', b"m", b"k", b"a"),
            (1, b'b', b"", b"", b""),
            (1, b'p', b"m", b"k", b"b"),
        ],
        answers: &[
            (1, b'd', 1, 2),
            (1, b'd', 2, 0),
            (1, b'd', 3, 0),
            (1, b'd', 0, 0),
            (1, b'f', 0, 0),
        ],
        events: &[
            (1, 1, b'd', b""),
            (1, 2, b'd', b""),
            (1, 3, b'd', b""),
            (1, 0, b'e', b""),
        ],
        records: &[
            (7, 0, 1, 0),
            (1, 0, 2, 0),
            (4, 3, 2, 0),
            (1, 3, 2, 2),
            (8, 3, 2, 0),
        ],
        end: (6, 2, 1, 3, true),
    };
    follow(&rt, rt.alloc(), &session)
}

#[test]
fn a_put_behind_a_delete_names_nothing(rt: HostRuntime) -> Result<(), Fail> {
    let session = Session {
        clients: 1,
        lines: &[
            (1, b'p', b"m", b"a", b"1"),
            (1, b'b', b"", b"", b""),
            (1, b'p', b"m", b"b", b"2"),
            (1, b'd', b"m", b"", b""),
            (1, b'p', b"m", b"a", b"3"),
            (1, b'c', b"", b"", b""),
        ],
        answers: &[
            (1, b'd', 1, 2),
            (1, b'd', 2, 0),
            (1, b'd', 3, 0),
            (1, b'd', 4, 0),
            (1, b'd', 5, 0),
            (1, b'd', 6, 7),
        ],
        events: &[
            (1, 1, b'd', b""),
            (1, 2, b'd', b""),
            (1, 3, b'd', b""),
            (1, 4, b'd', b""),
            (1, 5, b'd', b""),
            (1, 6, b'd', b""),
        ],
        records: &[
            (7, 0, 1, 0),
            (1, 0, 2, 0),
            (4, 3, 2, 0),
            (1, 3, 2, 0),
            (3, 3, 2, 0),
            (1, 3, 2, 0),
            (5, 3, 2, 0),
        ],
        end: (8, 6, 1, 3, true),
    };
    follow(&rt, rt.alloc(), &session)
}

// A put of the value v under the key of this number.
fn numbered_put(alloc: Global, number: u8) -> Result<Command, Fail> {
    let key = format!(in alloc; "k{number}")?;
    Ok(put(alloc, b"m", key.as_bytes(), b"v")?)
}

// Adds so many puts, on the lines from 2 on.
fn push_puts(alloc: Global, lines: &mut Vec<Line>, count: u8) -> Result<(), Fail> {
    for i in 0..count {
        let number = i + 1;
        let command = numbered_put(alloc, number)?;
        push_line(lines, u32::from(number) + 1, command)?;
    }
    Ok(())
}

// The lines of a transaction of a hundred puts that isn't to be acknowledged.
fn a_hundred_puts(alloc: Global) -> Result<Vec<Line>, Fail> {
    let mut lines = Vec::new(alloc);
    push_line(&mut lines, 1, Command::Begin { sync: false })?;
    push_puts(alloc, &mut lines, 100)?;
    push_line(&mut lines, 102, Command::Commit)?;
    Ok(lines)
}

// The book of one client with these lines, behind the opening mark.
fn open_one(rt: &impl Abort, alloc: Global, lines: Vec<Line>) -> Result<Opened, Fail> {
    let mut scripts = Vec::new(alloc);
    scripts.push(script(rt, lines))?;
    Ok(open(rt, alloc, scripts, 128, 1)?)
}

// Whether so many lines of client 1 are done without an acknowledgement, and it is then finished.
fn are_unacknowledged(alloc: Global, book: &mut Book, lines: u32) -> Result<bool, NoMemory> {
    for line in 0..lines {
        if take_step_again(alloc, book, 1)? != (1, b'd', u64::from(line + 1), 0) {
            return Ok(false);
        }
    }
    Ok(take_step_again(alloc, book, 1)? == (1, b'f', 0, 0))
}

#[test]
fn a_transaction_that_is_not_to_be_acknowledged(rt: HostRuntime) -> Result<(), Fail> {
    let alloc = rt.alloc();
    let lines = a_hundred_puts(alloc)?;
    let mut opened = open_one(&rt, alloc, lines)?;
    assert!(rt; are_unacknowledged(alloc, &mut opened.book, 102)?, "a step");
    assert!(rt;
        is_at(&opened.book, &(104, 3, 100, 492, true)),
        "another end"
    );
    Ok(())
}

#[test]
fn orders_and_a_stock(rt: HostRuntime) -> Result<(), Fail> {
    let session = Session {
        clients: 1,
        lines: &[
            (1, b'b', b"", b"", b""),
            (
                1,
                b'p',
                b"orders",
                b"order:1001",
                b"{\"qty\":2,\"sku\":\"A-7\"}",
            ),
            (1, b'p', b"stock", b"A-7", b"38"),
            (1, b'c', b"", b"", b""),
            (1, b'g', b"stock", b"A-7", b""),
            (1, b'p', b"notes", b"order:1001", b"leave at door"),
        ],
        answers: &[
            (1, b'd', 1, 0),
            (1, b'd', 2, 0),
            (1, b'd', 3, 0),
            (1, b'd', 4, 5),
            (1, b'd', 5, 0),
            (1, b'd', 6, 6),
        ],
        events: &[
            (1, 1, b'd', b""),
            (1, 2, b'd', b""),
            (1, 3, b'd', b""),
            (1, 4, b'd', b""),
            (1, 5, b'f', b"38"),
            (1, 6, b'd', b""),
        ],
        records: &[
            (7, 0, 1, 0),
            (4, 2, 2, 0),
            (1, 2, 2, 0),
            (1, 2, 2, 0),
            (5, 2, 2, 0),
            (1, 0, 3, 0),
        ],
        end: (7, 3, 3, 75, true),
    };
    follow(&rt, rt.alloc(), &session)
}

#[test]
fn a_remove_of_an_absent_key_draws_nothing(rt: HostRuntime) -> Result<(), Fail> {
    let session = Session {
        clients: 1,
        lines: &[
            (1, b'p', b"m", b"k", b"a"),
            (1, b'r', b"m", b"k", b""),
            (1, b'r', b"m", b"k", b""),
            (1, b'g', b"m", b"k", b""),
        ],
        answers: &[
            (1, b'd', 1, 2),
            (1, b'd', 2, 3),
            (1, b'd', 3, 0),
            (1, b'd', 4, 0),
        ],
        events: &[
            (1, 1, b'd', b""),
            (1, 2, b'd', b""),
            (1, 3, b'n', b""),
            (1, 4, b'n', b""),
        ],
        records: &[(7, 0, 1, 0), (1, 0, 2, 0), (2, 0, 2, 2)],
        end: (4, 4, 0, 0, true),
    };
    follow(&rt, rt.alloc(), &session)
}

#[test]
fn a_full_ring_has_room_once_a_record_is_taken(rt: HostRuntime) -> Result<(), Fail> {
    let session = Session {
        clients: 1,
        lines: &[(1, b'p', b"m", b"a", b"1"), (1, b'p', b"m", b"b", b"2")],
        answers: &[(1, b'd', 1, 2), (1, b'r', 2, 0)],
        events: &[(1, 1, b'd', b""), (1, 2, b'd', b"")],
        records: &[(7, 0, 1, 0), (1, 0, 2, 0)],
        end: (4, 2, 2, 6, true),
    };
    let later: (&[Told], &[Drawn]) = (&[(1, b'd', 2, 3)], &[(1, 0, 2, 0)]);
    follow_on(&rt, rt.alloc(), &session, 2, 1, later)
}

#[test]
fn the_last_lsn_is_drawn_once(rt: HostRuntime) -> Result<(), Fail> {
    let last = NUMBER_LIMIT - 1;
    let session = Session {
        clients: 1,
        lines: &[(1, b'p', b"m", b"a", b"1"), (1, b'p', b"m", b"b", b"2")],
        answers: &[(1, b'd', 1, last), (1, b'l', NUMBER_LIMIT, 0)],
        events: &[(1, 1, b'd', b"")],
        records: &[(1, 0, last, 0)],
        end: (NUMBER_LIMIT, last, 1, 3, false),
    };
    follow_on(&rt, rt.alloc(), &session, 2, last, (&[], &[]))
}
