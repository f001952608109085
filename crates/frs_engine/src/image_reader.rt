//! Reads the files of a store by the format alone, from the oldest record to the newest, and works out its maps. It is
//! for tests, and shares nothing with what reads a store in the program.
use frs_types::NoMemory;
use std::alloc::Global;

// The kinds of records that change maps, or end a transaction.
const PUT: u64 = 1;

const REMOVE: u64 = 2;

const DELETE: u64 = 3;

const COMMIT: u64 = 5;

const COMPACTION: u64 = 6;

// How many words a record of each kind has, from kind 1 on: an id, a key, a value.
const WORDS: [u64; 8] = [3, 2, 1, 0, 0, 3, 0, 0];

/// Why files aren't read.
#[derive(Clone, Copy, Debug, PartialEq, Eq)]
pub(crate) enum Unread {
    /// They are no segments that follow each other from LSN 1 on.
    Wrong,
    /// There was no memory.
    Memory,
}

impl From<NoMemory> for Unread {
    fn from(_: NoMemory) -> Self {
        Unread::Memory
    }
}

/// A record, as it stands in a file. A word that it hasn't is empty.
#[derive(Clone, Copy)]
pub(crate) struct Logged<'a> {
    pub(crate) kind: u64,
    pub(crate) tx: u64,
    pub(crate) lowest: u64,
    pub(crate) named: u64,
    id: &'a [u8],
    key: &'a [u8],
    value: &'a [u8],
}

// Bytes of which the first ones are taken.
#[derive(Drop)]
struct Front<'a> {
    bytes: &'a [u8],
}

impl<'a> Front<'a> {
    // The next so many bytes.
    fn take(&mut self, len: u64) -> Result<&'a [u8], Unread> {
        let bytes = self.bytes;
        if len > bytes.len() as u64 {
            return Err(Unread::Wrong);
        }
        let (front, rest) = bytes.split_at(len as usize);
        self.bytes = rest;
        Ok(front)
    }

    // The number that the next so many bytes spell.
    fn number(&mut self, width: u64) -> Result<u64, Unread> {
        let front = self.take(width)?;
        Ok(
            front
                .iter()
                .fold(0u64, |number, byte| number << 8 | u64::from(*byte)),
        )
    }

    // The next word, behind a length of so many bytes; none where a record has too few words for it.
    fn word(&mut self, there: bool, width: u64) -> Result<&'a [u8], Unread> {
        if !there {
            return Ok(&[]);
        }
        let len = self.number(width)?;
        self.take(len)
    }

    // The next record.
    fn record(&mut self) -> Result<Logged<'a>, Unread> {
        let kind = self.number(1)?;
        let (tx, lowest, named) = (self.number(8)?, self.number(8)?, self.number(8)?);
        let words = words_of(kind)?;
        let (id, key) = (self.word(words > 0, 1)?, self.word(words > 1, 1)?);
        let value = self.word(words > 2, 2)?;
        Ok(Logged {
            kind,
            tx,
            lowest,
            named,
            id,
            key,
            value,
        })
    }
}

// How many words a record of this kind has.
fn words_of(kind: u64) -> Result<u64, Unread> {
    match WORDS.get(kind.wrapping_sub(1) as usize) {
        Some(words) => Ok(*words),
        None => Err(Unread::Wrong),
    }
}

// Whether something is so; else the files aren't those of a store.
fn check(so: bool) -> Result<(), Unread> {
    if so { Ok(()) } else { Err(Unread::Wrong) }
}

// The LSN of the next record.
fn next_of(log: &[Logged<'_>]) -> u64 {
    (log.len() as u64).saturating_add(1)
}

fn add<'a>(log: &mut Vec<Logged<'a>>, record: Logged<'a>) -> Result<(), NoMemory> {
    Ok(log.push(record)?)
}

// Adds the records of a chunk, which begins behind its gate.
fn add_chunk<'a>(log: &mut Vec<Logged<'a>>, front: &mut Front<'a>) -> Result<(), Unread> {
    let (len, count, first) = (front.number(4)?, front.number(4)?, front.number(8)?);
    check(count > 0 && count <= 256 && len <= 1 << 20 && first == next_of(log))?;
    let mut body = Front {
        bytes: front.take(len)?,
    };
    for _ in 0..count {
        let record = body.record()?;
        check(record.lowest <= next_of(log) && record.named < next_of(log))?;
        add(log, record)?;
    }
    check(body.bytes.is_empty())
}

// Adds the records of a file, whose gate is open.
fn add_segment<'a>(log: &mut Vec<Logged<'a>>, number: u64, bytes: &'a [u8]) -> Result<(), Unread> {
    let mut front = Front { bytes };
    let magic = front.take(6)?;
    let (own, first) = (front.number(8)?, front.number(8)?);
    check(magic == b"\x01FRSS\x01".as_slice() && own == number && first == next_of(log))?;
    for _ in 0..bytes.len() {
        if front.number(1)? != 1 {
            break;
        }
        add_chunk(log, &mut front)?;
    }
    Ok(())
}

/// The records of the files, whose LSNs are 1, 2 and so on. A half-made file has none.
pub(crate) fn log_in<'a>(
    alloc: Global,
    files: &'a [(u64, Vec<u8>)],
) -> Result<Vec<Logged<'a>>, Unread> {
    let mut log = Vec::new(alloc);
    for (number, bytes) in files {
        if bytes.len() >= 23 && bytes.first() == Some(&1) {
            add_segment(&mut log, *number, bytes.as_slice())?;
        }
    }
    Ok(log)
}

// Whether a put stands where the record, of the same transaction or none, has an effect: on its map, and on its key.
fn is_met(record: Logged<'_>, put: Logged<'_>) -> bool {
    record.id == put.id && (record.kind == DELETE || record.key == put.key)
}

// Whether a put comes before another one, by id and then by key.
fn is_before(put: Logged<'_>, other: Logged<'_>) -> bool {
    put.id < other.id || put.id == other.id && put.key < other.key
}

// Applies the record to the maps, which are the puts of their entries in order.
fn apply<'a>(maps: &mut Vec<Logged<'a>>, record: Logged<'a>) -> Result<(), NoMemory> {
    if !matches!(record.kind, PUT | REMOVE | DELETE | COMPACTION) {
        return Ok(());
    }
    maps.retain(|put| !is_met(record, *put));
    if matches!(record.kind, PUT | COMPACTION) {
        let at = maps.iter().filter(|put| is_before(**put, record)).count();
        if at <= maps.len() {
            maps.insert(at, record)?;
        }
    }
    Ok(())
}

// Applies the changes of a transaction.
fn apply_all<'a>(maps: &mut Vec<Logged<'a>>, log: &[Logged<'a>], tx: u64) -> Result<(), NoMemory> {
    for record in log {
        if record.tx == tx {
            apply(maps, *record)?;
        }
    }
    Ok(())
}

// The maps after the log: a change outside of transactions counts where it stands, and one inside at the commit.
fn maps_after<'a>(alloc: Global, log: &[Logged<'a>]) -> Result<Vec<Logged<'a>>, NoMemory> {
    let mut maps = Vec::new(alloc);
    for (place, record) in log.iter().enumerate() {
        if record.kind == COMMIT {
            apply_all(&mut maps, log.get(..place).unwrap_or(&[]), record.tx)?;
        } else if record.tx == 0 {
            apply(&mut maps, *record)?;
        }
    }
    Ok(maps)
}

// A line for each entry. No word has a byte that a dump would escape.
fn text_of(alloc: Global, maps: &[Logged<'_>]) -> Result<Vec<u8>, NoMemory> {
    let mut text = Vec::new(alloc);
    for put in maps {
        for word in [put.id, b" ", put.key, b" ", put.value, b"\n"] {
            text.extend_from_slice(word)?;
        }
    }
    Ok(text)
}

/// What was read of files.
#[derive(Drop)]
pub(crate) struct Seen {
    /// The LSN of the newest record.
    pub(crate) newest: u64,
    /// A line for each entry of the maps, as a dump has it.
    pub(crate) maps: Vec<u8>,
}

// Reads the files of a store that has all files from its first LSN on.
fn read_image(alloc: Global, files: &[(u64, Vec<u8>)]) -> Result<Seen, Unread> {
    let log = log_in(alloc, files)?;
    let maps = maps_after(alloc, log.as_slice())?;
    Ok(Seen {
        newest: log.len() as u64,
        maps: text_of(alloc, maps.as_slice())?,
    })
}

/// What is read of the files, if they are those of a store that has all files from its first LSN on.
pub(crate) fn seen_in(alloc: Global, files: &[(u64, Vec<u8>)]) -> Result<Option<Seen>, NoMemory> {
    match read_image(alloc, files) {
        Ok(seen) => Ok(Some(seen)),
        Err(Unread::Wrong) => Ok(None),
        Err(Unread::Memory) => Err(NoMemory),
    }
}
