//! The bytes of one record, as they go to the log.
ghost use Rattle.std.specs.Prelude.{◌≡◌, ◌+◌, ◌≤◌, ◌++◌, ℕ, length, take, drop, IfOk, OnOk};
ghost use Rattle.std.specs.Int.{w64, to_be_bytes};
ghost use Rattle.frs_types.specs.declared.record.Record.{Record};
ghost use Rattle.frs_types.specs.declared.record.Action.TheVariants.{Put, Remove, Delete, Abandon};
ghost use Rattle.frs_frame.specs.Spelling.{word_bytes, id_width, key_width, value_width, payload, blank_head, spelling, without_numbers, with_numbers};

use crate::kind::Kind;
use frs_types::{Action, ID_LIMIT, KEY_LIMIT, Key, MapId, NoMemory, VALUE_LIMIT, Value};
use std::alloc::Global;
use std::marker::Model;

/// The bytes of a record before what its kind brings: the kind, the transaction, the lowest and the named LSN. No
/// record is shorter.
pub const RECORD_HEAD: usize = 25;

// How many bytes tell the length of an id, of a key and of a value.
const ID_WIDTH: usize = 1;

const KEY_WIDTH: usize = 1;

const VALUE_WIDTH: usize = 2;

// The most bytes of what a kind brings: an id, a key and a value, each as long as it may be.
const PAYLOAD_LIMIT: usize = ID_WIDTH
    + ID_LIMIT
    + KEY_WIDTH
    + KEY_LIMIT
    + VALUE_WIDTH
    + VALUE_LIMIT;

/// The most bytes of a record.
pub const RECORD_LIMIT: usize = RECORD_HEAD + PAYLOAD_LIMIT;

// An abandon record, with its three numbers 0.
const ABANDON: [u8; RECORD_HEAD] = [
    8, 0, 0, 0, 0, 0, 0, 0, 0, 0, 0, 0, 0, 0, 0, 0, 0, 0, 0, 0, 0, 0, 0, 0, 0,
];

/// The bytes of one record, from `RECORD_HEAD` to `RECORD_LIMIT` of them. Contracts see it as the list of the bytes.
#[derive(Debug, Drop)]
pub struct Framed {
    bytes: Vec<u8>,
}

impl Model for Framed {
    ghost use Rattle.std.specs.Prelude.{List, ℕ, ◌≤◌, length};
    ghost use Rattle.frs_frame.specs.declared.encoding.TheConstants.{RECORD_HEAD, RECORD_LIMIT};

    ghost Value = { List ℕ };

    ghost view = { λ a. a.bytes.items };

    ghost invariant = { λ a. (RECORD_HEAD ≤ length a.bytes.items)
        × (length a.bytes.items ≤ RECORD_LIMIT) };
}

impl Framed {
    /// Its bytes.
    pub fn bytes(&self) -> &[u8]
        ensures bytes { result.now ≡ self.now }
        ensures least { RECORD_HEAD ≤ length self.now }
        ensures most { length self.now ≤ RECORD_LIMIT }
    {
        self.bytes.as_slice()
    }

    /// Sets the transaction, the lowest and the named LSN, and nothing else. Takes no memory.
    #[tactic(auto, unfolding(crate::specs::Spelling::with_numbers, crate::specs::Spelling::spelling))]
    pub fn patch(&mut self, tx: u64, lowest: u64, named: u64)
        ensures set { self.new ≡ with_numbers tx lowest named self.old }
        ensures spelled { (r : Record) → self.old ≡ spelling r
            → self.new ≡ spelling (record r { tx = tx; lowest = lowest; named = named }) }
    {
        write_numbers(&mut self.bytes, tx, lowest, named);
    }

    /// Leaves the bytes of an abandon record, with its three numbers 0. Takes no memory.
    #[tactic(auto, unfolding(crate::specs::Spelling::spelling))]
    pub fn make_abandon(&mut self)
        ensures { self.new ≡ spelling (without_numbers Abandon) }
    {
        let bytes = &mut self.bytes;
        bytes.truncate(RECORD_HEAD);
        bytes.copy_from_slice(&ABANDON);
    }
}

// Writes the three numbers of the head.
fn write_numbers(bytes: &mut [u8], tx: u64, lowest: u64, named: u64)
    requires { RECORD_HEAD ≤ length bytes.old }
    ensures { bytes.new ≡ with_numbers tx lowest named bytes.old }
{
    write_number(bytes, 1, tx);
    write_number(bytes, 9, lowest);
    write_number(bytes, 17, named);
}

// Writes the number into the eight bytes from an offset on.
fn write_number(bytes: &mut [u8], at: usize, number: u64)
    requires { at + 8 ≤ length bytes.old }
    ensures { bytes.new ≡ take at bytes.old ++ to_be_bytes w64 number ++ drop (at + 8) bytes.old }
{
    bytes[at..at + 8].copy_from_slice(&number.to_be_bytes());
}

/// The bytes of a record that says this, with transaction, lowest and named 0: `Framed::patch` sets them.
#[tactic(auto, unfolding(crate::specs::Spelling::spelling))]
pub fn encode_payload(alloc: Global, action: &Action) -> Result<Framed, NoMemory>
    ensures { IfOk result (λ framed. framed ≡ spelling (without_numbers action.now)) }
{
    match action {
        Action::Put { id, key, value } => encode_put(alloc, id, key, value),
        Action::Remove { id, key } => encode_remove(alloc, id, key),
        Action::Delete { id } => encode_delete(alloc, id),
        Action::Compaction { id, key, value } => {
            encode_value(alloc, Kind::Compaction, id, key, value)
        }
        Action::Begin => encode_kind(alloc, Kind::Begin),
        Action::Commit => encode_kind(alloc, Kind::Commit),
        Action::Mark => encode_kind(alloc, Kind::Mark),
        Action::Abandon => encode_kind(alloc, Kind::Abandon),
    }
}

/// What `encode_payload` gives for a put of these words. Each is copied once.
#[tactic(auto, unfolding(crate::specs::Spelling::spelling))]
pub fn encode_put(alloc: Global, id: &MapId, key: &Key, value: &Value) -> Result<Framed, NoMemory>
    ensures { IfOk result (λ framed. framed
        ≡ spelling (without_numbers (Put id.now key.now value.now))) }
{
    encode_value(alloc, Kind::Put, id, key, value)
}

/// What `encode_payload` gives for a remove of this key. Each word is copied once.
#[tactic(auto, unfolding(crate::specs::Spelling::spelling))]
pub fn encode_remove(alloc: Global, id: &MapId, key: &Key) -> Result<Framed, NoMemory>
    ensures { IfOk result (λ framed. framed ≡ spelling (without_numbers (Remove id.now key.now))) }
{
    let len = ID_WIDTH + id.bytes().len() + KEY_WIDTH + key.bytes().len();
    let mut bytes = head_of(alloc, Kind::Remove, len)?;
    add_id(&mut bytes, id)?;
    add_key(&mut bytes, key)?;
    Ok(Framed { bytes })
}

/// What `encode_payload` gives for a delete of this map. The id is copied once.
#[tactic(auto, unfolding(crate::specs::Spelling::spelling))]
pub fn encode_delete(alloc: Global, id: &MapId) -> Result<Framed, NoMemory>
    ensures { IfOk result (λ framed. framed ≡ spelling (without_numbers (Delete id.now))) }
{
    let mut bytes = head_of(alloc, Kind::Delete, ID_WIDTH + id.bytes().len())?;
    add_id(&mut bytes, id)?;
    Ok(Framed { bytes })
}

// The bytes of a record of a kind that brings an id, a key and a value.
fn encode_value(
    alloc: Global,
    kind: Kind,
    id: &MapId,
    key: &Key,
    value: &Value,
) -> Result<Framed, NoMemory>
    ensures { IfOk result (λ framed. framed
        ≡ blank_head kind ++ payload (Put id.now key.now value.now)) }
{
    let len = ID_WIDTH
        + id.bytes().len()
        + KEY_WIDTH
        + key.bytes().len()
        + VALUE_WIDTH
        + value.bytes().len();
    let mut bytes = head_of(alloc, kind, len)?;
    add_id(&mut bytes, id)?;
    add_key(&mut bytes, key)?;
    add_value(&mut bytes, value)?;
    Ok(Framed { bytes })
}

// The bytes of a record of a kind that brings nothing.
fn encode_kind(alloc: Global, kind: Kind) -> Result<Framed, NoMemory>
    ensures { IfOk result (λ framed. framed ≡ blank_head kind) }
{
    let bytes = head_of(alloc, kind, 0)?;
    Ok(Framed { bytes })
}

// The kind and the three numbers, each 0, with room for so many bytes behind them.
fn head_of(alloc: Global, kind: Kind, behind: usize) -> Result<Vec<u8>, NoMemory>
    requires { behind ≤ PAYLOAD_LIMIT }
    ensures { IfOk result (λ head. head.items ≡ blank_head kind) }
{
    let mut bytes = Vec::with_capacity(alloc, RECORD_HEAD + behind)?;
    bytes.push(kind.code())?;
    bytes.extend_from_slice(&[0; RECORD_HEAD - 1])?;
    Ok(bytes)
}

// Adds an id: its length and its bytes.
fn add_id(out: &mut Vec<u8>, id: &MapId) -> Result<(), NoMemory>
    ensures { OnOk result (out.new.items ≡ out.old.items ++ word_bytes id_width id.now) }
{
    let word = id.bytes();
    out.push(word.len() as u8)?;
    out.extend_from_slice(word)?;
    Ok(())
}

// Adds a key: its length and its bytes.
fn add_key(out: &mut Vec<u8>, key: &Key) -> Result<(), NoMemory>
    ensures { OnOk result (out.new.items ≡ out.old.items ++ word_bytes key_width key.now) }
{
    let word = key.bytes();
    out.push(word.len() as u8)?;
    out.extend_from_slice(word)?;
    Ok(())
}

// Adds a value: its length and its bytes.
fn add_value(out: &mut Vec<u8>, value: &Value) -> Result<(), NoMemory>
    ensures { OnOk result (out.new.items ≡ out.old.items ++ word_bytes value_width value.now) }
{
    let word = value.bytes();
    out.extend_from_slice(&(word.len() as u16).to_be_bytes())?;
    out.extend_from_slice(word)?;
    Ok(())
}
