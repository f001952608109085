//! Reading records: each function reads one field at an offset, and gives it with the offset behind it.
ghost use Rattle.std.specs.Prelude.{◌≡◌, ℕ, ◌+◌, ◌≤◌, List, ◌++◌, length, IfOk, IsTrue};
ghost use Rattle.std.specs.Int.{w8, w16, w64};
ghost use Rattle.frs_types.specs.declared.record.Record.{Record};
ghost use Rattle.frs_types.specs.Records.{Fits, well_formed};
ghost use Rattle.frs_frame.specs.Spelling.{spelling};
ghost use Rattle.frs_frame.specs.Front.{StandsAtFront};
ghost use Rattle.frs_frame.specs.Decoding.{GivesDecoded, field, number_at, id_at, key_at, value_at, action_at, kind_at, head_at, decoding_of};

use crate::fault::FrameFault;
use crate::kind::Kind;
use frs_types::{Action, ID_LIMIT, Key, MapId, Record, VALUE_LIMIT, Value};
use std::alloc::Global;

// The numbers that stand in each record.
#[derive(Clone, Copy)]
struct Head {
    tx: u64,
    lowest: u64,
    named: u64,
}

// The bytes of a field of that length.
#[tactic(auto, unfolding(crate::specs::Decoding::field))]
fn field(bytes: &[u8], at: usize, len: usize) -> Result<(&[u8], usize), FrameFault>
    requires inside { at ≤ length bytes.now }
    requires few { len ≤ VALUE_LIMIT }
    ensures read { GivesDecoded (λ f. (f.0.now, f.1)) result (field bytes.now at (at + len)) }
    ensures found { IfOk result (λ f. (f.1 ≡ at + len) × (f.1 ≤ length bytes.now)
        × (length f.0.now ≡ len)) }
{
    let end = at + len;
    if bytes.len() < end {
        return Err(FrameFault::Short {
            need: end as u64,
            have: bytes.len() as u64,
        });
    }
    Ok((&bytes[at..end], end))
}

// A number of one byte.
#[tactic(auto, unfolding(crate::specs::Decoding::number_at))]
fn u8_at(bytes: &[u8], at: usize) -> Result<(u8, usize), FrameFault>
    requires { at ≤ length bytes.now }
    ensures read { GivesDecoded (λ f. (f.0, f.1)) result (number_at w8 bytes.now at) }
    ensures found { IfOk result (λ f. f.1 ≤ length bytes.now) }
{
    let (field, end) = field(bytes, at, 1)?;
    Ok((field[0], end))
}

// A number of two bytes.
#[tactic(auto, unfolding(crate::specs::Decoding::number_at))]
fn u16_at(bytes: &[u8], at: usize) -> Result<(u16, usize), FrameFault>
    requires { at ≤ length bytes.now }
    ensures read { GivesDecoded (λ f. (f.0, f.1)) result (number_at w16 bytes.now at) }
    ensures found { IfOk result (λ f. f.1 ≤ length bytes.now) }
{
    let (field, end) = field(bytes, at, 2)?;
    Ok((u16::from_be_bytes([field[0], field[1]]), end))
}

// A number of eight bytes.
#[tactic(auto, unfolding(crate::specs::Decoding::number_at))]
fn u64_at(bytes: &[u8], at: usize) -> Result<(u64, usize), FrameFault>
    requires { at ≤ length bytes.now }
    ensures read { GivesDecoded (λ f. (f.0, f.1)) result (number_at w64 bytes.now at) }
    ensures found { IfOk result (λ f. f.1 ≤ length bytes.now) }
{
    let (field, end) = field(bytes, at, 8)?;
    let number = u64::from_be_bytes([
        field[0], field[1], field[2], field[3], field[4], field[5], field[6], field[7],
    ]);
    Ok((number, end))
}

// An id. Its length is if_holds before its bytes are looked for, so only memory can be missing at the end.
#[tactic(auto, unfolding(crate::specs::Decoding::id_at, crate::specs::Decoding::word_at))]
fn id_at(alloc: Global, bytes: &[u8], at: usize) -> Result<(MapId, usize), FrameFault>
    requires { at ≤ length bytes.now }
    ensures read { GivesDecoded (λ f. (f.0, f.1)) result (id_at bytes.now at) }
    ensures found { IfOk result (λ f. f.1 ≤ length bytes.now) }
{
    let (len, start) = u8_at(bytes, at)?;
    if len == 0 || len as usize > ID_LIMIT {
        return Err(FrameFault::Field { offset: at as u64 });
    }
    let (word, end) = field(bytes, start, len as usize)?;
    match MapId::new(alloc, word) {
        Ok(id) => Ok((id, end)),
        Err(_) => Err(FrameFault::Memory),
    }
}

// A key. Its length is if_holds before its bytes are looked for, so only memory can be missing at the end.
#[tactic(auto, unfolding(crate::specs::Decoding::key_at, crate::specs::Decoding::word_at))]
fn key_at(alloc: Global, bytes: &[u8], at: usize) -> Result<(Key, usize), FrameFault>
    requires { at ≤ length bytes.now }
    ensures read { GivesDecoded (λ f. (f.0, f.1)) result (key_at bytes.now at) }
    ensures found { IfOk result (λ f. f.1 ≤ length bytes.now) }
{
    let (len, start) = u8_at(bytes, at)?;
    if len == 0 {
        return Err(FrameFault::Field { offset: at as u64 });
    }
    let (word, end) = field(bytes, start, len as usize)?;
    match Key::new(alloc, word) {
        Ok(key) => Ok((key, end)),
        Err(_) => Err(FrameFault::Memory),
    }
}

// A value. Each length that two bytes can hold is allowed, so only memory can be missing at the end.
#[tactic(auto, unfolding(crate::specs::Decoding::value_at, crate::specs::Decoding::word_at))]
fn value_at(alloc: Global, bytes: &[u8], at: usize) -> Result<(Value, usize), FrameFault>
    requires { at ≤ length bytes.now }
    ensures read { GivesDecoded (λ f. (f.0, f.1)) result (value_at bytes.now at) }
    ensures found { IfOk result (λ f. f.1 ≤ length bytes.now) }
{
    let (len, start) = u16_at(bytes, at)?;
    let (content, end) = field(bytes, start, len as usize)?;
    match Value::new(alloc, content) {
        Ok(value) => Ok((value, end)),
        Err(_) => Err(FrameFault::Memory),
    }
}

// What stands behind the head, by the kind.
#[tactic(auto, unfolding(crate::specs::Decoding::action_at))]
fn action_at(
    alloc: Global,
    kind: Kind,
    bytes: &[u8],
    at: usize,
) -> Result<(Action, usize), FrameFault>
    requires { at ≤ length bytes.now }
    ensures { GivesDecoded (λ f. (f.0, f.1)) result (action_at kind bytes.now at) }
{
    match kind {
        Kind::Put => {
            let (id, at) = id_at(alloc, bytes, at)?;
            let (key, at) = key_at(alloc, bytes, at)?;
            let (value, at) = value_at(alloc, bytes, at)?;
            Ok((Action::Put { id, key, value }, at))
        }
        Kind::Remove => {
            let (id, at) = id_at(alloc, bytes, at)?;
            let (key, at) = key_at(alloc, bytes, at)?;
            Ok((Action::Remove { id, key }, at))
        }
        Kind::Delete => {
            let (id, at) = id_at(alloc, bytes, at)?;
            Ok((Action::Delete { id }, at))
        }
        Kind::Begin => Ok((Action::Begin, at)),
        Kind::Commit => Ok((Action::Commit, at)),
        Kind::Compaction => {
            let (id, at) = id_at(alloc, bytes, at)?;
            let (key, at) = key_at(alloc, bytes, at)?;
            let (value, at) = value_at(alloc, bytes, at)?;
            Ok((Action::Compaction { id, key, value }, at))
        }
        Kind::Mark => Ok((Action::Mark, at)),
        Kind::Abandon => Ok((Action::Abandon, at)),
    }
}

// The kind that the first byte stands for.
#[tactic(auto, unfolding(crate::specs::Decoding::kind_at))]
fn kind_at(bytes: &[u8]) -> Result<(Kind, usize), FrameFault>
    ensures read { GivesDecoded (λ f. (f.0, f.1)) result (kind_at bytes.now) }
    ensures found { IfOk result (λ f. f.1 ≤ length bytes.now) }
{
    let (byte, end) = u8_at(bytes, 0)?;
    match Kind::of_byte(byte) {
        Some(kind) => Ok((kind, end)),
        None => Err(FrameFault::Kind { byte }),
    }
}

// The transaction, the lowest and the named LSN, each as the kind allows it.
#[tactic(auto, unfolding(crate::specs::Decoding::head_at))]
fn head_at(kind: Kind, bytes: &[u8], at: usize) -> Result<(Head, usize), FrameFault>
    requires { at ≤ length bytes.now }
    ensures read { GivesDecoded (λ f. (f.0, f.1)) result (head_at kind bytes.now at) }
    ensures found { IfOk result (λ f. f.1 ≤ length bytes.now) }
{
    let (tx, lowest_at) = u64_at(bytes, at)?;
    if !kind.permits_tx(tx) {
        return Err(FrameFault::Field { offset: at as u64 });
    }
    let (lowest, named_at) = u64_at(bytes, lowest_at)?;
    if lowest == 0 {
        return Err(FrameFault::Field {
            offset: lowest_at as u64,
        });
    }
    let (named, end) = u64_at(bytes, named_at)?;
    if !kind.permits_named(named) {
        return Err(FrameFault::Field {
            offset: named_at as u64,
        });
    }
    Ok((Head { tx, lowest, named }, end))
}

// The record at the front, and its length.
#[tactic(auto, unfolding(crate::specs::Decoding::decoding_of))]
fn record_at_front(alloc: Global, bytes: &[u8]) -> Result<(Record, u64), FrameFault>
    ensures { GivesDecoded (λ f. (f.0, f.1)) result (decoding_of bytes.now) }
{
    let (kind, at) = kind_at(bytes)?;
    let (head, at) = head_at(kind, bytes, at)?;
    let (action, end) = action_at(alloc, kind, bytes, at)?;
    let Head { tx, lowest, named } = head;
    let record = Record {
        tx,
        lowest,
        named,
        action,
    };
    Ok((record, end as u64))
}

/// The record at the front of the bytes, and its length. Reads the fields from left to right, and tests each before
/// the next one: its kind has to allow it. For a begin only that its transaction isn't 0 is asked for; that a record's
/// numbers suit its place in the log is for the caller to see.
///
/// `FrameFault` is the first fault. Nothing is taken from memory for bytes that aren't there.
pub fn decode(alloc: Global, bytes: &[u8]) -> Result<(Record, u64), FrameFault>
    // What is read stands at the front, and is allowed.
    ensures found { IfOk result (λ x. StandsAtFront bytes.now x.0 x.1) }

    // What stands at the front and is allowed is read, unless memory runs out.
    ensures only { (r : Record) (rest : List ℕ) → Fits r → IsTrue (well_formed r)
        → bytes.now ≡ spelling r ++ rest
        → GivesDecoded (λ x. x) result (Ok (r, length (spelling r))) }

    // Which fault it is.
    ensures exact { GivesDecoded (λ x. x) result (decoding_of bytes.now) }
{
    record_at_front(alloc, bytes)
}
