//! What one line of a script says.
ghost use Rattle.std.specs.Prelude.{◌≡◌, ◌≤◌, length, IfOk, option_and_then};
ghost use Rattle.std.specs.List.{list_all};
ghost use Rattle.frs_text.specs.Scripts.{words_of, is_script_byte, is_comment, meaning_of_command, meaning_of_line, one, two, three, put_words, remove_words, get_words, delete_word, begin_of, lone_command, command_of};
ghost use Rattle.frs_text.specs.LineReadings.{bytes_up_to, reading_of};
ghost use Rattle.frs_text.specs.Scripts.LineMeaning.{Says};
ghost use Rattle.frs_history.specs.declared.command.Command.TheVariants as command;

use crate::escape::{meaning, name_meaning};
use crate::word_split::{next_word, one_word, three_words, two_words};
use frs_history::Command;
use frs_types::{ID_LIMIT, KEY_LIMIT, Key, MapId, NoMemory, VALUE_LIMIT, Value, WordFault};
use std::alloc::Global;

/// What a line says.
#[derive(Debug, Drop)]
pub(crate) enum LineReading {
    /// It has no words, or is a comment.
    Nothing,
    /// A command.
    Found {
        /// The command.
        command: Command,
    },
    /// A command, with an id, a key or a value above its limit.
    Long,
    /// No command.
    Wrong,
}

fn id_of(alloc: Global, bytes: &[u8]) -> Result<Option<MapId>, NoMemory>
    requires { 1 ≤ length bytes.now }
    ensures { IfOk result (λ id. id ≡ bytes_up_to ID_LIMIT bytes.now) }
{
    match MapId::new(alloc, bytes) {
        Ok(id) => Ok(Some(id)),
        Err(WordFault::Memory) => Err(NoMemory),
        Err(_) => Ok(None),
    }
}

fn key_of(alloc: Global, bytes: &[u8]) -> Result<Option<Key>, NoMemory>
    requires { 1 ≤ length bytes.now }
    ensures { IfOk result (λ key. key ≡ bytes_up_to KEY_LIMIT bytes.now) }
{
    match Key::new(alloc, bytes) {
        Ok(key) => Ok(Some(key)),
        Err(WordFault::Memory) => Err(NoMemory),
        Err(_) => Ok(None),
    }
}

fn value_of(alloc: Global, bytes: &[u8]) -> Result<Option<Value>, NoMemory>
    ensures { IfOk result (λ value. value ≡ bytes_up_to VALUE_LIMIT bytes.now) }
{
    match Value::new(alloc, bytes) {
        Ok(value) => Ok(Some(value)),
        Err(WordFault::Memory) => Err(NoMemory),
        Err(_) => Ok(None),
    }
}

// A put of what its words stand for.
fn put_command(alloc: Global, id: &[u8], key: &[u8], value: &[u8]) -> Result<LineReading, NoMemory>
    requires id { 1 ≤ length id.now }
    requires key { 1 ≤ length key.now }
    ensures { IfOk result (λ found. found
        ≡ reading_of (Says (command.Put id.now key.now value.now))) }
{
    let Some(id) = id_of(alloc, id)? else {
        return Ok(LineReading::Long);
    };
    let Some(key) = key_of(alloc, key)? else {
        return Ok(LineReading::Long);
    };
    let Some(value) = value_of(alloc, value)? else {
        return Ok(LineReading::Long);
    };
    Ok(LineReading::Found {
        command: Command::Put { id, key, value },
    })
}

fn remove_command(alloc: Global, id: &[u8], key: &[u8]) -> Result<LineReading, NoMemory>
    requires id { 1 ≤ length id.now }
    requires key { 1 ≤ length key.now }
    ensures { IfOk result (λ found. found ≡ reading_of (Says (command.Remove id.now key.now))) }
{
    let Some(id) = id_of(alloc, id)? else {
        return Ok(LineReading::Long);
    };
    let Some(key) = key_of(alloc, key)? else {
        return Ok(LineReading::Long);
    };
    Ok(LineReading::Found {
        command: Command::Remove { id, key },
    })
}

fn get_command(alloc: Global, id: &[u8], key: &[u8]) -> Result<LineReading, NoMemory>
    requires id { 1 ≤ length id.now }
    requires key { 1 ≤ length key.now }
    ensures { IfOk result (λ found. found ≡ reading_of (Says (command.Get id.now key.now))) }
{
    let Some(id) = id_of(alloc, id)? else {
        return Ok(LineReading::Long);
    };
    let Some(key) = key_of(alloc, key)? else {
        return Ok(LineReading::Long);
    };
    Ok(LineReading::Found {
        command: Command::Get { id, key },
    })
}

fn delete_command(alloc: Global, id: &[u8]) -> Result<LineReading, NoMemory>
    requires { 1 ≤ length id.now }
    ensures { IfOk result (λ found. found ≡ reading_of (Says (command.Delete id.now))) }
{
    let Some(id) = id_of(alloc, id)? else {
        return Ok(LineReading::Long);
    };
    Ok(LineReading::Found {
        command: Command::Delete { id },
    })
}

// What follows `put`: ID KEY VALUE.
fn read_put(alloc: Global, args: &[u8]) -> Result<LineReading, NoMemory>
    ensures { IfOk result (λ found. found
        ≡ reading_of (meaning_of_command (option_and_then put_words (three (words_of args.now))))) }
{
    let Some((id, key, value)) = three_words(args) else {
        return Ok(LineReading::Wrong);
    };
    let Some(id) = name_meaning(alloc, id)? else {
        return Ok(LineReading::Wrong);
    };
    let Some(key) = name_meaning(alloc, key)? else {
        return Ok(LineReading::Wrong);
    };
    let Some(value) = meaning(alloc, value)? else {
        return Ok(LineReading::Wrong);
    };
    put_command(alloc, id.as_slice(), key.as_slice(), value.as_slice())
}

// What follows `remove`: ID KEY.
fn read_remove(alloc: Global, args: &[u8]) -> Result<LineReading, NoMemory>
    ensures { IfOk result (λ found. found
        ≡ reading_of (meaning_of_command
        (option_and_then remove_words (two (words_of args.now))))) }
{
    let Some((id, key)) = two_words(args) else {
        return Ok(LineReading::Wrong);
    };
    let Some(id) = name_meaning(alloc, id)? else {
        return Ok(LineReading::Wrong);
    };
    let Some(key) = name_meaning(alloc, key)? else {
        return Ok(LineReading::Wrong);
    };
    remove_command(alloc, id.as_slice(), key.as_slice())
}

// What follows `get`: ID KEY.
fn read_get(alloc: Global, args: &[u8]) -> Result<LineReading, NoMemory>
    ensures { IfOk result (λ found. found
        ≡ reading_of (meaning_of_command (option_and_then get_words (two (words_of args.now))))) }
{
    let Some((id, key)) = two_words(args) else {
        return Ok(LineReading::Wrong);
    };
    let Some(id) = name_meaning(alloc, id)? else {
        return Ok(LineReading::Wrong);
    };
    let Some(key) = name_meaning(alloc, key)? else {
        return Ok(LineReading::Wrong);
    };
    get_command(alloc, id.as_slice(), key.as_slice())
}

// What follows `delete`: ID.
fn read_delete(alloc: Global, args: &[u8]) -> Result<LineReading, NoMemory>
    ensures { IfOk result (λ found. found
        ≡ reading_of (meaning_of_command (option_and_then delete_word (one (words_of args.now))))) }
{
    let Some(id) = one_word(args) else {
        return Ok(LineReading::Wrong);
    };
    let Some(id) = name_meaning(alloc, id)? else {
        return Ok(LineReading::Wrong);
    };
    delete_command(alloc, id.as_slice())
}

// What follows `begin`: nothing, or `async`.
fn read_begin(args: &[u8]) -> LineReading
    ensures { result ≡ reading_of (meaning_of_command (begin_of (words_of args.now))) }
{
    let Some((mode, rest)) = next_word(args) else {
        return LineReading::Found {
            command: Command::Begin { sync: true },
        };
    };
    if next_word(rest).is_some() || mode != b"async".as_slice() {
        return LineReading::Wrong;
    }
    LineReading::Found {
        command: Command::Begin { sync: false },
    }
}

// A command that no words follow.
fn read_commit(args: &[u8]) -> LineReading
    ensures { result
        ≡ reading_of (meaning_of_command (lone_command command.Commit (words_of args.now))) }
{
    if next_word(args).is_some() {
        return LineReading::Wrong;
    }
    LineReading::Found {
        command: Command::Commit,
    }
}

fn read_snapshot(args: &[u8]) -> LineReading
    ensures { result
        ≡ reading_of (meaning_of_command (lone_command command.Snapshot (words_of args.now))) }
{
    if next_word(args).is_some() {
        return LineReading::Wrong;
    }
    LineReading::Found {
        command: Command::Snapshot,
    }
}

// The command with this name.
fn read_command(alloc: Global, name: &[u8], args: &[u8]) -> Result<LineReading, NoMemory>
    ensures { IfOk result (λ found. found
        ≡ reading_of (meaning_of_command (command_of name.now (words_of args.now)))) }
{
    if name == b"begin".as_slice() {
        Ok(read_begin(args))
    } else if name == b"put".as_slice() {
        read_put(alloc, args)
    } else if name == b"remove".as_slice() {
        read_remove(alloc, args)
    } else if name == b"delete".as_slice() {
        read_delete(alloc, args)
    } else if name == b"get".as_slice() {
        read_get(alloc, args)
    } else if name == b"commit".as_slice() {
        Ok(read_commit(args))
    } else if name == b"snapshot".as_slice() {
        Ok(read_snapshot(args))
    } else {
        Ok(LineReading::Wrong)
    }
}

fn is_allowed_byte(byte: u8) -> bool
    ensures { result ≡ is_script_byte byte }
{
    byte == b' ' || byte == b'\t' || (byte >= 0x21 && byte <= 0x7E)
}

fn are_allowed(line: &[u8]) -> bool
    ensures { result ≡ list_all is_script_byte line.now }
{
    line.iter().all(|byte| is_allowed_byte(*byte))
}

fn begins_comment(word: &[u8]) -> bool
    ensures { result ≡ is_comment word.now }
{
    matches!(word, [b'#', ..])
}

/// What a line says.
pub(crate) fn read_line(alloc: Global, line: &[u8]) -> Result<LineReading, NoMemory>
    ensures { IfOk result (λ found. found ≡ reading_of (meaning_of_line line.now)) }
{
    let Some((name, args)) = next_word(line) else {
        return Ok(LineReading::Nothing);
    };
    if begins_comment(name) {
        return Ok(LineReading::Nothing);
    }
    if !are_allowed(line) {
        return Ok(LineReading::Wrong);
    }
    read_command(alloc, name, args)
}
