//! Words and lines as they are printed. Each function adds text at the end of what is there; where memory runs out, a
//! part of it may have been added.
ghost use Rattle.std.specs.Prelude.{◌≡◌, ◌<◌, ◌∷◌, ◌++◌, true, OnOk, flat_map};
ghost use Rattle.std.specs.Fmt.{digit_glyph};
ghost use Rattle.std.specs.String.{string_bytes};
ghost use Rattle.frs_text.specs.Text.{shown_byte, word, command_words, reply_words};
ghost use Rattle.frs_text.specs.SpacedWords.{spaced_words};

use frs_history::{Command, Reply};
use frs_types::NoMemory;

fn hex_digit(value: u8) -> char
    requires { value < 16 }
    ensures digit { result ≡ digit_glyph true value }
    ensures ascii { result < 128 }
{
    if value < 10 {
        (b'0' + value) as char
    } else {
        (b'A' + (value - 10)) as char
    }
}

fn push_byte(text: &mut String, byte: u8) -> Result<(), NoMemory>
    ensures { OnOk result (string_bytes text.new ≡ string_bytes text.old ++ shown_byte byte) }
{
    if byte >= 0x21 && byte <= 0x7E && byte != 0x25 {
        text.push(byte as char)?;
    } else {
        text.push('%')?;
        text.push(hex_digit(byte / 16))?;
        text.push(hex_digit(byte % 16))?;
    }
    Ok(())
}

fn push_bytes(text: &mut String, bytes: &[u8]) -> Result<(), NoMemory>
    ensures { OnOk result (string_bytes text.new
        ≡ string_bytes text.old ++ flat_map shown_byte bytes.now) }
{
    for byte in bytes {
        push_byte(text, *byte)?;
    }
    Ok(())
}

// The word.
pub(crate) fn push_shown(text: &mut String, bytes: &[u8]) -> Result<(), NoMemory>
    ensures { OnOk result (string_bytes text.new ≡ string_bytes text.old ++ word bytes.now) }
{
    if bytes.is_empty() {
        text.push('%')?;
        return Ok(());
    }
    push_bytes(text, bytes)
}

// A space, and the word.
pub(crate) fn push_word(text: &mut String, bytes: &[u8]) -> Result<(), NoMemory>
    ensures { OnOk result (string_bytes text.new ≡ string_bytes text.old ++ 32 ∷ word bytes.now) }
{
    text.push(' ')?;
    push_shown(text, bytes)
}

pub(crate) fn push_command(text: &mut String, command: &Command) -> Result<(), NoMemory>
    ensures { OnOk result (string_bytes text.new
        ≡ string_bytes text.old ++ spaced_words (command_words command.now)) }
{
    match command {
        Command::Begin { sync: true } => text.push_str(" begin")?,
        Command::Begin { sync: false } => text.push_str(" begin async")?,
        Command::Put { id, key, value } => {
            text.push_str(" put")?;
            push_word(text, id.bytes())?;
            push_word(text, key.bytes())?;
            push_word(text, value.bytes())?;
        }
        Command::Remove { id, key } => {
            text.push_str(" remove")?;
            push_word(text, id.bytes())?;
            push_word(text, key.bytes())?;
        }
        Command::Delete { id } => {
            text.push_str(" delete")?;
            push_word(text, id.bytes())?;
        }
        Command::Get { id, key } => {
            text.push_str(" get")?;
            push_word(text, id.bytes())?;
            push_word(text, key.bytes())?;
        }
        Command::Commit => text.push_str(" commit")?,
        Command::Snapshot => text.push_str(" snapshot")?,
    }
    Ok(())
}

pub(crate) fn push_reply(text: &mut String, reply: &Reply) -> Result<(), NoMemory>
    ensures { OnOk result (string_bytes text.new
        ≡ string_bytes text.old ++ spaced_words (reply_words reply.now)) }
{
    match reply {
        Reply::Done => text.push_str(" done")?,
        Reply::Absent => text.push_str(" none")?,
        Reply::Found { value } => {
            text.push_str(" value")?;
            push_word(text, value.bytes())?;
        }
        Reply::Deadlock => text.push_str(" deadlock")?,
        Reply::Abandoned => text.push_str(" abandoned")?,
        Reply::Snapshot { number } => write!(text, " snapshot {number}")?,
    }
    Ok(())
}
