//! The lines of the transcript. Each function adds text at the end of what is there; where memory runs out, a part of
//! it may have been added.
ghost use Rattle.std.specs.Prelude.{◌≡◌, ◌∷◌, ◌++◌, OnOk, codes};
ghost use Rattle.std.specs.String.{string_bytes};
ghost use Rattle.frs_text.specs.Text.{words_at, event_words, event_line, ack_line};
ghost use Rattle.frs_text.specs.SpacedWords.{spaced_words};

use crate::line_lookup::line_of;
use crate::printed_words::{push_command, push_reply, push_word};
use frs_history::{Ack, Event, Script, What};
use frs_types::NoMemory;

// The command at that line of the client's script.
fn push_command_at(
    text: &mut String,
    scripts: &[Script],
    client: u32,
    number: u32,
) -> Result<(), NoMemory>
    ensures { OnOk result (string_bytes text.new
        ≡ string_bytes text.old ++ spaced_words (words_at scripts.now client number)) }
{
    match line_of(scripts, client, number) {
        Some(line) => push_command(text, &line.command),
        None => Ok(()),
    }
}

// What is said after the number of the line: the command, an arrow and the reply.
fn push_event_words(text: &mut String, scripts: &[Script], event: &Event) -> Result<(), NoMemory>
    ensures { let said = event_words scripts.now event.now.client event.now.line event.now.what in
        OnOk result (string_bytes text.new
        ≡ string_bytes text.old
        ++ (spaced_words said.0 ++ spaced_words (codes "->" ∷ said.1))) }
{
    match &event.what {
        What::Answered { reply } => {
            push_command_at(text, scripts, event.client, event.line)?;
            text.push_str(" ->")?;
            push_reply(text, reply)?;
        }
        What::Waits => {
            push_command_at(text, scripts, event.client, event.line)?;
            text.push_str(" -> waits")?;
        }
        What::Reappend { id, key } => {
            text.push_str(" reappend")?;
            push_word(text, id.bytes())?;
            push_word(text, key.bytes())?;
            text.push_str(" -> done")?;
        }
        What::End => text.push_str(" end -> abandoned")?,
    }
    Ok(())
}

/// The line of an event.
pub(crate) fn push_event(
    text: &mut String,
    scripts: &[Script],
    event: &Event,
) -> Result<(), NoMemory>
    ensures { OnOk result (string_bytes text.new
        ≡ string_bytes text.old ++ event_line scripts.now event.now) }
{
    write!(text, "{} {}", event.client, event.line)?;
    push_event_words(text, scripts, event)?;
    text.push_str("\n")?;
    Ok(())
}

/// The line of an acknowledgement.
pub(crate) fn push_ack(text: &mut String, ack: &Ack) -> Result<(), NoMemory>
    ensures { OnOk result (string_bytes text.new ≡ string_bytes text.old ++ ack_line ack.now) }
{
    write!(text, "durable {} {}\n", ack.client, ack.line)?;
    Ok(())
}
