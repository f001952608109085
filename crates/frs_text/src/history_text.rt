//! The transcript of a history, written to a sink in pieces of some size.
ghost use Rattle.std.specs.Prelude.{◌≡◌, ℕ, List, [], ◌++◌, OnOk, IsTrue, flat_map};
ghost use Rattle.std.specs.String.{string_bytes};
ghost use Rattle.frs_disk.specs.Disk.{HasCause};
ghost use Rattle.frs_text.specs.Sinks.{GathersOnto, WritesAll, WritesPart};
ghost use Rattle.frs_text.specs.Text.{event_line, ack_line, history_text};

use crate::sink_buffer::{write_full, write_gathered};
use crate::transcript_lines::{push_ack, push_event};
use frs_disk::{Fault, Sink};
use frs_history::{Ack, Event, Script};
use std::alloc::Global;

fn write_event<S: Sink>(
    text: &mut String,
    scripts: &[Script],
    event: &Event,
    sink: &mut S,
) -> Result<(), Fault>
    ensures all { OnOk result (GathersOnto S.Sink sink.old (string_bytes text.old)
        sink.new (string_bytes text.new) (event_line scripts.now event.now)) }
    ensures part { WritesPart S.Sink (string_bytes text.old ++ event_line scripts.now event.now)
        sink.old sink.new }
    ensures told { S.tells sink.new ≡ S.tells sink.old }
    ensures cause { HasCause (S.faults sink.old) (S.faults sink.new) result }
{
    push_event(text, scripts, event)?;
    write_full(text, sink)
}

fn write_ack<S: Sink>(text: &mut String, ack: &Ack, sink: &mut S) -> Result<(), Fault>
    ensures all { OnOk result (GathersOnto S.Sink sink.old (string_bytes text.old)
        sink.new (string_bytes text.new) (ack_line ack.now)) }
    ensures part { WritesPart S.Sink (string_bytes text.old ++ ack_line ack.now) sink.old sink.new }
    ensures told { S.tells sink.new ≡ S.tells sink.old }
    ensures cause { HasCause (S.faults sink.old) (S.faults sink.new) result }
{
    push_ack(text, ack)?;
    write_full(text, sink)
}

fn write_events<S: Sink>(
    text: &mut String,
    scripts: &[Script],
    events: &[Event],
    sink: &mut S,
) -> Result<(), Fault>
    ensures all { OnOk result (GathersOnto S.Sink sink.old (string_bytes text.old)
        sink.new (string_bytes text.new) (flat_map (event_line scripts.now) events.now)) }
    ensures part { WritesPart S.Sink
        (string_bytes text.old ++ flat_map (event_line scripts.now) events.now) sink.old sink.new }
    ensures told { S.tells sink.new ≡ S.tells sink.old }
    ensures cause { HasCause (S.faults sink.old) (S.faults sink.new) result }
{
    for event in events {
        write_event(text, scripts, event, sink)?;
    }
    Ok(())
}

fn write_acks<S: Sink>(text: &mut String, acks: &[Ack], sink: &mut S) -> Result<(), Fault>
    ensures all { OnOk result (GathersOnto S.Sink sink.old (string_bytes text.old)
        sink.new (string_bytes text.new) (flat_map ack_line acks.now)) }
    ensures part { WritesPart S.Sink (string_bytes text.old ++ flat_map ack_line acks.now)
        sink.old sink.new }
    ensures told { S.tells sink.new ≡ S.tells sink.old }
    ensures cause { HasCause (S.faults sink.old) (S.faults sink.new) result }
{
    for ack in acks {
        write_ack(text, ack, sink)?;
    }
    Ok(())
}

/// Writes the lines of the events, in order, and then a line for each acknowledgement. The scripts are those of clients
/// 1, 2, .. An answered or waiting event stands at a line of its client's script; of one that doesn't, no command is
/// printed. A fault of the sink, or want of memory, leaves a front of that text written.
pub fn transcript<S: Sink>(
    alloc: Global,
    scripts: &[Script],
    events: &[Event],
    acks: &[Ack],
    sink: &mut S,
) -> Result<(), Fault>
    ensures all { OnOk result (WritesAll S.Sink (history_text scripts.now events.now acks.now)
        sink.old sink.new) }
    ensures part { WritesPart S.Sink (history_text scripts.now events.now acks.now)
        sink.old sink.new }
    ensures told { S.tells sink.new ≡ S.tells sink.old }
    ensures cause { HasCause (S.faults sink.old) (S.faults sink.new) result }
{
    let mut text = String::new(alloc);
    write_events(&mut text, scripts, events, sink)?;
    write_acks(&mut text, acks, sink)?;
    write_gathered(&mut text, sink)
}
