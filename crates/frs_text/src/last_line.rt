//! The last line of a text, and the lines that refuse: the one table of their words.
ghost use Rattle.std.specs.Prelude.{◌≡◌, ◌++◌, IsTrue, OnOk};
ghost use Rattle.std.specs.String.{string_bytes};
ghost use Rattle.frs_disk.specs.Disk.{HasCause};
ghost use Rattle.frs_text.specs.Sinks.{WritesAll, WritesPart};
ghost use Rattle.frs_text.specs.LastLines.{last_line};

use frs_disk::{Fault, Sink};
use frs_types::NoMemory;
use std::alloc::Global;

/// What the last line of a text says: how a run ended, or what was refused. Scripts and files are numbered from 1, as
/// the clients are, and lines from 1.
#[derive(Clone, Copy, Debug, PartialEq, Eq)]
pub enum LastLine {
    /// `closed`: all was done.
    Closed,
    /// `stopped disk`: the disk has failed.
    DiskStop,
    /// `stopped shelf`: the shelf of snapshots has failed.
    ShelfStop,
    /// `stopped limit`: a number would be above its limit.
    LimitStop,
    /// `stopped memory`: there was no memory.
    MemoryStop,
    /// `script K line N bad`: the line is no command.
    BadScriptLine {
        /// The number of the script.
        script: u32,
        /// The number of the line.
        line: u32,
    },
    /// `script K line N long`: a word of the line is above its limit.
    LongScriptLine {
        /// The number of the script.
        script: u32,
        /// The number of the line.
        line: u32,
    },
    /// `script K line N limit`: the line has one command more than a script may have.
    ScriptLineLimit {
        /// The number of the script.
        script: u32,
        /// The number of the line.
        line: u32,
    },
    /// `file K unread`: the file wasn't read.
    UnreadFile {
        /// The number of the file.
        file: u32,
    },
    /// `limit clients N`: there are more clients than a run may have.
    ClientLimit {
        /// How many there are.
        clients: u64,
    },
    /// `later`: it can't be done yet.
    Later,
    /// `segment S offset O header`: a field of a segment's header is wrong.
    WrongHeader {
        /// The number of the segment.
        segment: u64,
        /// Where in the segment the field begins, in bytes.
        offset: u64,
    },
    /// `segment S offset O chunk`: the bytes behind an open gate are no chunk.
    WrongChunk {
        /// The number of the segment.
        segment: u64,
        /// Where in the segment that gate stands, in bytes.
        offset: u64,
    },
    /// `gap expected E found F`: records are missed.
    MissingRecord {
        /// The LSN of the record that should stand before those that are there.
        expected: u64,
        /// The LSN of the last record below them, or 0 where there is none.
        found: u64,
    },
}

// The line, added at the end of a text. Where memory runs out a part of it may have been added.
fn push_last_line(text: &mut String, last: LastLine) -> Result<(), NoMemory>
    ensures { OnOk result (string_bytes text.new ≡ string_bytes text.old ++ last_line last) }
{
    match last {
        LastLine::Closed => text.push_str("closed\n")?,
        LastLine::DiskStop => text.push_str("stopped disk\n")?,
        LastLine::ShelfStop => text.push_str("stopped shelf\n")?,
        LastLine::LimitStop => text.push_str("stopped limit\n")?,
        LastLine::MemoryStop => text.push_str("stopped memory\n")?,
        LastLine::BadScriptLine { script, line } => {
            write!(text, "script {script} line {line} bad\n")?
        }
        LastLine::LongScriptLine { script, line } => {
            write!(text, "script {script} line {line} long\n")?
        }
        LastLine::ScriptLineLimit { script, line } => {
            write!(text, "script {script} line {line} limit\n")?
        }
        LastLine::UnreadFile { file } => write!(text, "file {file} unread\n")?,
        LastLine::ClientLimit { clients } => write!(text, "limit clients {clients}\n")?,
        LastLine::Later => text.push_str("later\n")?,
        LastLine::WrongHeader { segment, offset } => {
            write!(text, "segment {segment} offset {offset} header\n")?
        }
        LastLine::WrongChunk { segment, offset } => {
            write!(text, "segment {segment} offset {offset} chunk\n")?
        }
        LastLine::MissingRecord { expected, found } => {
            write!(text, "gap expected {expected} found {found}\n")?
        }
    }
    Ok(())
}

/// Writes the line. A fault of the sink, or want of memory, leaves a front of it written.
pub fn write_last_line<S: Sink>(alloc: Global, last: LastLine, sink: &mut S) -> Result<(), Fault>
    ensures all { OnOk result (WritesAll S.Sink (last_line last) sink.old sink.new) }
    ensures part { WritesPart S.Sink (last_line last) sink.old sink.new }
    ensures told { S.tells sink.new ≡ S.tells sink.old }
    ensures cause { HasCause (S.faults sink.old) (S.faults sink.new) result }
{
    let mut text = String::new(alloc);
    push_last_line(&mut text, last)?;
    sink.write(text.as_bytes())
}
