//! The seven numbers of a store as it was read back, a line for each.
ghost use Rattle.std.specs.Prelude.{◌≡◌, List, ◌≤◌, ◌++◌, length, sum_by, OnOk, IfOk, IsTrue};
ghost use Rattle.std.specs.String.{string_bytes};
ghost use Rattle.frs_types.specs.Records.{Log};
ghost use Rattle.frs_segment.specs.declared.layout.Segment.{Segment};
ghost use Rattle.frs_segment.specs.Segments.{FileList, WholeSegment};
ghost use Rattle.frs_recovery.specs.declared.recovered.Recovered.{Recovered};
ghost use Rattle.frs_recovery.specs.Answers.{IsRecovered};
ghost use Rattle.frs_disk.specs.Disk.{HasCause};
ghost use Rattle.frs_text.specs.Sinks.{WritesAll, WritesPart};
ghost use Rattle.frs_text.specs.Text as text_of;
ghost use Rattle.frs_text.specs.Text.{stat_of, stat_found};

use frs_disk::{Fault, Sink};
use frs_recovery::Recovered;
use frs_segment::Segment;
use frs_types::NoMemory;
use std::alloc::Global;

// How many chunks the segments have. A number of 128 bits holds any sum of so many lengths.
fn chunks_of(segments: &[Segment]) -> u128
    ensures { result ≡ sum_by (λ (s : Segment). length s.chunks) segments.now }
{
    let mut chunks = 0;
    for segment in segments {
        chunks += segment.chunks.items().len() as u128;
    }
    chunks
}

// The lines of the numbers.
fn numbers(alloc: Global, recovered: &Recovered) -> Result<String, NoMemory>
    requires lowest { recovered.now.lowest ≤ recovered.now.found.next }
    requires named { recovered.now.found.named ≤ recovered.now.found.next }
    ensures { IfOk result (λ text. string_bytes text
        ≡ text_of.stat_text (stat_found recovered.now)) }
{
    let found = &recovered.found;
    let segments = found.segments.items();
    let mut text = String::new(alloc);
    write!(text, "segments {}\n", segments.len())?;
    write!(text, "chunks {}\n", chunks_of(segments))?;
    write!(text, "records {}\n", found.next - found.named)?;
    write!(text, "next {}\n", found.next)?;
    write!(text, "lowest {}\n", recovered.lowest)?;
    write!(text, "live {}\n", recovered.entries.items().len())?;
    write!(text, "gap {}\n", found.next - recovered.lowest)?;
    Ok(text)
}

/// Writes how many segments were looked at, how many chunks these have, how many records stand from the lowest that
/// the newest of them names, the LSN that the next record gets, the lowest that is needed, how many entries the maps
/// have, and how far the lowest is below the next: seven lines, each with a name and a number. Neither the lowest nor
/// the named one may be above the next LSN. A fault of the sink, or want of memory, leaves a front of that text
/// written.
pub fn stat_text<S: Sink>(alloc: Global, recovered: &Recovered, sink: &mut S) -> Result<(), Fault>
    requires lowest { recovered.now.lowest ≤ recovered.now.found.next }
    requires named { recovered.now.found.named ≤ recovered.now.found.next }
    ensures all { OnOk result (WritesAll S.Sink (text_of.stat_text (stat_found recovered.now))
        sink.old sink.new) }
    ensures part { WritesPart S.Sink (text_of.stat_text (stat_found recovered.now))
        sink.old sink.new }
    ensures told { S.tells sink.new ≡ S.tells sink.old }
    ensures cause { HasCause (S.faults sink.old) (S.faults sink.new) result }
{
    let text = numbers(alloc, recovered)?;
    sink.write(text.as_bytes())
}

/// The numbers of a store as it was read back are those of the log that its files spell.
pub fn stat_of_store()
    ensures { (image : FileList) (segments : List WholeSegment) (log : Log) (r : Recovered)
        → IsRecovered image segments log r → stat_found r ≡ stat_of segments log }
{}
