//! The entries of the maps, a line for each, written to a sink in pieces of some size.
ghost use Rattle.std.specs.Prelude.{◌≡◌, ◌++◌, ◌∷◌, [], map, flat_map, OnOk, IfOk, IsTrue};
ghost use Rattle.std.specs.Borrow.{Bor};
ghost use Rattle.std.specs.List.{IsDistinct};
ghost use Rattle.frs_types.specs.declared.record.Entry.{Entry};
ghost use Rattle.std.specs.String.{string_bytes};
ghost use Rattle.frs_types.specs.Maps.{place_cmp, same_place};
ghost use Rattle.frs_types.specs.Survivors.{maps_of};
ghost use Rattle.frs_disk.specs.Disk.{HasCause};
ghost use Rattle.frs_recovery.specs.Answers.{place_of_entry};
ghost use Rattle.frs_text.specs.Rows.{pair_of, pairs_of, row_line};
ghost use Rattle.frs_text.specs.Sinks.{GathersOnto, WritesAll, WritesPart};
ghost use Rattle.frs_text.specs.Text as text_of;
ghost use Rattle.frs_text.specs.Text.{entry_line};

use crate::printed_words::{push_shown, push_word};
use crate::sink_buffer::{write_full, write_gathered};
use frs_disk::{Fault, Sink};
use frs_types::{Entry, NoMemory};
use std::alloc::Global;
use std::cmp::Ordering;

// By the bytes of the id, and then by those of the key.
fn by_place(a: &Entry, b: &Entry) -> Ordering
    ensures { result ≡ place_cmp (place_of_entry a.now) (place_of_entry b.now) }
{
    a.id.bytes()
        .cmp(b.id.bytes())
        .then(a.key.bytes().cmp(b.key.bytes()))
}

// The entries, referred to.
fn references(alloc: Global, entries: &[Entry]) -> Result<Vec<&Entry>, NoMemory>
    ensures { IfOk result (λ rows. map (λ (r : Bor Entry). r.now) rows.items ≡ entries.now) }
{
    Ok(entries.iter().collect(alloc)?)
}

// The entries in the order of their places.
fn in_order(alloc: Global, entries: &[Entry]) -> Result<Vec<&Entry>, NoMemory>
    requires { IsDistinct same_place (map place_of_entry entries.now) }
    ensures pairs { IfOk result (λ rows. pairs_of rows.items ≡ maps_of entries.now) }
    ensures lines { IfOk result (λ rows. flat_map row_line rows.items
        ≡ text_of.dump (maps_of entries.now)) }
{
    let mut rows = references(alloc, entries)?;
    rows.sort_unstable_by(|a, b| by_place(a, b));
    Ok(rows)
}

fn push_entry(text: &mut String, entry: &Entry) -> Result<(), NoMemory>
    ensures { OnOk result (string_bytes text.new
        ≡ string_bytes text.old ++ entry_line (pair_of entry.now)) }
{
    push_shown(text, entry.id.bytes())?;
    push_word(text, entry.key.bytes())?;
    push_word(text, entry.value.bytes())?;
    text.push('\n')?;
    Ok(())
}

fn write_entry<S: Sink>(text: &mut String, entry: &Entry, sink: &mut S) -> Result<(), Fault>
    ensures all { OnOk result (GathersOnto S.Sink sink.old (string_bytes text.old)
        sink.new (string_bytes text.new) (entry_line (pair_of entry.now))) }
    ensures part { WritesPart S.Sink (string_bytes text.old ++ entry_line (pair_of entry.now))
        sink.old sink.new }
    ensures told { S.tells sink.new ≡ S.tells sink.old }
    ensures cause { HasCause (S.faults sink.old) (S.faults sink.new) result }
{
    push_entry(text, entry)?;
    write_full(text, sink)
}

fn write_entries<S: Sink>(text: &mut String, rows: &[&Entry], sink: &mut S) -> Result<(), Fault>
    ensures all { OnOk result (GathersOnto S.Sink sink.old (string_bytes text.old)
        sink.new (string_bytes text.new) (flat_map row_line rows.now)) }
    ensures part { WritesPart S.Sink (string_bytes text.old ++ flat_map row_line rows.now)
        sink.old sink.new }
    ensures told { S.tells sink.new ≡ S.tells sink.old }
    ensures cause { HasCause (S.faults sink.old) (S.faults sink.new) result }
{
    for row in rows {
        write_entry(text, row, sink)?;
    }
    Ok(())
}

// All of the lines.
fn write_rows<S: Sink>(alloc: Global, rows: &[&Entry], sink: &mut S) -> Result<(), Fault>
    ensures all { OnOk result (WritesAll S.Sink (flat_map row_line rows.now) sink.old sink.new) }
    ensures part { WritesPart S.Sink (flat_map row_line rows.now) sink.old sink.new }
    ensures told { S.tells sink.new ≡ S.tells sink.old }
    ensures cause { HasCause (S.faults sink.old) (S.faults sink.new) result }
{
    let mut text = String::new(alloc);
    write_entries(&mut text, rows, sink)?;
    write_gathered(&mut text, sink)
}

/// Writes a line `ID KEY VALUE` for each of the entries, in the byte order of id and then key. No two of the entries
/// may have the same id and key. A fault of the sink, or want of memory, leaves a front of that text written.
pub fn dump<S: Sink>(alloc: Global, entries: &[Entry], sink: &mut S) -> Result<(), Fault>
    requires { IsDistinct same_place (map place_of_entry entries.now) }
    ensures all { OnOk result (WritesAll S.Sink (text_of.dump (maps_of entries.now))
        sink.old sink.new) }
    ensures part { WritesPart S.Sink (text_of.dump (maps_of entries.now)) sink.old sink.new }
    ensures told { S.tells sink.new ≡ S.tells sink.old }
    ensures cause { HasCause (S.faults sink.old) (S.faults sink.new) result }
{
    let rows = in_order(alloc, entries)?;
    write_rows(alloc, rows.as_slice(), sink)
}
