//! Texts that are gathered, and written to a sink in pieces of some size.
ghost use Rattle.std.specs.Prelude.{◌≡◌, [], OnOk, IsTrue};
ghost use Rattle.std.specs.String.{string_bytes};
ghost use Rattle.frs_disk.specs.Disk.{HasCause};
ghost use Rattle.frs_text.specs.Sinks.{GathersOnto, WritesPart};

use frs_disk::{Fault, Sink};

/// So many bytes are gathered before they are written.
const PIECE: usize = 65_536;

// Hands what is gathered to the sink.
pub(crate) fn write_gathered<S: Sink>(text: &mut String, sink: &mut S) -> Result<(), Fault>
    ensures all { OnOk result (GathersOnto S.Sink sink.old (string_bytes text.old)
        sink.new (string_bytes text.new) []) }
    ensures part { WritesPart S.Sink (string_bytes text.old) sink.old sink.new }
    ensures told { S.tells sink.new ≡ S.tells sink.old }
    ensures cause { HasCause (S.faults sink.old) (S.faults sink.new) result }
    ensures empty { OnOk result (string_bytes text.new ≡ []) }
{
    if text.is_empty() {
        return Ok(());
    }
    sink.write(text.as_bytes())?;
    text.clear();
    Ok(())
}

// Hands what is gathered to the sink, where it is enough for a piece.
pub(crate) fn write_full<S: Sink>(text: &mut String, sink: &mut S) -> Result<(), Fault>
    ensures all { OnOk result (GathersOnto S.Sink sink.old (string_bytes text.old)
        sink.new (string_bytes text.new) []) }
    ensures part { WritesPart S.Sink (string_bytes text.old) sink.old sink.new }
    ensures told { S.tells sink.new ≡ S.tells sink.old }
    ensures cause { HasCause (S.faults sink.old) (S.faults sink.new) result }
{
    if text.len() < PIECE {
        return Ok(());
    }
    write_gathered(text, sink)
}
