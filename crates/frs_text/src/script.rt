//! The script of a file.
ghost use Rattle.std.specs.Prelude.{◌<◌, ◌^◌, length};
ghost use Rattle.frs_text.specs.Scripts.{up_to, script_of, Parses};

use crate::script_builder::ScriptBuilder;
use crate::script_fault::ScriptFault;
use crate::word_split::first_line;
use frs_history::Script;
use std::alloc::Global;

/// The script that the bytes of a file spell, where it may have so many commands and so many snapshots. Else the first
/// line that is refused decides: `BadLine` where it is no command, `TooLong` where a word of it is too long, and
/// `TooMany` where one command less was allowed, looked at in this order. There are fewer than 2^32 bytes.
pub fn parse_script(
    alloc: Global,
    bytes: &[u8],
    lines: u32,
    snapshots: u32,
) -> Result<Script, ScriptFault>
    requires { length bytes.now < 2 ^ 32 }
    ensures { Parses result (script_of (up_to lines snapshots) bytes.now) }
{
    let mut draft = ScriptBuilder::new(alloc);
    let mut rest = bytes;
    let mut number = 0;
    while !rest.is_empty() {
        let (line, behind) = first_line(rest);
        number += 1;
        draft.read(alloc, lines, snapshots, number, line)?;
        rest = behind;
    }
    Ok(Script::of(draft.into_lines()))
}
