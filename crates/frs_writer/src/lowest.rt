// What a record names as the lowest LSN that is still needed.
ghost use Rattle.std.specs.Prelude.{◌≡◌, ◌<◌, ◌≤◌, ◌^◌, length};
ghost use Rattle.frs_types.specs.declared.record.Record.{Record};
ghost use Rattle.frs_frame.specs.Spelling.{spelling};
ghost use Rattle.frs_writer.specs.Groups.{lowest_in};

use frs_frame::RECORD_HEAD;

// Where a record's bytes name it.
const LOWEST_AT: usize = 9;

/// The lowest LSN that the bytes of a record name.
pub(crate) fn lowest_in(bytes: &[u8]) -> u64
    requires { RECORD_HEAD ≤ length bytes.now }
    ensures { result ≡ lowest_in bytes.now }
{
    let mut number = [0; 8];
    number.copy_from_slice(&bytes[LOWEST_AT..LOWEST_AT + 8]);
    u64::from_be_bytes(number)
}

/// The lowest LSN that the bytes of a record name is the one that the record names.
pub fn lowest_is_named()
    ensures { (r : Record) → r.lowest < 2 ^ 64 → lowest_in (spelling r) ≡ r.lowest }
{}
