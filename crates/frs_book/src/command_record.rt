//! The record of a command, framed before it is known what the command is answered.
ghost use Rattle.std.specs.Prelude.{◌≡◌, IfOk, option_copied};
ghost use Rattle.frs_book.specs.Books.{prepared_bytes};

use frs_frame::{Framed, encode_delete, encode_payload, encode_put, encode_remove};
use frs_history::Command;
use frs_types::{Action, NoMemory};
use std::alloc::Global;

/// The bytes of the record that the command draws where it is done, with transaction, lowest and named 0. Of a `Get`, a
/// `Snapshot` and the end of a script, which draw no record of their own, those of an abandon record. The words are
/// copied once.
pub fn prepare(alloc: Global, command: Option<&Command>) -> Result<Framed, NoMemory>
    ensures { IfOk result (λ framed. framed ≡ prepared_bytes (option_copied command.entry)) }
{
    let Some(command) = command else {
        return encode_payload(alloc, &Action::Abandon);
    };
    match command {
        Command::Begin { .. } => encode_payload(alloc, &Action::Begin),
        Command::Put { id, key, value } => encode_put(alloc, id, key, value),
        Command::Remove { id, key } => encode_remove(alloc, id, key),
        Command::Delete { id } => encode_delete(alloc, id),
        Command::Commit => encode_payload(alloc, &Action::Commit),
        Command::Get { .. } | Command::Snapshot => encode_payload(alloc, &Action::Abandon),
    }
}
