//! What an error of the system is answered: a fault, which is counted, or want of memory.
ghost use Rattle.std.specs.Prelude.{◌≡◌, Ok, IfOk};
ghost use Rattle.frs_disk.specs.Disk.{HasCause};

use frs_disk::Fault;
use std::io;
use std::io::ErrorKind;

/// Gives the value on, or counts the fault. Want of memory isn't counted.
pub fn answer<T>(faults: &mut u64, found: io::Result<T>) -> Result<T, Fault>
    ensures value { IfOk result (λ value. found ≡ Ok value) }
    ensures given { IfOk found (λ value. result ≡ Ok value) }
    ensures cause { HasCause faults.old faults.new result }
{
    match found {
        Ok(value) => Ok(value),
        Err(e) if e.kind() == ErrorKind::OutOfMemory => Err(Fault::Memory),
        Err(_) => {
            *faults = faults.saturating_add(1);
            Err(Fault::Failed)
        }
    }
}
