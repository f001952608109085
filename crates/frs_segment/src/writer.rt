//! How a segment file is made, and how a chunk is written behind its gate.
ghost use Rattle.std.specs.Prelude.{◌≡◌, ◌+◌, ◌<◌, ◌≤◌, ◌^◌, [], ◌∷◌, Some, length, take, slice_set, IsTrue, IsSomeAnd, OnOk};
ghost use Rattle.std.specs.FinMap.{get};
ghost use Rattle.frs_disk.specs.Disk.{Image, bytes_at, bytes_after_write, IsNumber, OnFile, Torn, HasCause};
ghost use Rattle.frs_disk.specs.Frames.{IsThere, CanBeMade, IsSynced, Within, ChangesOneFile};
ghost use Rattle.frs_segment.specs.Front.{empty_segment, IsAbsentOrShort, IsInTheMaking, HasAnyGate};

use crate::format::header;
use frs_disk::{Disk, Fault};

/// Makes a segment without a chunk: a file that holds a closed gate, then its header, and then the gate is opened.
///
/// Its 23 bytes are the open gate 1, the four letters `FRSS`, the version 1, the file's number and the first LSN, each
/// in eight bytes from the highest on, and the closed gate 0 of the first chunk. The number and the LSN are from 1 to
/// 2^62 - 1; the file isn't there, and no removal of it is pending.
///
/// After Ok the whole file is durable. `Failed` and `Memory` leave no file, a half-made one or the whole segment, and
/// so does a crash in the call.
pub fn open_segment<D: Disk>(disk: &mut D, number: u64, first: u64) -> Result<(), Fault>
    requires in_range { IsNumber number }
    requires first { IsNumber first }
    requires new { CanBeMade D.Disk disk.old number }

    ensures made { OnOk result (IsTrue (D.tells disk.old)
        → get (D.reads disk.new) number ≡ Some (empty_segment number first)) }
    ensures durable { OnOk result (IsSynced D.Disk disk.new number) }

    // A crash in the call leaves no file, a half-made one or the whole empty segment.
    ensures images { IsTrue (D.tells disk.old)
        → Within D.Disk disk.old disk.new (λ c. IsInTheMaking number first (get c number)) }

    ensures frame { ChangesOneFile D.Disk number disk.old disk.new }
    ensures cause { HasCause (D.faults disk.old) (D.faults disk.new) result }
{
    create_closed(disk, number)?;
    put_body(disk, number, 0, &header(number, first))?;
    open_gate(disk, number, 0)
}

/// Writes the bytes behind a closed gate, which stands at that offset in the file, over what is there and past the
/// file's end. They are a chunk's head and body and the closed gate of the next chunk; the gate before them stays
/// closed.
///
/// After Ok the file is durable. `Failed` and `Memory` leave any bytes behind the gate, and so does a crash in the
/// call.
pub fn put_body<D: Disk>(disk: &mut D, number: u64, gate_at: u64, body: &[u8]) -> Result<(), Fault>
    requires gate { IsTrue (D.tells disk.old)
        → gate_at < length (bytes_at (D.reads disk.old) number) }
    requires fits { gate_at + 1 < 2 ^ 64 }

    ensures written { OnOk result (IsTrue (D.tells disk.old) → get (D.reads disk.new) number
        ≡ Some (bytes_after_write (gate_at + 1) body.now (bytes_at (D.reads disk.old) number))) }
    ensures durable { OnOk result (IsSynced D.Disk disk.new number) }

    // A crash in the call leaves all bytes up to the gate and the gate as they were.
    ensures images { IsTrue (D.tells disk.old) → IsSynced D.Disk disk.old number
        → Within D.Disk disk.old disk.new (λ c. IsSomeAnd (get c number)
        (λ b. take (gate_at + 1) b ≡ take (gate_at + 1) (bytes_at (D.reads disk.old) number))) }

    ensures frame { ChangesOneFile D.Disk number disk.old disk.new }
    ensures cause { HasCause (D.faults disk.old) (D.faults disk.new) result }
{
    write_durably(disk, number, gate_at + 1, body)
}

/// Opens the gate at that offset in the file: the byte there is 1 from then on, and what stands behind it counts.
///
/// After Ok the file is durable. `Failed` and `Memory` leave any byte at the gate, and so does a crash in the call; all
/// others stay.
pub fn open_gate<D: Disk>(disk: &mut D, number: u64, gate_at: u64) -> Result<(), Fault>
    requires { IsTrue (D.tells disk.old) → gate_at < length (bytes_at (D.reads disk.old) number) }

    ensures opened { OnOk result (IsTrue (D.tells disk.old) → get (D.reads disk.new) number
        ≡ Some (slice_set (bytes_at (D.reads disk.old) number) gate_at 1)) }
    ensures durable { OnOk result (IsSynced D.Disk disk.new number) }

    // A crash in the call leaves any byte at the gate, and the others as they were.
    ensures images { IsTrue (D.tells disk.old) → IsSynced D.Disk disk.old number
        → Within D.Disk disk.old disk.new
        (λ c. HasAnyGate gate_at (bytes_at (D.reads disk.old) number) (get c number)) }

    ensures frame { ChangesOneFile D.Disk number disk.old disk.new }
    ensures cause { HasCause (D.faults disk.old) (D.faults disk.new) result }
{
    write_durably(disk, number, gate_at, &[1])
}

// Makes a file that holds a closed gate.
fn create_closed<D: Disk>(disk: &mut D, number: u64) -> Result<(), Fault>
    requires in_range { IsNumber number }
    requires new { CanBeMade D.Disk disk.old number }

    ensures made { OnOk result (IsTrue (D.tells disk.old)
        → get (D.reads disk.new) number ≡ Some (0 ∷ [])) }
    ensures durable { OnOk result (IsSynced D.Disk disk.new number) }
    ensures images { IsTrue (D.tells disk.old)
        → Within D.Disk disk.old disk.new (λ c. IsAbsentOrShort (get c number)) }

    ensures frame { ChangesOneFile D.Disk number disk.old disk.new }
    ensures cause { HasCause (D.faults disk.old) (D.faults disk.new) result }
{
    disk.create(number)?;
    write_durably(disk, number, 0, &[0])
}

// Writes over the bytes of a file and past its end, and makes the file durable.
fn write_durably<D: Disk>(disk: &mut D, number: u64, at: u64, bytes: &[u8]) -> Result<(), Fault>
    requires there { IsThere D.Disk disk.old number }
    requires within { IsTrue (D.tells disk.old) → at ≤ length (bytes_at (D.reads disk.old) number) }

    ensures written { OnOk result (IsTrue (D.tells disk.old) → get (D.reads disk.new) number
        ≡ Some (bytes_after_write at bytes.now (bytes_at (D.reads disk.old) number))) }
    ensures durable { OnOk result (IsSynced D.Disk disk.new number) }

    // A crash in the call leaves the file as one before it, but for what a torn write leaves in the range.
    ensures images { Within D.Disk disk.old disk.new (λ c. (d : Image) × D.may_leave disk.old d
        × OnFile (Torn at (length bytes.now)) (get d number) (get c number)) }

    ensures frame { ChangesOneFile D.Disk number disk.old disk.new }
    ensures cause { HasCause (D.faults disk.old) (D.faults disk.new) result }
{
    disk.write(number, at, bytes)?;
    disk.sync(number)
}
