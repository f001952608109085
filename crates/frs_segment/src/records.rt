//! The records of a chunk: they fill its body, and each may stand at its LSN.
ghost use Rattle.std.specs.Prelude.{◌≡◌, ◌+◌, ◌<◌, ◌≤◌, ◌^◌, IfOk, IfErr, IsTrue};
ghost use Rattle.frs_types.specs.Records.{is_allowed, well_formed};
ghost use Rattle.frs_segment.specs.Scanning.{FillBody, RefusesRecords, TellsRecord};

use crate::fault::ScanFault;
use crate::layout::ChunkPlace;
use frs_frame::{FrameFault, decode};
use frs_types::{Action, NUMBER_LIMIT, NoMemory, Record};
use std::alloc::Global;

// The records that the place tells, which fill these bytes exactly.
pub(crate) fn records_of(
    alloc: Global,
    body: &[u8],
    place: &ChunkPlace,
) -> Result<Vec<Record>, ScanFault>
    requires { place.now.first + place.now.count ≤ NUMBER_LIMIT }
    ensures found { IfOk result (λ records. FillBody place.now body.now records.items) }
    ensures why { IfErr result (RefusesRecords place.now body.now) }
{
    let offset = place.offset;
    let first = place.first;
    let mut records = Vec::new(alloc);
    let mut rest = body;
    for i in 0..place.count {
        let Some((record, len)) = record_at(alloc, rest, first + u64::from(i))? else {
            return Err(ScanFault::BadChunk { offset });
        };
        records.push(record)?;
        let (_, behind) = rest.split_at(len);
        rest = behind;
    }
    if !rest.is_empty() {
        return Err(ScanFault::BadChunk { offset });
    }
    Ok(records)
}

// The record at the front that may have this LSN, and where it ends.
fn record_at(alloc: Global, bytes: &[u8], lsn: u64) -> Result<Option<(Record, usize)>, NoMemory>
    ensures { IfOk result (TellsRecord bytes.now lsn) }
{
    match decode(alloc, bytes) {
        Ok((record, len)) => {
            if !suits(&record, lsn) {
                return Ok(None);
            }
            Ok(Some((record, len as usize)))
        }
        Err(fault) => match fault {
            FrameFault::Memory => Err(NoMemory),
            _ => Ok(None),
        },
    }
}

// Whether a record may have this LSN: its numbers don't pass it, and only a begin is its own transaction.
fn suits(written: &Record, lsn: u64) -> bool
    requires { IsTrue (well_formed written.now) }
    ensures { result ≡ is_allowed lsn written.now }
{
    let transaction = match &written.action {
        Action::Begin => written.tx == lsn,
        _ => written.tx < lsn,
    };
    transaction && written.named < lsn && written.lowest <= lsn
}
