//! The texts of why a store isn't read back.
use crate::RecoverFault;
use std::test::Fail;

// The text of each fault.
const TEXTS: [(RecoverFault, &str); 6] = [
    (
        RecoverFault::BadHeader {
            segment: 3,
            offset: 14,
        },
        "the header of segment 3 is wrong at offset 14",
    ),
    (
        RecoverFault::BadChunk {
            segment: 3,
            offset: 64,
        },
        "segment 3 has no chunk behind the gate at offset 64",
    ),
    (
        RecoverFault::Gap {
            expected: 6,
            found: 3,
        },
        "the record 6 is missing, and the last before it is 3",
    ),
    (
        RecoverFault::NumberLimit { lsn: 7 },
        "the LSN 7 is too large",
    ),
    (RecoverFault::Disk, "the disk has failed"),
    (RecoverFault::Memory, "out of memory"),
];

#[test]
fn texts_of_faults(rt: HostRuntime) -> Result<(), Fail> {
    for (fault, text) in &TEXTS {
        let told = format!(in rt.alloc(); "{fault}")?;
        assert_eq!(rt; told.as_str(), *text);
    }
    Ok(())
}
