//! What is prepared for each command.
use super::*;
use frs_history::Command;
use frs_types::{Key, MapId, Value};
use std::test::Fail;

// The kind and the length of what is prepared for a command.
fn kind_and_length(rt: &HostRuntime, command: Option<&Command>) -> Result<(u8, usize), Fail> {
    let framed = prepare(rt.alloc(), command)?;
    Ok((framed.bytes()[0], framed.bytes().len()))
}

#[test]
fn each_command_has_its_record(rt: HostRuntime) -> Result<(), Fail> {
    let alloc = rt.alloc();
    let put = Command::Put {
        id: MapId::new(alloc, b"m")?,
        key: Key::new(alloc, b"k")?,
        value: Value::new(alloc, b"v")?,
    };
    let remove = Command::Remove {
        id: MapId::new(alloc, b"m")?,
        key: Key::new(alloc, b"k")?,
    };
    let get = Command::Get {
        id: MapId::new(alloc, b"m")?,
        key: Key::new(alloc, b"k")?,
    };
    let delete = Command::Delete {
        id: MapId::new(alloc, b"m")?,
    };
    assert_eq!(rt; kind_and_length(&rt, Some(&put))?, (1, 32));
    assert_eq!(rt; kind_and_length(&rt, Some(&remove))?, (2, 29));
    assert_eq!(rt; kind_and_length(&rt, Some(&delete))?, (3, 27));
    assert_eq!(rt;
        kind_and_length(&rt, Some(&Command::Begin { sync: true }))?,
        (4, 25)
    );
    assert_eq!(rt; kind_and_length(&rt, Some(&Command::Commit))?, (5, 25));
    assert_eq!(rt; kind_and_length(&rt, Some(&get))?, (8, 25));
    assert_eq!(rt; kind_and_length(&rt, Some(&Command::Snapshot))?, (8, 25));
    assert_eq!(rt; kind_and_length(&rt, None)?, (8, 25));
    Ok(())
}
